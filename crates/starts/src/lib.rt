// Shares from a list of sites, and a first division in given shares, from which a better one is then sought.
#![tactic(auto)]

ghost use Rattle.std.specs.Prelude.{◌≡◌, ℕ, ◌+◌, ◌<◌, length};
ghost use Rattle.counting.specs.Lists.{at};
ghost use Rattle.division.specs.Shares.{InShares, share_sum};
ghost use Rattle.division.specs.Problem.{Problem, tail};
ghost use Rattle.starts.specs.Given.{Unshared, Shared, Seen};

// Each listed site gets the share of the round with its number in the list; there are n streets and m sites.
pub fn share_out(n: usize, m: usize, sites: &[u8], shares: &mut [u16])
    requires { Unshared n m sites.now shares.old }
    ensures { Shared n m sites.now shares.new }
{
    for (i, site) in sites.iter().enumerate() {
        let a = usize::from(*site);
        shares[a] = shares::of_round(n, sites.len(), i) as u16;
    }
}

// The better of the best site so far and the site a, which must have a share left and be better to win.
fn better(best: Option<usize>, row: &[u32], left: &[u16], a: usize) -> Option<usize>
    requires row_len { (length row.now ≡ length left.now) × (a < length left.now) }
    requires seen { Seen left.now a best }
    ensures { Seen left.now (a + 1) result }
{
    if left[a] == 0 {
        return best;
    }
    match best {
        Some(b) if row[a] <= row[b] => best,
        _ => Some(a),
    }
}

// The site that a street gives most among those that have a share left, the lowest number of equals; none where no share is left.
fn best_left(row: &[u32], left: &[u16]) -> Option<usize>
    requires { length row.now ≡ length left.now }
    ensures { Seen left.now (length left.now) result }
{
    let mut best = None;
    for a in 0..left.len() {
        best = better(best, row, left, a);
    }
    best
}

// Each street in turn goes to the site that it gives most among those that have a share left, so that few streets are left to move.
pub fn begin(values: &[u32], shares: &[u16], left: &mut [u16], division: &mut [u8])
    requires problem { Problem values.now shares.now (length division.old) }
    requires shares_value { (share_sum (tail shares.now) ≡ length division.old) × (length left.old ≡ length shares.now) }
    ensures { InShares division.new (tail shares.now) }
{
    left.copy_from_slice(shares);
    let w = shares.len();
    for (s, site) in division.iter_mut().enumerate() {
        let from = s * w;
        let to = from + w;
        let a = best_left(&values[from..to], left).unwrap();
        left[a] -= 1;
        *site = a as u8;
    }
}
