// The loops of the search besides its layers: the site that was raised highest, and the total.
ghost use Rattle.std.specs.Prelude.{◌≡◌, ℕ, ◌+◌, ◌<◌, length, IfSome};
ghost use Rattle.counting.specs.Lists.{at};
ghost use Rattle.division.specs.Shares.{division_total};
ghost use Rattle.pairs.specs.BestMoves.{Fits, value_of};
ghost use Rattle.chains.specs.Chains.{Raised};

use pairs::Problem;

// The higher of the best raised site so far and one site more.
fn higher(prices: &[u32], via: &[u16], n: usize, top: Option<usize>, b: usize) -> Option<usize>
    requires via_len { (length via.now ≡ length prices.now) × (b < length prices.now) }
    requires raised { Raised (at via.now) n (length prices.now) b top }
    ensures { Raised (at via.now) n (length prices.now) (b + 1) result }
{
    if n <= usize::from(via[b]) {
        return top;
    }
    match top {
        Some(a) if prices[b] <= prices[a] => top,
        _ => Some(b),
    }
}

// Of the sites that a layer raised one of greatest price, if it raised one.
pub fn highest(prices: &[u32], via: &[u16], n: usize) -> Option<usize>
    requires { length via.now ≡ length prices.now }
    ensures { Raised (at via.now) n (length prices.now) (length prices.now) result }
{
    let mut top = None;
    for b in 0..prices.len() {
        top = higher(prices, via, n, top, b);
    }
    top
}

// The total of a division.
pub fn sum(problem: &Problem, division: &[u8]) -> u32
    requires { Fits problem.now division.now
        × ((s : ℕ) → s < length division.now → at division.now s < length problem.now.shares.now) }
    ensures { result ≡ division_total (value_of problem.now) division.now }
{
    let w = problem.shares.len();
    let mut total = 0;
    for (s, site) in division.iter().enumerate() {
        total += problem.values[s * w + usize::from(*site)];
    }
    total
}
