// The share of a round, and of an entry of a list of sites: nothing else divides the number of streets.
#![tactic(auto)]

ghost use Rattle.std.specs.Prelude.{◌≡◌, ◌≤◌, ◌<◌};
ghost use Rattle.shares.specs.Rounds.{least_share, larger_shares, round_share};

// What each of k rounds deals at the least.
pub fn least(n: usize, k: usize) -> usize
    requires { 0 < k }
    ensures { (result ≡ least_share n k) × (result ≤ n) }
{
    n / k
}

// How many rounds, the first ones, deal one street more.
pub fn larger(n: usize, k: usize) -> usize
    requires { 0 < k }
    ensures { (result ≡ larger_shares n k) × (result < k) }
{
    n % k
}

// The share of the round i.
pub fn of_round(n: usize, k: usize, i: usize) -> usize
    requires { 0 < k }
    ensures { (result ≡ round_share n k i) × (result ≤ n) }
{
    let q = least(n, k);
    if i < larger(n, k) {
        return q + 1;
    }
    q
}
