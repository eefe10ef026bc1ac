// The choice that the rounds of both plans make: the unchosen site of greatest worth, the lowest number on a tie.
#![tactic(auto)]

ghost use Rattle.std.specs.Prelude.{◌≡◌, ℕ, ◌+◌, ◌≤◌, ◌<◌, ◌↔◌, IsTrue, length};
ghost use Rattle.counting.specs.Bounds.{most_sites};
ghost use Rattle.counting.specs.Lists.{at};
ghost use Rattle.counting.specs.Greatest.{greatest};
ghost use Rattle.choices.specs.Scan.{unflagged, offered, rank_of, site_of, Better};

// A site that may be chosen, and its worth.
#[derive(Clone, Copy)]
pub struct Found {
    pub site: usize,
    pub worth: u32,
}

// A site with its worth, unless it is taken.
pub fn offer(site: usize, worth: u32, taken: bool) -> Option<Found>
    ensures { result ≡ offered site worth taken }
{
    if taken {
        None
    } else {
        Some(Found { site, worth })
    }
}

// What sites are compared by: any site comes before none.
fn rank(site: Option<Found>) -> u64
    ensures { result ≡ rank_of site }
{
    match site {
        Some(found) => u64::from(found.worth) + 1,
        None => 0,
    }
}

// Whether a site is better than the best so far.
pub fn beats(site: Option<Found>, best: Option<Found>) -> bool
    ensures { IsTrue result ↔ rank_of best < rank_of site }
{
    rank(best) < rank(site)
}

// The better of the best so far and one site more, which must be better to win.
pub fn better(best: Option<Found>, site: Option<Found>) -> Option<Found>
    ensures { Better best site result }
{
    if beats(site, best) { site } else { best }
}

// The number of the best site, 0 where there is none: the plans' definitions have it so.
pub fn number(best: Option<Found>) -> usize
    ensures { result ≡ site_of best }
{
    match best {
        Some(found) => found.site,
        None => 0,
    }
}

// The site of 1 to m that is not flagged and has the greatest sum, the lowest of equals.
pub fn best_site(sums: &[u32], flags: &[bool], m: usize) -> usize
    requires { (length sums.now ≡ m + 1) × (length flags.now ≡ 256) × (m ≤ most_sites) }
    ensures { result ≡ greatest (unflagged flags.now) (at sums.now) m }
{
    let mut best = None;
    // kept: the new form is no plainer: sites count from 1, and two lists go in step whose first entry is no site's
    for i in 0..m {
        let a = i + 1;
        best = better(best, offer(a, sums[a], flags[a]));
    }
    number(best)
}
