// The best division of a small town over its list, found by trying every way to give each street a site of the list. As soon as a street is one
// too many for its site, the ways that begin in the same way are passed over.
ghost use Rattle.std.specs.Prelude.{◌≡◌, ◌≤◌, length};
ghost use Rattle.drawn_towns.specs.Small.{Small};

use crate::{scores, shares};
use drawn_towns::{SITES, STREETS, Town};

// the ways to give each of 8 streets one of 5 sites
const DIVISIONS: u32 = 390625;

// a table by site has an entry for each number up to 5
const NUMBERS: usize = SITES + 1;

// A balanced division, and its total.
#[derive(Clone, Copy, Debug, PartialEq, Eq)]
pub struct Best {
    pub total: u32,
    pub division: [u8; STREETS],
}

// Whether a division gives each entry of the list its share.
fn is_balanced(town: Town, division: [u8; STREETS]) -> bool
    requires { Small town }
{
    town.sites[..town.k].iter().enumerate().all(|(i, site)| scores::streets_of(
        division, town.n, *site,
    ) == shares::of_round(town, i))
}

// The index of a site in a table by site.
fn index(site: u8) -> usize
    ensures { result ≤ 5 }
{
    usize::from(site) % NUMBERS
}

// The shares of the list by site, 0 for a site that is not in it.
fn site_shares(town: Town) -> [usize; NUMBERS]
    requires { Small town }
    ensures { length result ≡ 6 }
{
    let mut shares = [0usize; NUMBERS];
    for (i, &site) in town.sites[..town.k].iter().enumerate() {
        shares[index(site)] = shares::of_round(town, i);
    }
    shares
}

// How many streets, from the first on, come before one that is too many for its site.
fn fitting(town: Town, mut shares: [usize; NUMBERS], division: &[u8; STREETS]) -> usize
    requires { Small town × (length shares ≡ 6) }
    ensures { result ≤ 8 }
{
    for (s, &site) in division[..town.n].iter().enumerate() {
        let left = &mut shares[index(site)];
        if *left == 0 {
            return s;
        }
        *left -= 1;
    }
    town.n
}

// The lowest site of the list above a site.
fn next_site(town: Town, site: u8) -> Option<u8>
    requires { Small town }
{
    town.sites[..town.k]
        .iter()
        .copied()
        .filter(|other| site < *other)
        .min()
}

// For each number up to 5 the lowest site of the list above it.
fn followers(town: Town) -> [Option<u8>; NUMBERS]
    requires { Small town }
    ensures { length result ≡ 6 }
{
    let mut followers = [None; NUMBERS];
    for (site, follower) in followers.iter_mut().enumerate() {
        *follower = next_site(town, site as u8);
    }
    followers
}

// The next division of n streets in the order of a dictionary that gives one of the first `streets` another site; false after the last, where
// the first comes again.
fn next_division(
    n: usize,
    followers: [Option<u8>; NUMBERS],
    division: &mut [u8; STREETS],
    streets: usize,
) -> bool
    requires { (n ≤ 8) × (length followers ≡ 6) }
{
    let lowest = followers[0].unwrap_or(0);
    for s in (0..n).rev() {
        if s < streets {
            if let Some(next) = followers[index(division[s])] {
                division[s] = next;
                return true;
            }
        }
        division[s] = lowest;
    }
    false
}

// The better of the best so far and another division, which must be better to win.
fn better(best: Option<Best>, other: Best) -> Best {
    match best {
        Some(best) if other.total <= best.total => best,
        _ => other,
    }
}

// The best so far once a division is looked at, which counts only if it is balanced.
fn tried(best: Option<Best>, town: Town, division: [u8; STREETS]) -> Option<Best>
    requires { Small town }
{
    if !is_balanced(town, division) {
        return best;
    }
    let total = scores::total(town, division);
    Some(better(best, Best { total, division }))
}

// The first of the best divisions. The search begins where each street has the lowest site; that division stands for it where no division is balanced.
pub fn best_division(town: Town) -> Best
    requires { Small town }
{
    let shares = site_shares(town);
    let followers = followers(town);
    let mut division = [followers[0].unwrap_or(0); STREETS];
    let first = Best { total: 0, division };
    let mut best = None;
    for _ in 0..DIVISIONS {
        let streets = fitting(town, shares, &division);
        if streets == town.n {
            best = tried(best, town, division);
        }
        if !next_division(town.n, followers, &mut division, streets + 1) {
            break;
        }
    }
    best.unwrap_or(first)
}
