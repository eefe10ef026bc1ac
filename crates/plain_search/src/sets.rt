// The free plan of a small town: the totals of sets of sites, the greedy rounds that go by these totals alone, and the best set of k sites.
ghost use Rattle.std.specs.Prelude.{◌≡◌, ◌≤◌, length, IfSome};
ghost use Rattle.drawn_towns.specs.Small.{Small};

use crate::scores;
use drawn_towns::{SITES, STREETS, Town};

// a set has a flag for each number up to 5
const NUMBERS: usize = SITES + 1;

const SETS: usize = 64;

// what stands behind the sites of a list
pub const UNTOUCHED: u8 = 255;

// A set of sites, and the order in which they were chosen.
#[derive(Clone, Copy, Debug, PartialEq, Eq)]
pub struct Choice {
    pub sites: [u8; SITES],
    pub set: [bool; NUMBERS],
}

// A site, and what it is worth: the total with it.
#[derive(Clone, Copy, Debug, PartialEq, Eq)]
pub struct Site {
    pub number: usize,
    pub worth: u32,
}

// K^K and (K-1)^K, the factors of the bound.
#[derive(Clone, Copy)]
struct Factors {
    own: u64,
    less: u64,
}

// The best counted score that a site of a set has with street s.
fn best_score(town: Town, s: usize, set: [bool; NUMBERS]) -> u32
    requires { Small town × (s ≤ 7) }
    ensures { result ≤ 16711425 }
{
    let mut best: u32 = 0;
    for number in 1..=town.m {
        if set[number] {
            best = best.max(scores::counted(town, s, number as u8));
        }
    }
    best
}

// The total of a set of sites.
pub fn set_total(town: Town, set: [bool; NUMBERS]) -> u32
    requires { Small town }
    ensures { result ≤ 133691400 }
{
    let mut sum: u32 = 0;
    for s in 0..town.n {
        sum += best_score(town, s, set);
    }
    sum
}

// A set with one site more.
fn with(mut set: [bool; NUMBERS], site: usize) -> [bool; NUMBERS]
    requires { site ≤ 5 }
    ensures { length result ≡ 6 }
{
    set[site] = true;
    set
}

// The better of the best site so far and another one, which must be better to win.
pub fn better(best: Option<Site>, other: Site) -> Site
    requires { IfSome best (λ b. b.number ≤ 5) × (other.number ≤ 5) }
    ensures { result.number ≤ 5 }
{
    match best {
        Some(best) if other.worth <= best.worth => best,
        _ => other,
    }
}

// The site outside a set that raises its total most, the lowest one of equals.
fn raising_site(town: Town, set: [bool; NUMBERS]) -> Option<Site>
    requires { Small town }
    ensures { IfSome result (λ b. b.number ≤ 5) }
{
    let mut best = None;
    for number in 1..=town.m {
        if !set[number] {
            let worth = set_total(town, with(set, number));
            best = Some(better(best, Site { number, worth }));
        }
    }
    best
}

// The k sites of the greedy rounds.
pub fn greedy(town: Town) -> Choice
    requires { Small town }
    ensures { (length result.sites ≡ 5) × (length result.set ≡ 6) }
{
    let mut sites = [UNTOUCHED; SITES];
    let mut set = [false; NUMBERS];
    for site in &mut sites[..town.k] {
        if let Some(raising) = raising_site(town, set) {
            *site = raising.number as u8;
            set[raising.number] = true;
        }
    }
    Choice { sites, set }
}

// The set of a town's list.
pub fn listed(town: Town) -> [bool; NUMBERS]
    requires { Small town }
    ensures { length result ≡ 6 }
{
    let mut set = [false; NUMBERS];
    for &site in &town.sites[..town.k] {
        set[usize::from(site) % NUMBERS] = true;
    }
    set
}

// Where street s goes: the first site of its row that is in a set, and 0 where there is none.
fn goes_to(town: Town, s: usize, set: [bool; NUMBERS]) -> u8
    requires { Small town × (s ≤ 7) }
{
    for &site in town.row(s) {
        let number = usize::from(site);
        if (1..=town.m).contains(&number) && set[number] {
            return site;
        }
    }
    0
}

// Where each street goes.
pub fn division(town: Town, set: [bool; NUMBERS]) -> [u8; STREETS]
    requires { Small town }
{
    let mut division = [UNTOUCHED; STREETS];
    for (s, site) in division[..town.n].iter_mut().enumerate() {
        *site = goes_to(town, s, set);
    }
    division
}

// The set whose flags are the digits of a number in base two.
fn set_of(number: usize) -> [bool; NUMBERS] {
    let mut set = [false; NUMBERS];
    let mut rest = number;
    for flag in &mut set {
        *flag = rest % 2 == 1;
        rest /= 2;
    }
    set
}

// How many sites of 1 to m a set has.
fn size_of(town: Town, set: [bool; NUMBERS]) -> usize
    requires { Small town }
{
    set[1..=town.m].iter().filter(|in_set| **in_set).count()
}

// The greatest total that any k sites of 1 to m have.
pub fn best_total(town: Town) -> u32
    requires { Small town }
    ensures { result ≤ 133691400 }
{
    (0..SETS)
        .map(set_of)
        .filter(|set| size_of(town, *set) == town.k)
        .map(
            |set|
                requires { Small town }
                ensures { result ≤ 133691400 }
            { set_total(town, set) },
        )
        .max()
        .unwrap_or(0)
}

// The factors for k sites.
fn powers(k: usize) -> Factors
    ensures { (result.own ≤ 3125) × (result.less ≤ 3125) }
{
    match k {
        1 => Factors { own: 1, less: 0 },
        2 => Factors { own: 4, less: 1 },
        3 => Factors { own: 27, less: 8 },
        4 => Factors { own: 256, less: 81 },
        _ => Factors {
            own: 3125,
            less: 1024,
        },
    }
}

// A factor times a total.
fn times(factor: u64, total: u32) -> u64
    requires { (factor ≤ 3125) × (total ≤ 133691400) }
    ensures { result ≤ 417785625000 }
{
    factor * u64::from(total)
}

// Whether a total of k sites is as near to the best one as the bound of the free plan has it.
pub fn is_near(k: usize, best: u32, total: u32) -> bool
    requires { best ≤ 133691400 }
{
    if best <= total {
        return best == total;
    }
    let by = powers(k);
    times(by.own, best - total) <= times(by.less, best)
}
