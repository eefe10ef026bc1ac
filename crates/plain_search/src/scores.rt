// Ranks, scores, counted scores and totals of a small town.
ghost use Rattle.std.specs.Prelude.{◌≤◌, ◌<◌, IfSome};
ghost use Rattle.drawn_towns.specs.Small.{Small};

use drawn_towns::{STREETS, Town};

// Where the row of street s begins.
pub fn row_start(s: usize, m: usize) -> usize
    requires { (s ≤ 7) × (m ≤ 5) }
    ensures { result ≤ 35 }
{
    s * m
}

// How many sites street s ranks before a site, if it has ranked that.
pub fn rank(town: Town, s: usize, site: u8) -> Option<usize>
    requires { Small town × (s ≤ 7) }
    ensures { IfSome result (λ r. r < town.m) }
{
    if site == 0 {
        return None;
    }
    town.row(s).iter().position(|ranked| *ranked == site)
}

// The score that street s gives a site: the one at its place, and 0 where it is not ranked.
pub fn score(town: Town, s: usize, site: u8) -> u16
    requires { Small town × (s ≤ 7) }
{
    match rank(town, s, site) {
        Some(before) => town.scores[before],
        None => 0,
    }
}

// A score as a part of a total.
pub fn wide(score: u16) -> u32
    ensures { result ≤ 65535 }
{
    u32::from(score)
}

// The weight of street s as a factor of a total.
pub fn weight(town: Town, s: usize) -> u32
    requires { Small town × (s ≤ 7) }
    ensures { result ≤ 255 }
{
    u32::from(town.weights[s])
}

// The counted score that street s gives a site: its score times the street's weight.
pub fn counted(town: Town, s: usize, site: u8) -> u32
    requires { Small town × (s ≤ 7) }
    ensures { result ≤ 16711425 }
{
    weight(town, s) * wide(score(town, s, site))
}

// The total of a division: the sum of the counted scores that the streets give their sites.
pub fn total(town: Town, division: [u8; STREETS]) -> u32
    requires { Small town }
    ensures { result ≤ 133691400 }
{
    let mut sum: u32 = 0;
    for (s, &site) in division[..town.n].iter().enumerate() {
        sum += counted(town, s, site);
    }
    sum
}

// How many sites street s has ranked.
pub fn list_length(town: Town, s: usize) -> usize
    requires { Small town × (s ≤ 7) }
    ensures { result ≤ town.m }
{
    (1..=town.m as u8)
        .filter(|site| rank(town, s, *site).is_some())
        .count()
}

// How many of the first n streets a division gives a site.
pub fn streets_of(division: [u8; STREETS], n: usize, site: u8) -> usize
    requires { n ≤ 8 }
{
    let mut count = 0;
    for own in &division[..n] {
        count += usize::from(*own == site);
    }
    count
}
