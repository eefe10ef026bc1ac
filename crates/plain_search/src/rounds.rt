// The rounds of the balanced plan of a small town, as the rule says them: for each site the free streets are taken one after the other. The order of the
// streets is by counted score, then by place, then by number; without weights it was by place and then by number.
ghost use Rattle.std.specs.Prelude.{◌≡◌, ◌+◌, ◌≤◌, length, IfSome};
ghost use Rattle.drawn_towns.specs.Small.{Small};

use crate::sets::Site;
use crate::{scores, sets, shares};
use drawn_towns::{SITES, STREETS, Town};

const NUMBERS: usize = SITES + 1;

// A street with the counted score that it gives the site, and how many sites it ranks before that.
#[derive(Clone, Copy)]
struct First {
    street: usize,
    counted: u32,
    rank: usize,
}

// A round, counted from 0, the streets that are given away before it, and whether places alone order the streets.
#[derive(Clone, Copy)]
struct Round {
    number: usize,
    given: [bool; STREETS],
    by_place: bool,
}

// What a site is worth in a round, and the streets that are given away once it has taken its share.
#[derive(Clone, Copy)]
struct Worth {
    total: u32,
    given: [bool; STREETS],
}

// Street s with what a site's round orders it by; by place alone all counted scores pass for equal. A site that is not ranked comes after all places.
fn street(town: Town, s: usize, site: u8, by_place: bool) -> First
    requires { Small town × (s ≤ 7) }
    ensures { result.street ≤ 7 }
{
    let counted = if by_place {
        0
    } else {
        scores::counted(town, s, site)
    };
    First {
        street: s,
        counted,
        rank: scores::rank(town, s, site).unwrap_or(NUMBERS),
    }
}

// Whether a street comes before the first one so far, which has a lower number: a higher counted score, or an equal one and a better place.
fn is_before(own: First, first: First) -> bool {
    if own.counted != first.counted {
        return first.counted < own.counted;
    }
    own.rank < first.rank
}

// The first street so far once another one is looked at.
fn sooner(first: Option<First>, own: First) -> First
    requires { IfSome first (λ f. f.street ≤ 7) × (own.street ≤ 7) }
    ensures { result.street ≤ 7 }
{
    match first {
        Some(first) if !is_before(own, first) => first,
        _ => own,
    }
}

// The free street that comes first for a site.
fn first_free(town: Town, site: u8, given: [bool; STREETS], by_place: bool) -> Option<First>
    requires { Small town }
    ensures { IfSome result (λ f. f.street ≤ 7) }
{
    let mut first = None;
    for (s, &given) in given[..town.n].iter().enumerate() {
        if !given {
            first = Some(sooner(first, street(town, s, site, by_place)));
        }
    }
    first
}

// A site's worth with one street more, if one is free.
fn with_street(town: Town, site: u8, mut worth: Worth, by_place: bool) -> Worth
    requires { Small town × (worth.total ≤ 133691400) × (length worth.given ≡ 8) }
    ensures { (result.total ≤ worth.total + 16711425) × (length result.given ≡ 8) }
{
    if let Some(first) = first_free(town, site, worth.given, by_place) {
        worth.given[first.street] = true;
        worth.total += scores::counted(town, first.street, site);
    }
    worth
}

// What a site is worth in a round: the summed counted scores of the round's share of the free streets.
fn worth_of(town: Town, site: u8, round: Round) -> Worth
    requires { Small town × (length round.given ≡ 8) }
    ensures { length result.given ≡ 8 }
{
    let share = shares::of_round(town, round.number).min(STREETS);
    let given = round.given;
    let mut worth = Worth { total: 0, given };
    for i in 0..share {
        worth = with_street(town, site, worth, round.by_place);
    }
    worth
}

// The unchosen site of greatest worth in a round, the lowest one of equals.
fn best_site(town: Town, chosen: [bool; NUMBERS], round: Round) -> Option<Site>
    requires { Small town × (length round.given ≡ 8) }
    ensures { IfSome result (λ b. b.number ≤ 5) }
{
    let mut best = None;
    for number in 1..=town.m {
        if !chosen[number] {
            let worth = worth_of(town, number as u8, round).total;
            best = Some(sets::better(best, Site { number, worth }));
        }
    }
    best
}

// The sites of the k rounds, in order of choice, with the streets ordered by place alone or by counted score first.
fn sites_of(town: Town, by_place: bool) -> [u8; SITES]
    requires { Small town }
    ensures { length result ≡ 5 }
{
    let mut sites = [sets::UNTOUCHED; SITES];
    let mut chosen = [false; NUMBERS];
    let mut given = [false; STREETS];
    for (i, site) in sites[..town.k].iter_mut().enumerate() {
        let round = Round {
            number: i,
            given,
            by_place,
        };
        if let Some(best) = best_site(town, chosen, round) {
            *site = best.number as u8;
            chosen[best.number] = true;
            given = worth_of(town, best.number as u8, round).given;
        }
    }
    sites
}

// The sites of the k rounds, in order of choice.
pub fn sites(town: Town) -> [u8; SITES]
    requires { Small town }
    ensures { length result ≡ 5 }
{
    sites_of(town, false)
}

// The same as it was without weights, where the streets were ordered by place and then by number.
pub fn sites_by_place(town: Town) -> [u8; SITES]
    requires { Small town }
    ensures { length result ≡ 5 }
{
    sites_of(town, true)
}
