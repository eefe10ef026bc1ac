// What a hand-made plan of a small town is refused for, and 0 where it is right.
ghost use Rattle.drawn_towns.specs.Sized.{Sized};
ghost use Rattle.drawn_towns.specs.Small.{Small};

use crate::{asked, loads, scores, shares};
use drawn_towns::asked::Asked;
use drawn_towns::loads::Loads;
use drawn_towns::{STREETS, Town};

// Whether some street has a site outside a range that ends with m.
fn is_out_of_range(town: Town, division: [u8; STREETS], low: u8) -> bool
    requires { Small town }
{
    division[..town.n]
        .iter()
        .any(|site| *site < low || town.m < usize::from(*site))
}

// How many sites have from `least` to `most` streets.
fn sites_with(town: Town, division: [u8; STREETS], least: usize, most: usize) -> usize
    requires { Small town }
{
    (1..=town.m as u8)
        .map(|site| scores::streets_of(division, town.n, site))
        .filter(|streets| (least..=most).contains(streets))
        .count()
}

// 19: the claimed total is another one.
fn check_claim(town: Town, division: [u8; STREETS], claimed: u32) -> Result<(), u8>
    requires { Small town }
{
    if scores::total(town, division) != claimed {
        return Err(19);
    }
    Ok(())
}

// 17 and 18 of a free plan: a street may have site 0, and at most k sites are used.
fn check_free(town: Town, division: [u8; STREETS]) -> Result<(), u8>
    requires { Small town }
{
    if is_out_of_range(town, division, 0) {
        return Err(17);
    }
    if town.k < sites_with(town, division, 1, STREETS) {
        return Err(18);
    }
    Ok(())
}

// Whether exactly r sites have q + 1 streets, and exactly k - r have q.
fn is_shared(town: Town, division: [u8; STREETS]) -> bool
    requires { Small town }
{
    let q = shares::least(town);
    let r = shares::larger(town);
    sites_with(town, division, q + 1, q + 1) == r && sites_with(town, division, q, q) == town.k - r
}

// 17 and 18 of a balanced plan: every street has a site, and the sites have the shares.
fn check_balanced(town: Town, division: [u8; STREETS]) -> Result<(), u8>
    requires { Small town }
{
    if is_out_of_range(town, division, 1) {
        return Err(17);
    }
    if !is_shared(town, division) {
        return Err(18);
    }
    Ok(())
}

// A plan with its loads, asked for with the town's own sizes: what it is asked for, the loads' own numbers, its sites, their limits, and its total.
fn check(
    town: Town,
    asked: Asked,
    division: [u8; STREETS],
    claimed: u32,
    loads: Loads,
) -> Result<(), u8>
    requires { Small town × Sized loads }
{
    asked::check(asked)?;
    loads::check_numbers(town, loads)?;
    if asked.kind == 0 {
        check_free(town, division)?;
    } else {
        check_balanced(town, division)?;
    }
    loads::check_limits(town, division, loads)?;
    check_claim(town, division, claimed)
}

// The number of its refusal, and 0 where it is right.
// kept: a number with 0 for none, since a plain model gives the papers' numbers, against which the library's own enum is compared
pub fn refusal(town: Town, asked: Asked, division: [u8; STREETS], claimed: u32, loads: Loads) -> u8
    requires { Small town × Sized loads }
{
    check(town, asked, division, claimed, loads)
        .err()
        .unwrap_or(0)
}
