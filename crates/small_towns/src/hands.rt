// Tests of hand-made plans: plans of ours, with the right total and one too high; plans made from them, in which one street has any other site, or
// one or two streets have another of the plan's sites; and plans that are drawn. Each is tested without loads and with drawn ones.
ghost use Rattle.std.specs.Prelude.{◌≤◌, IfOk};
ghost use Rattle.drawn_towns.specs.Small.{Small};

use crate::answers::Given;
use crate::load_checks::NUMBERS;
use crate::{answers, entries, load_checks};
use drawn_towns::asked::Asked;
use drawn_towns::{SITES, STREETS, Town};
use plain_search::scores;
use std::io::{self, Write};

// How many answers about a plan are wrong: without loads, and with drawn ones.
fn wrong_test(
    out: &mut impl Write,
    seed: &mut u64,
    numbers: &mut [u64; NUMBERS],
    town: Town,
    asked: Asked,
    division: [u8; STREETS],
    claimed: u32,
    shown: bool,
) -> io::Result<u64>
    requires { Small town }
    ensures { IfOk result (λ x. x ≤ 3) }
{
    let none = drawn_towns::loads::none();
    let given = entries::hand(town, asked, division, claimed, none);
    let right = Given::alone(load_checks::right_answer(town, asked, division, claimed, none));
    let count = answers::wrong(out, town, given, right, shown)?;
    Ok(
        count
            + load_checks::wrong_loaded(
                out, seed, numbers, town, asked, division, claimed, given, shown,
            )?,
    )
}

// 1 where a plan of ours does not pass its own test, else 0. Where there is none, the test has to refuse with the same number.
fn wrong_own(
    out: &mut impl Write,
    town: Town,
    asked: Asked,
    plan: Given,
    shown: bool,
) -> io::Result<u64>
    requires { Small town }
    ensures { IfOk result (λ x. x ≤ 1) }
{
    let division = plan.division;
    let total = plan.answer.unwrap_or(0);
    let given = entries::hand(town, asked, division, total, drawn_towns::loads::none());
    answers::wrong(out, town, given, Given::alone(plan.answer), shown)
}

// How many answers about a plan with its own total are wrong.
fn wrong_with_own_total(
    out: &mut impl Write,
    seed: &mut u64,
    numbers: &mut [u64; NUMBERS],
    town: Town,
    asked: Asked,
    division: [u8; STREETS],
    shown: bool,
) -> io::Result<u64>
    requires { Small town }
    ensures { IfOk result (λ x. x ≤ 3) }
{
    let own = scores::total(town, division);
    wrong_test(out, seed, numbers, town, asked, division, own, shown)
}

// How many answers about plans with one street's site changed are wrong: with their own totals, and with the plan's.
fn wrong_changed(
    out: &mut impl Write,
    seed: &mut u64,
    numbers: &mut [u64; NUMBERS],
    town: Town,
    asked: Asked,
    division: [u8; STREETS],
    total: u32,
    shown: bool,
) -> io::Result<u64>
    requires { Small town }
    ensures { IfOk result (λ x. x ≤ 6) }
{
    let mut changed = division;
    let s = drawn_towns::draw(seed, town.n);
    changed[s] = drawn_towns::draw(seed, town.m + 2) as u8;
    let count = wrong_with_own_total(out, seed, numbers, town, asked, changed, shown)?;
    Ok(count + wrong_test(out, seed, numbers, town, asked, changed, total, shown)?)
}

// A division with a drawn street moved to a drawn one of the k chosen sites.
fn moved(seed: &mut u64, town: Town, division: [u8; STREETS], chosen: [u8; SITES]) -> [u8; STREETS]
    requires { Small town }
{
    let mut more = division;
    let s = drawn_towns::draw(seed, town.n);
    let i = drawn_towns::draw(seed, town.k);
    more[s] = chosen[i];
    more
}

// How many answers about plans near ours are wrong: one street goes to a site of the plan, and then another one too.
fn wrong_moved(
    out: &mut impl Write,
    seed: &mut u64,
    numbers: &mut [u64; NUMBERS],
    town: Town,
    asked: Asked,
    plan: Given,
    shown: bool,
) -> io::Result<u64>
    requires { Small town }
    ensures { IfOk result (λ x. x ≤ 6) }
{
    let division = plan.division;
    let chosen = plan.chosen;
    let once = moved(seed, town, division, chosen);
    let twice = moved(seed, town, once, chosen);
    let count = wrong_with_own_total(out, seed, numbers, town, asked, once, shown)?;
    Ok(count + wrong_with_own_total(out, seed, numbers, town, asked, twice, shown)?)
}

// A division that gives each street a drawn site of 1 to m.
fn drawn(seed: &mut u64, town: Town) -> [u8; STREETS]
    requires { Small town }
{
    let mut division = [0u8; STREETS];
    for site in division[..town.n].iter_mut() {
        *site = (drawn_towns::draw(seed, town.m) + 1) as u8;
    }
    division
}

// How many answers about a drawn plan are wrong.
fn wrong_drawn(
    out: &mut impl Write,
    seed: &mut u64,
    numbers: &mut [u64; NUMBERS],
    town: Town,
    asked: Asked,
    shown: bool,
) -> io::Result<u64>
    requires { Small town }
    ensures { IfOk result (λ x. x ≤ 3) }
{
    let division = drawn(seed, town);
    wrong_with_own_total(out, seed, numbers, town, asked, division, shown)
}

// How many answers about the town's plan, plans made from it, and a drawn one are wrong.
pub fn wrong_hands(
    out: &mut impl Write,
    seed: &mut u64,
    numbers: &mut [u64; NUMBERS],
    town: Town,
    asked: Asked,
    plan: Given,
    shown: bool,
) -> io::Result<u64>
    requires { Small town }
    ensures { IfOk result (λ x. x ≤ 22) }
{
    let division = plan.division;
    let total = plan.answer.unwrap_or(0);
    let higher = total.wrapping_add(1);
    let mut count = wrong_own(out, town, asked, plan, shown)?;
    count += wrong_test(out, seed, numbers, town, asked, division, total, shown)?;
    count += wrong_test(out, seed, numbers, town, asked, division, higher, shown)?;
    count += wrong_changed(out, seed, numbers, town, asked, division, total, shown)?;
    count += wrong_moved(out, seed, numbers, town, asked, plan, shown)?;
    Ok(count + wrong_drawn(out, seed, numbers, town, asked, shown)?)
}
