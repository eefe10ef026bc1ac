// The plans of both kinds, compared with a plain search, and hand plans made from them.
ghost use Rattle.std.specs.Prelude.{◌≤◌, IfOk};
ghost use Rattle.drawn_towns.specs.Small.{Small};

use crate::answers::Given;
use crate::load_checks::NUMBERS;
use crate::{answers, balanced, entries, free, hands};
use drawn_towns::asked::Asked;
use drawn_towns::{Town, asked, weights};
use plain_search::{rounds, sets};
use std::io::{self, Write};

// The plan that is right for a town.
fn right_plan(town: Town, asked: Asked) -> Given
    requires { Small town }
{
    if let Err(number) = answers::found(plain_search::asked::refusal(asked)) {
        return Given::alone(Err(number));
    }
    if asked.kind == 0 {
        return free::right_plan(town);
    }
    balanced::right_plan(town)
}

// Whether a plan's total keeps the bound of its kind: a free plan is near the best k sites, and a balanced one has the floor at least.
fn keeps_bound(town: Town, kind: usize, total: u32) -> bool
    requires { Small town }
{
    if kind == 0 {
        return sets::is_near(town.k, sets::best_total(town), total);
    }
    entries::floor(town).answer.unwrap_or(0) <= total
}

// Whether the chosen sites are those that the rounds chose without weights, where all weights are equal; elsewhere, and of a free plan, it says nothing.
fn keeps_sites(town: Town, kind: usize, plan: Given) -> bool
    requires { Small town }
{
    if kind == 0 || plan.answer.is_err() || !weights::are_equal(town) {
        return true;
    }
    let right = rounds::sites_by_place(town);
    plan.chosen[..town.k] == right[..town.k]
}

// How many answers about the plan of one kind, and about hand plans made from it, are wrong.
pub fn wrong_plans(
    out: &mut impl Write,
    seed: &mut u64,
    numbers: &mut [u64; NUMBERS],
    town: Town,
    kind: usize,
    shown: bool,
) -> io::Result<u64>
    requires { Small town }
    ensures { IfOk result (λ x. x ≤ 25) }
{
    let asked = asked::of_kind(town, kind);
    let plan = entries::plan(town, asked);
    let bounded = keeps_bound(town, kind, plan.answer.unwrap_or(0));
    let mut count = answers::wrong(out, town, plan, right_plan(town, asked), shown)?;
    count += answers::fails(out, town, bounded, shown)?;
    count += answers::fails(out, town, keeps_sites(town, kind, plan), shown)?;
    Ok(count + hands::wrong_hands(out, seed, numbers, town, asked, plan, shown)?)
}
