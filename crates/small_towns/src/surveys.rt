// The check of surveys, right ones and ones with a changed score, weight or byte, or with one of each.
ghost use Rattle.std.specs.Prelude.{◌≤◌, IfOk};
ghost use Rattle.drawn_towns.specs.Small.{Small};

use crate::answers::Given;
use crate::{answers, entries};
use drawn_towns::{Town, changes};
use plain_files::surveys;
use std::io::{self, Write};

// The number that is right for a town's survey.
fn right_number(town: Town) -> u8
    requires { Small town }
{
    let survey = entries::lent(&town);
    surveys::refusal(town.n, town.m, survey.scores, survey.weights, town.rows)
}

// 1 where the check is wrong about a town, else 0.
fn wrong_check(out: &mut impl Write, town: Town, shown: bool) -> io::Result<u64>
    requires { Small town }
    ensures { IfOk result (λ x. x ≤ 1) }
{
    let right = Given::alone(answers::found(right_number(town)).map(|()| 0));
    answers::wrong(out, town, entries::check(town), right, shown)
}

// How many answers of the check about a town with a changed score, byte or weight, and with one of each, are wrong.
pub fn wrong_surveys(
    out: &mut impl Write,
    seed: &mut u64,
    town: Town,
    shown: bool,
) -> io::Result<u64>
    requires { Small town }
    ensures { IfOk result (λ x. x ≤ 4) }
{
    let scored = changes::with_score(seed, town);
    let ranked = changes::with_byte(seed, town);
    let weighed = changes::with_weight(seed, town);
    let twice = changes::with_weight(seed, scored);
    let changed = changes::with_byte(seed, twice);
    let mut count = wrong_check(out, scored, shown)?;
    count += wrong_check(out, ranked, shown)?;
    count += wrong_check(out, weighed, shown)?;
    Ok(count + wrong_check(out, changed, shown)?)
}
