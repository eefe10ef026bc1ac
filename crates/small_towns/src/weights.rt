// Towns whose weights are refused, at every call that is given a survey: a weight outside 1 to 99, which is tried after the scores and before the rows,
// and a weight too few or too many, which is tried before the scores. Each call has to leave its buffers as they were.
ghost use Rattle.std.specs.Prelude.{◌≤◌, IfOk};
ghost use Rattle.drawn_towns.specs.Small.{Small};

use crate::answers::Given;
use crate::{answers, entries, rows};
use drawn_towns::{STREETS, Town, asked, weights};
use std::io::{self, Write};

// How many calls that are given no kind do not refuse a town with this number.
fn wrong_calls(out: &mut impl Write, town: Town, number: u8, shown: bool) -> io::Result<u64>
    requires { Small town }
    ensures { IfOk result (λ x. x ≤ 5) }
{
    let right = Given::alone(Err(number));
    let free = entries::division(town, planner::free_division);
    let balanced = entries::division(town, planner::balanced_division);
    let mut count = answers::wrong(out, town, entries::check(town), right, shown)?;
    count += answers::wrong(out, town, entries::list_total(town), right, shown)?;
    count += answers::wrong(out, town, free, right, shown)?;
    count += answers::wrong(out, town, balanced, right, shown)?;
    Ok(count + answers::wrong(out, town, entries::floor(town), right, shown)?)
}

// How many calls of a kind, the plan and the hand plan, do not refuse a town with this number.
fn wrong_of_kind(
    out: &mut impl Write,
    town: Town,
    kind: usize,
    number: u8,
    shown: bool,
) -> io::Result<u64>
    requires { Small town }
    ensures { IfOk result (λ x. x ≤ 2) }
{
    let asked = asked::of_kind(town, kind);
    let right = Given::alone(Err(number));
    let loads = drawn_towns::loads::none();
    let hand = entries::hand(town, asked, [1; STREETS], 0, loads);
    let count = answers::wrong(out, town, entries::plan(town, asked), right, shown)?;
    Ok(count + answers::wrong(out, town, hand, right, shown)?)
}

// How many calls do not refuse a town with this number.
fn wrong_everywhere(out: &mut impl Write, town: Town, number: u8, shown: bool) -> io::Result<u64>
    requires { Small town }
    ensures { IfOk result (λ x. x ≤ 9) }
{
    let mut count = wrong_calls(out, town, number, shown)?;
    count += wrong_of_kind(out, town, 0, number, shown)?;
    Ok(count + wrong_of_kind(out, town, 1, number, shown)?)
}

// How many calls about a town with this weight for street s, the call for its row among them, do not refuse with 24.
fn wrong_weight(
    out: &mut impl Write,
    town: Town,
    s: usize,
    weight: u8,
    shown: bool,
) -> io::Result<u64>
    requires { Small town × (s ≤ 7) }
    ensures { IfOk result (λ x. x ≤ 10) }
{
    let other = weights::with_weight(town, s, weight);
    Ok(wrong_everywhere(out, other, 24, shown)? + rows::wrong_score(out, other, s, 1, shown)?)
}

// The same for both weights next to the range, at every street.
fn wrong_streets(out: &mut impl Write, town: Town, shown: bool) -> io::Result<u64>
    requires { Small town }
    ensures { IfOk result (λ x. x ≤ 160) }
{
    let mut count: u64 = 0;
    for s in 0..town.n {
        count += wrong_weight(out, town, s, 0, shown)?;
        count += wrong_weight(out, town, s, 100, shown)?;
    }
    Ok(count)
}

// The town with a score above 1,000.
fn with_wrong_score(town: Town) -> Town
    requires { Small town }
    ensures { Small result }
{
    let mut other = town;
    other.scores[0] = 1001;
    other
}

// The town with a site above m in the first row.
fn with_wrong_row(town: Town) -> Town
    requires { Small town }
    ensures { Small result }
{
    let mut other = town;
    other.rows[0] = 255;
    other
}

// How many calls about a town with a weight too few or too many do not refuse with 6, whatever else is wrong.
fn wrong_counts(out: &mut impl Write, town: Town, shown: bool) -> io::Result<u64>
    requires { Small town }
    ensures { IfOk result (λ x. x ≤ 18) }
{
    let short = weights::with_count(town, town.n - 1);
    let long = weights::with_count(with_wrong_score(town), town.n + 1);
    Ok(wrong_everywhere(out, short, 6, shown)? + wrong_everywhere(out, long, 6, shown)?)
}

// How many calls do not refuse with 8 before 24, and with 24 before the rows, where the weight of the last street is 0.
fn wrong_turns(out: &mut impl Write, town: Town, shown: bool) -> io::Result<u64>
    requires { Small town }
    ensures { IfOk result (λ x. x ≤ 18) }
{
    let weightless = weights::with_weight(with_wrong_row(town), town.n - 1, 0);
    Ok(
        wrong_everywhere(out, weightless, 24, shown)?
            + wrong_everywhere(out, with_wrong_score(weightless), 8, shown)?,
    )
}

// How many calls about the town with wrong weights are wrong.
pub fn wrong_weights(out: &mut impl Write, town: Town, shown: bool) -> io::Result<u64>
    requires { Small town }
    ensures { IfOk result (λ x. x ≤ 196) }
{
    Ok(
        wrong_streets(out, town, shown)?
            + wrong_counts(out, town, shown)?
            + wrong_turns(out, town, shown)?,
    )
}
