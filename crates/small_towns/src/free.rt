// The free entries, compared with totals of sets.
ghost use Rattle.std.specs.Prelude.{◌≤◌, IfOk};
ghost use Rattle.drawn_towns.specs.Small.{Small};

use crate::answers::{Given, UNTOUCHED};
use crate::{answers, entries};
use drawn_towns::{SITES, Town};
use plain_search::sets;
use std::io::{self, Write};

// The plan that is right for the town: the sites of the greedy rounds, and where the streets go among them.
pub fn right_plan(town: Town) -> Given
    requires { Small town }
{
    let choice = sets::greedy(town);
    let set = choice.set;
    let chosen = choice.sites;
    Given {
        answer: Ok(sets::set_total(town, set)),
        division: sets::division(town, set),
        chosen,
    }
}

// 1 where the free division over the town's list is another one, else 0.
pub fn wrong_division(out: &mut impl Write, town: Town, shown: bool) -> io::Result<u64>
    requires { Small town }
    ensures { IfOk result (λ x. x ≤ 1) }
{
    let set = sets::listed(town);
    let right = Given {
        answer: Ok(sets::set_total(town, set)),
        division: sets::division(town, set),
        chosen: [UNTOUCHED; SITES],
    };
    let given = entries::division(town, planner::free_division);
    answers::wrong(out, town, given, right, shown)
}

// 1 where the list's total is another one, else 0.
pub fn wrong_total(out: &mut impl Write, town: Town, shown: bool) -> io::Result<u64>
    requires { Small town }
    ensures { IfOk result (λ x. x ≤ 1) }
{
    let right = Given::alone(Ok(sets::set_total(town, sets::listed(town))));
    answers::wrong(out, town, entries::list_total(town), right, shown)
}
