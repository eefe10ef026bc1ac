// The balanced entries, compared with a search of all divisions. Where k is above the number of streets they have to refuse, and only there.
ghost use Rattle.std.specs.Prelude.{◌≤◌, IfOk};
ghost use Rattle.drawn_towns.specs.Small.{Small};

use crate::answers::{Given, UNTOUCHED};
use crate::{answers, entries};
use drawn_towns::{SITES, Town};
use plain_search::{divisions, floors, rounds};
use std::io::{self, Write};

// Whether the streets are too few to give each of the k sites one.
fn is_short(town: Town) -> bool
    requires { Small town }
{
    town.n < town.k
}

// The best division over the town's list, with what stands among the chosen sites.
fn best(town: Town, chosen: [u8; SITES]) -> Given
    requires { Small town }
{
    let found = divisions::best_division(town);
    let division = found.division;
    Given {
        answer: Ok(found.total),
        division,
        chosen,
    }
}

// The division that is right for the town's list.
fn right_division(town: Town) -> Given
    requires { Small town }
{
    if is_short(town) {
        return Given::alone(Err(5));
    }
    best(town, [UNTOUCHED; SITES])
}

// The plan that is right for the town, if the streets are enough: the sites of the rounds, and the best division over them.
pub fn right_plan(town: Town) -> Given
    requires { Small town }
{
    let chosen = rounds::sites(town);
    best(drawn_towns::listing(town, chosen, town.k), chosen)
}

// The floor that is right for the town.
fn right_floor(town: Town) -> Result<u32, u8>
    requires { Small town }
{
    if is_short(town) {
        return Err(5);
    }
    Ok(floors::floor(town))
}

// 1 where the division over the town's list is not right, else 0.
pub fn wrong_division(out: &mut impl Write, town: Town, shown: bool) -> io::Result<u64>
    requires { Small town }
    ensures { IfOk result (λ x. x ≤ 1) }
{
    let given = entries::division(town, planner::balanced_division);
    answers::wrong(out, town, given, right_division(town), shown)
}

// 1 where the floor is not right, else 0.
pub fn wrong_floor(out: &mut impl Write, town: Town, shown: bool) -> io::Result<u64>
    requires { Small town }
    ensures { IfOk result (λ x. x ≤ 1) }
{
    let right = Given::alone(right_floor(town));
    answers::wrong(out, town, entries::floor(town), right, shown)
}
