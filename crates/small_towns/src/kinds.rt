// Plans and hand plans of wrong kinds, which are refused with 4, or for a wrong size before that.
ghost use Rattle.std.specs.Prelude.{◌≤◌, IfOk};
ghost use Rattle.drawn_towns.specs.Small.{Small};

use crate::answers::{Given, UNTOUCHED};
use crate::load_checks::NUMBERS;
use crate::{answers, entries, load_checks};
use drawn_towns::{STREETS, Town, asked};
use std::io::{self, Write};
use streams::print_line;

// How many answers about a plan and a hand plan of the wrong kind that has its turn are wrong. The number that is right is counted.
pub fn wrong_kinds(
    out: &mut impl Write,
    numbers: &mut [u64; NUMBERS],
    town: Town,
    turn: u64,
    shown: bool,
) -> io::Result<u64>
    requires { Small town }
    ensures { IfOk result (λ x. x ≤ 2) }
{
    let asked = asked::of_wrong_kind(town, turn);
    let number = plain_search::asked::refusal(asked);
    load_checks::count(numbers, number);
    let right = Given::alone(Err(number));
    let plan = entries::plan(town, asked);
    let hand = entries::hand(
        town,
        asked,
        [UNTOUCHED; STREETS],
        0,
        drawn_towns::loads::none(),
    );
    let count = answers::wrong(out, town, plan, right, shown)?;
    Ok(count + answers::wrong(out, town, hand, right, shown)?)
}

// The lines that say which numbers the wrong kinds had.
pub fn lines(out: &mut impl Write, numbers: [u64; NUMBERS]) -> io::Result<()> {
    let all = load_checks::all(numbers);
    print_line(out, b"wrong kinds, of a plan and of a hand plan ", all)?;
    print_line(out, b"of these, refused for the streets ", numbers[1])?;
    print_line(out, b"of these, refused for the sites ", numbers[2])?;
    print_line(
        out,
        b"of these, refused for the sites to choose ",
        numbers[3],
    )?;
    print_line(out, b"of these, refused for the kind ", numbers[4])
}
