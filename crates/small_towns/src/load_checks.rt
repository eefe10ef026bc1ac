// Tests of hand-made plans with drawn loads.
ghost use Rattle.std.specs.Prelude.{◌≤◌, IfOk};
ghost use Rattle.drawn_towns.specs.Sized.{Sized};
ghost use Rattle.drawn_towns.specs.Small.{Small};

use crate::answers::Given;
use crate::{answers, entries};
use drawn_towns::asked::Asked;
use drawn_towns::loads::Loads;
use drawn_towns::{STREETS, Town};
use plain_search::{hands, loads};
use std::io::{self, Write};
use streams::print_line;

// how often each number was given is a table by that number, 0 for no refusal
pub const NUMBERS: usize = 256;

// One more plan with this number.
pub fn count(numbers: &mut [u64; NUMBERS], number: u8) {
    let times = &mut numbers[usize::from(number)];
    *times = times.wrapping_add(1);
}

// What the test of a plan with loads must give: the number that is right, or the total that is claimed.
pub fn right_answer(
    town: Town,
    asked: Asked,
    division: [u8; STREETS],
    claimed: u32,
    loads: Loads,
) -> Result<u32, u8>
    requires { Small town × Sized loads }
{
    answers::found(hands::refusal(town, asked, division, claimed, loads))?;
    Ok(claimed)
}

// Whether what is given with loads keeps to what is given without: it is the same where no load or limit is refused and each site's two sums are
// within its limits, and a refusal everywhere else.
fn is_kept(town: Town, division: [u8; STREETS], loads: Loads, given: Given, without: Given) -> bool
    requires { Small town × Sized loads }
{
    if loads::numbers_refusal(town, loads) != 0 || !loads::is_within(town, division, loads) {
        return given.answer.is_err();
    }
    given.answer == without.answer
}

// How many answers about a plan with drawn loads are wrong: the answer itself, and what it must keep of the one without loads. Its number is counted.
pub fn wrong_loaded(
    out: &mut impl Write,
    seed: &mut u64,
    numbers: &mut [u64; NUMBERS],
    town: Town,
    asked: Asked,
    division: [u8; STREETS],
    claimed: u32,
    without: Given,
    shown: bool,
) -> io::Result<u64>
    requires { Small town }
    ensures { IfOk result (λ x. x ≤ 2) }
{
    let loads = drawn_towns::loads::draw_loads(seed, town, division);
    let given = entries::hand(town, asked, division, claimed, loads);
    let right = Given::alone(right_answer(town, asked, division, claimed, loads));
    count(numbers, given.answer.err().unwrap_or(0));
    let wrong = answers::wrong(out, town, given, right, shown)?;
    let kept = is_kept(town, division, loads, given, without);
    Ok(wrong + answers::fails(out, town, kept, shown)?)
}

// How many plans were counted.
pub fn all(numbers: [u64; NUMBERS]) -> u64 {
    let mut sum: u64 = 0;
    for times in numbers {
        sum = sum.wrapping_add(times);
    }
    sum
}

// The lines that say which numbers the plans with loads had.
pub fn lines(out: &mut impl Write, numbers: [u64; NUMBERS]) -> io::Result<()> {
    let all = all(numbers);
    print_line(out, b"hand plans with loads ", all)?;
    print_line(out, b"of these, passing ", numbers[0])?;
    print_line(out, b"of these, with a buffer too short ", numbers[6])?;
    print_line(
        out,
        b"of these, with a load or limit too great ",
        numbers[21],
    )?;
    print_line(
        out,
        b"of these, with a site over its kilograms ",
        numbers[22],
    )?;
    print_line(out, b"of these, with a site over its litres ", numbers[23])
}
