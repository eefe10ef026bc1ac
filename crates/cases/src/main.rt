// Runs the library's entries on the cases of standard input and prints every answer, one line a case. A case is the number of a command and then
// the command's own numbers; with twenty more it is the command of the same name with weights, which stand behind the scores, and else each street has
// the weight 1.
#![tactic(auto)]

use input::{BYTES, SCORES, Survey};
use std::io::{self, Read, Write};

mod files;
mod hands;
mod input;
mod plan_cases;
mod say;

// the last command, what a command with weights has more, and the most cases
const LAST: usize = 18;

const WEIGHED: usize = 20;

const CASES: u64 = 10000;

// Command 1: the streets, the sites, the chosen; the scores; the rows.
fn check_case(reader: &mut impl Read, out: &mut impl Write, weighed: bool) -> io::Result<()> {
    let n = input::number(reader)?;
    let m = input::number(reader)?;
    let k = input::number(reader)?;
    let mut survey = Survey::empty();
    let town = survey.read(reader, n, m, weighed)?;
    say::checked(out, planner::check_survey(town, k))
}

// The weight of one street: the next number, or where the case has none 1.
fn one_weight(reader: &mut impl Read, weighed: bool) -> io::Result<u8> {
    if weighed {
        return input::value(reader);
    }
    Ok(1)
}

// Command 2: the sites; the scores; the row; the site.
fn row_case(reader: &mut impl Read, out: &mut impl Write, weighed: bool) -> io::Result<()> {
    let m = input::number(reader)?;
    let mut scores = [0; SCORES];
    let scores = input::list(reader, &mut scores)?;
    let weight = one_weight(reader, weighed)?;
    let mut row = [0; BYTES];
    let row = input::list(reader, &mut row)?;
    let site = input::value(reader)?;
    say::answer(out, planner::row_score(m, scores, weight, row, site))
}

// Command 3: the row.
fn part_case(reader: &mut impl Read, out: &mut impl Write) -> io::Result<()> {
    let mut row = [0; BYTES];
    let row = input::list(reader, &mut row)?;
    say::buffer(out, b" part", planner::ranked_part(row))
}

// The answer of one case, of a command without its twenty.
fn answered(
    reader: &mut impl Read,
    out: &mut impl Write,
    command: usize,
    weighed: bool,
) -> io::Result<()> {
    match command {
        1 => check_case(reader, out, weighed),
        2 => row_case(reader, out, weighed),
        3 => part_case(reader, out),
        4 => plan_cases::list_case(reader, out, weighed),
        5 => plan_cases::division_case(reader, out, weighed, planner::free_division),
        6 => plan_cases::plan_case(reader, out, 0, weighed),
        7 => plan_cases::division_case(reader, out, weighed, planner::balanced_division),
        8 => plan_cases::plan_case(reader, out, 1, weighed),
        9 => plan_cases::floor_case(reader, out, weighed),
        10 => files::write_case(reader, out, weighed),
        11 => files::read_case(reader, out, weighed),
        12 => hands::hand_case(reader, out, 0, false, weighed),
        13 => hands::hand_case(reader, out, 1, false, weighed),
        14 => hands::hand_case(reader, out, 0, true, weighed),
        15 => hands::hand_case(reader, out, 1, true, weighed),
        16 => {
            let kind = input::number(reader)?;
            plan_cases::plan_case(reader, out, kind, weighed)
        }
        17 => {
            let kind = input::number(reader)?;
            hands::hand_case(reader, out, kind, true, weighed)
        }
        _ => files::convert_case(reader, out),
    }
}

// A number as a command without its twenty, and whether it has weights; none where there is no such command.
fn command_of(number: usize) -> Option<(usize, bool)> {
    let weighed = WEIGHED < number;
    let command = if weighed { number - WEIGHED } else { number };
    if command <= LAST {
        Some((command, weighed))
    } else {
        None
    }
}

// Every case, up to a 0 in a command's place or to where no number is left. A read or a write that fails ends the run with its error.
fn main(rt: HostRuntime) -> io::Result<()> {
    let mut reader = rt.reader();
    let mut out = io::writer(&rt);
    for case in 1..=CASES {
        let number = input::number(&mut reader)?;
        if number == 0 {
            return Ok(());
        }
        let Some((command, weighed)) = command_of(number) else {
            return out.write_all(b"unknown command\n");
        };
        streams::print_decimal(&mut out, case as u64)?;
        answered(&mut reader, &mut out, command, weighed)?;
        out.write_all(b"\n")?;
    }
    Ok(())
}
