// What an entry gives for a small town, and what is right for it.
ghost use Rattle.std.specs.Prelude.{◌≤◌, IfOk};
ghost use Rattle.drawn_towns.specs.Small.{Small};

use crate::say;
use drawn_towns::{SITES, STREETS, Town};
use planner::Refusal;
use std::io::{self, Write};
use streams::print_line;

// what stands in a buffer before a call
pub const UNTOUCHED: u8 = 255;

// An answer, its total or the number of its refusal, and the buffers that come with it.
#[derive(Clone, Copy)]
pub struct Given {
    pub answer: Result<u32, u8>,
    pub division: [u8; STREETS],
    pub chosen: [u8; SITES],
}

// A call's answer, with the number of its refusal.
pub fn numbered(answer: Result<u32, Refusal>) -> Result<u32, u8> {
    answer.map_err(|refusal| refusal.number())
}

// What a plain program finds: nothing at 0, else the number of a refusal.
pub fn found(number: u8) -> Result<(), u8> {
    if number == 0 { Ok(()) } else { Err(number) }
}

impl Given {
    // An answer without buffers: they stand as nothing has touched them.
    pub fn alone(answer: Result<u32, u8>) -> Self {
        Given {
            answer,
            division: [UNTOUCHED; STREETS],
            chosen: [UNTOUCHED; SITES],
        }
    }

    // Whether what is given for n streets and k sites is right.
    fn is_right(self, right: Given, n: usize, k: usize) -> bool
        requires { (n ≤ 8) × (k ≤ 5) }
    {
        let Given {
            answer,
            division,
            chosen,
        } = right;
        self.answer == answer
            && self.division[..n] == division[..n]
            && self.chosen[..k] == chosen[..k]
    }

    // The lines of what is given for n streets and k sites, the first of which begins with a word.
    fn lines(self, out: &mut impl Write, word: &[u8], n: usize, k: usize) -> io::Result<()>
        requires { (n ≤ 8) × (k ≤ 5) }
    {
        out.write_all(word)?;
        match self.answer {
            Ok(total) => print_line(out, b" total ", u64::from(total))?,
            Err(number) => print_line(out, b" refused ", u64::from(number))?,
        }
        say::list_line(out, b"division", &self.division[..n])?;
        say::list_line(out, b"chosen", &self.chosen[..k])
    }
}

// 1 where what is given for a town is not right, else 0. What is wrong is printed if it is to be shown, and then what is right.
pub fn wrong(
    out: &mut impl Write,
    town: Town,
    given: Given,
    right: Given,
    shown: bool,
) -> io::Result<u64>
    requires { Small town }
    ensures { IfOk result (λ x. x ≤ 1) }
{
    if given.is_right(right, town.n, town.k) {
        return Ok(0);
    }
    if shown {
        say::town_lines(out, town)?;
        given.lines(out, b"given", town.n, town.k)?;
        right.lines(out, b"right", town.n, town.k)?;
    }
    Ok(1)
}

// 1 where a fact doesn't hold of a town, else 0. The town is printed if it is to be shown.
pub fn fails(out: &mut impl Write, town: Town, holds: bool, shown: bool) -> io::Result<u64>
    requires { Small town }
    ensures { IfOk result (λ x. x ≤ 1) }
{
    if holds {
        return Ok(0);
    }
    if shown {
        say::town_lines(out, town)?;
    }
    Ok(1)
}
