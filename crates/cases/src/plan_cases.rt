// Cases of lists, divisions, plans and floors.
use crate::input::{BYTES, Survey};
use crate::{input, say};
use planner::{Refusal, Town};
use std::io::{self, Read, Write};

// Command 4: the streets, the sites; the scores; the rows; the list of sites.
pub fn list_case(reader: &mut impl Read, out: &mut impl Write, weighed: bool) -> io::Result<()> {
    let n = input::number(reader)?;
    let m = input::number(reader)?;
    let mut survey = Survey::empty();
    let town = survey.read(reader, n, m, weighed)?;
    let mut sites = [0; BYTES];
    let sites = input::list(reader, &mut sites)?;
    say::answer(out, planner::list_total(town, sites))
}

// Commands 5, free, and 7, balanced: the streets, the sites; the scores; the rows; the list of sites; the division's buffer.
pub fn division_case<D>(
    reader: &mut impl Read,
    out: &mut impl Write,
    weighed: bool,
    divide: D,
) -> io::Result<()>
where
    D: Fn(Town<'_>, &[u8], &mut [u8]) -> Result<u32, Refusal>,
    requires { D.IsAlwaysCallable divide }
{
    let n = input::number(reader)?;
    let m = input::number(reader)?;
    let mut survey = Survey::empty();
    let town = survey.read(reader, n, m, weighed)?;
    let mut sites = [0; BYTES];
    let sites = input::list(reader, &mut sites)?;
    let mut division = [0; BYTES];
    let division = input::list(reader, &mut division)?;
    say::answer(out, divide(town, sites, division))?;
    say::buffer(out, b" division", division)
}

// Commands 6, free, and 8, balanced: the streets, the sites, the chosen; the scores; the rows; the buffers of the division and of the chosen
// sites. Command 16 is the same with the kind before them.
pub fn plan_case(
    reader: &mut impl Read,
    out: &mut impl Write,
    kind: usize,
    weighed: bool,
) -> io::Result<()> {
    let n = input::number(reader)?;
    let m = input::number(reader)?;
    let k = input::number(reader)?;
    let mut survey = Survey::empty();
    let town = survey.read(reader, n, m, weighed)?;
    let mut division = [0; BYTES];
    let division = input::list(reader, &mut division)?;
    let mut chosen = [0; BYTES];
    let chosen = input::list(reader, &mut chosen)?;
    say::answer(out, planner::plan(town, k, kind, division, chosen))?;
    say::buffer(out, b" division", division)?;
    say::buffer(out, b" chosen", chosen)
}

// Command 9: the streets, the sites, the chosen; the scores; the rows.
pub fn floor_case(reader: &mut impl Read, out: &mut impl Write, weighed: bool) -> io::Result<()> {
    let n = input::number(reader)?;
    let m = input::number(reader)?;
    let k = input::number(reader)?;
    let mut survey = Survey::empty();
    let town = survey.read(reader, n, m, weighed)?;
    say::answer(out, planner::floor(town, k))
}
