// Cases of hand plans. Commands 12 and 13 have no loads: each street brings 0, and each limit is the greatest one. Commands 14, 15 and 17 read them.
use crate::input::{BYTES, LOADS, Survey};
use crate::{input, say};
use planner::{Loads, Refusal, Town};
use std::io::{self, Read, Write};

// the greatest limit
const MOST: u32 = 1000000;

// What stands behind the division in a case: the claimed total; the kilograms; the litres; the limits of both.
fn loaded_hand(
    reader: &mut impl Read,
    loaded: bool,
    town: Town<'_>,
    k: usize,
    kind: usize,
    division: &[u8],
) -> io::Result<Result<u32, Refusal>> {
    let mut kilograms = [0; LOADS];
    let mut litres = [0; LOADS];
    let mut kilogram_limits = [0; LOADS];
    let mut litre_limits = [0; LOADS];
    let claimed = input::value(reader)?;
    let loads = Loads {
        kilograms: input::loads_of(reader, loaded, 0, town.n, &mut kilograms)?,
        litres: input::loads_of(reader, loaded, 0, town.n, &mut litres)?,
        kilogram_limits: input::loads_of(reader, loaded, MOST, town.m, &mut kilogram_limits)?,
        litre_limits: input::loads_of(reader, loaded, MOST, town.m, &mut litre_limits)?,
    };
    Ok(planner::hand_plan(town, k, kind, division, claimed, loads))
}

// Commands 12, free, and 13, balanced: the streets, the sites, the chosen; the scores; the rows; the division; the claimed total. Commands 14 and 15
// are the same with loads, and command 17 also with the kind before them.
pub fn hand_case(
    reader: &mut impl Read,
    out: &mut impl Write,
    kind: usize,
    loaded: bool,
    weighed: bool,
) -> io::Result<()> {
    let n = input::number(reader)?;
    let m = input::number(reader)?;
    let k = input::number(reader)?;
    let mut survey = Survey::empty();
    let town = survey.read(reader, n, m, weighed)?;
    let mut division = [0; BYTES];
    let division = input::list(reader, &mut division)?;
    let given = loaded_hand(reader, loaded, town, k, kind, division)?;
    say::answer(out, given)
}
