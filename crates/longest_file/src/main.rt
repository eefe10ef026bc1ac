// Writes the survey that has the longest file, 400 full lists of 64 sites, in the old form and, with weights, in the new one, reads each file back,
// writes it again, converts it to the other form and back, and compares.
#![tactic(auto)]

use planner::{Refusal, Sizes, Town};
use std::io::{self, Write};
use streams::print_line;

// the bytes of the longest file of each form
const OLD: usize = 27739;

const NEW: usize = 28141;

// How many bytes of a list are not those of another, which are all where the other is shorter.
fn differences(a: &[u8], b: &[u8]) -> usize {
    if b.len() < a.len() {
        return a.len();
    }
    a.iter().zip(b).filter(|(x, y)| **x != **y).count()
}

// Why a call refuses.
fn say_refused(out: &mut impl Write, refusal: Refusal) -> io::Result<()> {
    print_line(out, b"refused ", u64::from(refusal.number()))
}

// The answer of the writer or the converter.
fn say_made(out: &mut impl Write, answer: Result<u32, Refusal>) -> io::Result<()> {
    match answer {
        Ok(bytes) => print_line(out, b"bytes ", u64::from(bytes)),
        Err(refusal) => say_refused(out, refusal),
    }
}

// The reader's answer. The form is 0 for the old one, 1 for the new one.
fn say_read(out: &mut impl Write, answer: Result<Sizes, Refusal>) -> io::Result<()> {
    match answer {
        Ok(
            Sizes {
                n,
                m,
                k,
                kind,
                new_form,
            },
        ) => {
            print_line(out, b"streets ", n as u64)?;
            print_line(out, b"sites ", m as u64)?;
            print_line(out, b"chosen ", k as u64)?;
            print_line(out, b"kind ", kind as u64)?;
            print_line(out, b"form ", u64::from(new_form))
        }
        Err(refusal) => say_refused(out, refusal),
    }
}

// The largest town.
fn full_town<'a>(scores: &'a [u16], weights: &'a [u8], rows: &'a [u8]) -> Town<'a> {
    Town {
        n: 400,
        m: 64,
        scores,
        weights,
        rows,
    }
}

// A file is read, and written again from what was read; weights and rows are those that it was written from.
fn read_and_written(
    out: &mut impl Write,
    new_form: bool,
    file: &[u8],
    weights: &[u8],
    rows: &[u8],
    again: &mut [u8],
) -> io::Result<()> {
    let mut table = [0u16; 64];
    let mut counted = [0u8; 400];
    let mut back = [0u8; 25600];
    say_read(
        out,
        planner::read_file(file, &mut table, &mut counted, &mut back),
    )?;
    say_made(
        out,
        planner::write_file(full_town(&table, &counted, &back), 64, 1, new_form, again),
    )?;
    print_line(
        out,
        b"weights that differ ",
        differences(weights, &counted) as u64,
    )?;
    print_line(
        out,
        b"row bytes that differ ",
        differences(rows, &back) as u64,
    )?;
    print_line(
        out,
        b"file bytes that differ ",
        differences(file, again) as u64,
    )
}

// The longest file of the old form: converted, it has all weights 1, and conversion back gives the bytes one began with.
fn old_file(out: &mut impl Write, scores: &[u16], rows: &[u8]) -> io::Result<()> {
    let weights = [1u8; 400];
    let mut file = [0u8; OLD];
    let mut again = [0u8; OLD];
    let mut other = [0u8; NEW];
    let mut back = [0u8; OLD];
    say_made(
        out,
        planner::write_file(full_town(scores, &weights, rows), 64, 1, false, &mut file),
    )?;
    read_and_written(out, false, &file, &weights, rows, &mut again)?;
    say_made(out, planner::convert_file(&file, true, &mut other))?;
    say_made(out, planner::convert_file(&other, false, &mut back))?;
    print_line(
        out,
        b"file bytes that differ ",
        differences(&file, &back) as u64,
    )
}

// The longest file: converted to its own form it comes out as it is, and an old one would lose its weights.
fn new_file(out: &mut impl Write, scores: &[u16], rows: &[u8]) -> io::Result<()> {
    let mut weights = [0u8; 400];
    let mut file = [0u8; NEW];
    let mut again = [0u8; NEW];
    let mut own = [0u8; NEW];
    let mut other = [0u8; OLD];
    full_towns::fill_weights(&mut weights);
    say_made(
        out,
        planner::write_file(full_town(scores, &weights, rows), 64, 1, true, &mut file),
    )?;
    read_and_written(out, true, &file, &weights, rows, &mut again)?;
    say_made(out, planner::convert_file(&file, true, &mut own))?;
    print_line(
        out,
        b"file bytes that differ ",
        differences(&file, &own) as u64,
    )?;
    say_made(out, planner::convert_file(&file, false, &mut other))
}

fn main(rt: HostRuntime) -> io::Result<()> {
    let mut rows = [0u8; 25600];
    let mut scores = [0u16; 64];
    full_towns::fill_rows(&mut rows, 64);
    full_towns::fill_scores(&mut scores);
    let mut out = io::writer(&rt);
    old_file(&mut out, &scores, &rows)?;
    new_file(&mut out, &scores, &rows)
}
