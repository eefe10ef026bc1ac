// Cases of files that are written, read and converted.
use crate::input::{BYTES, SCORES, Survey, WEIGHTS};
use crate::{input, say};
use planner::{Refusal, Sizes};
use std::io::{self, Read, Write};
use streams::print_number;

// The form of a file: 0 for the old one, any other number for the new one.
fn form(reader: &mut impl Read) -> io::Result<bool> {
    Ok(input::number(reader)? != 0)
}

// The form of the file of a case: the next number, or where the case has no weights the old form.
fn form_of(reader: &mut impl Read, weighed: bool) -> io::Result<bool> {
    if weighed {
        return form(reader);
    }
    Ok(false)
}

// Command 10: the streets, the sites, the chosen, the kind; with weights, the form; the scores; the rows; the file's buffer.
pub fn write_case(reader: &mut impl Read, out: &mut impl Write, weighed: bool) -> io::Result<()> {
    let n = input::number(reader)?;
    let m = input::number(reader)?;
    let k = input::number(reader)?;
    let kind = input::number(reader)?;
    let new_form = form_of(reader, weighed)?;
    let mut survey = Survey::empty();
    let town = survey.read(reader, n, m, weighed)?;
    let mut file = [0; BYTES];
    let file = input::list(reader, &mut file)?;
    say::answer(out, planner::write_file(town, k, kind, new_form, file))?;
    say::buffer(out, b" file", file)
}

// The reader's answer.
fn say_read(out: &mut impl Write, answer: Result<Sizes, Refusal>, weighed: bool) -> io::Result<()> {
    match answer {
        Ok(
            Sizes {
                n,
                m,
                k,
                kind,
                new_form,
            },
        ) => {
            print_number(out, b" streets ", n as u64)?;
            print_number(out, b" sites ", m as u64)?;
            print_number(out, b" chosen ", k as u64)?;
            print_number(out, b" kind ", kind as u64)?;
            if weighed {
                print_number(out, b" form ", u64::from(new_form))?;
            }
            Ok(())
        }
        Err(refusal) => say::refused(out, refusal),
    }
}

// The first bytes of a list, at most eight.
fn front(bytes: &[u8]) -> &[u8] {
    &bytes[..bytes.len().min(8)]
}

// Command 11: the file; the rows' buffer; the scores' buffer; with weights, their buffer, which else has the right length and is not printed. The first
// bytes of the rows are printed, and in a case with weights the first weights.
pub fn read_case(reader: &mut impl Read, out: &mut impl Write, weighed: bool) -> io::Result<()> {
    let mut file = [0; BYTES];
    let file = input::list(reader, &mut file)?;
    let mut rows = [0; BYTES];
    let rows = input::list(reader, &mut rows)?;
    let mut scores = [0; SCORES];
    let scores = input::list(reader, &mut scores)?;
    let mut weights = [0; WEIGHTS];
    let weights = input::weights_of(reader, weighed, 400, &mut weights)?;
    let answer = planner::read_file(file, scores, weights, rows);
    say_read(out, answer, weighed)?;
    say::buffer(out, b" rows", front(rows))?;
    if weighed {
        say::buffer(out, b" weights", front(weights))?;
    }
    Ok(())
}

// Command 18: the file; the form that is wanted; the buffer.
pub fn convert_case(reader: &mut impl Read, out: &mut impl Write) -> io::Result<()> {
    let mut file = [0; BYTES];
    let file = input::list(reader, &mut file)?;
    let wanted = form(reader)?;
    let mut buffer = [0; BYTES];
    let buffer = input::list(reader, &mut buffer)?;
    say::answer(out, planner::convert_file(file, wanted, buffer))?;
    say::buffer(out, b" file", buffer)
}
