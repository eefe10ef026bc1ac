// Files that are converted to both forms, into buffers of every length, and back.
ghost use Rattle.std.specs.Prelude.{◌≤◌};

use crate::counts::{Counts, Outcome, found};
use crate::lent::{FILE, UNTOUCHED};
use crate::writes;
use plain_files::converting;

// What the converter makes of a file, where this one is right.
fn converted(file: &[u8], wanted: bool, buffer: &mut [u8], right: &[u8]) -> Outcome {
    let answer = planner::convert_file(file, wanted, buffer);
    writes::outcome(answer, buffer, right)
}

// What is right for a file with a buffer of some length, where the file that is made has this size: after all else 7 for a buffer that is too short.
fn right_answer(file: &[u8], wanted: bool, room: usize, size: usize) -> Result<(), u8> {
    found(converting::refusal(file, wanted))?;
    if room < size { Err(7) } else { Ok(()) }
}

// Compares what the converter makes of a file with a buffer of some length.
fn compare_room(counts: &mut Counts, file: &[u8], wanted: bool, room: usize)
    requires { room ≤ 112 }
{
    let mut right = [0u8; FILE];
    let size = converting::convert(file, wanted, &mut right);
    let mut buffer = [UNTOUCHED; FILE];
    let given = converted(file, wanted, &mut buffer[..room], &right[..size]);
    let right = right_answer(file, wanted, room, size);
    counts.converter.compare(given, right);
}

// Compares what the converter makes of a file in both forms.
pub fn compare(counts: &mut Counts, file: &[u8]) {
    compare_room(counts, file, false, FILE);
    compare_room(counts, file, true, FILE);
}

// A file with a buffer of every length.
pub fn compare_rooms(counts: &mut Counts, file: &[u8], wanted: bool) {
    for room in 0..FILE + 1 {
        compare_room(counts, file, wanted, room);
    }
}

// A file that is converted to a form, in which these bytes are right.
fn compare_to(counts: &mut Counts, file: &[u8], wanted: bool, right: &[u8]) {
    let mut buffer = [UNTOUCHED; FILE];
    let given = converted(file, wanted, &mut buffer, right);
    counts.converter.compare(given, Ok(()));
}

// A file of a form to its own, in which it comes out as it is, and to the other one and back, where that loses no weight.
pub fn compare_ways(counts: &mut Counts, file: &[u8], new_form: bool) {
    compare_to(counts, file, new_form, file);
    let mut there = [UNTOUCHED; FILE];
    let Ok(size) = planner::convert_file(file, !new_form, &mut there) else {
        return;
    };
    if let Some(made) = there.get(..size as usize) {
        compare_to(counts, made, new_form, file);
    }
}
