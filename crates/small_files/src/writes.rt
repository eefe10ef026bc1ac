// Surveys that are written in both forms, into buffers of every length, and surveys that are refused.
ghost use Rattle.std.specs.Prelude.{◌≤◌};
ghost use Rattle.drawn_towns.specs.Small.{Small};

use crate::counts::{Counts, Outcome, found};
use crate::lent::{FILE, UNTOUCHED};
use crate::{counts, lent};
use drawn_towns::{Town, changes, weights};
use plain_files::{surveys, writing};
use planner::Refusal;

// What an answer and its buffer come to: the right file and its length, or a buffer as it was.
pub fn outcome(answer: Result<u32, Refusal>, buffer: &[u8], right: &[u8]) -> Outcome {
    let is_right = match answer {
        Ok(size) => size as usize == right.len() && lent::holds(buffer, right, &[UNTOUCHED; FILE]),
        Err(_) => lent::holds(buffer, &[], &[UNTOUCHED; FILE]),
    };
    counts::outcome(answer, is_right)
}

// A town's survey, as a caller lends it.
fn survey(town: &Town) -> planner::Town<'_>
    requires { Small town.now }
{
    let Town {
        n,
        m,
        len,
        scores,
        weights,
        weighed,
        rows,
        ..
    } = town;
    planner::Town {
        n: *n,
        m: *m,
        scores: &scores[..*m],
        weights: &weights[..*weighed],
        rows: &rows[..*len],
    }
}

// What the writer makes of a town, where this file is right.
fn written(town: Town, kind: u8, new_form: bool, buffer: &mut [u8], right: &[u8]) -> Outcome
    requires { Small town }
{
    let kind = usize::from(kind);
    let answer = planner::write_file(survey(&town), town.k, kind, new_form, buffer);
    outcome(answer, buffer, right)
}

// What a town's survey is refused for: 6, 8, 24, 9, 10, 11, and 25 for the weights of a town, where an old file is to be made.
fn right_survey(town: Town, new_form: bool) -> Result<(), u8>
    requires { Small town }
{
    if town.weighed != town.n {
        return Err(6);
    }
    let lent = survey(&town);
    found(surveys::refusal(town.n, town.m, lent.scores, lent.weights, town.rows))?;
    if new_form {
        return Ok(());
    }
    found(surveys::lost_refusal(lent.weights))
}

// What is right for a town, a form and a buffer of some length, where its file has this size.
fn right_answer(town: Town, new_form: bool, room: usize, size: usize) -> Result<(), u8>
    requires { Small town }
{
    right_survey(town, new_form)?;
    if room < size { Err(7) } else { Ok(()) }
}

// Compares what the writer makes of a town with a buffer of some length.
fn compare(counts: &mut Counts, town: Town, kind: u8, new_form: bool, room: usize)
    requires { Small town × (room ≤ 112) }
{
    let mut right = [0u8; FILE];
    let size = writing::write(&mut right, town, kind, new_form);
    let mut buffer = [UNTOUCHED; FILE];
    let given = written(town, kind, new_form, &mut buffer[..room], &right[..size]);
    counts
        .writer
        .compare(given, right_answer(town, new_form, room, size));
}

// A town in a form, with a buffer of every length.
pub fn compare_rooms(counts: &mut Counts, town: Town, kind: u8, new_form: bool)
    requires { Small town }
{
    for room in 0..FILE + 1 {
        compare(counts, town, kind, new_form, room);
    }
}

// A town in both forms, with a buffer of a drawn length.
fn compare_forms(seed: &mut u64, counts: &mut Counts, town: Town, kind: u8)
    requires { Small town }
{
    compare(counts, town, kind, false, drawn_towns::draw(seed, FILE + 1));
    compare(counts, town, kind, true, drawn_towns::draw(seed, FILE + 1));
}

// A town with a weight too few, and with one too many.
fn compare_counts(seed: &mut u64, counts: &mut Counts, town: Town, kind: u8)
    requires { Small town }
{
    compare_forms(seed, counts, weights::with_count(town, town.n - 1), kind);
    compare_forms(seed, counts, weights::with_count(town, town.n + 1), kind);
}

// A town with a changed score, weight and byte.
fn drawn_change(seed: &mut u64, town: Town) -> Town
    requires { Small town }
    ensures { Small result }
{
    let scored = changes::with_score(seed, town);
    let weighed = changes::with_weight(seed, scored);
    changes::with_byte(seed, weighed)
}

// A town with a changed score, weight or byte.
fn compare_changed(seed: &mut u64, counts: &mut Counts, town: Town, kind: u8)
    requires { Small town }
{
    let scored = changes::with_score(seed, town);
    compare_forms(seed, counts, scored, kind);
    let weighed = changes::with_weight(seed, town);
    compare_forms(seed, counts, weighed, kind);
    let ranked = changes::with_byte(seed, town);
    compare_forms(seed, counts, ranked, kind);
}

// All of these, and a town with one of each change.
pub fn compare_changes(seed: &mut u64, counts: &mut Counts, town: Town, kind: u8)
    requires { Small town }
{
    compare_counts(seed, counts, town, kind);
    compare_changed(seed, counts, town, kind);
    let thrice = drawn_change(seed, town);
    compare_forms(seed, counts, thrice, kind);
}
