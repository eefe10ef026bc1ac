// Files that are read into buffers of the right lengths and of wrong ones.
ghost use Rattle.std.specs.Prelude.{◌≤◌};
ghost use Rattle.drawn_towns.specs.Small.{Small};

use crate::counts::{Counts, Outcome, found};
use crate::lent::{UNSCORED, UNTOUCHED};
use crate::{counts, lent};
use drawn_towns::Town;
use plain_files::filling::Filed;
use plain_files::{filling, reading};
use planner::Sizes;

// the right lengths of the reader's buffers, each with one entry more in its array
const SCORES: usize = 64;

const WEIGHTS: usize = 400;

const ROWS: usize = 25600;

// Whether the reader's numbers are those of a file.
fn is_told(held: Filed, sizes: Sizes) -> bool {
    sizes
        == Sizes {
            n: held.town.n,
            m: held.town.m,
            k: held.town.k,
            kind: usize::from(held.kind),
            new_form: held.new_form,
        }
}

// Whether the reader's buffers hold what a file holds, and nothing behind it was touched.
fn is_filled(held: Filed, scores: &[u16], weights: &[u8], rows: &[u8]) -> bool
    requires { Small held.town }
{
    let Town {
        n,
        m,
        len,
        scores: right_scores,
        weights: right_weights,
        rows: right_rows,
        ..
    } = held.town;
    lent::holds(scores, &right_scores[..m], &[UNSCORED; SCORES + 1])
        && lent::holds(weights, &right_weights[..n], &[UNTOUCHED; WEIGHTS + 1])
        && lent::holds(rows, &right_rows[..len], &[UNTOUCHED; ROWS + 1])
}

// Whether the reader's buffers hold what they held before the call.
fn is_untouched(scores: &[u16], weights: &[u8], rows: &[u8]) -> bool {
    lent::holds(scores, &[], &[UNSCORED; SCORES + 1])
        && lent::holds(weights, &[], &[UNTOUCHED; WEIGHTS + 1])
        && lent::holds(rows, &[], &[UNTOUCHED; ROWS + 1])
}

// What the reader makes of a file: it tells and fills in what the file holds, or leaves the buffers as they were.
fn outcome(file: &[u8], scores: &mut [u16], weights: &mut [u8], rows: &mut [u8]) -> Outcome {
    let answer = planner::read_file(file, scores, weights, rows);
    let is_right = match answer {
        Ok(sizes) => {
            let held = filling::taken(file);
            is_told(held, sizes) && is_filled(held, scores, weights, rows)
        }
        Err(_) => is_untouched(scores, weights, rows),
    };
    counts::outcome(answer, is_right)
}

// What the reader makes of a file with buffers of some lengths.
fn lent_outcome(file: &[u8], scored: usize, weighed: usize, len: usize) -> Outcome
    requires { (scored ≤ 65) × (weighed ≤ 401) × (len ≤ 25601) }
{
    let mut scores = [UNSCORED; SCORES + 1];
    let mut weights = [UNTOUCHED; WEIGHTS + 1];
    let mut rows = [UNTOUCHED; ROWS + 1];
    outcome(
        file,
        &mut scores[..scored],
        &mut weights[..weighed],
        &mut rows[..len],
    )
}

// Compares what the reader makes of a file.
pub fn compare(counts: &mut Counts, file: &[u8]) {
    let given = lent_outcome(file, SCORES, WEIGHTS, ROWS);
    counts.reader.compare(given, found(reading::refusal(file)));
}

// Compares what the reader makes of a file with a buffer of a wrong length.
fn compare_lent(counts: &mut Counts, file: &[u8], scored: usize, weighed: usize, len: usize)
    requires { (scored ≤ 65) × (weighed ≤ 401) × (len ≤ 25601) }
{
    let given = lent_outcome(file, scored, weighed, len);
    counts.reader.compare(given, Err(6));
}

// A file with a buffer of scores that is empty, one too short and one too long.
fn compare_scores(counts: &mut Counts, file: &[u8]) {
    compare_lent(counts, file, 0, WEIGHTS, ROWS);
    compare_lent(counts, file, SCORES - 1, WEIGHTS, ROWS);
    compare_lent(counts, file, SCORES + 1, WEIGHTS, ROWS);
}

// The same for the weights.
fn compare_weights(counts: &mut Counts, file: &[u8]) {
    compare_lent(counts, file, SCORES, 0, ROWS);
    compare_lent(counts, file, SCORES, WEIGHTS - 1, ROWS);
    compare_lent(counts, file, SCORES, WEIGHTS + 1, ROWS);
}

// The same for the rows.
fn compare_rows(counts: &mut Counts, file: &[u8]) {
    compare_lent(counts, file, SCORES, WEIGHTS, 0);
    compare_lent(counts, file, SCORES, WEIGHTS, ROWS - 1);
    compare_lent(counts, file, SCORES, WEIGHTS, ROWS + 1);
}

// A file with each buffer of a wrong length.
pub fn compare_lengths(counts: &mut Counts, file: &[u8]) {
    compare_scores(counts, file);
    compare_weights(counts, file);
    compare_rows(counts, file);
}
