// What the scores, weights and rows of a survey of the right sizes are refused for.
ghost use Rattle.std.specs.Prelude.{◌≤◌};

use drawn_towns::BYTES;
use plain_search::scores;

// 8: a score above 1,000 or above the one before.
fn check_scores(scores: &[u16]) -> Result<(), u8> {
    let mut before: u16 = 1000;
    for &score in scores {
        if before < score {
            return Err(8);
        }
        before = score;
    }
    Ok(())
}

// 24: a weight outside 1 to 99.
fn check_weight(weight: u8) -> Result<(), u8> {
    if (1..=99).contains(&weight) {
        Ok(())
    } else {
        Err(24)
    }
}

// The number of that refusal, and 0 where the weight is right.
// kept: a number with 0 for none, since a plain model gives the papers' numbers, against which the library's own enum is compared
pub fn weight_refusal(weight: u8) -> u8 {
    check_weight(weight).err().unwrap_or(0)
}

// The weights, street by street.
pub fn check_weights(weights: &[u8]) -> Result<(), u8> {
    for &weight in weights {
        check_weight(weight)?;
    }
    Ok(())
}

// 25: a weight that isn't 1, where an old file is to be made.
pub fn check_lost(weights: &[u8]) -> Result<(), u8> {
    if weights.iter().any(|weight| *weight != 1) {
        return Err(25);
    }
    Ok(())
}

// The number of that refusal, and 0 where no weight is lost.
// kept: a number with 0 for none, since a plain model gives the papers' numbers, against which the library's own enum is compared
pub fn lost_refusal(weights: &[u8]) -> u8 {
    check_lost(weights).err().unwrap_or(0)
}

// 9, 10, 11: a byte of a row that is no zero, behind the bytes before it.
fn check_byte(before: &[u8], b: u8, m: usize) -> Result<(), u8> {
    if before.contains(&0) {
        return Err(9);
    }
    if m < usize::from(b) {
        return Err(10);
    }
    if before.contains(&b) {
        return Err(11);
    }
    Ok(())
}

// A row, byte by byte.
fn check_row(row: &[u8], m: usize) -> Result<(), u8> {
    for (j, &b) in row.iter().enumerate() {
        if b != 0 {
            check_byte(&row[..j], b, m)?;
        }
    }
    Ok(())
}

// The rows, street by street.
fn check_rows(n: usize, m: usize, rows: [u8; BYTES]) -> Result<(), u8>
    requires { (n ≤ 8) × (m ≤ 5) }
{
    for s in 0..n {
        let from = scores::row_start(s, m);
        check_row(&rows[from..from + m], m)?;
    }
    Ok(())
}

// The scores, then the weights, and then n rows of m bytes.
fn check(n: usize, m: usize, scores: &[u16], weights: &[u8], rows: [u8; BYTES]) -> Result<(), u8>
    requires { (n ≤ 8) × (m ≤ 5) }
{
    check_scores(scores)?;
    check_weights(weights)?;
    check_rows(n, m, rows)
}

// The number of their refusal, and 0 where they are right.
// kept: a number with 0 for none, since a plain model gives the papers' numbers, against which the library's own enum is compared
pub fn refusal(n: usize, m: usize, scores: &[u16], weights: &[u8], rows: [u8; BYTES]) -> u8
    requires { (n ≤ 8) × (m ≤ 5) }
{
    check(n, m, scores, weights, rows).err().unwrap_or(0)
}
