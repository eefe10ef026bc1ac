// What a survey file of either form is refused for, read from front to end.
ghost use Rattle.std.specs.Prelude.{◌+◌, ◌*◌, ◌≤◌, IfOk};

use crate::surveys;

// The byte at an index, and 0 past the end.
pub fn byte(file: &[u8], i: usize) -> usize
    ensures { result ≤ 255 }
{
    usize::from(file.get(i).copied().unwrap_or(0))
}

// The two bytes at an index as a number, low byte first.
pub fn number(file: &[u8], i: usize) -> usize
    requires { i ≤ 100000 }
    ensures { result ≤ 65535 }
{
    byte(file, i) + 256 * byte(file, i + 1)
}

// 12, 13: the mark at an index.
fn check_mark(file: &[u8], i: usize, mark: &[u8]) -> Result<(), u8>
    requires { i ≤ 100000 }
{
    let Some(found) = file.get(i..i + 2) else {
        return Err(12);
    };
    if found != mark {
        return Err(13);
    }
    Ok(())
}

// Whether a number lies outside 1 to the most.
fn is_outside(x: usize, most: usize) -> bool {
    !(1..=most).contains(&x)
}

// Whether a file's first mark is that of the new form.
pub fn is_new(file: &[u8]) -> bool {
    check_mark(file, 0, b"TW").is_ok()
}

// The town's record: every mark but TW stands where TN is due.
fn check_town(file: &[u8]) -> Result<(), u8> {
    if !is_new(file) {
        check_mark(file, 0, b"TN")?;
    }
    if file.len() < 7 {
        return Err(12);
    }
    if is_outside(number(file, 2), 400) {
        return Err(1);
    }
    if is_outside(byte(file, 4), 64) {
        return Err(2);
    }
    if is_outside(byte(file, 5), byte(file, 4)) {
        return Err(3);
    }
    if 1 < byte(file, 6) {
        return Err(4);
    }
    Ok(())
}

// 8: the m scores from an index on.
fn check_falling(file: &[u8], from: usize, m: usize) -> Result<(), u8>
    requires { (from ≤ 1000) × (m ≤ 255) }
{
    let mut before: usize = 1000;
    for i in 0..m {
        let score = number(file, from + 2 * i);
        if before < score {
            return Err(8);
        }
        before = score;
    }
    Ok(())
}

// The scores' record, behind the town's.
fn check_scores(file: &[u8], m: usize) -> Result<(), u8>
    requires { m ≤ 255 }
{
    check_mark(file, 7, b"SC")?;
    if file.len() < 9 + 2 * m {
        return Err(12);
    }
    check_falling(file, 9, m)
}

// The weights' record, behind the scores'; an old file has none.
fn check_weights(file: &[u8], from: usize, n: usize) -> Result<(), u8>
    requires { (from ≤ 1000) × (n ≤ 300) }
{
    if !is_new(file) {
        return Ok(());
    }
    check_mark(file, from, b"HW")?;
    let Some(weights) = file.get(from + 2..from + 2 + n) else {
        return Err(12);
    };
    surveys::check_weights(weights)
}

// 10, 11: a street's list.
fn check_list(list: &[u8], m: usize) -> Result<(), u8> {
    for (i, site) in list.iter().enumerate() {
        if is_outside(usize::from(*site), m) {
            return Err(10);
        }
        if list[..i].contains(site) {
            return Err(11);
        }
    }
    Ok(())
}

// A street's record behind its mark.
fn check_fields(file: &[u8], at: usize, m: usize, due: usize) -> Result<(), u8>
    requires { at ≤ 90000 }
{
    if file.len() < at + 5 {
        return Err(12);
    }
    if number(file, at + 2) != due {
        return Err(14);
    }
    let size = byte(file, at + 4);
    if m < size {
        return Err(15);
    }
    let Some(list) = file.get(at + 5..at + 5 + size) else {
        return Err(12);
    };
    check_list(list, m)
}

// Where a street's record ends.
fn street_end(file: &[u8], at: usize, m: usize, due: usize) -> Result<usize, u8>
    requires { at ≤ 90000 }
    ensures { IfOk result (λ end. end ≤ at + 260) }
{
    check_mark(file, at, b"ST")?;
    check_fields(file, at, m, due)?;
    Ok(at + 5 + byte(file, at + 4))
}

// The end's record: 12, 13, 16.
fn check_end(file: &[u8], at: usize) -> Result<(), u8>
    requires { at ≤ 100000 }
{
    check_mark(file, at, b"EN")?;
    if at + 2 < file.len() {
        return Err(16);
    }
    Ok(())
}

// The streets' records, and the end's.
fn check_streets(file: &[u8], from: usize, n: usize, m: usize) -> Result<(), u8>
    requires { (from ≤ 1000) × (n ≤ 300) }
{
    let mut at = from;
    for due in 1..=n {
        at = street_end(file, at, m, due)?;
    }
    check_end(file, at)
}

// The streets of a file, counted up to 300: the files that are read here are shorter than so many records, or weights.
pub fn streets_in(file: &[u8]) -> usize
    ensures { result ≤ 300 }
{
    number(file, 2).min(300)
}

// Where the weights' record of a file would begin.
pub fn weights_start(file: &[u8]) -> usize
    ensures { result ≤ 519 }
{
    9 + 2 * byte(file, 4)
}

// Where the streets' records of a file begin.
pub fn streets_start(file: &[u8]) -> usize
    ensures { result ≤ 821 }
{
    if is_new(file) {
        return weights_start(file) + 2 + streets_in(file);
    }
    weights_start(file)
}

// A whole file.
pub fn check(file: &[u8]) -> Result<(), u8> {
    check_town(file)?;
    let m = byte(file, 4);
    check_scores(file, m)?;
    let n = streets_in(file);
    check_weights(file, weights_start(file), n)?;
    check_streets(file, streets_start(file), n, m)
}

// The number of its refusal, and 0 where it is right.
// kept: a number with 0 for none, since a plain model gives the papers' numbers, against which the library's own enum is compared
pub fn refusal(file: &[u8]) -> u8 {
    check(file).err().unwrap_or(0)
}
