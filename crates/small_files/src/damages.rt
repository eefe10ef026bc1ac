// Damaged files: every beginning of a file, every byte changed, overwritten by a mark, left out and doubled, wrong weights, and the other form's mark.
ghost use Rattle.std.specs.Prelude.{◌≡◌, ◌≤◌, ◌<◌, length};

use crate::counts::Counts;
use crate::lent::FILE;
use crate::{converts, reads};
use plain_files::reading;

// Compares what the reader and the converter make of a file.
pub fn compare(counts: &mut Counts, file: &[u8]) {
    reads::compare(counts, file);
    converts::compare(counts, file);
}

// Every beginning of a file.
fn compare_beginnings(counts: &mut Counts, file: &[u8]) {
    for end in 0..file.len() {
        compare(counts, &file[..end]);
    }
}

// A file with another byte at an index.
fn with_byte(file: [u8; FILE], at: usize, byte: u8) -> [u8; FILE]
    requires { (length file ≡ 112) × (at < 112) }
    ensures { length result ≡ 112 }
{
    let mut changed = file;
    changed[at] = byte;
    changed
}

// The same, compared.
fn compare_byte(counts: &mut Counts, file: [u8; FILE], len: usize, at: usize, byte: u8)
    requires { (length file ≡ 112) × (len ≤ 112) × (at < 112) }
{
    let changed = with_byte(file, at, byte);
    compare(counts, &changed[..len]);
}

// A byte to damage a file with: mostly a small number.
fn drawn_byte(seed: &mut u64) -> u8 {
    if drawn_towns::draw(seed, 4) == 0 {
        return drawn_towns::draw(seed, 256) as u8;
    }
    drawn_towns::draw(seed, 8) as u8
}

// Every byte of a file changed.
fn compare_bytes(seed: &mut u64, counts: &mut Counts, file: [u8; FILE], len: usize)
    requires { (length file ≡ 112) × (len ≤ 111) }
{
    for at in 0..len {
        compare_byte(counts, file, len, at, drawn_byte(seed));
    }
}

// One of the marks.
fn drawn_mark(seed: &mut u64) -> [u8; 2] {
    match drawn_towns::draw(seed, 6) {
        0 => *b"TN",
        1 => *b"TW",
        2 => *b"SC",
        3 => *b"HW",
        4 => *b"ST",
        _ => *b"EN",
    }
}

// A file with a mark from an index on.
fn compare_mark(counts: &mut Counts, file: [u8; FILE], len: usize, at: usize, mark: [u8; 2])
    requires { (length file ≡ 112) × (len ≤ 112) × (at ≤ 110) }
{
    let mut changed = file;
    changed[at..at + 2].copy_from_slice(&mark);
    compare(counts, &changed[..len]);
}

// Every place of a file overwritten by a mark.
fn compare_marks(seed: &mut u64, counts: &mut Counts, file: [u8; FILE], len: usize)
    requires { (length file ≡ 112) × (len ≤ 111) }
{
    for at in 0..len {
        compare_mark(counts, file, len, at, drawn_mark(seed));
    }
}

// A file with the byte at an index left out.
fn without(file: [u8; FILE], at: usize) -> [u8; FILE]
    requires { (length file ≡ 112) × (at < 112) }
    ensures { length result ≡ 112 }
{
    let mut shorter = file;
    shorter[at..FILE - 1].copy_from_slice(&file[at + 1..]);
    shorter
}

// A file with the byte at an index twice.
fn with_twice(file: [u8; FILE], at: usize) -> [u8; FILE]
    requires { (length file ≡ 112) × (at < 112) }
    ensures { length result ≡ 112 }
{
    let mut longer = file;
    longer[at + 1..].copy_from_slice(&file[at..FILE - 1]);
    longer
}

// A file with the byte at an index left out, and with it twice.
fn compare_shifts(counts: &mut Counts, file: [u8; FILE], len: usize, at: usize)
    requires { (length file ≡ 112) × (len ≤ 111) × (at < len) }
{
    let shorter = without(file, at);
    let longer = with_twice(file, at);
    compare(counts, &shorter[..len - 1]);
    compare(counts, &longer[..len + 1]);
}

// Every byte of a file left out, and twice.
fn compare_lengths(counts: &mut Counts, file: [u8; FILE], len: usize)
    requires { (length file ≡ 112) × (len ≤ 111) }
{
    for at in 0..len {
        compare_shifts(counts, file, len, at);
    }
}

// Every byte from an index up to another made 0, and 100: in a new file these are the weights.
fn compare_weights(counts: &mut Counts, file: [u8; FILE], len: usize, from: usize, to: usize)
    requires { (length file ≡ 112) × (len ≤ 111) × (to ≤ 111) }
{
    for at in from..to {
        compare_byte(counts, file, len, at, 0);
        compare_byte(counts, file, len, at, 100);
    }
}

// All damaged copies of a file of n streets and m sites.
pub fn compare_damages(
    seed: &mut u64,
    counts: &mut Counts,
    file: [u8; FILE],
    len: usize,
    n: usize,
    m: usize,
)
    requires { (length file ≡ 112) × (len ≤ 111) × (n ≤ 8) × (m ≤ 5) }
{
    compare_beginnings(counts, &file[..len]);
    compare_bytes(seed, counts, file, len);
    compare_marks(seed, counts, file, len);
    compare_lengths(counts, file, len);
    compare_weights(counts, file, len, 11 + 2 * m, 11 + 2 * m + n);
    compare_byte(counts, file, len, 1, b'N');
    compare_byte(counts, file, len, 1, b'W');
}
