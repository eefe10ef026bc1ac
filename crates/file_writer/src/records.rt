// The records of a survey file, each written into a buffer from an index on. Each function gives back the index behind what it wrote.
ghost use Rattle.std.specs.Prelude.{◌≡◌, ◌+◌, ◌*◌, ◌≤◌, length};
ghost use Rattle.counting.specs.Bounds.{most_streets, most_sites};
ghost use Rattle.counting.specs.Buffers.{joined, Written};
ghost use Rattle.survey_file.specs.Encode.{town_mark, word, town_bytes, scores_bytes, weights_bytes, list_bytes, street_bytes};

use byte_writer::write_list;
use survey::{Town, rows};

// The marks: the letters TN and, in a new file, TW, then SC, HW, ST and EN as 16-bit numbers.
const TOWN: u16 = 0x4E54;

const NEW_TOWN: u16 = 0x5754;

const SCORES: u16 = 0x4353;

const WEIGHTS: u16 = 0x5748;

const STREET: u16 = 0x5453;

pub const END: u16 = 0x4E45;

// A 16-bit number as two bytes, low byte first.
pub fn write_word(x: u16, file: &mut [u8], i: usize) -> usize
    requires { i + 2 ≤ length file.old }
    ensures { Written file.old i (word x) file.new result }
{
    write_list(&x.to_le_bytes(), file, i)
}

// The mark of the first record, which says the file's form.
pub fn town_mark(new_form: bool) -> u16
    ensures { result ≡ town_mark new_form }
{
    if new_form { NEW_TOWN } else { TOWN }
}

// The record TN, in a new file TW: the sizes and the kind.
pub fn write_town(
    new_form: bool,
    n: usize,
    m: usize,
    k: usize,
    kind: usize,
    file: &mut [u8],
    i: usize,
) -> usize
    requires { (n ≤ most_streets) × (m ≤ most_sites) × (k ≤ most_sites) × (kind ≤ 1) × (i + 7 ≤ length file.old) }
    ensures { Written file.old i (town_bytes new_form n m k kind) file.new result }
{
    let behind_mark = write_word(town_mark(new_form), file, i);
    let behind_number = write_word(n as u16, file, behind_mark);
    write_list(&[m as u8, k as u8, kind as u8], file, behind_number)
}

// The record SC: the scores, two bytes each.
pub fn write_scores(scores: &[u16], file: &mut [u8], i: usize) -> usize
    requires { i + length (scores_bytes (length scores.now) scores.now) ≤ length file.old }
    ensures { Written file.old i (scores_bytes (length scores.now) scores.now) file.new result }
{
    let mut next = write_word(SCORES, file, i);
    for score in scores {
        next = write_word(*score, file, next);
    }
    next
}

// The record HW of a new file: the weights. An old file has none.
pub fn write_weights(new_form: bool, weights: &[u8], file: &mut [u8], i: usize) -> usize
    requires { i + length (weights_bytes new_form weights.now) ≤ length file.old }
    ensures { Written file.old i (weights_bytes new_form weights.now) file.new result }
{
    if !new_form {
        return i;
    }
    let behind_mark = write_word(WEIGHTS, file, i);
    write_list(weights, file, behind_mark)
}

// The record ST of a street: its number, the length of its list, and the list.
fn write_street(number: u16, list: &[u8], file: &mut [u8], i: usize) -> usize
    requires { (length list.now ≤ most_sites) × (i + length (list_bytes number list.now) ≤ length file.old) }
    ensures { Written file.old i (list_bytes number list.now) file.new result }
{
    let behind_mark = write_word(STREET, file, i);
    let behind_number = write_word(number, file, behind_mark);
    let behind_length = write_list(&[list.len() as u8], file, behind_number);
    write_list(list, file, behind_length)
}

// The records of all streets, in their order and numbered from 1.
pub fn write_streets<'a>(town: Town<'a>, file: &mut [u8], i: usize) -> usize
    requires { (town.n ≤ most_streets) × (town.m ≤ most_sites) × (length town.rows.now ≡ town.n * town.m)
        × (i + length (joined town.n (street_bytes town.m town.rows.now)) ≤ length file.old) }
    ensures { Written file.old i (joined town.entry.n (street_bytes town.entry.m town.entry.rows.now)) file.new result }
{
    let mut next = i;
    for s in 0..town.n {
        next = write_street((s + 1) as u16, rows::ranked(town.row(s)), file, next);
    }
    next
}
