// The second pass over a survey file, which has been checked: it fills the buffers and can't fail.
#![tactic(auto)]

ghost use Rattle.std.specs.Prelude.{true, cond, ◌≡◌, ◌+◌, ◌*◌, ◌≤◌, ◌<◌, length, take, drop};
ghost use Rattle.counting.specs.Bounds.{most_streets, most_sites, most_rows};
ghost use Rattle.counting.specs.Lists.{at};
ghost use Rattle.counting.specs.Buffers.{Mapped};
ghost use Rattle.survey_file.specs.Decode.{word_at, list_in, rows_in};
ghost use Rattle.survey_file.specs.FileBuffers.{rows_read, scores_read, weights_read};

use file_reader::fields;
use survey_file::taken::TakenFile;
use survey_file::{Sizes, weights_size};

// The scores, one after another.
fn fill_scores(file: &[u8], m: usize, scores: &mut [u16])
    requires { (9 + 2 * m ≤ length file.now) × (m ≤ length scores.old) }
    ensures { Mapped (λ i x. word_at file.now (9 + 2 * i)) scores.old scores.new m }
{
    // kept: the new form is no plainer: the place in the file goes by the number, too
    for i in 0..m {
        scores[i] = fields::word_at(file, 9 + 2 * i) as u16;
    }
}

// The weight of the street i: the byte behind an index in a file of the new form, 1 in an old one.
fn weight(file: &[u8], from: usize, i: usize, new_form: bool) -> u8
    requires { new_form ≡ true → from + i < length file.now }
    ensures { result ≡ cond new_form (at file.now (from + i)) 1 }
{
    if new_form { file[from + i] } else { 1 }
}

// The weights, by street.
fn fill_weights(file: &[u8], from: usize, n: usize, new_form: bool, weights: &mut [u8])
    requires { (new_form ≡ true → from + n ≤ length file.now) × (n ≤ length weights.old) }
    ensures { Mapped (λ i x. cond new_form (at file.now (from + i)) 1) weights.old weights.new n }
{
    // kept: the new form is no plainer: the place in the file goes by the number, too
    for i in 0..n {
        weights[i] = weight(file, from, i, new_form);
    }
}

// A byte of a street's list, 0 behind its end.
fn entry(file: &[u8], start: usize, size: usize, j: usize) -> u8
    requires { start + size ≤ length file.now }
    ensures { result ≡ at (take size (drop start file.now)) j }
{
    if size <= j {
        return 0;
    }
    file[start + j]
}

// A street's row: the list of the record that begins at an index, then zeros.
fn fill_row(file: &[u8], from: usize, row: &mut [u8])
    requires { from + 5 + at file.now (from + 4) ≤ length file.now }
    ensures { Mapped (λ j x. at (list_in (drop from file.now)) j) row.old row.new (length row.old) }
{
    let size = file[from + 4] as usize;
    let start = from + 5;
    for (j, site) in row.iter_mut().enumerate() {
        *site = entry(file, start, size, j);
    }
}

// The rows, street by street: each record tells where the next one begins.
fn fill_rows<'a>(taken: TakenFile<'a>, rows: &mut [u8])
    requires { length rows.old ≡ most_rows }
    ensures { Mapped (λ i x. at (rows_in taken.entry.file.now) i) rows.old rows.new (taken.entry.sizes.n * taken.entry.sizes.m) }
{
    let Sizes { n, m, new_form, .. } = taken.sizes;
    let mut from = 9 + 2 * m + weights_size(n, new_form);
    // kept: of a slice that is lent in chunks to be written a proof knows the length alone afterwards
    for s in 0..n {
        let low = s * m;
        fill_row(taken.file, from, &mut rows[low..low + m]);
        from += 5 + taken.file[from + 4] as usize;
    }
}

// The three buffers: the first m scores, the first n weights and the first n times m bytes of the rows.
pub fn fill<'a>(taken: TakenFile<'a>, scores: &mut [u16], weights: &mut [u8], rows: &mut [u8])
    requires { (length rows.old ≡ most_rows) × (length scores.old ≡ most_sites) × (length weights.old ≡ most_streets) }
    ensures rows { rows.new ≡ rows_read taken.entry.file.now rows.old }
    ensures scores { scores.new ≡ scores_read taken.entry.file.now scores.old }
    ensures weights { weights.new ≡ weights_read taken.entry.file.now weights.old }
{
    let Sizes { n, m, new_form, .. } = taken.sizes;
    fill_scores(taken.file, m, scores);
    fill_weights(taken.file, 11 + 2 * m, n, new_form, weights);
    fill_rows(taken, rows);
}
