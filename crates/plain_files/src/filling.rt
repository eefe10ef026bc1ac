// What an accepted survey file of a small town holds, taken out record by record.
ghost use Rattle.std.specs.Prelude.{◌≡◌, ◌+◌, ◌≤◌, length};
ghost use Rattle.drawn_towns.specs.Small.{Small};

use crate::reading;
use drawn_towns::{BYTES, SITES, Town, WEIGHTS};
use plain_search::scores;

// A town, the kind of its plan, and whether its file has the new form.
#[derive(Clone, Copy, Debug, PartialEq, Eq)]
pub struct Filed {
    pub town: Town,
    pub kind: u8,
    pub new_form: bool,
}

// A number, brought to 1 to the most.
fn within(x: usize, most: usize) -> usize
    requires { 1 ≤ most }
    ensures { (1 ≤ result) × (result ≤ most) }
{
    x.clamp(1, most)
}

// The m scores.
fn scores_of(file: &[u8], m: usize) -> [u16; SITES]
    requires { m ≤ 5 }
    ensures { length result ≡ 5 }
{
    let mut scores = [0u16; SITES];
    for (i, score) in scores[..m].iter_mut().enumerate() {
        *score = reading::number(file, 9 + 2 * i) as u16;
    }
    scores
}

// The n weights, all 1 in an old file.
fn weights_of(file: &[u8], n: usize) -> [u8; WEIGHTS]
    requires { n ≤ 8 }
    ensures { length result ≡ 9 }
{
    let mut weights = [1u8; WEIGHTS];
    if !reading::is_new(file) {
        return weights;
    }
    let from = reading::weights_start(file) + 2;
    for (s, weight) in weights[..n].iter_mut().enumerate() {
        *weight = reading::byte(file, from + s) as u8;
    }
    weights
}

// The byte at a place of the list whose length stands at an index, and 0 behind the list.
fn listed(file: &[u8], at: usize, place: usize) -> u8
    requires { (at ≤ 90000) × (place ≤ 5) }
{
    if reading::byte(file, at) < place {
        return 0;
    }
    reading::byte(file, at + place) as u8
}

// The row of the list whose length stands at an index.
fn fill_row(file: &[u8], at: usize, row: &mut [u8])
    requires { (at ≤ 90000) × (length row.old ≤ 5) }
{
    for (i, site) in row.iter_mut().enumerate() {
        *site = listed(file, at, i + 1);
    }
}

// The rows of n streets and m sites.
fn rows_of(file: &[u8], n: usize, m: usize) -> [u8; BYTES]
    requires { (n ≤ 8) × (m ≤ 5) }
    ensures { length result ≡ 40 }
{
    let mut rows = [0u8; BYTES];
    let mut at = reading::streets_start(file) + 4;
    for s in 0..n {
        let from = scores::row_start(s, m);
        fill_row(file, at, &mut rows[from..from + m]);
        at += 5 + reading::byte(file, at);
    }
    rows
}

// The town of a file, which has 8 streets and 5 sites at most.
fn town_of(file: &[u8]) -> Town
    ensures { Small result }
{
    let n = within(reading::number(file, 2), 8);
    let m = within(reading::byte(file, 4), 5);
    let scores = scores_of(file, m);
    let weights = weights_of(file, n);
    let rows = rows_of(file, n, m);
    Town {
        n,
        m,
        k: within(reading::byte(file, 5), m),
        len: n * m,
        scores,
        weights,
        weighed: n,
        rows,
        sites: [0; SITES],
    }
}

// All that a file holds.
pub fn taken(file: &[u8]) -> Filed
    ensures { Small result.town }
{
    Filed {
        town: town_of(file),
        kind: reading::byte(file, 6) as u8,
        new_form: reading::is_new(file),
    }
}
