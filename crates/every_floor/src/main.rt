// The floor for every number of sites and every K: K streets with full lists and falling weights, of which the last is the smallest, against places that
// are counted without dividing.
#![tactic(auto)]

ghost use Rattle.std.specs.Prelude.{◌≤◌};

use plain_search::floors;
use plain_search::scores::wide;
use planner::{Refusal, Town};
use std::io::{self, Write};

// the most sites, and the most bytes of rows
const SITES: usize = 64;

const BYTES: usize = SITES * SITES;

// The score at a place, and 0 where there is no such place.
fn score_at(scores: &[u16; SITES], place: usize) -> u32
    ensures { result ≤ 65535 }
{
    match place.checked_sub(1).and_then(|at| scores.get(at)) {
        Some(score) => wide(*score),
        None => 0,
    }
}

// The floor where each round has one street, and each street the weight 1: the sum of the scores at the rounds' places.
fn expected(scores: &[u16; SITES], m: usize, k: usize) -> u32
    requires { (k ≤ m) × (m ≤ 64) }
    ensures { result ≤ 4194240 }
{
    let mut sum: u32 = 0;
    for i in 0..k {
        sum += score_at(scores, floors::place(m, k, i));
    }
    sum
}

// The weight of the last of k streets.
fn last_weight(k: usize) -> u32
    requires { k ≤ 64 }
    ensures { result ≤ 100 }
{
    (100 - k) as u32
}

// The floor with the weights.
fn weighed(scores: &[u16; SITES], m: usize, k: usize) -> u32
    requires { (k ≤ m) × (m ≤ 64) }
{
    last_weight(k) * expected(scores, m, k)
}

// How many bytes the rows of k streets have.
fn row_bytes(m: usize, k: usize) -> usize
    requires { (k ≤ m) × (m ≤ 64) }
    ensures { result ≤ 4096 }
{
    k * m
}

// 1 where the floor of k streets and as many rounds is right, else 0.
fn right_floor(
    scores: &[u16; SITES],
    weights: &[u8; SITES],
    rows: &[u8; BYTES],
    m: usize,
    k: usize,
) -> u64
    requires { (k ≤ m) × (m ≤ 64) }
    ensures { result ≤ 1 }
{
    let bytes = row_bytes(m, k);
    let town = Town {
        n: k,
        m,
        scores: &scores[..m],
        weights: &weights[..k],
        rows: &rows[..bytes],
    };
    u64::from(planner::floor(town, k) == Ok(weighed(scores, m, k)))
}

// How many floors of m sites are right, over every K.
fn right_floors(scores: &[u16; SITES], weights: &[u8; SITES], rows: &[u8; BYTES], m: usize) -> u64
    requires { (m ≤ 64) }
    ensures { result ≤ 64 }
{
    let mut count: u64 = 0;
    for k in 1..m + 1 {
        count += right_floor(scores, weights, rows, m, k);
    }
    count
}

// How many floors are right, over every number of sites and every K.
fn all_floors(scores: &[u16; SITES], weights: &[u8; SITES], rows: &mut [u8; BYTES]) -> u64 {
    let mut count: u64 = 0;
    for m in 1..SITES + 1 {
        full_towns::fill_rows(rows, m);
        count += right_floors(scores, weights, rows, m);
    }
    count
}

fn main(rt: HostRuntime) -> io::Result<()> {
    let mut scores = [0u16; SITES];
    let mut weights = [0u8; SITES];
    let mut rows = [0u8; BYTES];
    full_towns::fill_scores(&mut scores);
    full_towns::fill_weights(&mut weights);
    let right = all_floors(&scores, &weights, &mut rows);
    streams::print_line(&mut io::writer(&rt), b"right floors ", right)
}
