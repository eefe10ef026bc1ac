// The survey file of a small town, in either form, written byte behind byte. Each function gives back the index behind what it wrote.
ghost use Rattle.std.specs.Prelude.{◌≡◌, ◌+◌, ◌≤◌, length};
ghost use Rattle.drawn_towns.specs.Small.{Small};

use drawn_towns::Town;
use plain_search::scores;

// Bytes, where there is room for them.
fn put(file: &mut [u8], from: usize, bytes: &[u8]) -> usize
    requires { (from ≤ 9000) × (length bytes.now ≤ 9) }
    ensures { result ≡ from + length bytes.now }
{
    for (i, &b) in bytes.iter().enumerate() {
        if let Some(entry) = file.get_mut(from + i) {
            *entry = b;
        }
    }
    from + bytes.len()
}

// A number of two bytes, low byte first.
fn put_number(file: &mut [u8], from: usize, x: u16) -> usize
    requires { from ≤ 9000 }
    ensures { result ≡ from + 2 }
{
    put(file, from, &x.to_le_bytes())
}

// The town's record.
fn put_town(file: &mut [u8], town: Town, kind: u8, new_form: bool) -> usize
    requires { Small town }
    ensures { result ≡ 7 }
{
    put(file, 0, if new_form { b"TW" } else { b"TN" });
    put_number(file, 2, town.n as u16);
    put(file, 4, &[town.m as u8, town.k as u8, kind])
}

// The scores' record, behind it.
fn put_scores(file: &mut [u8], town: Town) -> usize
    requires { Small town }
    ensures { result ≤ 19 }
{
    let mut next = put(file, 7, b"SC");
    for &score in &town.scores[..town.m] {
        next = put_number(file, next, score);
    }
    next
}

// The weights' record of a new file; an old one has none.
fn put_weights(file: &mut [u8], from: usize, town: Town, new_form: bool) -> usize
    requires { Small town × (from ≤ 19) }
    ensures { result ≤ 29 }
{
    if !new_form {
        return from;
    }
    let weights = put(file, from, b"HW");
    put(file, weights, &town.weights[..town.n])
}

// The record of street s.
fn put_street(file: &mut [u8], from: usize, town: Town, s: usize) -> usize
    requires { Small town × (from ≤ 900) × (s ≤ 7) }
    ensures { result ≤ from + 10 }
{
    let number = put(file, from, b"ST");
    let length = put_number(file, number, (s + 1) as u16);
    let size = scores::list_length(town, s);
    let list = put(file, length, &[size as u8]);
    put(file, list, &town.row(s)[..size])
}

// The streets' records.
fn put_streets(file: &mut [u8], from: usize, town: Town) -> usize
    requires { Small town × (from ≤ 29) }
    ensures { result ≤ 109 }
{
    let mut next = from;
    for s in 0..town.n {
        next = put_street(file, next, town, s);
    }
    next
}

// The file of a town and a kind of plan, and its length. An old file loses the weights.
pub fn write(file: &mut [u8], town: Town, kind: u8, new_form: bool) -> usize
    requires { Small town }
    ensures { result ≤ 111 }
{
    put_town(file, town, kind, new_form);
    let weights = put_scores(file, town);
    let streets = put_weights(file, weights, town, new_form);
    let end = put_streets(file, streets, town);
    put(file, end, b"EN")
}
