// Towns in which every street ranks all sites, for programs that go up to the greatest sizes.
#![tactic(auto)]

ghost use Rattle.std.specs.Prelude.{◌≤◌};

// What is left over of a number.
fn rest(x: usize, m: usize) -> usize
    requires { (1 ≤ m) × (m ≤ 64) }
    ensures { result ≤ 63 }
{
    x % m
}

// The street s begins its list with the site s + 1 and goes round all m sites.
pub fn fill_rows(rows: &mut [u8], m: usize)
    requires { (1 ≤ m) × (m ≤ 64) }
{
    for (i, site) in rows.iter_mut().enumerate() {
        *site = (rest(rest(i / m, m) + rest(i, m), m) + 1) as u8;
    }
}

// Falling scores from 1,000 on, no two alike among 64.
pub fn fill_scores(scores: &mut [u16]) {
    for (i, score) in scores.iter_mut().enumerate() {
        *score = (1000 - i % 64) as u16;
    }
}

// Falling weights from 99 on, no two alike among 64.
pub fn fill_weights(weights: &mut [u8]) {
    for (s, weight) in weights.iter_mut().enumerate() {
        *weight = (99 - s % 64) as u8;
    }
}
