// The household weights of small towns: drawn ones, and wrong ones.
ghost use Rattle.std.specs.Prelude.{◌≡◌, ◌≤◌, length};
ghost use Rattle.drawn_towns.specs.Small.{Small};

use crate::{Town, WEIGHTS};

// the ways in which the weights of a town are drawn
const WAYS: usize = 5;

// One weight: in its way always 1, always 7, from 1 to 3, from 1 to 99, or 1 or 99.
fn draw_weight(seed: &mut u64, way: usize) -> u8 {
    match way {
        0 => 1,
        1 => 7,
        2 => (crate::draw(seed, 3) + 1) as u8,
        3 => (crate::draw(seed, 99) + 1) as u8,
        _ => (crate::draw(seed, 2) * 98 + 1) as u8,
    }
}

// The weights of n streets, all drawn in one way, before ones.
pub fn draw_weights(seed: &mut u64, n: usize) -> [u8; WEIGHTS]
    requires { n ≤ 8 }
    ensures { length result ≡ 9 }
{
    let way = crate::draw(seed, WAYS);
    let mut weights = [1u8; WEIGHTS];
    for weight in &mut weights[..n] {
        *weight = draw_weight(seed, way);
    }
    weights
}

// Whether all streets have one weight.
pub fn are_equal(town: Town) -> bool
    requires { Small town }
{
    let first = town.weights[0];
    town.weights[..town.n].iter().all(|weight| *weight == first)
}

// The town with another weight for street s.
pub fn with_weight(mut town: Town, s: usize, weight: u8) -> Town
    requires { Small town × (s ≤ 7) }
    ensures { Small result }
{
    town.weights[s] = weight;
    town
}

// The town with another number of weights.
pub fn with_count(town: Town, weighed: usize) -> Town
    requires { Small town × (weighed ≤ 9) }
    ensures { Small result }
{
    Town { weighed, ..town }
}
