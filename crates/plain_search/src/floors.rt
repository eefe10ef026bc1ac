// The floor of a small town.
ghost use Rattle.std.specs.Prelude.{◌≤◌};
ghost use Rattle.drawn_towns.specs.Small.{Small};

use crate::{scores, shares};
use drawn_towns::Town;

// The length of the shortest list.
fn shortest(town: Town) -> usize
    requires { Small town }
    ensures { result ≤ town.m }
{
    let mut least = town.m;
    for s in 0..town.n {
        least = least.min(scores::list_length(town, s));
    }
    least
}

// The place that round i of k counts on, with m sites: i, and how often the rounds left go into the sites left, the last time perhaps not whole.
pub fn place(m: usize, k: usize, i: usize) -> usize
    requires { (m ≤ 64) × (k ≤ 64) }
{
    if k <= i {
        return 0;
    }
    i + (i..m).step_by(k - i).count()
}

// The score at a place, and 0 where the place is none of the first t.
fn score_up_to(town: Town, place: usize, t: usize) -> u32
    requires { Small town × (t ≤ town.m) }
    ensures { result ≤ 65535 }
{
    if place == 0 || t < place {
        return 0;
    }
    u32::from(town.scores[place - 1])
}

// What the streets of round i give at the least, where t is the length of the shortest list.
fn added(town: Town, t: usize, i: usize) -> u32
    requires { Small town × (t ≤ town.m) × (i ≤ 5) }
    ensures { result ≤ 600000 }
{
    let score = score_up_to(town, place(town.m, town.k, i), t);
    shares::of_round(town, i) as u32 * score
}

// The smallest weight.
fn least_weight(town: Town) -> u32
    requires { Small town }
    ensures { result ≤ 255 }
{
    let least = town.weights[..town.n].iter().copied().min();
    u32::from(least.unwrap_or(255))
}

// What the rounds give at the least, each with its own share, where every weight is 1.
fn plain_floor(town: Town) -> u32
    requires { Small town }
    ensures { result ≤ 3000000 }
{
    let t = shortest(town);
    let mut sum: u32 = 0;
    for i in 0..town.k {
        sum += added(town, t, i);
    }
    sum
}

// The floor: that times the smallest weight.
pub fn floor(town: Town) -> u32
    requires { Small town }
{
    least_weight(town) * plain_floor(town)
}
