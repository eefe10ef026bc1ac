// Surveys of small towns with a changed score, byte or weight, which may be refused.
ghost use Rattle.drawn_towns.specs.Small.{Small};

use crate::{BYTES, SITES, Town, weights};

// The town with one score changed.
pub fn with_score(seed: &mut u64, mut town: Town) -> Town
    requires { Small town }
    ensures { Small result }
{
    let at = crate::draw(seed, SITES);
    town.scores[at] = crate::draw(seed, 1003) as u16;
    town
}

// The town with one byte of its rows changed.
pub fn with_byte(seed: &mut u64, mut town: Town) -> Town
    requires { Small town }
    ensures { Small result }
{
    let at = crate::draw(seed, BYTES);
    town.rows[at] = crate::draw(seed, 8) as u8;
    town
}

// The town with one weight changed.
pub fn with_weight(seed: &mut u64, town: Town) -> Town
    requires { Small town }
    ensures { Small result }
{
    let s = crate::draw(seed, town.n);
    let weight = crate::draw(seed, 256) as u8;
    weights::with_weight(town, s, weight)
}
