// The best moves from one site to every site, found by one look at each street.
ghost use Rattle.std.specs.Prelude.{◌≡◌, ◌+◌, ◌<◌, length};
ghost use Rattle.counting.specs.Lists.{at};
ghost use Rattle.pairs.specs.Moves.{Row, Better};
ghost use Rattle.pairs.specs.BestMoves.{Fits, value_of};

use crate::{EVEN, Problem};

// A move's gain, and its street.
#[derive(Clone, Copy)]
pub struct Gain {
    pub gain: u32,
    pub street: u16,
}

// The better of the best move so far and one more, which must gain more to win.
fn better(gain: u32, street: u16, x: u32, s: u16) -> Gain
    ensures { Better gain street x s result.gain result.street }
{
    if gain < x {
        return Gain { gain: x, street: s };
    }
    Gain { gain, street }
}

// A street of the site a is held against the best move to each site. Both stores happen in every turn, so that the loop has no branch.
fn meet(
    problem: &Problem,
    division: &[u8],
    a: usize,
    s: usize,
    pairs: &mut [u16],
    gains: &mut [u32],
)
    requires fits { Fits problem.now division.now }
    requires s_in_bounds { (s < length division.now) × (a < length problem.now.shares.now) × (at division.now s ≡ a) }
    requires pairs_len { (length pairs.old ≡ length problem.now.shares.now) × (length gains.old ≡ length problem.now.shares.now) }
    requires row { Row (value_of problem.now) (at division.now) a s (length division.now) (length problem.now.shares.now) (at gains.old) (at pairs.old) }
    ensures { Row (value_of problem.now) (at division.now)
        a (s + 1) (length division.now) (length problem.now.shares.now) (at gains.new) (at pairs.new) }
{
    let w = problem.shares.len();
    let from = s * w;
    let own = problem.values[from + a];
    let street = s as u16;
    // kept: the new form is no plainer: three tables go in step, and two of them are written
    for b in 0..w {
        let best = better(
            gains[b],
            pairs[b],
            problem.values[from + b] + EVEN - own,
            street,
        );
        gains[b] = best.gain;
        pairs[b] = best.street;
    }
}

// The best moves from the site a, over all streets. A gain of 0 says that no street has been looked at.
pub fn rebuild(problem: &Problem, division: &[u8], a: usize, pairs: &mut [u16], gains: &mut [u32])
    requires fits { Fits problem.now division.now }
    requires a_lt_w { a < length problem.now.shares.now }
    requires pairs_len { (length pairs.old ≡ length problem.now.shares.now) × (length gains.old ≡ length problem.now.shares.now) }
    ensures { Row (value_of problem.now) (at division.now)
        a (length division.now) (length division.now) (length problem.now.shares.now) (at gains.new) (at pairs.new) }
{
    gains.fill(0);
    for (s, site) in division.iter().enumerate() {
        if usize::from(*site) == a {
            meet(problem, division, a, s, pairs, gains);
        }
    }
}
