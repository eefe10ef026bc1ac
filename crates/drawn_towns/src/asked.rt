// What plans are asked for: plans of a town of both kinds, and plans of wrong kinds.
ghost use Rattle.std.specs.Prelude.{◌≤◌};
ghost use Rattle.drawn_towns.specs.Small.{Small};

use crate::Town;

// wrong kinds, which take turns: the first of them, the last, and some whose lowest bits are those of a right one
const WRONG_KINDS: [usize; 6] = [2, 3, 255, 256, 65536, 18446744073709551615];

// The streets, the sites, the sites to choose and the kind of a plan: 0 is free, and 1 balanced.
#[derive(Clone, Copy, Debug, PartialEq, Eq)]
pub struct Asked {
    pub n: usize,
    pub m: usize,
    pub k: usize,
    pub kind: usize,
}

// A plan of one kind with the sizes of a town.
pub fn of_kind(town: Town, kind: usize) -> Asked {
    Asked {
        n: town.n,
        m: town.m,
        k: town.k,
        kind,
    }
}

// A size that has its turn: 0, one that is too great, one more than the town's, which fits none of its buffers, and mostly the town's.
fn size_of_turn(own: usize, above: usize, turn: u64) -> usize
    requires { own ≤ 8 }
{
    match turn % 8 {
        0 => 0,
        1 => above,
        2 => own + 1,
        _ => own,
    }
}

// A plan of the wrong kind that has its turn. Each size has its own turns, so that wrong ones meet.
pub fn of_wrong_kind(town: Town, turn: u64) -> Asked
    requires { Small town }
{
    Asked {
        n: size_of_turn(town.n, 401, turn / 6),
        m: size_of_turn(town.m, 65, turn / 48),
        k: size_of_turn(town.k, town.m + 1, turn / 384),
        kind: WRONG_KINDS[(turn % 6) as usize],
    }
}
