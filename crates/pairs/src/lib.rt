// The tables of the best move between each two sites, made for a division and mended after streets have moved.
#![tactic(auto)]

ghost use Rattle.std.specs.Prelude.{◌≡◌, ℕ, ◌<◌, length, replicate};
ghost use Rattle.counting.specs.Lists.{at};
ghost use Rattle.pairs.specs.Moves.{Renewed, Mended};
ghost use Rattle.pairs.specs.BestMoves.{Fits, BestFor};

use counting::WIDTH;

pub mod rows;

// The gain of a street that gives both sites the same. It is more than any value, so that no move's gain is 0.
pub const EVEN: u32 = 100000;

// a move for each two sites
const AREA: usize = WIDTH * WIDTH;

// The streets' values and the shares, both with site 0 in front.
#[derive(Clone, Copy)]
pub struct Problem<'a> {
    pub values: &'a [u32],
    pub shares: &'a [u16],
}

// The best move from each site to each, in rows as wide as the shares: its street, and its gain.
// kept: two arrays, since the hot loops go over each as it lies, and take gains without streets
#[derive(Drop)]
pub struct BestMoves {
    pub pairs: [u16; AREA],
    pub gains: [u32; AREA],
}

impl BestMoves {
    // No move is known.
    pub fn new() -> Self
        ensures { result.gains ≡ replicate AREA 0 }
    {
        BestMoves {
            pairs: [0; AREA],
            gains: [0; AREA],
        }
    }

    // All rows are made anew.
    pub fn build(&mut self, problem: &Problem, division: &[u8])
        requires { Fits problem.now division.now }
        ensures { BestFor problem.now division.now self.new }
    {
        for a in 0..problem.shares.len() {
            self.renew(problem, division, a);
        }
    }

    // Only the rows of the listed sites are made anew: those that have lost or gained a street.
    pub fn mend(&mut self, problem: &Problem, division: &[u8], sites: &[u8])
        requires fits { Fits problem.now division.now }
        requires by_index { (l : ℕ) → l < length sites.now → at sites.now l < length problem.now.shares.now }
        requires mended { Mended problem.now.values.now division.now (length problem.now.shares.now) (at sites.now)
            0 (length sites.now) self.old.pairs self.old.gains }
        ensures { BestFor problem.now division.now self.new }
    {
        for site in sites {
            self.renew(problem, division, usize::from(*site));
        }
    }

    // The row of the site a is made anew.
    fn renew(&mut self, problem: &Problem, division: &[u8], a: usize)
        requires fits { Fits problem.now division.now }
        requires a_lt_w { a < length problem.now.shares.now }
        ensures { Renewed problem.now.values.now division.now (length problem.now.shares.now) a
            self.old.pairs self.old.gains self.new.pairs self.new.gains }
    {
        let w = problem.shares.len();
        let from = a * w;
        let to = from + w;
        rows::rebuild(
            problem,
            division,
            a,
            &mut self.pairs[from..to],
            &mut self.gains[from..to],
        );
    }
}
