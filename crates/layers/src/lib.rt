// One layer of the search for a chain that gains, made from the tables of best moves, one site's row after another: a round of Bellman-Ford.
#![tactic(auto)]

ghost use Rattle.std.specs.Prelude.{◌+◌, ◌*◌, ◌≤◌, ◌<◌, length};
ghost use Rattle.counting.specs.Bounds.{most_value, most_price};
ghost use Rattle.counting.specs.Lists.{at, cell};
ghost use Rattle.pairs.specs.Moves.{Tables};
ghost use Rattle.layers.specs.Layers.{Layerable, Fitting, Layer, Lifts, Taking};

use pairs::{BestMoves, EVEN, Problem};

// A site's price, and the street that raised it.
#[derive(Clone, Copy)]
pub struct Taken {
    pub price: u32,
    pub street: u16,
}

// The greater of a site's price and what one move more brings, which must be more to win; a site without a share keeps its price.
fn take(price: u32, street: u16, share: u16, x: u32, u: u16) -> Taken
    requires { price ≤ most_price + most_value }
    ensures { Taking price street share x u result.price result.street }
{
    if share == 0 {
        return Taken { price, street };
    }
    if price + EVEN < x {
        return Taken {
            price: x - EVEN,
            street: u,
        };
    }
    Taken { price, street }
}

// The best moves from a site that has streets are held against the price of each site. Both stores happen in every turn, so that the loop has no branch.
fn relax(
    problem: &Problem,
    division: &[u8],
    moves: &BestMoves,
    before: &[u32],
    a: usize,
    after: &mut [u32],
    via: &mut [u16],
)
    requires layerable { Layerable before.now problem.now.values.now division.now }
    requires tables { Tables problem.now.values.now division.now (length before.now) moves.now.pairs moves.now.gains }
    requires fitting { Fitting (length before.now) (length division.now) after.old via.old problem.now.shares.now }
    requires a_in_bounds { (a < length before.now) × (0 < at moves.now.gains (a * length before.now)) }
    requires lifts { Lifts (cell problem.now.values.now (length before.now)) (at before.now) (at division.now) (at problem.now.shares.now)
        a (length division.now) (length before.now) (at after.old) (at via.old) }
    ensures { Lifts (cell problem.now.values.now (length before.now))
        (at before.now) (at division.now) (at problem.now.shares.now)
        (a + 1) (length division.now) (length before.now) (at after.new) (at via.new) }
{
    let w = before.len();
    let from = a * w;
    let price = before[a];
    let shares = problem.shares;
    let gains = &moves.gains[from..from + w];
    let pairs = &moves.pairs[from..from + w];
    // kept: the new form is no plainer: five lists go in step, and two of them are written
    for b in 0..w {
        let taken = take(after[b], via[b], shares[b], price + gains[b], pairs[b]);
        after[b] = taken.price;
        via[b] = taken.street;
    }
}

// The same for any site: one without streets, whose gains are 0, raises no price.
fn pass(
    problem: &Problem,
    division: &[u8],
    moves: &BestMoves,
    before: &[u32],
    a: usize,
    after: &mut [u32],
    via: &mut [u16],
)
    requires layerable { Layerable before.now problem.now.values.now division.now }
    requires tables { Tables problem.now.values.now division.now (length before.now) moves.now.pairs moves.now.gains }
    requires fitting { Fitting (length before.now) (length division.now) after.old via.old problem.now.shares.now }
    requires a_in_bounds { a < length before.now }
    requires lifts { Lifts (cell problem.now.values.now (length before.now)) (at before.now) (at division.now) (at problem.now.shares.now)
        a (length division.now) (length before.now) (at after.old) (at via.old) }
    ensures { Lifts (cell problem.now.values.now (length before.now))
        (at before.now) (at division.now) (at problem.now.shares.now)
        (a + 1) (length division.now) (length before.now) (at after.new) (at via.new) }
{
    if moves.gains[a * before.len()] != 0 {
        relax(problem, division, moves, before, a, after, via);
    }
}

// The layer: each site's price after the best moves from all sites, and the street that raised it, the number of streets where none did.
pub fn layer(
    problem: &Problem,
    division: &[u8],
    moves: &BestMoves,
    before: &[u32],
    after: &mut [u32],
    via: &mut [u16],
)
    requires layerable { Layerable before.now problem.now.values.now division.now }
    requires tables { Tables problem.now.values.now division.now (length before.now) moves.now.pairs moves.now.gains }
    requires fitting { Fitting (length before.now) (length division.now) after.old via.old problem.now.shares.now }
    ensures { Layer (cell problem.now.values.now (length before.now))
        (at before.now) (at division.now) (at problem.now.shares.now)
        (length division.now) (length before.now) (at after.new) (at via.new) }
{
    after.copy_from_slice(before);
    via.fill(division.len() as u16);
    for a in 0..before.len() {
        pass(problem, division, moves, before, a, after, via);
    }
}
