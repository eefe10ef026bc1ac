// The division is improved by closed chains of moves until none gains (cycle cancelling). A chain is searched layer by layer over the best moves
// between sites, as by Bellman-Ford; where a layer raises no price, the prices prove the division best.
#![tactic(auto)]

ghost use Rattle.std.specs.Prelude.{◌≡◌, ℕ, ◌+◌, ◌*◌, ◌≤◌, ◌<◌, length};
ghost use Rattle.counting.specs.Bounds.{most_price};
ghost use Rattle.counting.specs.Lists.{at, cell};
ghost use Rattle.division.specs.Prices.{Priced};
ghost use Rattle.division.specs.Shares.{InShares, division_total};
ghost use Rattle.division.specs.Problem.{Problem as IsProblem, tail};
ghost use Rattle.pairs.specs.Moves.{Valued};
ghost use Rattle.pairs.specs.BestMoves.{BestFor, value_of};
ghost use Rattle.rings.specs.Rings.{moved, Moves};
ghost use Rattle.chains.specs.Chains.{Buffers, Searched, Raised, Closed};

use pairs::{BestMoves, Problem};
use rings::{Ring, Walk};

pub mod steps;

// One layer more: its prices and raising streets are kept, and a site that it raised is returned, if it raised one.
fn deepen(
    problem: &Problem,
    division: &[u8],
    moves: &BestMoves,
    k: usize,
    low: &mut [u32],
    prices: &mut [u32],
    vias: &mut [u16],
) -> Option<usize>
    requires in_shares { IsProblem problem.now.values.now problem.now.shares.now (length division.now) × InShares division.now (tail problem.now.shares.now) }
    requires k_in_bounds { (k < length problem.now.shares.now) × Buffers (length problem.now.shares.now) low.old prices.old vias.old }
    requires searched_2 { Searched problem.now.values.now problem.now.shares.now division.now (length problem.now.shares.now) k low.old prices.old vias.old }
    requires tables { BestFor problem.now division.now moves.now }
    ensures searched { Searched problem.now.values.now problem.now.shares.now division.now (length problem.now.shares.now) (k + 1)
        low.new prices.new vias.new }
    ensures raised { Raised (cell vias.new (length problem.now.shares.now) k)
        (length division.now) (length problem.now.shares.now) (length problem.now.shares.now) result }
{
    let w = problem.shares.len();
    let from = k * w;
    let to = from + w;
    let end = to + w;
    layers::layer(
        problem,
        division,
        moves,
        low,
        &mut prices[to..end],
        &mut vias[from..to],
    );
    low.copy_from_slice(&prices[to..end]);
    steps::highest(low, &vias[from..to], division.len())
}

// A closed chain is shifted, and the best moves from its sites are made anew.
fn turn(problem: &Problem, division: &mut [u8], moves: &mut BestMoves, walk: &Walk, ring: Ring)
    requires valued { Valued problem.now.values.now division.old (length problem.now.shares.now) }
    requires tables_2 { BestFor problem.now division.old moves.old }
    requires moves { Moves (length division.old) walk.now.streets ring.from ring.count }
    requires closed { Closed division.old (length problem.now.shares.now) (at walk.now.streets) (at walk.now.sites) ring.from ring.count }
    ensures moved { division.new ≡ moved division.old (at walk.now.streets) (at walk.now.sites)
        ring.from ring.count }
    ensures tables { BestFor problem.now division.new moves.new }
{
    let from = ring.from;
    let to = from + ring.count;
    walk.shift(division, ring);
    moves.mend(problem, division, &walk.sites[from..to]);
}

// The division is improved until no chain of moves gains; its total is returned, and prices that prove it best are left in `low`.
pub fn improve(
    problem: &Problem,
    division: &mut [u8],
    low: &mut [u32],
    prices: &mut [u32],
    vias: &mut [u16],
) -> u32
    requires in_shares { IsProblem problem.now.values.now problem.now.shares.now (length division.old) × InShares division.old (tail problem.now.shares.now) }
    requires buffers { Buffers (length problem.now.shares.now) low.old prices.old vias.old }
    ensures total { result ≡ division_total (value_of problem.now) division.new }
    ensures shares { InShares division.new (tail problem.now.shares.now) }
    ensures best { ((a : ℕ) → at low.new a ≤ most_price)
        × Priced (value_of problem.now) (at low.new) (tail problem.now.shares.now) division.new }
{
    let w = problem.shares.len();
    let mut moves = BestMoves::new();
    let mut walk = Walk::new();
    moves.build(problem, division);
    'improve: loop {
        low.fill(0);
        prices[..w].fill(0);
        let mut k = 0;
        'search: loop {
            let Some(top) = deepen(problem, division, &moves, k, low, prices, vias) else {
                break 'improve steps::sum(problem, division);
            };
            k += 1;
            if let Some(ring) = walk.back(vias, division, w, k, top) {
                turn(problem, division, &mut moves, &walk, ring);
                break 'search;
            }
        }
    }
}
