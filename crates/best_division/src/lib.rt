// The best division from any division in the shares: improved until no chain of moves gains, then settled by the tie rule. The buffers of
// both passes are locals of this crate.
#![tactic(auto)]

ghost use Rattle.std.specs.Prelude.{◌≡◌, ℕ, ◌≤◌, length};
ghost use Rattle.counting.specs.Bounds.{most_price};
ghost use Rattle.counting.specs.Lists.{at, cell};
ghost use Rattle.division.specs.Prices.{Priced};
ghost use Rattle.division.specs.Shares.{InShares, division_total};
ghost use Rattle.division.specs.Divide.{divide};
ghost use Rattle.pairs.specs.BestMoves.{value_of};
ghost use Rattle.division.specs.Problem.{Problem as IsProblem, tail};

use counting::WIDTH;
use pairs::Problem;
use queues::price_table::PriceTable;

// The improving loop with buffers of its own; prices that prove the division best are left in `low`.
fn improve(problem: &Problem, division: &mut [u8], low: &mut [u32]) -> u32
    requires { IsProblem problem.now.values.now problem.now.shares.now (length division.old) × InShares division.old (tail problem.now.shares.now)
        × (length low.old ≡ length problem.now.shares.now) }
    ensures total { result ≡ division_total (value_of problem.now) division.new }
    ensures shares { InShares division.new (tail problem.now.shares.now) }
    ensures best { ((a : ℕ) → at low.new a ≤ most_price)
        × Priced (value_of problem.now) (at low.new) (tail problem.now.shares.now) division.new }
{
    let w = problem.shares.len();
    let all = (w + 1) * w;
    let area = w * w;
    let mut prices = [0; (WIDTH + 1) * WIDTH];
    let mut vias = [0; WIDTH * WIDTH];
    chains::improve(
        problem,
        division,
        low,
        &mut prices[..all],
        &mut vias[..area],
    )
}

// Any division in the shares becomes the best one, and its total is returned.
pub fn best(values: &[u32], shares: &[u16], division: &mut [u8]) -> u32
    requires { IsProblem values.now shares.now (length division.old) × InShares division.old (tail shares.now) }
    ensures total { result ≡ division_total (cell values.now (length shares.now))
        (divide (cell values.now (length shares.now)) (length division.old) (tail shares.now)) }
    ensures division { division.new
        ≡ divide (cell values.now (length shares.now)) (length division.old) (tail shares.now) }
{
    let w = shares.len();
    let mut low = [0u32; WIDTH];
    let total = improve(&Problem { values, shares }, division, &mut low[..w]);
    let table = PriceTable {
        values,
        shares,
        prices: &low[..w],
    };
    ties::settle(&table, division);
    total
}
