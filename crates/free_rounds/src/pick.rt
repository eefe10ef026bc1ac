// The choice of a round: the unchosen site with the greatest total, the lowest number on a tie.
ghost use Rattle.std.specs.Prelude.{◌≡◌, length};
ghost use Rattle.counting.specs.Greatest.{greatest};
ghost use Rattle.choices.specs.Scan.{unflagged};
ghost use Rattle.free_rounds.specs.Held.{Scores, Bounded, with_none, with_site};
ghost use Rattle.free_rounds.specs.Weighed.{weight_of};

use crate::sums;
use crate::table::Table;

// The choice from the table and the streets' bests. A site that its bound keeps from being better is passed over: what a site raises the total
// by never grows from round to round, so the rise that was found last bounds it.
pub fn choose(table: Table<'_>, bests: &[u16], flags: &[bool], bounds: &mut [u32]) -> usize
    requires scores { (length bests.now ≡ table.n) × Scores bests.now × (length flags.now ≡ 256) }
    requires bounded { Bounded (with_site (weight_of table.weights) table.values.now table.n bests.now)
        (with_none (weight_of table.weights) table.n bests.now) bounds.old }
    ensures site { result ≡ greatest (unflagged flags.now)
        (with_site (weight_of table.entry.weights) table.entry.values.now table.entry.n bests.now) table.entry.m }
    ensures bounds { Bounded (with_site (weight_of table.entry.weights) table.entry.values.now table.entry.n bests.now)
        (with_none (weight_of table.entry.weights) table.entry.n bests.now) bounds.new }
{
    let total = sums::sum(bests, table.weights);
    let mut best = None;
    // kept: the new form is no plainer: sites count from 1, two lists go in step, one of which is written, and the table is read by the number
    for i in 0..table.m {
        let a = i + 1;
        let hope = choices::offer(a, total + bounds[a], flags[a]);
        if choices::beats(hope, best) {
            let sum = sums::sum_with(bests, table.row(a), table.weights);
            bounds[a] = sum - total;
            best = choices::better(best, choices::offer(a, sum, flags[a]));
        }
    }
    choices::number(best)
}
