// The tie pass: street by street, a best division becomes the one that is first in dictionary order.
#![tactic(auto)]

ghost use Rattle.std.specs.Prelude.{◌≡◌, true, false, ℕ, ◌+◌, ◌≤◌, ◌<◌, length, MatchOption};
ghost use Rattle.counting.specs.Lists.{at};
ghost use Rattle.division.specs.Prices.{Priced, Tight};
ghost use Rattle.division.specs.Shares.{InShares};
ghost use Rattle.division.specs.Divide.{divide};
ghost use Rattle.division.specs.Problem.{tail, Problem};
ghost use Rattle.queues.specs.Priced.{Fits, value_of, price_of};
ghost use Rattle.queues.specs.Limits.{Leaver, Limits, LastAt};
ghost use Rattle.ties.specs.Standing.{Aim, Loose, Prices, Pass};

use counting::WIDTH;
use queues::limits;
use queues::price_table::PriceTable;
use queues::queue::Queue;
use queues::tights::{PLACES, TightRows};

// Whether the street s may go to the site b, and b can be left. The limit of b is lowered on the way.
fn reach(table: &PriceTable, division: &[u8], s: usize, b: usize, limits: &mut [u16]) -> bool
    requires fits { Fits table.now division.now }
    requires s_in_bounds { (s < length division.now) × (b < length table.now.shares.now) × (length table.now.shares.now ≤ length limits.old) }
    requires limits_2 { Limits (Leaver (value_of table.now) (price_of table.now) table.now.shares.now division.now) s division.now limits.old }
    ensures yes { result ≡ true → Tight (value_of table.now) (price_of table.now) division.now s b
        × LastAt division.now s limits.new b }
    ensures no { result ≡ false → 0 < at table.now.shares.now b
        → Tight (value_of table.now) (price_of table.now) division.now s b
        → at limits.new b ≤ s + 1 }
    ensures limits { Limits
        (Leaver (value_of table.now) (price_of table.now) table.now.shares.now division.now)
        s division.now limits.new × ((x : ℕ) → at limits.new x ≤ at limits.old x) }
{
    table.may(division, s, b) && limits::lower(table, division, s, b, limits)
}

// The lowest site below its own that the street s may go to and that can be left, if there is one.
fn aim(table: &PriceTable, division: &[u8], s: usize, limits: &mut [u16]) -> Option<usize>
    requires fits { Fits table.now division.now }
    requires s_in_bounds { (s < length division.now) × (length table.now.shares.now ≤ length limits.old) }
    requires limits { Limits (Leaver (value_of table.now) (price_of table.now) table.now.shares.now division.now) s division.now limits.old }
    ensures aim { MatchOption result
        (Loose (value_of table.now) (price_of table.now) table.now.shares.now limits.new
        division.now s (at division.now s))
        (λ b. Aim (value_of table.now) (price_of table.now) table.now.shares.now limits.new
        division.now s b) }
    ensures limits_2 { Limits
        (Leaver (value_of table.now) (price_of table.now) table.now.shares.now division.now)
        s division.now limits.new }
{
    let own = usize::from(division[s]);
    for b in 0..own {
        if reach(table, division, s, b, limits) {
            return Some(b);
        }
    }
    None
}

// The street s goes to the lowest site that it can have, and later streets make way along a queue of sites.
fn settle_far(
    table: &PriceTable,
    division: &mut [u8],
    s: usize,
    rows: &TightRows,
    queue: &mut Queue,
    limits: &mut [u16],
)
    requires pass { Pass table.now.values.now table.now.shares.now table.now.prices.now division.old rows.now.tights rows.now.ends limits.old s }
    requires s_in_bounds { s < length division.old }
    ensures { Pass table.now.values.now table.now.shares.now table.now.prices.now division.new
        rows.now.tights rows.now.ends limits.new (s + 1) }
{
    queue.grow(table, division, s, rows);
    let place = queue.lowest(table, division, s);
    queue.turn(division, s, place, limits);
}

// The street s goes to the lowest site that it can have, and later streets make way: mostly one that stands there changes sites with it.
fn settle_street(
    table: &PriceTable,
    division: &mut [u8],
    s: usize,
    rows: &TightRows,
    queue: &mut Queue,
    limits: &mut [u16],
)
    requires pass { Pass table.now.values.now table.now.shares.now table.now.prices.now division.old rows.now.tights rows.now.ends limits.old s }
    requires s_in_bounds { s < length division.old }
    ensures { Pass table.now.values.now table.now.shares.now table.now.prices.now division.new
        rows.now.tights rows.now.ends limits.new (s + 1) }
{
    let Some(b) = aim(table, division, s, limits) else {
        return;
    };
    let a = division[s];
    let limit = limits[b];
    let t = usize::from(limit) - 1;
    if table.tight(division, t, usize::from(a)) {
        division[t] = a;
        division[s] = b as u8;
        limits::raise(limits, usize::from(a), limit);
        return;
    }
    settle_far(table, division, s, rows, queue, limits);
}

// A division for which prices hold becomes the best division by the tie rule: every street is settled, in order. The rows of the tight streets are
// made once, for all streets.
pub fn settle(table: &PriceTable, division: &mut [u8])
    requires problem { Problem table.now.values.now table.now.shares.now (length division.old) }
    requires in_shares { InShares division.old (tail table.now.shares.now) }
    requires prices { Prices table.now.prices.now (length table.now.shares.now) }
    requires priced { Priced (value_of table.now) (price_of table.now) (tail table.now.shares.now) division.old }
    ensures { division.new
        ≡ divide (value_of table.now) (length division.old) (tail table.now.shares.now) }
{
    let mut rows = TightRows {
        tights: [0; PLACES],
        ends: [0; WIDTH],
    };
    rows.list_sites(table, division);
    let mut queue = Queue::new();
    let mut limits = [division.len() as u16; WIDTH];
    for s in 0..division.len() {
        settle_street(table, division, s, &rows, &mut queue, &mut limits);
    }
}
