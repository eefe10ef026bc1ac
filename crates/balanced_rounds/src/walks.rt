// Walks along a site's line of streets, past the streets that are already given away.
ghost use Rattle.std.specs.Prelude.{◌≡◌, ◌∷◌, [], ◌+◌, ◌*◌, ◌≤◌, ◌<◌, length};
ghost use Rattle.counting.specs.Bounds.{most_streets, most_value, most_worth};
ghost use Rattle.counting.specs.Lists.{at, sum};
ghost use Rattle.survey.specs.Rows.{row_at};
ghost use Rattle.tables.specs.Tables.{value_in};
ghost use Rattle.balanced_plan.specs.Rounds.{give};
ghost use Rattle.balanced_rounds.specs.Lines.{Line, Stepped, picked};

use crate::table::Table;

// How many streets are still to be found, and the sum of those found so far.
#[derive(Drop)]
struct Tally {
    left: usize,
    total: u32,
}

// 1 for site 0, at which a street is free, and 0 for every other site. No branch: which streets of a line are free can't be guessed.
fn open(site: u8) -> u32
    ensures { (result ≤ 1) × (site ≡ 0 → result ≡ 1) × ((site ≡ 0 → ⊥) → result ≡ 0) }
{
    (256 - u32::from(site)) / 256
}

// A value that counts once or not at all.
fn times(value: u32, once: u32) -> u32
    requires { once ≤ 1 }
    ensures { (result ≤ value) × (once ≡ 1 → result ≡ value) × (once ≡ 0 → result ≡ 0) }
{
    value * once
}

// One street more, by its value and its site: a free one is counted.
fn step(tally: Tally, value: u32, site: u8) -> Tally
    requires { (0 < tally.left) × (tally.total ≤ most_worth) × (value ≤ most_value) }
    ensures { Stepped value site tally.left tally.total result.left result.total }
{
    let once = open(site);
    Tally {
        left: tally.left - once as usize,
        total: tally.total + times(value, once),
    }
}

// The worth of a site: the summed value of the first q streets of its line that are free. Values never rise along a line, so the walk ends
// at the first street of value 0, free or not.
pub fn worth(table: Table<'_>, division: &[u8], q: usize, a: usize) -> u32
    requires { (length division.now ≡ table.n) × (a ≤ table.m) × (q ≤ most_streets) }
    ensures { result ≡ sum (λ s. value_in table.entry.values.now table.entry.m s a)
        (picked (row_at table.entry.n table.entry.orders.now a) q division.now) }
{
    let line = table.line(a);
    let mut tally = Tally { left: q, total: 0 };
    for street in line {
        if tally.left == 0 {
            return tally.total;
        }
        let s = usize::from(*street);
        let value = table.value(s, a);
        if value == 0 {
            return tally.total;
        }
        tally = step(tally, value, division[s]);
    }
    tally.total
}

// One street more: a free one is given to the site a. Returns how many are still to be given.
fn hand(before: &[u8], division: &mut [u8], s: usize, left: usize, a: u8) -> usize
    requires { (length before.now ≡ length division.old) × (s < length division.old) × (0 < left) }
    ensures given { at before.now s ≡ 0 → (result + 1 ≡ left) × (division.new ≡ give a (s ∷ []) division.old) }
    ensures passed { (at before.now s ≡ 0 → ⊥) → (result ≡ left) × (division.new ≡ division.old) }
{
    if before[s] != 0 {
        return left;
    }
    division[s] = a;
    left - 1
}

// The first q streets of a line that are free, by the division before, are given to the site a.
pub fn give_lot(line: &[u16], before: &[u8], division: &mut [u8], q: usize, a: u8)
    requires { Line line.now before.now × (length before.now ≡ length division.old) }
    ensures { division.new ≡ give a (picked line.now q before.now) division.old }
{
    let mut left = q;
    for s in line {
        if left == 0 {
            return;
        }
        left = hand(before, division, usize::from(*s), left, a);
    }
}
