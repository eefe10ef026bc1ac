// The place of the queue that has the lowest site for a street, and the turn that puts the street there along the path back to its own site.
ghost use Rattle.std.specs.Prelude.{◌≡◌, ℕ, ◌+◌, ◌≤◌, ◌<◌, List, length};
ghost use Rattle.counting.specs.Bounds.{most_streets, most_width};
ghost use Rattle.counting.specs.Lists.{at};
ghost use Rattle.queues.specs.Queue.{Differ, Queue as Way};
ghost use Rattle.queues.specs.Limits.{Leaver, Limits};
ghost use Rattle.queues.specs.PathBack.{Lowest, Turned};
ghost use Rattle.queues.specs.Priced.{Fits, value_of, price_of};

use crate::limits;
use crate::price_table::PriceTable;
use crate::queue::Queue;

impl Queue {
    // The place that has the lowest site of all that s is tight for; the first, its own, where there is no lower one.
    pub fn lowest(&self, table: &PriceTable, division: &[u8], s: usize) -> usize
        requires fits { Fits table.now division.now }
        requires s_in_bounds { (s < length division.now) × (0 < self.now.count) × (self.now.count ≤ most_width) × (at self.now.sites 0 ≡ at division.now s) }
        requires by_index { (j : ℕ) → j < self.now.count → at self.now.sites j < length table.now.shares.now }
        ensures { Lowest (value_of table.now) (price_of table.now)
            division.now s self.now.count self.now.sites result }
    {
        let mut best = 0;
        // kept: the new form is no plainer: the place is what is sought, and it is compared with another place
        for i in 1..self.count {
            let site = self.sites[i];
            if site < self.sites[best] && table.tight(division, s, usize::from(site)) {
                best = i;
            }
        }
        best
    }

    // The street s goes to the site of a place, and each street on the path back from there goes on to the next place's site, whose limit is raised.
    pub fn turn(&self, division: &mut [u8], s: usize, place: usize, limits: &mut [u16])
        requires s_in_bounds { (s < length division.old) × (place < most_width) }
        requires differ { Differ (place + 1) self.now.sites × Way division.old s (place + 1) self.now.sites self.now.streets self.now.nexts }
        requires division_len_bound { (length division.old ≤ most_streets) × ((j : ℕ) → j ≤ place → at self.now.sites j < length limits.old) }
        ensures turned { Turned division.old division.new s place self.now.sites self.now.streets self.now.nexts }
        ensures by_index { (v : ℕ → ℕ → ℕ) (d : ℕ → ℕ) (shares : List ℕ)
            → Limits (Leaver v d shares division.old) s division.old limits.old
            → Limits (Leaver v d shares division.old) s division.new limits.new }
    {
        let mut p = place;
        while 0 < p {
            let next = usize::from(self.nexts[p]);
            let t = self.streets[p];
            let x = self.sites[next];
            division[usize::from(t)] = x;
            limits::raise(limits, usize::from(x), t + 1);
            p = next;
        }
        division[s] = self.sites[place];
    }
}
