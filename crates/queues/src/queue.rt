// The queue of the sites from which a street's own site is in reach by tight moves of later streets, found by a breadth-first search over tight
// arcs. A place of it has a site, a street that stands there, and a place nearer the start that the street can go on to.
ghost use Rattle.std.specs.Prelude.{◌≡◌, ℕ, ◌+◌, ◌<◌, length};
ghost use Rattle.counting.specs.Bounds.{most_width};
ghost use Rattle.counting.specs.Lists.{at};
ghost use Rattle.queues.specs.Queue.{Placed};
ghost use Rattle.queues.specs.Priced.{Fits, value_of, price_of};
ghost use Rattle.queues.specs.Places.{GrownTo, GrowingTo, Pushed};
ghost use Rattle.queues.specs.Tights.{Rowed};
ghost use Rattle.division.specs.Prices.{Agree};

use crate::price_table::PriceTable;
use crate::tights::TightRows;
use counting::WIDTH;

// Of the places the street, the next place and the site; whether each site has a place; and how many places there are.
#[derive(Drop)]
pub struct Queue {
    pub streets: [u16; WIDTH],
    pub nexts: [u8; WIDTH],
    pub sites: [u8; WIDTH],
    pub flags: [bool; WIDTH],
    pub count: usize,
}

impl Queue {
    // A queue without places, which every street may use in turn.
    pub fn new() -> Self
        ensures { result.count ≡ 0 }
    {
        Queue {
            streets: [0; WIDTH],
            nexts: [0; WIDTH],
            sites: [0; WIDTH],
            flags: [false; WIDTH],
            count: 0,
        }
    }

    // The whole queue of the street s.
    pub fn grow(&mut self, table: &PriceTable, division: &[u8], s: usize, rows: &TightRows)
        requires fits { Fits table.now division.now }
        requires s_in_bounds { s < length division.now }
        requires rows { Rowed (value_of table.now) (price_of table.now) division.now rows.now.tights rows.now.ends }
        ensures { GrownTo table.now division.now s self.new self.new.count }
    {
        self.start(division, s);
        let mut i = 0;
        while i < self.count {
            self.scan(table, division, s, rows, i);
            i += 1;
        }
    }

    // The queue has one place, the site of s.
    fn start(&mut self, division: &[u8], s: usize)
        requires { (s < length division.now) × (at division.now s < most_width) }
        ensures site { at self.new.sites 0 ≡ at division.now s }
        ensures count { self.new.count ≡ 1 }
        ensures placed { (w : ℕ) → at division.now s < w → Placed w 1 self.new.sites self.new.flags }
    {
        self.flags.fill(false);
        let a = division[s];
        self.sites[0] = a;
        self.flags[usize::from(a)] = true;
        self.count = 1;
    }

    // Every street later than s that is tight for the site of the place i is looked at from there, the last one first.
    fn scan(&mut self, table: &PriceTable, division: &[u8], s: usize, rows: &TightRows, i: usize)
        requires fits { Fits table.now division.now }
        requires i_lt_count { (i < self.old.count) × (s < length division.now) }
        requires rows { Rowed (value_of table.now) (price_of table.now) division.now rows.now.tights rows.now.ends }
        requires grown { GrownTo table.now division.now s self.old i }
        ensures lower_bound { i < self.new.count }
        ensures grown_2 { GrownTo table.now division.now s self.new (i + 1) }
    {
        let y = usize::from(self.sites[i]);
        let row = y * (division.len() + 1);
        let mut j = usize::from(rows.ends[y]);
        let mut t = usize::from(rows.tights[row + j]);
        while s < t {
            self.join(table, division, i, t);
            j -= 1;
            t = usize::from(rows.tights[row + j]);
        }
    }

    // A street is looked at from the place i: where its site is not in the queue yet, and it is tight for the site of i, its site joins.
    fn join(&mut self, table: &PriceTable, division: &[u8], i: usize, t: usize)
        requires fits { Fits table.now division.now }
        requires placed { Placed (length table.now.shares.now) self.old.count self.old.sites self.old.flags }
        requires i_lt_count { (i < self.old.count) × (t < length division.now) }
        ensures by_index { (s : ℕ) → s < t → GrowingTo table.now division.now s self.old i (t + 1)
            → GrowingTo table.now division.now s self.new i t }
        ensures agree { Agree self.old.sites self.new.sites self.old.count }
    {
        let x = division[t];
        if self.flags[usize::from(x)] {
            return;
        }
        let y = usize::from(self.sites[i]);
        if table.tight(division, t, y) {
            self.push(t as u16, i as u8, x);
        }
    }

    // A place more, behind the others.
    fn push(&mut self, street: u16, next: u8, site: u8)
        requires { (self.old.count < most_width) × (site < most_width) }
        ensures { Pushed self.old self.new street next site }
    {
        self.flags[usize::from(site)] = true;
        self.streets[self.count] = street;
        self.nexts[self.count] = next;
        self.sites[self.count] = site;
        self.count += 1;
    }
}
