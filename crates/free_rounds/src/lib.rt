// The free plan's engine: a state that holds the sites chosen so far and each street's best score, passed by value from round to round. The
// bests are plain scores, and the streets' weights come in where they are summed: a weight times the best is the best of what counts. It is
// the lazy greedy algorithm: a site's rise never grows, so the rise that was found last bounds it, and most sites need no new sum.
#![tactic(auto)]

ghost use Rattle.std.specs.Prelude.{◌≡◌, ◌∷◌, [], ◌++◌, ℕ, ◌+◌, ◌≤◌, ◌<◌, length};
ghost use Rattle.counting.specs.Bounds.{most_sites, most_value};
ghost use Rattle.counting.specs.Lists.{at};
ghost use Rattle.free_plan.specs.Greedy.{pick, greedy};
ghost use Rattle.free_rounds.specs.Held.{Held, Bounds, sites_of, empty_state};
ghost use Rattle.free_rounds.specs.Scored.{scored, counted};

use table::Table;

pub mod pick;
pub mod sums;
pub mod table;
pub mod weights;

// The sites chosen so far in order of choice, a flag for each of them, the best score that they give each street,
// and for each site a bound of what it would raise their total by.
// kept: an array with a count beside it, which `sites` reads: the library allocates nothing
#[derive(Clone, Copy)]
pub struct State {
    pub chosen: [u8; counting::SITES],
    pub count: usize,
    pub flags: [bool; 256],
    pub bests: [u16; counting::STREETS],
    pub bounds: [u32; counting::WIDTH],
}

impl State {
    // No site is chosen.
    pub fn empty() -> Self
        ensures { result ≡ empty_state }
    {
        Self {
            chosen: [0u8; counting::SITES],
            count: 0,
            flags: [false; 256],
            bests: [0u16; counting::STREETS],
            bounds: [39600000u32; counting::WIDTH],
        }
    }

    // The sites chosen so far, in order of choice.
    pub fn sites(&self) -> &[u8]
        requires { self.now.count ≤ length self.now.chosen }
        ensures { result.now ≡ sites_of self.now }
    {
        &self.chosen[..self.count]
    }

    // The state with one site more. Its bounds stay bounds whatever counts for a street, since no rise grows.
    pub fn taking(mut self, table: Table<'_>, site: u8) -> Self
        requires held { Held (scored table) table.n self }
        requires site_le_m { (site ≤ table.m) × (self.count < most_sites) }
        ensures sites { (result.count ≡ self.count + 1) × (sites_of result ≡ sites_of self ++ (site ∷ [])) }
        ensures held { Held (scored table.entry) table.entry.n result }
        ensures bounds { (v : ℕ → ℕ → ℕ) → Bounds v table.entry.n self → Bounds v table.entry.n result }
    {
        let at = self.count;
        let flag = site as usize;
        self.chosen[at] = site;
        self.count = at + 1;
        self.flags[flag] = true;
        let mut bests = self.bests;
        sums::raise(&mut bests[..table.n], table.row(flag));
        self.bests = bests;
        self
    }

    // One round: the site that raises the total most is added.
    pub fn round(mut self, table: Table<'_>) -> Self
        requires held { Held (scored table) table.n self × Bounds (counted table) table.n self }
        requires count_lt_m { self.count < table.m }
        ensures sites { (result.count ≡ self.count + 1)
            × (sites_of result ≡ sites_of self ++ (pick (counted table.entry) table.entry.n table.entry.m (sites_of self) ∷ [])) }
        ensures held { Held (scored table.entry) table.entry.n result × Bounds (counted table.entry) table.entry.n result }
    {
        let bests = self.bests;
        let flags = self.flags;
        let mut bounds = self.bounds;
        let site = pick::choose(table, &bests[..table.n], &flags, &mut bounds);
        self.bounds = bounds;
        self = self.taking(table, site as u8);
        self
    }
}

// The state with the sites of a given list.
fn taken(table: Table<'_>, sites: &[u8]) -> State
    requires { (length sites.now ≤ most_sites) × ((i : ℕ) → at sites.now i ≤ table.m) }
    ensures sites { (result.count ≡ length sites.now) × (sites_of result ≡ sites.now) }
    ensures held { Held (scored table.entry) table.entry.n result }
    ensures bounds { (v : ℕ → ℕ → ℕ) → ((s a : ℕ) → v s a ≤ most_value) → Bounds v table.entry.n result }
{
    let mut state = State::empty();
    for site in sites {
        state = state.taking(table, *site);
    }
    state
}

// The state after k rounds from a given list of sites.
pub fn rounds(table: Table<'_>, sites: &[u8], k: usize) -> State
    requires { (length sites.now + k ≤ table.m) × ((i : ℕ) → at sites.now i ≤ table.m) }
    ensures sites { (result.count ≡ length sites.now + k)
        × (sites_of result ≡ greedy (counted table.entry) table.entry.n table.entry.m k sites.now) }
    ensures held { Held (scored table.entry) table.entry.n result }
{
    let mut state = taken(table, sites);
    for _i in 0..k {
        state = state.round(table);
    }
    state
}
