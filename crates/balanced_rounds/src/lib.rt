// The balanced plan's rounds: a state that holds the sites chosen so far and each street's site, passed by value from round to round.
#![tactic(auto)]

ghost use Rattle.std.specs.Prelude.{◌≡◌, ℕ, ◌+◌, ◌≤◌, ◌<◌, length, take};
ghost use Rattle.counting.specs.Bounds.{most_streets, most_sites};
ghost use Rattle.counting.specs.Lists.{at};
ghost use Rattle.counting.specs.Greatest.{greatest};
ghost use Rattle.tables.specs.Tables.{value_in};
ghost use Rattle.choices.specs.Scan.{unflagged};
ghost use Rattle.shares.specs.Rounds.{round_share};
ghost use Rattle.balanced_plan.specs.Rounds.{worth, choice, taken, rounds};
ghost use Rattle.balanced_rounds.specs.Lines.{Orders, WellFormed, state_of, empty_state};
ghost use Rattle.balanced_rounds.specs.Worth.{line_worth};

use table::Table;

pub mod table;
mod walks;

// The sites chosen so far in order of choice, a flag for each of them, and each street's site, 0 while it is free.
// kept: an array with a count beside it, which `sites` reads: the library allocates nothing
#[derive(Clone, Copy)]
pub struct State {
    pub chosen: [u8; counting::SITES],
    pub count: usize,
    pub flags: [bool; 256],
    pub division: [u8; counting::STREETS],
}

// The worth of the site a, 0 where it is chosen.
fn worth_of(table: Table<'_>, division: &[u8], flags: &[bool], q: usize, a: usize) -> u32
    requires division_len { (length division.now ≡ table.n) × (q ≤ most_streets) }
    requires flags_len { (length flags.now ≡ 256) × (a ≤ table.m) }
    ensures { result ≡ line_worth table.entry division.now flags.now q a }
{
    if flags[a] {
        return 0;
    }
    walks::worth(table, division, q, a)
}

// The worths of all sites.
fn fill_worths(table: Table<'_>, division: &[u8], flags: &[bool], q: usize, worths: &mut [u32])
    requires division_len { (length division.now ≡ table.n) × (q ≤ most_streets) }
    requires flags_len { (length flags.now ≡ 256) × (length worths.old ≡ table.m + 1) }
    ensures { (a : ℕ) → a ≤ table.entry.m → at worths.new a ≡ line_worth table.entry division.now flags.now q a }
{
    for (a, worth) in worths.iter_mut().enumerate() {
        *worth = worth_of(table, division, flags, q, a);
    }
}

// The choice of a round: the unchosen site of greatest worth, the lowest number on a tie.
fn choose(table: Table<'_>, division: &[u8], flags: &[bool], q: usize) -> usize
    requires { (length division.now ≡ table.n) × (q ≤ most_streets) × (length flags.now ≡ 256) }
    ensures site { result ≤ table.entry.m }
    ensures choice { (key : ℕ → ℕ → ℕ) → Orders key table.entry.n table.entry.m table.entry.orders.now
        → result ≡ greatest (unflagged flags.now) (worth (value_in table.entry.values.now table.entry.m) key q division.now) table.entry.m }
{
    let mut worths = [0u32; counting::WIDTH];
    let worths = &mut worths[..table.m + 1];
    fill_worths(table, division, flags, q, worths);
    choices::best_site(worths, flags, table.m)
}

impl State {
    // No site is chosen, and every street is free.
    pub fn empty() -> Self
        ensures { result ≡ empty_state }
    {
        Self {
            chosen: [0u8; counting::SITES],
            count: 0,
            flags: [false; 256],
            division: [0u8; counting::STREETS],
        }
    }

    // The sites chosen so far, in order of choice.
    pub fn sites(&self) -> &[u8]
        requires { self.now.count ≤ length self.now.chosen }
        ensures { result.now ≡ take self.now.count self.now.chosen }
    {
        &self.chosen[..self.count]
    }

    // The state once a site has been chosen and has taken its streets.
    fn taking(mut self, table: Table<'_>, q: usize, site: u8) -> Self
        requires { WellFormed self × (self.count < most_sites) × (site ≤ table.m) }
        ensures held { WellFormed result × (result.count ≡ self.count + 1) }
        ensures state { (key : ℕ → ℕ → ℕ) → Orders key table.entry.n table.entry.m table.entry.orders.now
            → state_of table.entry.n result ≡ taken key q (state_of table.entry.n self) site }
    {
        let at = self.count;
        let flag = site as usize;
        let n = table.n;
        let before = self.division;
        let mut division = self.division;
        walks::give_lot(table.line(flag), &before[..n], &mut division[..n], q, site);
        self.chosen[at] = site;
        self.count = at + 1;
        self.flags[flag] = true;
        self.division = division;
        self
    }

    // One round: the site of greatest worth is chosen and takes its streets.
    pub fn round(mut self, table: Table<'_>, q: usize) -> Self
        requires { WellFormed self × (self.count < most_sites) × (q ≤ most_streets) }
        ensures held { WellFormed result × (result.count ≡ self.count + 1) }
        ensures state { (key : ℕ → ℕ → ℕ) → Orders key table.entry.n table.entry.m table.entry.orders.now
            → state_of table.entry.n result ≡ taken key q (state_of table.entry.n self)
            (choice (value_in table.entry.values.now table.entry.m) key table.entry.m q (state_of table.entry.n self)) }
    {
        let division = self.division;
        let flags = self.flags;
        let site = choose(table, &division[..table.n], &flags, q);
        self = self.taking(table, q, site as u8);
        self
    }
}

// The state after k rounds, each with its own share.
pub fn rounds(table: Table<'_>, k: usize) -> State
    requires { (0 < k) × (k ≤ table.m) }
    ensures held { WellFormed result × (result.count ≡ k) }
    ensures state { (key : ℕ → ℕ → ℕ) → Orders key table.entry.n table.entry.m table.entry.orders.now
        → state_of table.entry.n result
        ≡ rounds (value_in table.entry.values.now table.entry.m) key table.entry.n table.entry.m (round_share table.entry.n k) k }
{
    let mut state = State::empty();
    for i in 0..k {
        state = state.round(table, shares::of_round(table.n, k, i));
    }
    state
}
