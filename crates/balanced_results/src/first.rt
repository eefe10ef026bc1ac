// A first division for the engine to improve, in the rounds' shares: that of the rounds, which choose the sites, or one over a list of sites.
ghost use Rattle.std.specs.Prelude.{◌≡◌, ℕ, ◌+◌, ◌≤◌, ◌<◌, length};
ghost use Rattle.counting.specs.Lists.{at};
ghost use Rattle.survey.specs.Town.{lent};
ghost use Rattle.plans.specs.Plans.{balanced_rounds, balanced_sites};
ghost use Rattle.balanced_rounds.specs.Lines.{WellFormed, state_of};
ghost use Rattle.balanced_results.specs.Shareable.{Shareable};
ghost use Rattle.balanced_results.specs.Begun.{Begun, Listed, sites_of};

use crate::valued::Valued;
use balanced_rounds::State;
use balanced_rounds::table::Table;
use survey::weights;

// Who chooses the sites of a balanced division: the rounds, or the caller, who lists them.
#[derive(Clone, Copy)]
pub enum Chooser {
    Rounds,
    Caller,
}

// The state after k rounds.
fn play(valued: Valued<'_>, k: usize) -> State
    requires { (0 < k) × (k ≤ valued.town.town.m) }
    ensures held { WellFormed result × (result.count ≡ k) }
    ensures state { state_of valued.entry.town.town.n result ≡ balanced_rounds (lent valued.entry.town.town) k }
{
    let town = valued.town.town;
    let size = (town.m + 1) * town.n;
    let mut keys = [0u32; counting::ENTRIES];
    let mut orders = [0u16; counting::ENTRIES];
    let keys = &mut keys[..size];
    let orders = &mut orders[..size];
    tables::keys::fill_for_rounds(town, valued.values, weights::even(town.weights), keys);
    orders::fill_orders(keys, town.n, town.m, orders);
    let table = Table {
        n: town.n,
        m: town.m,
        values: valued.values,
        orders,
    };
    balanced_rounds::rounds(table, k)
}

// The sites and the division of the rounds.
fn by_rounds(valued: Valued<'_>, sites: &mut [u8], division: &mut [u8], shares: &mut [u16])
    requires sites_len { (0 < length sites.old) × (length sites.old ≤ valued.town.town.m) }
    requires division_len { length division.old ≡ valued.town.town.n }
    requires shares_len { (length shares.old ≡ valued.town.town.m + 1) × ((a : ℕ) → at shares.old a ≡ 0) }
    ensures begun { Begun valued.entry.town.town.n valued.entry.town.town.m sites.new shares.new division.new }
    ensures sites { sites.new ≡ balanced_sites (lent valued.entry.town.town) (length sites.old) }
{
    let town = valued.town.town;
    let state = play(valued, sites.len());
    sites.copy_from_slice(state.sites());
    division.copy_from_slice(&state.division[..town.n]);
    starts::share_out(town.n, town.m, sites, shares);
}

// A division over a list of sites.
fn over_list(valued: Valued<'_>, sites: &[u8], division: &mut [u8], shares: &mut [u16])
    requires shareable { Shareable valued.town.town.m sites.now }
    requires division_len { length division.old ≡ valued.town.town.n }
    requires shares_len { (length shares.old ≡ valued.town.town.m + 1) × ((a : ℕ) → at shares.old a ≡ 0) }
    ensures { Begun valued.entry.town.town.n valued.entry.town.town.m sites.now shares.new division.new }
{
    let town = valued.town.town;
    let mut left = [0u16; counting::WIDTH];
    starts::share_out(town.n, town.m, sites, shares);
    starts::begin(valued.values, shares, &mut left[..town.m + 1], division);
}

// The first division, over the sites of the rounds where these choose them, else over the list as it is.
pub fn divide(
    valued: Valued<'_>,
    chooser: Chooser,
    sites: &mut [u8],
    division: &mut [u8],
    shares: &mut [u16],
)
    requires listed { Listed chooser valued.town.town.m sites.old }
    requires division_len { length division.old ≡ valued.town.town.n }
    requires shares_len { (length shares.old ≡ valued.town.town.m + 1) × ((a : ℕ) → at shares.old a ≡ 0) }
    ensures begun { Begun valued.entry.town.town.n valued.entry.town.town.m sites.new shares.new division.new }
    ensures sites { sites.new ≡ sites_of chooser (balanced_sites (lent valued.entry.town.town) (length sites.old)) sites.old }
{
    match chooser {
        Chooser::Rounds => by_rounds(valued, sites, division, shares),
        Chooser::Caller => over_list(valued, sites, division, shares),
    }
}
