// From an accepted survey to the free plan's results: the table is filled, the engine chooses or takes the sites, and the streets are served.
#![tactic(auto)]

ghost use Rattle.std.specs.Prelude.{◌≡◌, ℕ, ◌+◌, ◌≤◌, length};
ghost use Rattle.counting.specs.Lists.{at};
ghost use Rattle.survey.specs.Town.{lent};
ghost use Rattle.survey.specs.Rows.{score, value};
ghost use Rattle.free_plan.specs.Greedy.{greedy};
ghost use Rattle.plans.specs.Plans.{list_total, free_division, free_sites};
ghost use Rattle.free_rounds.specs.Held.{Held, sites_of};

use free_rounds::table::Table;
use free_rounds::weights::Weighing;
use free_rounds::{State, sums};
use survey::accepted::AcceptedTown;

mod serve;

// The state after k rounds from a given list of sites.
fn planned(town: AcceptedTown<'_>, sites: &[u8], k: usize) -> State
    requires { (length sites.now + k ≤ town.town.m) × ((i : ℕ) → at sites.now i ≤ town.town.m) }
    ensures sites { (result.count ≡ length sites.now + k)
        × (sites_of result ≡ greedy (value (lent town.entry.town)) town.entry.town.n town.entry.town.m k sites.now) }
    ensures held { Held (score (lent town.entry.town)) town.entry.town.n result }
{
    let mut table = [0u16; counting::ENTRIES];
    let values = &mut table[..(town.town.m + 1) * town.town.n];
    tables::by_site::fill_values(town.town, values);
    let table = Table {
        n: town.town.n,
        m: town.town.m,
        values,
        weights: Weighing::of(town),
    };
    free_rounds::rounds(table, sites, k)
}

// The total of a state's sites: each street's best score, by its weight.
fn total_of(town: AcceptedTown<'_>, state: &State) -> u32
    requires { Held (score (lent town.town)) town.town.n state.now }
    ensures { result ≡ list_total (lent town.entry.town) (sites_of state.now) }
{
    let town = town.town;
    sums::sum(&state.bests[..town.n], Weighing::Own(town.weights))
}

// The total of a list of sites.
pub fn list_total(town: AcceptedTown<'_>, sites: &[u8]) -> u32
    requires { (length sites.now ≤ town.town.m) × ((i : ℕ) → at sites.now i ≤ town.town.m) }
    ensures { result ≡ list_total (lent town.entry.town) sites.now }
{
    let state = planned(town, sites, 0);
    total_of(town, &state)
}

// The free division over a list of sites, and its total.
pub fn divide(town: AcceptedTown<'_>, sites: &[u8], division: &mut [u8]) -> u32
    requires sites { (length sites.now ≤ town.town.m) × ((i : ℕ) → at sites.now i ≤ town.town.m) }
    requires division_len { length division.old ≡ town.town.n }
    ensures total { result ≡ list_total (lent town.entry.town) sites.now }
    ensures division { division.new ≡ free_division (lent town.entry.town) sites.now }
{
    let state = planned(town, sites, 0);
    serve::serve(town, &state.flags, division);
    total_of(town, &state)
}

// The free plan: its sites, its division, and its total.
pub fn plan(town: AcceptedTown<'_>, division: &mut [u8], chosen: &mut [u8]) -> u32
    requires chosen_len { length chosen.old ≤ town.town.m }
    requires division_len { length division.old ≡ town.town.n }
    ensures total { result ≡ list_total (lent town.entry.town) (free_sites (lent town.entry.town) (length chosen.old)) }
    ensures division { division.new ≡ free_division (lent town.entry.town) (free_sites (lent town.entry.town) (length chosen.old)) }
    ensures chosen { chosen.new ≡ free_sites (lent town.entry.town) (length chosen.old) }
{
    let state = planned(town, &[], chosen.len());
    serve::serve(town, &state.flags, division);
    chosen.copy_from_slice(state.sites());
    total_of(town, &state)
}
