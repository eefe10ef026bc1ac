// From an accepted survey to the best balanced division, over a list of sites or over the sites that the rounds choose: the table is filled, a first
// division in the rounds' shares is found, and it becomes the best one.
#![tactic(auto)]

ghost use Rattle.std.specs.Prelude.{◌≡◌, ◌≤◌, ◌<◌, length};
ghost use Rattle.survey.specs.Town.{lent};
ghost use Rattle.plans.specs.Plans.{plan_total, balanced_division, balanced_sites, balanced_total};
ghost use Rattle.balanced_results.specs.Shareable.{Shareable};
ghost use Rattle.balanced_results.specs.Begun.{Listed, sites_of};

use first::Chooser;
use survey::accepted::AcceptedTown;
use valued::Valued;

mod first;
mod valued;

// The best balanced division over the sites, which the rounds choose or not, and its total. It has two callers, so that its tables are on the stack
// only while a division is made, and not while a call is refused.
fn best(town: AcceptedTown<'_>, chooser: Chooser, sites: &mut [u8], division: &mut [u8]) -> u32
    requires listed { Listed chooser town.town.m sites.old }
    requires division_len { length division.old ≡ town.town.n }
    ensures total { result ≡ plan_total (lent town.entry.town) (balanced_division (lent town.entry.town) sites.new) }
    ensures division { division.new ≡ balanced_division (lent town.entry.town) sites.new }
    ensures sites { sites.new ≡ sites_of chooser (balanced_sites (lent town.entry.town) (length sites.old)) sites.old }
{
    let w = town.town.m + 1;
    let mut table = [0u32; counting::ENTRIES];
    let mut shares = [0u16; counting::WIDTH];
    let values = &mut table[..town.town.n * w];
    let shares = &mut shares[..w];
    tables::by_street::fill_values(town, values);
    first::divide(Valued { town, values }, chooser, sites, division, shares);
    compact::best(values, shares, division)
}

// The best balanced division over a list of sites, and its total.
pub fn divide(town: AcceptedTown<'_>, sites: &[u8], division: &mut [u8]) -> u32
    requires shareable { Shareable town.town.m sites.now }
    requires division_len { length division.old ≡ town.town.n }
    ensures total { result ≡ plan_total (lent town.entry.town) (balanced_division (lent town.entry.town) sites.now) }
    ensures division { division.new ≡ balanced_division (lent town.entry.town) sites.now }
{
    let mut list = [0u8; counting::SITES];
    let list = &mut list[..sites.len()];
    list.copy_from_slice(sites);
    best(town, Chooser::Caller, list, division)
}

// The balanced plan: its sites, its division, and its total.
pub fn plan(town: AcceptedTown<'_>, division: &mut [u8], chosen: &mut [u8]) -> u32
    requires chosen_len { (0 < length chosen.old) × (length chosen.old ≤ town.town.m) }
    requires division_len { length division.old ≡ town.town.n }
    ensures total { result ≡ balanced_total (lent town.entry.town) (length chosen.old) }
    ensures division { division.new ≡ balanced_division (lent town.entry.town) (balanced_sites (lent town.entry.town) (length chosen.old)) }
    ensures chosen { chosen.new ≡ balanced_sites (lent town.entry.town) (length chosen.old) }
{
    best(town, Chooser::Rounds, chosen, division)
}
