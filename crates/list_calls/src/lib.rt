// The calls on a given list of sites: its total, and the division of the streets over it, free or best balanced.
#![tactic(auto)]

ghost use Rattle.survey.specs.Town.{lent};
ghost use Rattle.refusals.specs.Inputs.{list_input_of, division_of};
ghost use Rattle.list_calls.specs.Calls.{ListTotalled, FreeDivided, BalancedDivided};

use call_answers::Refusal;
use survey::Town;

// The total of a list of sites, as in the free plan. Refuses with 1, 2, 3, 6, 8, 24, 9, 10, 11, 17 or 20.
pub fn list_total(town: Town<'_>, sites: &[u8]) -> Result<u32, Refusal>
    ensures { ListTotalled (list_input_of (lent town.entry) sites.now) result }
{
    let accepted = refusals::try_list_total(town, sites)?;
    Ok(free_results::list_total(accepted, sites))
}

// The free division over a list of sites, into a buffer of n bytes. Refuses with 1, 2, 3, 6, 8, 24, 9, 10, 11, 17 or 20.
pub fn free_division(town: Town<'_>, sites: &[u8], division: &mut [u8]) -> Result<u32, Refusal>
    ensures { FreeDivided (division_of (lent town.entry) sites.now division.old) division.new result }
{
    let accepted = refusals::try_free_division(town, sites, division)?;
    Ok(free_results::divide(accepted, sites, division))
}

// The best balanced division over a list of sites, into a buffer of n bytes: each site gets its share of the streets, n divided by the length of the
// list, and where something is left over, the first sites of the list get one street more each. Refuses with 1, 2, 3, 5, 6, 8, 24, 9, 10, 11, 17 or 20.
pub fn balanced_division(town: Town<'_>, sites: &[u8], division: &mut [u8]) -> Result<u32, Refusal>
    ensures { BalancedDivided (division_of (lent town.entry) sites.now division.old) division.new result }
{
    let accepted = refusals::try_balanced_division(town, sites, division)?;
    Ok(balanced_results::divide(accepted, sites, division))
}
