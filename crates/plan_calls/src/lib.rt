// The call that makes a plan, free or balanced, and the floor.
#![tactic(auto)]

ghost use Rattle.survey.specs.Town.{lent};
ghost use Rattle.refusals.specs.Inputs.{survey_of, plan_of};
ghost use Rattle.plan_calls.specs.Calls.{Planned, FloorGiven};

use call_answers::Refusal;
use survey::{Kind, Town};

// The plan of k sites, free for kind 0 and balanced for kind 1, into buffers of n and of k bytes. In a balanced one every site gets its share of the
// streets, n / k, and the first n % k chosen sites get one street more each. Refuses with 1, 2, 3, 4, 5 (balanced), 6, 8, 24, 9, 10 or 11.
pub fn plan(
    town: Town<'_>,
    k: usize,
    kind: usize,
    division: &mut [u8],
    chosen: &mut [u8],
) -> Result<u32, Refusal>
    ensures { Planned (plan_of (lent town.entry) k kind division.old chosen.old) division.new chosen.new result }
{
    let (accepted, decoded) = refusals::try_plan(town, k, kind, division, chosen)?;
    match decoded {
        Kind::Free => Ok(free_results::plan(accepted, division, chosen)),
        Kind::Balanced => Ok(balanced_results::plan(accepted, division, chosen)),
    }
}

// The floor: what every balanced plan of k sites totals at least. Refuses with 1, 2, 3, 5, 6, 8, 24, 9, 10 or 11.
pub fn floor(town: Town<'_>, k: usize) -> Result<u32, Refusal>
    ensures { FloorGiven (survey_of (lent town.entry) k) result }
{
    let accepted = refusals::try_floor(town, k)?;
    Ok(floors::floor(accepted, k))
}
