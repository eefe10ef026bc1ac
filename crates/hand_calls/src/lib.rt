// The test of a hand-made plan, free or balanced.
#![tactic(auto)]

ghost use Rattle.survey.specs.Town.{lent};
ghost use Rattle.loads.specs.Loads.{loads_lent};
ghost use Rattle.refusals.specs.Inputs.{hand_of};
ghost use Rattle.hand_calls.specs.Calls.{HandTested};

use call_answers::Refusal;
use loads::Loads;
use survey::Town;

// Tests a hand-made plan, free for kind 0 and balanced for kind 1: a site for each street, in a free one 0 for none, and the total that is claimed for
// it. In a balanced one k sites have the shares of a balanced plan, in any order. Each street brings kilograms and litres, and each site has a limit of
// both. Gives the plan's total. Refuses with 1, 2, 3, 4, 5 (balanced), 6, 8, 24, 9, 10, 11, 21, 17, 18, 22, 23 or 19.
pub fn hand_plan(
    town: Town<'_>,
    k: usize,
    kind: usize,
    division: &[u8],
    claimed: u32,
    loads: Loads<'_>,
) -> Result<u32, Refusal>
    ensures { HandTested (hand_of (lent town.entry) k kind division.now claimed (loads_lent loads.entry)) result }
{
    hand_plans::try_hand(town, k, kind, division, claimed, loads)?;
    Ok(claimed)
}
