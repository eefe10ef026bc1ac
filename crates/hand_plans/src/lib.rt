// The test of a hand-made plan: the refusal that turns it down, and none where it passes.
#![tactic(auto, using(call_answers::proofs::Refused::tries, counting::proofs::Refusals::chain))]

ghost use Rattle.std.specs.Prelude.{◌≡◌, [], ◌≤◌, ◌<◌, IfOk, suc, length, count_by};
ghost use Rattle.counting.specs.Bounds.{most_streets, most_sites};
ghost use Rattle.counting.specs.Words.{◌or_else◌, count_of};
ghost use Rattle.counting.specs.Lists.{at};
ghost use Rattle.call_answers.specs.Answers.{number, Tried};
ghost use Rattle.survey.specs.Town.{lent};
ghost use Rattle.survey.specs.Refusals.{length_refusal};
ghost use Rattle.survey.specs.Rows.{value};
ghost use Rattle.survey.specs.ByKind.{kind_number};
ghost use Rattle.division.specs.Shares.{division_total};
ghost use Rattle.loads.specs.Loads.{loads_lent, lengths_refusal};
ghost use Rattle.loads.specs.Sums.{Summed};
ghost use Rattle.refusals.specs.Inputs.{hand_of};
ghost use Rattle.refusals.specs.Refusals.{plan_kind_refusal, used_refusal, shares_refusal, usage_refusal, lowest_site};
ghost use Rattle.refusals.specs.Refusals.{claim_refusal, load_numbers, sent_refusal, hand_refusal};
ghost use Rattle.hand_plans.specs.Counts.{between};

use call_answers::Refusal;
use loads::Loads;
use survey::accepted::AcceptedTown;
use survey::{Kind, Town};
use survey_check::check::{self, outside, try_length};

// How many streets each site has, and how many have none, in one pass over the division. They are counted in a table of zeros where it lies.
fn count_streets(division: &[u8], counts: &mut [usize; 256])
    requires { Summed (λ s. 1) counts.old [] }
    ensures { Summed (λ s. 1) counts.new division.now }
{
    for site in division {
        counts[usize::from(*site)] += 1;
    }
}

// The numbers of streets that are within the bounds.
fn count_within(streets: &[usize], least: usize, most: usize) -> usize
    ensures { result ≡ count_by (between least most) streets.now }
{
    streets
        .iter()
        .filter(|x| !outside(**x, least, most))
        .count()
}

// The sites of 1 to m whose numbers of streets are within the bounds.
fn count_sites(counts: &[usize; 256], m: usize, least: usize, most: usize) -> usize
    requires { m ≤ most_sites }
    ensures { result ≡ count_of m (λ a. between least most (at counts.now (suc a))) }
{
    count_within(&counts[1..m + 1], least, most)
}

// 18 of a free plan: more than k sites are used. No site has more than all streets, so those with 1 street up to all are the used ones.
fn try_used(division: &[u8], m: usize, k: usize) -> Result<(), Refusal>
    requires { m ≤ most_sites }
    ensures { number result ≡ used_refusal m k division.now }
{
    let mut counts = [0usize; 256];
    count_streets(division, &mut counts);
    Refusal::Usage.when(k < count_sites(&counts, m, 1, division.len()))
}

// 18 of a balanced plan: not exactly r sites have q + 1 streets, or not exactly k - r have q. The streets are counted once.
fn try_shares(n: usize, m: usize, k: usize, division: &[u8]) -> Result<(), Refusal>
    requires { (m ≤ most_sites) × (0 < k) × (n ≤ most_streets) }
    ensures { number result ≡ shares_refusal n m k division.now }
{
    let q = shares::least(n, k);
    let r = shares::larger(n, k);
    let mut counts = [0usize; 256];
    count_streets(division, &mut counts);
    Refusal::Usage.when(count_sites(&counts, m, q + 1, q + 1) != r)?;
    Refusal::Usage.when(count_sites(&counts, m, q, q) != k - r)
}

// 18 of a plan, by its kind.
fn try_usage(kind: Kind, n: usize, m: usize, k: usize, division: &[u8]) -> Result<(), Refusal>
    requires { (m ≤ most_sites) × (0 < k) × (n ≤ most_streets) }
    ensures { number result ≡ usage_refusal (kind_number kind) n m k division.now }
{
    match kind {
        Kind::Free => try_used(division, m, k),
        Kind::Balanced => try_shares(n, m, k, division),
    }
}

// The lowest site that a street may have: in a free plan 0, which is none.
fn lowest_site(kind: Kind) -> u8
    ensures { result ≡ lowest_site (kind_number kind) }
{
    match kind {
        Kind::Free => 0,
        Kind::Balanced => 1,
    }
}

// The plan's total: the sum over the streets of the counted score that each gives its site, 0 for site 0.
fn plan_total(town: AcceptedTown<'_>, division: &[u8]) -> u32
    requires { length division.now ≡ town.town.n }
    ensures { result ≡ division_total (value (lent town.entry.town)) division.now }
{
    let Town {
        scores,
        weights,
        ..
    } = town.town;
    let mut total = 0u32;
    for (s, site) in division.iter().enumerate() {
        total += survey::rows::counted(weights[s], scores, town.town.row(s), *site);
    }
    total
}

// 19: the claimed total is not the plan's.
fn try_claim(town: AcceptedTown<'_>, division: &[u8], claimed: u32) -> Result<(), Refusal>
    requires { length division.now ≡ town.town.n }
    ensures { number result ≡ claim_refusal (lent town.entry.town) division.now claimed }
{
    Refusal::Claim.when(claimed != plan_total(town, division))
}

// What a hand plan is tried for besides its survey: its kind, then 6 for its sites and for the buffers of its loads.
fn try_own(
    town: Town<'_>,
    k: usize,
    kind: usize,
    division: &[u8],
    loads: Loads<'_>,
) -> Result<Kind, Refusal>
    ensures refusal { number result ≡ plan_kind_refusal kind town.entry.n k or_else length_refusal (length division.now) town.entry.n or_else
        lengths_refusal town.entry.n town.entry.m (loads_lent loads.entry) }
    ensures decoded { IfOk result (λ x. kind_number x ≡ kind) }
{
    let decoded = refusals::try_plan_kind(kind, town.n, k)?;
    try_length(division.len(), town.n)?;
    loads.try_lengths(town.n, town.m)?;
    Ok(decoded)
}

// What a hand plan is tried for behind its survey: its loads, its sites from the lowest one allowed, the 18 of its kind, the limits, and the claim.
// Its counts and sums lie on the stack only once the survey's check has left it.
#[inline(never)]
fn try_sent(
    town: AcceptedTown<'_>,
    k: usize,
    kind: Kind,
    division: &[u8],
    claimed: u32,
    loads: Loads<'_>,
) -> Result<(), Refusal>
    requires some_chosen { 0 < k }
    requires division_len { length division.now ≡ town.town.n }
    requires load_lengths { lengths_refusal town.town.n town.town.m (loads_lent loads) ≡ 0 }
    ensures { number result ≡ sent_refusal (lent town.entry.town) division.now claimed (lowest_site (kind_number kind))
        (usage_refusal (kind_number kind) town.entry.town.n town.entry.town.m k division.now)
        (load_numbers (lent town.entry.town) division.now (loads_lent loads.entry)) }
{
    let Town { n, m, .. } = town.town;
    loads.try_loads()?;
    refusals::try_ranges(lowest_site(kind), m, division)?;
    try_usage(kind, n, m, k, division)?;
    loads.try_limits(m, division)?;
    try_claim(town, division, claimed)
}

// A hand plan. Free: a street may go to site 0, and at most k sites are used. Balanced: every street goes to a site, and k sites have the rounds'
// shares, in any order.
pub fn try_hand(
    town: Town<'_>,
    k: usize,
    kind: usize,
    division: &[u8],
    claimed: u32,
    loads: Loads<'_>,
) -> Result<(), Refusal>
    ensures { Tried hand_refusal (hand_of (lent town.entry) k kind division.now claimed (loads_lent loads.entry)) (number result) }
{
    let own = try_own(town, k, kind, division, loads);
    let accepted = check::try_survey(town, k, own)?;
    try_sent(accepted, k, own?, division, claimed, loads)
}
