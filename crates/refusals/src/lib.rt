// What each call turns down: the refusal whose number its definition gives, and none where the call is accepted.
#![tactic(auto, using(call_answers::proofs::Refused::tries, counting::proofs::Refusals::chain))]

ghost use Rattle.std.specs.Prelude.{◌≡◌, IfOk};
ghost use Rattle.counting.specs.Words.{◌or_else◌};
ghost use Rattle.call_answers.specs.Answers.{number, Tried};
ghost use Rattle.survey.specs.Town.{lent};
ghost use Rattle.survey.specs.Refusals.{kind_refusal, share_refusal};
ghost use Rattle.survey.specs.ByKind.{kind_number};
ghost use Rattle.refusals.specs.Inputs.{survey_of, row_input_of, list_input_of, division_of, plan_of};
ghost use Rattle.refusals.specs.Refusals.{range_refusal, row_score_refusal, ranges_refusal, twice_refusal, list_refusal, listed_refusal};
ghost use Rattle.refusals.specs.Refusals.{list_total_refusal, free_division_refusal, balance_refusal, balanced_division_refusal};
ghost use Rattle.refusals.specs.Refusals.{buffers_refusal, plan_kind_refusal, plan_refusal, floor_refusal};

use call_answers::Refusal;
use survey::accepted::AcceptedTown;
use survey::{Kind, Town};
use survey_check::check::{self, outside, try_length};

// 17: a site outside a range.
fn try_range(low: u8, m: usize, site: u8) -> Result<(), Refusal>
    ensures { number result ≡ range_refusal low m site }
{
    Refusal::Range.when(outside(usize::from(site), usize::from(low), m))
}

// The first refusal of a row of m bytes and a site, with the scores and the street's weight.
pub fn try_row_score(
    m: usize,
    scores: &[u16],
    weight: u8,
    row: &[u8],
    site: u8,
) -> Result<(), Refusal>
    ensures { Tried row_score_refusal (row_input_of m scores.now weight row.now site) (number result) }
{
    check::try_sites(m)?;
    try_length(scores.len(), m)?;
    try_length(row.len(), m)?;
    check::try_scores(scores)?;
    check::try_weight(weight)?;
    check::try_row(m, row)?;
    try_range(1, m, site)
}

// 17 all through a list of sites.
pub fn try_ranges(low: u8, m: usize, sites: &[u8]) -> Result<(), Refusal>
    ensures { number result ≡ ranges_refusal low m sites.now }
{
    for site in sites {
        try_range(low, m, *site)?;
    }
    Ok(())
}

// 20: a site that is listed twice. The table of sites seen so far spares a scan of the list for each site.
pub fn try_twice(sites: &[u8]) -> Result<(), Refusal>
    ensures { number result ≡ twice_refusal sites.now }
{
    let mut seen = [false; 256];
    for site in sites {
        let at = usize::from(*site);
        Refusal::Again.when(seen[at])?;
        seen[at] = true;
    }
    Ok(())
}

// A given list of sites: 17 all through, then 20.
pub fn try_list(m: usize, sites: &[u8]) -> Result<(), Refusal>
    ensures { number result ≡ list_refusal m sites.now }
{
    try_ranges(1, m, sites)?;
    try_twice(sites)
}

// A survey with a given list of sites; `own` is what the call tries besides between 3 and 8.
fn try_listed<'a>(
    town: Town<'a>,
    sites: &[u8],
    own: Result<(), Refusal>,
) -> Result<AcceptedTown<'a>, Refusal>
    ensures refusal { number result ≡ listed_refusal (lent town.entry) sites.now (number own) }
    ensures same_town { IfOk result (λ a. a.town ≡ town.entry) }
{
    let accepted = check::try_survey(town, sites.len(), own)?;
    try_list(town.m, sites)?;
    Ok(accepted)
}

// The total of a list of sites.
pub fn try_list_total<'a>(town: Town<'a>, sites: &[u8]) -> Result<AcceptedTown<'a>, Refusal>
    ensures tried { Tried list_total_refusal (list_input_of (lent town.entry) sites.now) (number result) }
    ensures same_town { IfOk result (λ a. a.town ≡ town.entry) }
{
    try_listed(town, sites, Ok(()))
}

// A free division over a list of sites.
pub fn try_free_division<'a>(
    town: Town<'a>,
    sites: &[u8],
    division: &[u8],
) -> Result<AcceptedTown<'a>, Refusal>
    ensures tried { Tried free_division_refusal (division_of (lent town.entry) sites.now division.now) (number result) }
    ensures same_town { IfOk result (λ a. a.town ≡ town.entry) }
{
    try_listed(town, sites, try_length(division.len(), town.n))
}

// 5: more sites than streets.
fn try_share(n: usize, k: usize) -> Result<(), Refusal>
    ensures { number result ≡ share_refusal n k }
{
    Refusal::Share.when(n < k)
}

// What a balanced division is tried for besides: 5, then 6 for its buffer.
fn try_balance(n: usize, k: usize, division: &[u8]) -> Result<(), Refusal>
    ensures { number result ≡ balance_refusal n k division.now }
{
    try_share(n, k)?;
    try_length(division.len(), n)
}

// A balanced division over a list of sites.
pub fn try_balanced_division<'a>(
    town: Town<'a>,
    sites: &[u8],
    division: &[u8],
) -> Result<AcceptedTown<'a>, Refusal>
    ensures tried { Tried balanced_division_refusal (division_of (lent town.entry) sites.now division.now) (number result) }
    ensures same_town { IfOk result (λ a. a.town ≡ town.entry) }
{
    try_listed(town, sites, try_balance(town.n, sites.len(), division))
}

// 6 for the two buffers of a plan.
fn try_buffers(n: usize, k: usize, division: &[u8], chosen: &[u8]) -> Result<(), Refusal>
    ensures { number result ≡ buffers_refusal n k division.now chosen.now }
{
    try_length(division.len(), n)?;
    try_length(chosen.len(), k)
}

// 4: a kind that is neither free nor balanced; else the kind.
pub fn try_kind(kind: usize) -> Result<Kind, Refusal>
    ensures refusal { number result ≡ kind_refusal kind }
    ensures decoded { IfOk result (λ x. kind_number x ≡ kind) }
{
    Kind::try_from(kind)
}

// What a plan is tried for by its kind: 4, and 5 of a balanced one; else the kind.
pub fn try_plan_kind(kind: usize, n: usize, k: usize) -> Result<Kind, Refusal>
    ensures refusal { number result ≡ plan_kind_refusal kind n k }
    ensures decoded { IfOk result (λ x. kind_number x ≡ kind) }
{
    let decoded = try_kind(kind)?;
    if decoded == Kind::Balanced {
        try_share(n, k)?;
    }
    Ok(decoded)
}

// What a plan is tried for besides its survey: its kind, then 6 for its two buffers; else the kind.
fn try_own(kind: usize, n: usize, k: usize, division: &[u8], chosen: &[u8]) -> Result<Kind, Refusal>
    ensures refusal { number result ≡ plan_kind_refusal kind n k or_else buffers_refusal n k division.now chosen.now }
    ensures decoded { IfOk result (λ x. kind_number x ≡ kind) }
{
    let decoded = try_plan_kind(kind, n, k)?;
    try_buffers(n, k, division, chosen)?;
    Ok(decoded)
}

// A plan of either kind; else its town and its kind.
pub fn try_plan<'a>(
    town: Town<'a>,
    k: usize,
    kind: usize,
    division: &[u8],
    chosen: &[u8],
) -> Result<(AcceptedTown<'a>, Kind), Refusal>
    ensures tried { Tried plan_refusal (plan_of (lent town.entry) k kind division.now chosen.now) (number result) }
    ensures same_town { IfOk result (λ x. x.0.town ≡ town.entry) }
    ensures decoded { IfOk result (λ x. kind_number x.1 ≡ kind) }
{
    let own = try_own(kind, town.n, k, division, chosen);
    let accepted = check::try_survey(town, k, own)?;
    Ok((accepted, own?))
}

// A floor.
pub fn try_floor<'a>(town: Town<'a>, k: usize) -> Result<AcceptedTown<'a>, Refusal>
    ensures tried { Tried floor_refusal (survey_of (lent town.entry) k) (number result) }
    ensures same_town { IfOk result (λ a. a.town ≡ town.entry) }
{
    check::try_survey(town, k, try_share(town.n, k))
}
