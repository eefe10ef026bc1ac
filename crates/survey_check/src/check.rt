// What is turned down in a survey: each function refuses by the number that its definition gives, and accepts where that is 0.
ghost use Rattle.std.specs.Prelude.{◌≡◌, ◌+◌, ◌*◌, ◌≤◌, ◌<◌, length, IfOk};
ghost use Rattle.counting.specs.Bounds.{most_sites};
ghost use Rattle.counting.specs.Words.{outside};
ghost use Rattle.call_answers.specs.Answers.{number};
ghost use Rattle.survey_check.specs.Bits.{SiteBits};
ghost use Rattle.survey.specs.Town.{lent};
ghost use Rattle.survey.specs.Refusals.{score_refusal, scores_refusal, weight_refusal, weights_refusal};
ghost use Rattle.survey.specs.Refusals.{streets_refusal, sites_refusal, chosen_refusal, length_refusal};
ghost use Rattle.survey.specs.Refusals.{site_refusal, row_refusal, street_refusal, rows_refusal, held_refusal, survey_refusal};

use crate::quick;
use call_answers::Refusal;
use survey::accepted::AcceptedTown;
use survey::{Survey, Town};

// Whether a number is below the one bound or above the other.
pub fn outside(x: usize, low: usize, high: usize) -> bool
    ensures { result ≡ outside x low high }
{
    x < low || high < x
}

// 1: the number of streets.
pub fn try_streets(n: usize) -> Result<(), Refusal>
    ensures { number result ≡ streets_refusal n }
{
    Refusal::Streets.when(outside(n, 1, Survey::STREETS))
}

// 2: the number of sites.
pub fn try_sites(m: usize) -> Result<(), Refusal>
    ensures { number result ≡ sites_refusal m }
{
    Refusal::Sites.when(outside(m, 1, Survey::SITES))
}

// 3: the number of chosen sites, or the length of a given list of sites.
pub fn try_chosen(k: usize, m: usize) -> Result<(), Refusal>
    ensures { number result ≡ chosen_refusal k m }
{
    Refusal::Chosen.when(outside(k, 1, m))
}

// 6: a lent buffer of other than its exact length.
pub fn try_length(given: usize, due: usize) -> Result<(), Refusal>
    ensures { number result ≡ length_refusal given due }
{
    Refusal::Length.when(given != due)
}

// 8: one score.
fn try_score(scores: &[u16], i: usize) -> Result<(), Refusal>
    requires { i < length scores.now }
    ensures { number result ≡ score_refusal scores.now i }
{
    Refusal::Score.when(Survey::TOP_SCORE < scores[i])?;
    Refusal::Score.when(0 < i && scores[i - 1] < scores[i])
}

// The scores, in their order.
pub fn try_scores(scores: &[u16]) -> Result<(), Refusal>
    ensures { number result ≡ scores_refusal scores.now }
{
    // kept: the new form is no plainer, since each score is tried with the one before it
    for i in 0..scores.len() {
        try_score(scores, i)?;
    }
    Ok(())
}

// 24: one weight.
pub fn try_weight(weight: u8) -> Result<(), Refusal>
    ensures { number result ≡ weight_refusal weight }
{
    Refusal::Weight.when(outside(usize::from(weight), 1, usize::from(Survey::TOP_WEIGHT)))
}

// The weights, by street.
pub fn try_weights(weights: &[u8]) -> Result<(), Refusal>
    ensures { number result ≡ weights_refusal weights.now }
{
    for weight in weights {
        try_weight(*weight)?;
    }
    Ok(())
}

// 9, 10, 11: one byte of a row, where a zero and where the same byte stands before it.
fn try_site(m: usize, ended: bool, again: bool, site: u8) -> Result<(), Refusal>
    ensures { number result ≡ site_refusal m ended again site }
{
    if site == 0 {
        return Ok(());
    }
    Refusal::Gap.when(ended)?;
    Refusal::Number.when(m < usize::from(site))?;
    Refusal::Twice.when(again)
}

// A row, byte by byte. The table of bytes seen so far spares a scan of the row for each byte.
pub fn try_row(m: usize, row: &[u8]) -> Result<(), Refusal>
    ensures { number result ≡ row_refusal m row.now }
{
    let mut seen = [false; 256];
    for site in row {
        let at = usize::from(*site);
        try_site(m, seen[0], seen[at], *site)?;
        seen[at] = true;
    }
    Ok(())
}

// The row of one street: byte by byte only where the bits do not show that it is sound.
fn try_street(town: Town<'_>, bits: &[u64; 256], s: usize) -> Result<(), Refusal>
    requires row_held { s * town.m + town.m ≤ length town.rows.now }
    requires few_sites { town.m ≤ most_sites }
    requires site_bits { SiteBits town.m bits.now }
    ensures { number result ≡ street_refusal town.entry.m town.entry.rows.now s }
{
    let row = town.row(s);
    if quick::is_sound(row, bits) {
        return Ok(());
    }
    try_row(town.m, row)
}

// The rows, by street and byte.
pub fn try_rows(town: Town<'_>) -> Result<(), Refusal>
    requires rows_held { town.n * town.m ≤ length town.rows.now }
    requires few_sites { town.m ≤ most_sites }
    ensures { number result ≡ rows_refusal town.entry.n town.entry.m town.entry.rows.now }
{
    let mut bits = [0u64; 256];
    quick::set_bits(town.m, &mut bits);
    // kept: the new form is no plainer, since the street's number gives its row
    for s in 0..town.n {
        try_street(town, &bits, s)?;
    }
    Ok(())
}

// What the survey holds: the scores, the weights, then the rows.
fn try_held(town: Town<'_>) -> Result<(), Refusal>
    requires rows_held { town.n * town.m ≤ length town.rows.now }
    requires few_sites { town.m ≤ most_sites }
    ensures { number result ≡ held_refusal (lent town.entry) }
{
    try_scores(town.scores)?;
    try_weights(town.weights)?;
    try_rows(town)
}

// A survey with k sites to be chosen; `own` is what the call tries besides between 3 and 8.
fn try_all<T: Copy>(town: Town<'_>, k: usize, own: Result<T, Refusal>) -> Result<(), Refusal>
    ensures { number result ≡ survey_refusal (lent town.entry) k (number own) }
{
    try_streets(town.n)?;
    try_sites(town.m)?;
    try_chosen(k, town.m)?;
    own?;
    try_length(town.scores.len(), town.m)?;
    try_length(town.weights.len(), town.n)?;
    try_length(town.rows.len(), town.n * town.m)?;
    try_held(town)
}

// The same, with the town as one that is accepted.
pub fn try_survey<'a, T: Copy>(
    town: Town<'a>,
    k: usize,
    own: Result<T, Refusal>,
) -> Result<AcceptedTown<'a>, Refusal>
    ensures refusal { number result ≡ survey_refusal (lent town.entry) k (number own) }
    ensures same_town { IfOk result (λ a. a.town ≡ town.entry) }
{
    try_all(town, k, own)?;
    Ok(AcceptedTown { town })
}
