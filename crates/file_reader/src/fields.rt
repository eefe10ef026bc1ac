// What is turned down in the fields of a record. Each function is given all bytes from the record's mark on, and refuses by the number that its
// definition gives, or accepts where that is 0.
ghost use Rattle.std.specs.Prelude.{◌≡◌, ◌+◌, ◌*◌, ◌≤◌, ◌<◌, length};
ghost use Rattle.counting.specs.Words.{first_nonzero};
ghost use Rattle.call_answers.specs.Answers.{number};
ghost use Rattle.survey_file.specs.Decode.{word_at, town_fields, scores_fields, weights_fields, street_fields, end_fields};
ghost use Rattle.file_reader.specs.Fields.{sizes_field, score_field, site_field, list_field};

use call_answers::Refusal;
use survey::Survey;
use survey_check::check;
use survey_check::check::outside;

// The 16-bit number at an index, low byte first.
pub fn word_at(rest: &[u8], i: usize) -> usize
    requires { i + 1 < length rest.now }
    ensures { (result ≡ word_at rest.now i) × (result < 65536) }
{
    usize::from(rest[i]) + 256 * usize::from(rest[i + 1])
}

// 1, 2, 3, 4, and 12 before them: the fields of TN and of TW.
#[tactic(auto, using(counting::proofs::Refusals::chain, crate::proofs::Tries::reads, call_answers::proofs::Refused::tries))]
pub fn try_town(rest: &[u8]) -> Result<(), Refusal>
    ensures { number result ≡ town_fields rest.now }
{
    if rest.len() < 7 {
        return Err(Refusal::Short);
    }
    check::try_streets(word_at(rest, 2))?;
    try_sizes(rest[4], rest[5], rest[6])
}

// 2, 3, 4: the numbers of sites and of chosen sites, and the kind of plan.
#[tactic(auto, using(counting::proofs::Refusals::chain, crate::proofs::Tries::reads, call_answers::proofs::Refused::tries))]
fn try_sizes(m: u8, k: u8, kind: u8) -> Result<(), Refusal>
    ensures { number result ≡ sizes_field m k kind }
{
    check::try_sites(usize::from(m))?;
    check::try_chosen(usize::from(k), usize::from(m))?;
    Refusal::Kind.when(1 < kind)
}

// 8: the score at i, held against the greatest score and the one before it.
#[tactic(auto, using(counting::proofs::Refusals::chain, crate::proofs::Tries::reads, call_answers::proofs::Refused::tries))]
fn try_score(rest: &[u8], i: usize) -> Result<(), Refusal>
    requires { 2 * i + 3 < length rest.now }
    ensures { number result ≡ score_field rest.now i }
{
    let score = word_at(rest, 2 + 2 * i);
    if usize::from(Survey::TOP_SCORE) < score {
        return Err(Refusal::Score);
    }
    if i == 0 {
        return Ok(());
    }
    if word_at(rest, 2 + 2 * (i - 1)) < score {
        return Err(Refusal::Score);
    }
    Ok(())
}

// The m scores, in their order.
#[tactic(auto, using(counting::proofs::Refusals::chain, crate::proofs::Tries::reads, call_answers::proofs::Refused::tries))]
fn try_table(rest: &[u8], m: usize) -> Result<(), Refusal>
    requires { 2 + 2 * m ≤ length rest.now }
    ensures { number result ≡ first_nonzero m (score_field rest.now) }
{
    for i in 0..m {
        try_score(rest, i)?;
    }
    Ok(())
}

// 12, then 8: the fields of SC.
#[tactic(auto, using(counting::proofs::Refusals::chain, crate::proofs::Tries::reads, call_answers::proofs::Refused::tries))]
pub fn try_scores(rest: &[u8], m: usize) -> Result<(), Refusal>
    ensures { number result ≡ scores_fields m rest.now }
{
    if rest.len() < 2 {
        return Err(Refusal::Short);
    }
    if (rest.len() - 2) / 2 < m {
        return Err(Refusal::Short);
    }
    try_table(rest, m)
}

// 12, then 24: the fields of HW.
#[tactic(auto, using(counting::proofs::Refusals::chain, crate::proofs::Tries::reads, call_answers::proofs::Refused::tries))]
pub fn try_weights(rest: &[u8], n: usize) -> Result<(), Refusal>
    ensures { number result ≡ weights_fields n rest.now }
{
    if rest.len() < 2 {
        return Err(Refusal::Short);
    }
    if rest.len() - 2 < n {
        return Err(Refusal::Short);
    }
    check::try_weights(&rest[2..2 + n])
}

// 10, 11: one byte of a list, where the same byte stands before it.
#[tactic(auto, using(counting::proofs::Refusals::chain, crate::proofs::Tries::reads, call_answers::proofs::Refused::tries))]
fn try_site(m: usize, again: bool, site: u8) -> Result<(), Refusal>
    ensures { number result ≡ site_field m again site }
{
    Refusal::Number.when(outside(usize::from(site), 1, m))?;
    Refusal::Twice.when(again)
}

// A list, byte by byte. The table of bytes seen so far spares a scan of the list for each byte.
#[tactic(auto, using(counting::proofs::Refusals::chain, crate::proofs::Tries::reads, call_answers::proofs::Refused::tries))]
fn try_list(m: usize, list: &[u8]) -> Result<(), Refusal>
    ensures { number result ≡ list_field m list.now }
{
    let mut seen = [false; 256];
    for site in list {
        let at = usize::from(*site);
        try_site(m, seen[at], *site)?;
        seen[at] = true;
    }
    Ok(())
}

// 12, 14, 15, 12, and then the list: the fields of ST.
#[tactic(auto, using(counting::proofs::Refusals::chain, crate::proofs::Tries::reads, call_answers::proofs::Refused::tries))]
pub fn try_street(rest: &[u8], m: usize, turn: usize) -> Result<(), Refusal>
    ensures { number result ≡ street_fields m turn rest.now }
{
    if rest.len() < 5 {
        return Err(Refusal::Short);
    }
    let found = word_at(rest, 2);
    if found != turn {
        return Err(Refusal::Turn);
    }
    let size = usize::from(rest[4]);
    if m < size {
        return Err(Refusal::Long);
    }
    if rest.len() < 5 + size {
        return Err(Refusal::Short);
    }
    try_list(m, &rest[5..5 + size])
}

// 16: the end, behind which nothing follows.
#[tactic(auto, using(counting::proofs::Refusals::chain, crate::proofs::Tries::reads, call_answers::proofs::Refused::tries))]
pub fn try_end(rest: &[u8]) -> Result<(), Refusal>
    ensures { number result ≡ end_fields rest.now }
{
    Refusal::Behind.when(2 < rest.len())
}
