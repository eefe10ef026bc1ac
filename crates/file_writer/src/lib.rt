// Writing a survey file: how long it is, and its bytes, laid over a buffer from the start on.
#![tactic(auto)]

ghost use Rattle.std.specs.Prelude.{◌≡◌, ℕ, ◌≤◌, List, length};
ghost use Rattle.call_answers.specs.Answers.{number};
ghost use Rattle.survey.specs.Town.{lent, town_of};
ghost use Rattle.survey_file.specs.Filed.{filed_of, lost_refusal, losses_refusal, form_refusal};
ghost use Rattle.survey_file.specs.Encode.{encode};
ghost use Rattle.survey_file.specs.FileBuffers.{file_written};

use call_answers::Refusal;
use survey::accepted::AcceptedTown;
use survey::rows;
use survey_file::weights_size;

pub mod records;

// The length of a file, whatever its scores and n weights: 11 bytes and two for each score, in a new file 2 and one for each weight, and for each street
// 5 bytes and its list.
pub fn file_length<'a>(accepted: AcceptedTown<'a>, new_form: bool) -> usize
    ensures { (k kind : ℕ) (scores weights : List ℕ) → length weights ≡ accepted.entry.town.n →
        result ≡ length (encode (filed_of new_form (town_of accepted.entry.town.n accepted.entry.town.m scores weights accepted.entry.town.rows.now) k kind)) }
{
    let town = accepted.town;
    let mut size = 11 + 2 * town.m + weights_size(town.n, new_form);
    for s in 0..town.n {
        size += 5 + rows::ranked(town.row(s)).len();
    }
    size
}

// 25: one weight that an old file would lose.
#[tactic(auto, using(counting::proofs::Refusals::chain))]
fn try_loss(weight: u8) -> Result<(), Refusal>
    ensures { number result ≡ lost_refusal weight }
{
    if weight != 1 {
        return Err(Refusal::Lost);
    }
    Ok(())
}

// The weights, by street.
#[tactic(auto, using(call_answers::proofs::Refused::tries))]
fn try_losses(weights: &[u8]) -> Result<(), Refusal>
    ensures { number result ≡ losses_refusal weights.now }
{
    for weight in weights {
        try_loss(*weight)?;
    }
    Ok(())
}

// The same where a file of a form is to be made: the new form keeps every weight.
pub fn try_form(new_form: bool, weights: &[u8]) -> Result<(), Refusal>
    ensures { number result ≡ form_refusal new_form weights.now }
{
    if new_form {
        return Ok(());
    }
    try_losses(weights)
}

// The file of a survey in a form. No byte behind it changes.
pub fn write<'a>(accepted: AcceptedTown<'a>, k: usize, kind: usize, new_form: bool, file: &mut [u8])
    requires sizes { (k ≤ accepted.town.m) × (kind ≤ 1) }
    requires room { length (encode (filed_of new_form (lent accepted.town) k kind)) ≤ length file.old }
    ensures { file.new ≡ file_written (filed_of new_form (lent accepted.entry.town) k kind) file.old }
{
    let town = accepted.town;
    let behind_town = records::write_town(new_form, town.n, town.m, k, kind, file, 0);
    let behind_scores = records::write_scores(town.scores, file, behind_town);
    let behind_weights = records::write_weights(new_form, town.weights, file, behind_scores);
    let behind_streets = records::write_streets(town, file, behind_weights);
    records::write_word(records::END, file, behind_streets);
}
