// Checks a survey file, record by record, before anything is filled from it.
#![tactic(auto, using(call_answers::proofs::Refused::tries))]

ghost use Rattle.std.specs.Prelude.{◌≡◌, IfOk};
ghost use Rattle.call_answers.specs.Answers.{number};
ghost use Rattle.survey_file.specs.Decode.{file_refusal};
ghost use Rattle.survey_file.specs.Sizes.{sizes_in};

use call_answers::Refusal;
use reader::Reader;
use streets::try_streets;
use survey_file::taken::TakenFile;

pub mod fields;
pub mod reader;
pub mod records;
pub mod streets;

// A whole file: what its first record gives, or its first refusal.
pub fn check<'a>(file: &'a [u8]) -> Result<TakenFile<'a>, Refusal>
    ensures number { number result ≡ file_refusal file.now }
    ensures taken { IfOk result (λ taken. (taken.file ≡ file.entry) × (taken.sizes ≡ sizes_in file.now)) }
{
    let (sizes, behind_town) = Reader::new(file).town()?;
    let behind_scores = behind_town.scores(sizes.m)?;
    let behind_weights = behind_scores.weights(sizes.n, sizes.new_form)?;
    try_streets(behind_weights.file, behind_weights.count, sizes.n, sizes.m)?;
    Ok(TakenFile { file, sizes })
}
