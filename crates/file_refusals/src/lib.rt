// What the calls on files turn down: each answers by the first number of its definition, or hands on what it has accepted.
#![tactic(auto, using(call_answers::proofs::Refused::tries, counting::proofs::Refusals::chain))]

ghost use Rattle.std.specs.Prelude.{◌≡◌, length, ltb, IfOk};
ghost use Rattle.counting.specs.Words.{◌when◌, ◌or_else◌};
ghost use Rattle.call_answers.specs.Answers.{number, Tried};
ghost use Rattle.survey.specs.Town.{lent};
ghost use Rattle.survey_file.specs.Filed.{filed_of, form_refusal};
ghost use Rattle.survey_file.specs.Decode.{town_in};
ghost use Rattle.survey_file.specs.Sizes.{sizes_in};
ghost use Rattle.survey_file.specs.FileBuffers.{converted};
ghost use Rattle.refusals.specs.Inputs.{write_of, read_of, convert_of};
ghost use Rattle.refusals.specs.Refusals.{write_refusal, read_refusal, convert_refusal};

use call_answers::Refusal;
use survey::accepted::AcceptedTown;
use survey::{Survey, Town};
use survey_check::check;
use survey_file::taken::TakenFile;

// 7: a file buffer that is shorter than the file to be written.
fn try_room(given: usize, due: usize) -> Result<(), Refusal>
    ensures { number result ≡ 7 when ltb given due }
{
    Refusal::Room.when(given < due)
}

// Writing a file: the survey, 25 for a weight that it would lose, and 7.
pub fn try_write<'a>(
    town: Town<'a>,
    k: usize,
    kind: usize,
    new_form: bool,
    file: &[u8],
) -> Result<AcceptedTown<'a>, Refusal>
    ensures tried { Tried write_refusal (write_of (filed_of new_form (lent town.entry) k kind) file.now) (number result) }
    ensures same_town { IfOk result (λ a. a.town ≡ town.entry) }
{
    let accepted = check::try_survey(town, k, refusals::try_kind(kind))?;
    file_writer::try_form(new_form, town.weights)?;
    try_room(file.len(), file_writer::file_length(accepted, new_form))?;
    Ok(accepted)
}

// Reading a file into its three buffers.
pub fn try_read<'a>(
    file: &'a [u8],
    scores: &[u16],
    weights: &[u8],
    rows: &[u8],
) -> Result<TakenFile<'a>, Refusal>
    ensures tried { Tried read_refusal (read_of file.now scores.now weights.now rows.now) (number result) }
    ensures taken { IfOk result (λ taken. (taken.file ≡ file.entry) × (taken.sizes ≡ sizes_in file.now)) }
{
    check::try_length(rows.len(), Survey::ROWS)?;
    check::try_length(scores.len(), Survey::SITES)?;
    check::try_length(weights.len(), Survey::STREETS)?;
    file_reader::check(file)
}

// What a checked file is refused for besides, where it is wanted in a form: 25, then 7.
fn try_made<'a>(taken: TakenFile<'a>, wanted: bool, room: usize) -> Result<(), Refusal>
    ensures { number result ≡ form_refusal wanted (town_in taken.entry.file.now).weights or_else 7 when ltb room (length (converted wanted taken.entry.file.now)) }
{
    file_converter::try_form(taken, wanted)?;
    try_room(room, file_converter::converted_length(taken, wanted))
}

// Converting a file: as the reader tries it, then 25 and 7.
pub fn try_convert<'a>(
    file: &'a [u8],
    wanted: bool,
    buffer: &[u8],
) -> Result<TakenFile<'a>, Refusal>
    ensures tried { Tried convert_refusal (convert_of file.now wanted buffer.now) (number result) }
    ensures taken { IfOk result (λ taken. (taken.file ≡ file.entry) × (taken.sizes ≡ sizes_in file.now)) }
{
    let taken = file_reader::check(file)?;
    try_made(taken, wanted, buffer.len())?;
    Ok(taken)
}
