// The writer, the reader and the converter of survey files.
#![tactic(auto)]

ghost use Rattle.survey.specs.Town.{lent};
ghost use Rattle.survey_file.specs.Filed.{filed_of};
ghost use Rattle.refusals.specs.Inputs.{write_of, read_of, convert_of};
ghost use Rattle.file_calls.specs.Calls.{FileWritten, FileRead, FileConverted};

use call_answers::Refusal;
use survey::Town;
use survey_file::Sizes;

// Writes the survey file, in the new form or the old one, into a buffer of any length and returns the file's length; no byte behind it changes. Refuses
// with 1, 2, 3, 4, 6, 8, 24, 9, 10, 11, 25 or 7.
pub fn write_file(
    town: Town<'_>,
    k: usize,
    kind: usize,
    new_form: bool,
    file: &mut [u8],
) -> Result<u32, Refusal>
    ensures { FileWritten (write_of (filed_of new_form (lent town.entry) k kind) file.old) file.new result }
{
    let accepted = file_refusals::try_write(town, k, kind, new_form, file)?;
    let size = file_writer::file_length(accepted, new_form);
    file_writer::write(accepted, k, kind, new_form, file);
    Ok(size as u32)
}

// Reads a survey file of any length and of either form into a buffer of 64 scores, of which the first m are filled, one of 400 weights, of which the
// first n are, with 1 for each street of an old file, and one of 25,600 row bytes, of which the first n times m are. Gives the sizes and the kind of the
// survey, and whether the file has the new form. Refuses with 6, 12, 13, 1, 2, 3, 4, 8, 24, 14, 15, 10, 11 or 16.
pub fn read_file(
    file: &[u8],
    scores: &mut [u16],
    weights: &mut [u8],
    rows: &mut [u8],
) -> Result<Sizes, Refusal>
    ensures { FileRead (read_of file.now scores.old weights.old rows.old) scores.new weights.new rows.new result }
{
    let taken = file_refusals::try_read(file, scores, weights, rows)?;
    file_filling::fill(taken, scores, weights, rows);
    Ok(taken.sizes)
}

// Puts a survey file into the form that is wanted, the new one or the old one, into a buffer of any length, and returns its length there; no byte behind
// it changes. A file that has that form already comes out as it is. Refuses with 12, 13, 1, 2, 3, 4, 8, 24, 14, 15, 10, 11, 16, 25 or 7.
pub fn convert_file(file: &[u8], wanted: bool, buffer: &mut [u8]) -> Result<u32, Refusal>
    ensures { FileConverted (convert_of file.now wanted buffer.old) buffer.new result }
{
    let taken = file_refusals::try_convert(file, wanted, buffer)?;
    let length = file_converter::converted_length(taken, wanted);
    file_converter::convert(taken, wanted, buffer);
    Ok(length as u32)
}
