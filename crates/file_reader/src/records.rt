// One record of a survey file: its mark decides which one is read, and its fields come back in the answer, or the refusal.
ghost use Rattle.std.specs.Prelude.{◌≤◌, length, drop};
ghost use Rattle.survey_file.specs.Decode.{town_fields, scores_fields, weights_fields, street_fields, end_fields};
ghost use Rattle.file_reader.specs.Answers.{Reads, town_answer, street_answer, record_refusal, fields_of};

use crate::fields;
use call_answers::Refusal;
use survey_file::Sizes;

// The record that is due, with what its fields are held against: the numbers of sites and of streets, and the number of the street.
#[derive(Clone, Copy)]
pub enum Due {
    Town,
    Scores { m: usize },
    Weights { n: usize },
    Street { m: usize, number: usize },
    End,
}

// What reading a record gives: the sizes, the kind and the form of a town, the scores, the weights, the length of a street's list, or the end.
#[derive(Clone, Copy)]
pub enum Record {
    Town(Sizes),
    Scores,
    Weights,
    Street { size: usize },
    End,
}

// The record TN or, in a file of the new form, TW, past its mark.
fn town_in(rest: &[u8], new_form: bool) -> Result<Record, Refusal>
    ensures { Reads result (town_fields rest.now) (town_answer new_form rest.now) }
{
    fields::try_town(rest)?;
    Ok(Record::Town(Sizes {
        n: fields::word_at(rest, 2),
        m: usize::from(rest[4]),
        k: usize::from(rest[5]),
        kind: usize::from(rest[6]),
        new_form,
    }))
}

// The record SC, past its mark.
fn scores_in(rest: &[u8], m: usize) -> Result<Record, Refusal>
    ensures { Reads result (scores_fields m rest.now) Record.Scores }
{
    fields::try_scores(rest, m)?;
    Ok(Record::Scores)
}

// The record HW, past its mark.
fn weights_in(rest: &[u8], n: usize) -> Result<Record, Refusal>
    ensures { Reads result (weights_fields n rest.now) Record.Weights }
{
    fields::try_weights(rest, n)?;
    Ok(Record::Weights)
}

// The record ST, past its mark.
fn street_in(rest: &[u8], m: usize, number: usize) -> Result<Record, Refusal>
    ensures { Reads result (street_fields m number rest.now) (street_answer rest.now) }
{
    fields::try_street(rest, m, number)?;
    Ok(Record::Street {
        size: usize::from(rest[4]),
    })
}

// The record EN, past its mark.
fn end_in(rest: &[u8]) -> Result<Record, Refusal>
    ensures { Reads result (end_fields rest.now) Record.End }
{
    fields::try_end(rest)?;
    Ok(Record::End)
}

// The record that is due, out of all bytes from its mark on. Always inlined, so that a street's answer stays in registers: stored and then copied up in
// other parts, each copy waits for the stores.
#[inline(always)]
fn record_in(rest: &[u8], due: Due) -> Result<Record, Refusal>
    ensures { Reads result (record_refusal due rest.now) (fields_of due rest.now) }
{
    if rest.len() < 2 {
        return Err(Refusal::Short);
    }
    let mark = fields::word_at(rest, 0);
    match mark {
        // TN
        0x4E54 => {
            let Due::Town = due else {
                return Err(Refusal::Mark);
            };
            town_in(rest, false)
        }
        // TW
        0x5754 => {
            let Due::Town = due else {
                return Err(Refusal::Mark);
            };
            town_in(rest, true)
        }
        // SC
        0x4353 => {
            let Due::Scores { m } = due else {
                return Err(Refusal::Mark);
            };
            scores_in(rest, m)
        }
        // HW
        0x5748 => {
            let Due::Weights { n } = due else {
                return Err(Refusal::Mark);
            };
            weights_in(rest, n)
        }
        // ST
        0x5453 => {
            let Due::Street { m, number } = due else {
                return Err(Refusal::Mark);
            };
            street_in(rest, m, number)
        }
        // EN
        0x4E45 => {
            let Due::End = due else {
                return Err(Refusal::Mark);
            };
            end_in(rest)
        }
        _ => Err(Refusal::Mark),
    }
}

// The record that is due at an index of a file. Always inlined, as `record_in` is.
#[inline(always)]
pub fn record_at(file: &[u8], at: usize, due: Due) -> Result<Record, Refusal>
    requires { at ≤ length file.now }
    ensures { Reads result (record_refusal due (drop at file.now)) (fields_of due (drop at file.now)) }
{
    record_in(&file[at..], due)
}
