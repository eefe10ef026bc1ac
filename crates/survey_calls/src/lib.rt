// The calls on a survey itself: its check, the ranked part of a row, and the score of a row for a site.
#![tactic(auto)]

ghost use Rattle.survey.specs.Town.{lent};
ghost use Rattle.refusals.specs.Inputs.{survey_of, row_input_of};
ghost use Rattle.survey_calls.specs.Calls.{SurveyChecked, RowScored, RankedPart};

use call_answers::Refusal;
use survey::Town;

// Checks a survey of which k sites are to be chosen. Refuses with 1, 2, 3, 6, 8, 24, 9, 10 or 11.
pub fn check_survey(town: Town<'_>, k: usize) -> Result<(), Refusal>
    ensures { SurveyChecked (survey_of (lent town.entry) k) result }
{
    survey_check::check::try_survey(town, k, Ok(()))?;
    Ok(())
}

// The ranked part of a row, as the leading part of the caller's own slice. Refuses nothing.
pub fn ranked_part(row: &[u8]) -> &[u8]
    ensures { RankedPart row.entry result }
{
    survey::rows::ranked(row)
}

// The counted score that one row of m bytes gives one site: its score times the street's weight. Refuses with 2, 6, 8, 24, 9, 10, 11 or 17.
pub fn row_score(m: usize, scores: &[u16], weight: u8, row: &[u8], site: u8) -> Result<u32, Refusal>
    ensures { RowScored (row_input_of m scores.now weight row.now site) result }
{
    refusals::try_row_score(m, scores, weight, row, site)?;
    Ok(survey::rows::counted(weight, scores, row, site))
}
