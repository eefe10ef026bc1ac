// What the plan program prints for a survey file, written into a buffer.
#![tactic(auto)]

ghost use Rattle.std.specs.Prelude.{◌≡◌, ◌≤◌, length};
ghost use Rattle.counting.specs.Buffers.{Written};
ghost use Rattle.call_answers.specs.Answers.{number_of};
ghost use Rattle.survey.specs.Town.{lent};
ghost use Rattle.survey_file.specs.Encode.{most_file};
ghost use Rattle.refusals.specs.Inputs.{plan_of};
ghost use Rattle.listing.specs.Listing.{most_text, refused_line};
ghost use Rattle.printing.specs.Texts.{answer_text, plan_text, printed};
ghost use Rattle.printing.specs.Asked.{PlanAsked, ListingAsked, town_held, SurveyHeld};

use planner::{Refusal, Sizes, Town};
use survey::Survey;

// A buffer of so many bytes has room for every text: 400 streets have lines of at most 19 bytes each.
pub const TEXT: usize = 8192;

// The line of a refusal.
fn write_refused(refusal: Refusal, out: &mut [u8]) -> usize
    requires { most_text ≤ length out.old }
    ensures { Written out.old 0 (refused_line (number_of refusal)) out.new result }
{
    listing::write_line(b"refused", refusal.number() as usize, out, 0)
}

// The text of a plan's answer.
fn write_answer(
    answer: Result<u32, Refusal>,
    town: Town<'_>,
    sites: &[u8],
    division: &[u8],
    out: &mut [u8],
) -> usize
    requires listing_asked { ListingAsked town.m town.rows.now sites.now division.now }
    requires most_text_in_bounds { most_text ≤ length out.old }
    ensures { Written out.old 0 (answer_text answer town.entry.m town.entry.rows.now sites.now division.now) out.new result }
{
    match answer {
        Ok(total) => listing::write_listing(town, total as usize, sites, division, out),
        Err(refusal) => write_refused(refusal, out),
    }
}

// The text of an accepted survey; its plan is made in the two buffers.
fn print_plan(
    town: Town<'_>,
    k: usize,
    kind: usize,
    division: &mut [u8],
    chosen: &mut [u8],
    out: &mut [u8],
) -> usize
    requires plan_asked { PlanAsked (plan_of (lent town) k kind division.old chosen.old) }
    requires most_text_in_bounds { most_text ≤ length out.old }
    ensures { Written out.old 0 (plan_text (lent town.entry) k kind) out.new result }
{
    let answer = planner::plan(town, k, kind, division, chosen);
    write_answer(answer, town, chosen, division, out)
}

// The text of an accepted survey, whose scores, weights and rows are the fronts of its buffers.
fn print_survey(survey: &Survey, out: &mut [u8]) -> usize
    requires survey_held { SurveyHeld survey.now }
    requires most_text_in_bounds { most_text ≤ length out.old }
    ensures { Written out.old 0 (plan_text (town_held survey.now) survey.now.k survey.now.kind) out.new result }
{
    let Survey { n, m, k, kind, .. } = *survey;
    let mut division = [0u8; Survey::STREETS];
    let mut chosen = [0u8; Survey::SITES];
    let town = Town {
        n,
        m,
        scores: &survey.scores[..m],
        weights: &survey.weights[..n],
        rows: &survey.rows[..n * m],
    };
    print_plan(town, k, kind, &mut division[..n], &mut chosen[..k], out)
}

// Writes what is printed for a file over the front of a buffer that has room for every text, and gives back how many bytes that is. The survey is
// empty at first; the reader fills its buffers, and the plan is made from it.
pub fn print(file: &[u8], out: &mut [u8]) -> usize
    requires { most_text ≤ length out.old }
    ensures text { Written out.old 0 (printed file.now) out.new result }
    ensures longest { Survey.FILE ≡ most_file }
{
    let empty = Survey::empty();
    let mut rows = empty.rows;
    let mut scores = empty.scores;
    let mut weights = empty.weights;
    match planner::read_file(file, &mut scores, &mut weights, &mut rows) {
        Ok(Sizes { n, m, k, kind, .. }) => print_survey(
            &Survey {
                n,
                m,
                k,
                kind,
                scores,
                weights,
                rows,
            },
            out,
        ),
        Err(refusal) => write_refused(refusal, out),
    }
}
