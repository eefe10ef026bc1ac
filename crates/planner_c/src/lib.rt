// The library for other languages: every entry of `planner` under a plain name, over numbers and slices, a slice being a pointer and then a length.
// An empty slice may have any address, null too: no code reads or writes behind it, and none looks at an address. An answer is one number: the total,
// or the refusal's number times 2^32. include/planner.h says the same in C's terms.
#![tactic(auto)]

ghost use Rattle.std.specs.Prelude.{◌≡◌, length};
ghost use Rattle.survey.specs.Rows.{ranked_part};
ghost use Rattle.survey.specs.Town.{town_of};
ghost use Rattle.loads.specs.Loads.{loads_of};
ghost use Rattle.survey_file.specs.Filed.{filed_of};
ghost use Rattle.refusals.specs.Inputs.{survey_of, row_input_of, list_input_of, division_of, plan_of, hand_of, write_of, read_of, convert_of};
ghost use Rattle.call_answers.specs.Answers.{number_of, number, total};
ghost use Rattle.survey_calls.specs.Calls.{SurveyChecked, RowScored};
ghost use Rattle.list_calls.specs.Calls.{FreeDivided, BalancedDivided, ListTotalled};
ghost use Rattle.plan_calls.specs.Calls.{Planned, FloorGiven};
ghost use Rattle.hand_calls.specs.Calls.{HandTested};
ghost use Rattle.file_calls.specs.Calls.{FileWritten, FileConverted};
ghost use Rattle.planner_c.specs.Packed.{version, packed, PacksChecked, PacksAnswer, form_of, sizes_of, FileReadInto};

use planner::{Loads, Refusal, Town};

// A refusal as one number: its own in the upper half.
fn packed_refusal(refusal: Refusal) -> u64
    ensures { result ≡ packed (number_of refusal) 0 }
{
    refusal.number() as u64 * 4294967296
}

// A check's answer as one number.
fn packed_check(answer: Result<(), Refusal>) -> u64
    ensures { result ≡ packed (number answer) 0 }
{
    match answer {
        Ok(()) => 0,
        Err(refusal) => packed_refusal(refusal),
    }
}

// An answer with a total as one number.
fn packed_answer(answer: Result<u32, Refusal>) -> u64
    ensures { result ≡ packed (number answer) (total answer) }
{
    match answer {
        Ok(total) => total as u64,
        Err(refusal) => packed_refusal(refusal),
    }
}

// The library's version: the year and the number of the last request that it meets. It rises with every request.
#[unsafe(no_mangle)]
pub extern "C" fn planner_version() -> u32
    ensures { result ≡ version }
{
    202606
}

// Checks a survey of n streets and m sites of which k are to be chosen; its total is 0.
#[unsafe(no_mangle)]
pub extern "C" fn planner_check_survey(
    n: usize,
    m: usize,
    k: usize,
    scores: &[u16],
    weights: &[u8],
    rows: &[u8],
) -> u64
    ensures { PacksChecked (SurveyChecked (survey_of (town_of n m scores.now weights.now rows.now) k)) result }
{
    let town = Town {
        n,
        m,
        scores,
        weights,
        rows,
    };
    packed_check(planner::check_survey(town, k))
}

// The length of the ranked part of a row; its bytes are the caller's own. Refuses nothing.
#[unsafe(no_mangle)]
pub extern "C" fn planner_ranked_part(row: &[u8]) -> usize
    ensures { result ≡ length (ranked_part row.now) }
{
    planner::ranked_part(row).len()
}

// The score that one row of m bytes gives one site, times the street's weight.
#[unsafe(no_mangle)]
pub extern "C" fn planner_row_score(
    m: usize,
    scores: &[u16],
    weight: u8,
    row: &[u8],
    site: u8,
) -> u64
    ensures { PacksAnswer (RowScored (row_input_of m scores.now weight row.now site)) result }
{
    packed_answer(planner::row_score(m, scores, weight, row, site))
}

// The total of a list of sites, as in the free plan.
#[unsafe(no_mangle)]
pub extern "C" fn planner_list_total(
    n: usize,
    m: usize,
    scores: &[u16],
    weights: &[u8],
    rows: &[u8],
    sites: &[u8],
) -> u64
    ensures { PacksAnswer (ListTotalled (list_input_of (town_of n m scores.now weights.now rows.now) sites.now)) result }
{
    let town = Town {
        n,
        m,
        scores,
        weights,
        rows,
    };
    packed_answer(planner::list_total(town, sites))
}

// The free division over a list of sites, into a buffer of n bytes.
#[unsafe(no_mangle)]
pub extern "C" fn planner_free_division(
    n: usize,
    m: usize,
    scores: &[u16],
    weights: &[u8],
    rows: &[u8],
    sites: &[u8],
    division: &mut [u8],
) -> u64
    ensures { PacksAnswer (FreeDivided (division_of (town_of n m scores.now weights.now rows.now) sites.now division.old) division.new) result }
{
    let town = Town {
        n,
        m,
        scores,
        weights,
        rows,
    };
    packed_answer(planner::free_division(town, sites, division))
}

// The best balanced division over a list of sites, into a buffer of n bytes: each site gets its share, the first sites of the list one street more.
#[unsafe(no_mangle)]
pub extern "C" fn planner_balanced_division(
    n: usize,
    m: usize,
    scores: &[u16],
    weights: &[u8],
    rows: &[u8],
    sites: &[u8],
    division: &mut [u8],
) -> u64
    ensures { PacksAnswer (BalancedDivided (division_of (town_of n m scores.now weights.now rows.now) sites.now division.old) division.new) result }
{
    let town = Town {
        n,
        m,
        scores,
        weights,
        rows,
    };
    packed_answer(planner::balanced_division(town, sites, division))
}

// The plan of k sites, free for kind 0 and balanced for kind 1, into buffers of n and of k bytes. In a balanced one every site gets its share, the
// first chosen sites one street more.
#[unsafe(no_mangle)]
pub extern "C" fn planner_plan(
    n: usize,
    m: usize,
    k: usize,
    kind: usize,
    scores: &[u16],
    weights: &[u8],
    rows: &[u8],
    division: &mut [u8],
    chosen: &mut [u8],
) -> u64
    ensures { PacksAnswer (Planned (plan_of (town_of n m scores.now weights.now rows.now) k kind division.old chosen.old) division.new chosen.new) result }
{
    let town = Town {
        n,
        m,
        scores,
        weights,
        rows,
    };
    packed_answer(planner::plan(town, k, kind, division, chosen))
}

// The floor: what every balanced plan of k sites totals at least.
#[unsafe(no_mangle)]
pub extern "C" fn planner_floor(
    n: usize,
    m: usize,
    k: usize,
    scores: &[u16],
    weights: &[u8],
    rows: &[u8],
) -> u64
    ensures { PacksAnswer (FloorGiven (survey_of (town_of n m scores.now weights.now rows.now) k)) result }
{
    let town = Town {
        n,
        m,
        scores,
        weights,
        rows,
    };
    packed_answer(planner::floor(town, k))
}

// Tests a hand-made plan, free for kind 0 and balanced for kind 1: the site of each street, in a free one 0 for none, and the total that is claimed
// for it. Each street brings kilograms and litres, and each site has a limit of both.
#[unsafe(no_mangle)]
pub extern "C" fn planner_hand_plan(
    n: usize,
    m: usize,
    k: usize,
    kind: usize,
    scores: &[u16],
    weights: &[u8],
    rows: &[u8],
    division: &[u8],
    claimed: u32,
    kilograms: &[u32],
    litres: &[u32],
    kilogram_limits: &[u32],
    litre_limits: &[u32],
) -> u64
    ensures { PacksAnswer
        (HandTested (hand_of (town_of n m scores.now weights.now rows.now) k kind division.now claimed
        (loads_of kilograms.now litres.now kilogram_limits.now litre_limits.now))) result }
{
    let town = Town {
        n,
        m,
        scores,
        weights,
        rows,
    };
    let loads = Loads {
        kilograms,
        litres,
        kilogram_limits,
        litre_limits,
    };
    packed_answer(planner::hand_plan(town, k, kind, division, claimed, loads))
}

// Writes the survey file into a buffer of any length, in the old form where `form` is 0 and else in the new one; the total is the file's length.
#[unsafe(no_mangle)]
pub extern "C" fn planner_write_file(
    n: usize,
    m: usize,
    k: usize,
    kind: usize,
    form: usize,
    scores: &[u16],
    weights: &[u8],
    rows: &[u8],
    file: &mut [u8],
) -> u64
    ensures { PacksAnswer (FileWritten (write_of (filed_of (form_of form) (town_of n m scores.now weights.now rows.now) k kind) file.old) file.new) result }
{
    let town = Town {
        n,
        m,
        scores,
        weights,
        rows,
    };
    packed_answer(planner::write_file(town, k, kind, form != 0, file))
}

// Reads a survey file of any length into a buffer of 64 scores, one of 400 weights and one of 25,600 row bytes; its sizes, kind and form, 0 the old one
// and 1 the new one, come back through five lent numbers, which a refusal leaves as they were. The total is 0.
#[unsafe(no_mangle)]
pub extern "C" fn planner_read_file(
    file: &[u8],
    n: &mut usize,
    m: &mut usize,
    k: &mut usize,
    kind: &mut usize,
    form: &mut usize,
    scores: &mut [u16],
    weights: &mut [u8],
    rows: &mut [u8],
) -> u64
    ensures { FileReadInto (read_of file.now scores.old weights.old rows.old) scores.new weights.new rows.new (sizes_of n.old m.old k.old kind.old form.old)
        (sizes_of n.new m.new k.new kind.new form.new) result }
{
    match planner::read_file(file, scores, weights, rows) {
        Ok(sizes) => {
            *n = sizes.n;
            *m = sizes.m;
            *k = sizes.k;
            *kind = sizes.kind;
            *form = sizes.new_form as usize;
            0
        }
        Err(reason) => packed_refusal(reason),
    }
}

// Puts a survey file into the old form where `form` is 0 and else into the new one, in a buffer of any length; the total is the length there.
#[unsafe(no_mangle)]
pub extern "C" fn planner_convert_file(file: &[u8], form: usize, buffer: &mut [u8]) -> u64
    ensures { PacksAnswer (FileConverted (convert_of file.now (form_of form) buffer.old) buffer.new) result }
{
    packed_answer(planner::convert_file(file, form != 0, buffer))
}
