// The entries on one row, compared street by street.
ghost use Rattle.std.specs.Prelude.{◌+◌, ◌≤◌, IfOk};
ghost use Rattle.drawn_towns.specs.Small.{Small};

use crate::answers;
use crate::answers::Given;
use drawn_towns::Town;
use plain_files::surveys;
use plain_search::scores;
use std::io::{self, Write};

// the sites from 0 on that each row is tried with
const TRIED: u8 = 7;

// What the entry must give: the counted score, 24 for a weight outside 1 to 99, and then 17 for a site outside 1 to m.
fn right_answer(town: Town, s: usize, site: u8) -> Result<u32, u8>
    requires { Small town × (s ≤ 7) }
{
    answers::found(surveys::weight_refusal(town.weights[s]))?;
    if site == 0 || town.m < usize::from(site) {
        return Err(17);
    }
    Ok(scores::counted(town, s, site))
}

// The row of street s.
fn row(town: &Town, s: usize) -> &[u8]
    requires { Small town.now × (s ≤ 7) }
{
    let Town { m, rows, .. } = town;
    let from = scores::row_start(s, *m);
    &rows[from..from + *m]
}

// 1 where the score that street s gives a site is another one, else 0.
pub fn wrong_score(
    out: &mut impl Write,
    town: Town,
    s: usize,
    site: u8,
    shown: bool,
) -> io::Result<u64>
    requires { Small town × (s ≤ 7) }
    ensures { IfOk result (λ x. x ≤ 1) }
{
    let scores = &town.scores[..town.m];
    let answer = planner::row_score(town.m, scores, town.weights[s], row(&town, s), site);
    let given = Given::alone(answers::numbered(answer));
    let right = Given::alone(right_answer(town, s, site));
    answers::wrong(out, town, given, right, shown)
}

// Whether the ranked part of a row is its first bytes, as many as are ranked.
fn is_part(row: &[u8], ranked: usize) -> bool {
    let part = planner::ranked_part(row);
    part.len() == ranked && row.starts_with(part)
}

// 1 where the ranked part of street s is another one, else 0.
fn wrong_part(out: &mut impl Write, town: Town, s: usize, shown: bool) -> io::Result<u64>
    requires { Small town × (s ≤ 7) }
    ensures { IfOk result (λ x. x ≤ 1) }
{
    let right = is_part(row(&town, s), scores::list_length(town, s));
    answers::fails(out, town, right, shown)
}

// The wrong answers for the row of street s and the sites 0 to 6.
fn wrong_row(out: &mut impl Write, town: Town, s: usize, shown: bool) -> io::Result<u64>
    requires { Small town × (s ≤ 7) }
    ensures { IfOk result (λ x. x ≤ 8) }
{
    let mut count = wrong_part(out, town, s, shown)?;
    for site in 0..TRIED {
        count += wrong_score(out, town, s, site, shown)?;
    }
    Ok(count)
}

// The wrong answers for the rows of a town.
pub fn wrong_rows(out: &mut impl Write, town: Town, shown: bool) -> io::Result<u64>
    requires { Small town }
    ensures { IfOk result (λ x. x ≤ 64) }
{
    let mut count: u64 = 0;
    for s in 0..town.n {
        count += wrong_row(out, town, s, shown)?;
    }
    Ok(count)
}
