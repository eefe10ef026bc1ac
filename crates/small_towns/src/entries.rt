// The entries, each called for a small town: what it gives, with the buffers that it was lent.
ghost use Rattle.std.specs.Prelude.{◌≤◌, length};
ghost use Rattle.drawn_towns.specs.Sized.{Sized};
ghost use Rattle.drawn_towns.specs.Small.{Small};

use crate::answers;
use crate::answers::{Given, UNTOUCHED};
use drawn_towns::asked::Asked;
use drawn_towns::loads::{Load, Loads};
use drawn_towns::{SITES, STREETS, Town};
use planner::Refusal;

// A town's survey, as a caller lends it.
pub fn lent(town: &Town) -> planner::Town<'_>
    requires { Small town.now }
{
    let Town {
        n,
        m,
        len,
        scores,
        weights,
        weighed,
        rows,
        ..
    } = town;
    planner::Town {
        n: *n,
        m: *m,
        scores: &scores[..*m],
        weights: &weights[..*weighed],
        rows: &rows[..*len],
    }
}

// The same with the sizes that are asked for.
fn lent_as<'a>(town: &'a Town, asked: &Asked) -> planner::Town<'a>
    requires { Small town.now }
{
    planner::Town {
        n: asked.n,
        m: asked.m,
        ..lent(town)
    }
}

// The division over a town's list, by one of the calls that divide.
pub fn division<D>(town: Town, divide: D) -> Given
where
    D: Fn(planner::Town<'_>, &[u8], &mut [u8]) -> Result<u32, Refusal>,
    requires small { Small town }
    requires callable { D.IsAlwaysCallable divide }
{
    let mut division = [UNTOUCHED; STREETS];
    let answer = divide(lent(&town), &town.sites[..town.k], &mut division[..town.n]);
    Given {
        answer: answers::numbered(answer),
        division,
        chosen: [UNTOUCHED; SITES],
    }
}

// The plan that is asked for, over a town's survey, with buffers for its streets and its k sites.
pub fn plan(town: Town, asked: Asked) -> Given
    requires { Small town }
{
    let mut division = [UNTOUCHED; STREETS];
    let mut chosen = [UNTOUCHED; SITES];
    let answer = planner::plan(
        lent_as(&town, &asked),
        asked.k,
        asked.kind,
        &mut division[..town.n],
        &mut chosen[..town.k],
    );
    Given {
        answer: answers::numbered(answer),
        division,
        chosen,
    }
}

// The total of a town's list.
pub fn list_total(town: Town) -> Given
    requires { Small town }
{
    let answer = planner::list_total(lent(&town), &town.sites[..town.k]);
    Given::alone(answers::numbered(answer))
}

// The floor of a town's k sites.
pub fn floor(town: Town) -> Given
    requires { Small town }
{
    Given::alone(answers::numbered(planner::floor(lent(&town), town.k)))
}

// The check of a town's survey, which has the total 0.
pub fn check(town: Town) -> Given
    requires { Small town }
{
    let answer = planner::check_survey(lent(&town), town.k);
    Given::alone(answers::numbered(answer.map(|()| 0)))
}

// The buffer that is lent of a list: all of it, or one entry fewer.
fn part(list: &[u32], is_short: bool) -> &[u32]
    ensures { length result.now ≤ length list.now }
{
    if is_short {
        return &list[..list.len().saturating_sub(1)];
    }
    list
}

// The test of a hand plan that is asked for, over a survey of n streets and m sites, with its loads.
fn tested(
    asked: Asked,
    n: usize,
    m: usize,
    town: planner::Town<'_>,
    division: &[u8],
    claimed: u32,
    loads: Loads,
) -> Result<u32, Refusal>
    requires { (n ≤ 8) × (m ≤ 5) × Sized loads }
{
    let Load {
        streets: kilograms,
        limits: kilogram_limits,
    } = loads.kilograms;
    let Load {
        streets: litres,
        limits: litre_limits,
    } = loads.litres;
    let brought = planner::Loads {
        kilograms: part(&kilograms[..n], loads.short == 1),
        litres: part(&litres[..n], loads.short == 2),
        kilogram_limits: part(&kilogram_limits[..m], loads.short == 3),
        litre_limits: part(&litre_limits[..m], loads.short == 4),
    };
    planner::hand_plan(town, asked.k, asked.kind, division, claimed, brought)
}

// The same over a town's survey.
pub fn hand(town: Town, asked: Asked, division: [u8; STREETS], claimed: u32, loads: Loads) -> Given
    requires { Small town × Sized loads }
{
    let survey = lent_as(&town, &asked);
    let answer = tested(
        asked,
        town.n,
        town.m,
        survey,
        &division[..town.n],
        claimed,
        loads,
    );
    Given::alone(answers::numbered(answer))
}
