// Draws small towns, compares what every call of the library but those for files answers for each with what a plain search finds, and prints how much was tried
// and how many answers were different. The first of these are printed in full.
#![tactic(auto)]

ghost use Rattle.std.specs.Prelude.{◌≡◌, ◌+◌, ◌≤◌, IfOk};
ghost use Rattle.drawn_towns.specs.Small.{Small};
ghost use Rattle.small_towns.specs.Counted.{Counted};

use drawn_towns::Town;
use load_checks::NUMBERS;
use sizes::Sizes;
use std::io::{self, Write};

mod answers;
mod balanced;
mod entries;
mod free;
mod hands;
mod kinds;
mod load_checks;
mod plan_checks;
mod rows;
mod say;
mod sizes;
mod surveys;
mod weights;

// how many towns are tried, and how many wrong answers are printed
const TOWNS: u64 = 3000;

const SHOWN: u64 = 3;

// how many answers are compared for each number of sites to choose, for each street, and for the weights of a town
const ANSWERS: u64 = 60;

const STREET_ANSWERS: u64 = 28;

const WEIGHT_ANSWERS: u64 = 36;

// What a run counts: the sizes that were tried, the answers compared, and the wrong ones.
#[derive(Drop)]
struct Counts {
    sizes: Sizes,
    compared: u64,
    differences: u64,
}

// How many answers about the town's list, and the floor of its k sites, are wrong.
fn wrong_lists(out: &mut impl Write, town: Town, shown: bool) -> io::Result<u64>
    requires { Small town }
    ensures { IfOk result (λ x. x ≤ 4) }
{
    let mut count = free::wrong_division(out, town, shown)?;
    count += free::wrong_total(out, town, shown)?;
    count += balanced::wrong_division(out, town, shown)?;
    Ok(count + balanced::wrong_floor(out, town, shown)?)
}

// How many answers about plans of both kinds, and about damaged surveys of the town are wrong.
fn wrong_others(
    out: &mut impl Write,
    seed: &mut u64,
    numbers: &mut [u64; NUMBERS],
    town: Town,
    shown: bool,
) -> io::Result<u64>
    requires { Small town }
    ensures { IfOk result (λ x. x ≤ 54) }
{
    let mut count = plan_checks::wrong_plans(out, seed, numbers, town, 0, shown)?;
    count += plan_checks::wrong_plans(out, seed, numbers, town, 1, shown)?;
    Ok(count + surveys::wrong_surveys(out, seed, town, shown)?)
}

impl Counts {
    // The counts with one number of sites to choose more.
    fn with_choice(
        mut self,
        out: &mut impl Write,
        seed: &mut u64,
        numbers: &mut [u64; NUMBERS],
        kinds: &mut [u64; NUMBERS],
        town: Town,
    ) -> io::Result<Self>
        requires small { Small town × Counted self.sizes × (self.sizes.choices ≤ 1000000) }
        requires compared_bound { (self.compared ≤ 2000000) × (self.differences ≤ 2000000) }
        ensures counted { IfOk result (λ r. Counted r.sizes × (r.sizes.choices ≡ self.sizes.choices + 1)) }
        ensures counts { IfOk result (λ r. (r.compared ≤ self.compared + 60) × (r.differences ≤ self.differences + 60)) }
    {
        let shown = self.differences < SHOWN;
        let sizes = self.sizes;
        self.differences += wrong_lists(out, town, shown)?;
        self.differences += wrong_others(out, seed, numbers, town, shown)?;
        self.differences += kinds::wrong_kinds(out, kinds, town, sizes.choices, shown)?;
        self.compared += ANSWERS;
        self.sizes = sizes.with_choice(town);
        Ok(self)
    }

    // The counts with the streets of one town more, and with its weights made wrong.
    fn with_streets(mut self, out: &mut impl Write, town: Town) -> io::Result<Self>
        requires { Small town × Counted self.sizes × (self.compared ≤ 1900000) × (self.differences ≤ 1900000) }
        ensures counted { IfOk result (λ r. Counted r.sizes × (r.sizes.choices ≡ self.sizes.choices)) }
        ensures counts { IfOk result (λ r. (r.compared ≤ self.compared + 260) × (r.differences ≤ self.differences + 260)) }
    {
        let shown = self.differences < SHOWN;
        self.differences += rows::wrong_rows(out, town, shown)?;
        self.differences += weights::wrong_weights(out, town, shown)?;
        self.compared += STREET_ANSWERS * town.n as u64;
        self.compared += WEIGHT_ANSWERS;
        Ok(self)
    }

    // The counts with one town more, and every number of sites to choose.
    fn with_town(
        mut self,
        out: &mut impl Write,
        seed: &mut u64,
        numbers: &mut [u64; NUMBERS],
        kinds: &mut [u64; NUMBERS],
        town: Town,
    ) -> io::Result<Self>
        requires small { Small town × Counted self.sizes × (self.sizes.choices ≤ 100000) }
        requires compared_bound { (self.compared ≤ 1900000) × (self.differences ≤ 1900000) }
        ensures counted { IfOk result (λ r. Counted r.sizes × (r.sizes.choices ≤ self.sizes.choices + 5)) }
        ensures counts { IfOk result (λ r. (r.compared ≤ self.compared + 560) × (r.differences ≤ self.differences + 560)) }
    {
        self = self.with_streets(out, town)?;
        let sites = town.sites;
        for i in 0..town.m {
            self = self.with_choice(
                out,
                seed,
                numbers,
                kinds,
                drawn_towns::listing(town, sites, i + 1),
            )?;
        }
        Ok(self)
    }
}

// All towns; the numbers of the hand plans with loads and of the plans of wrong kinds are counted.
fn run(
    out: &mut impl Write,
    numbers: &mut [u64; NUMBERS],
    kinds: &mut [u64; NUMBERS],
) -> io::Result<Counts> {
    let mut seed: u64 = 1;
    let mut counts = Counts {
        sizes: Sizes::none(),
        compared: 0,
        differences: 0,
    };
    for i in 0..TOWNS {
        let town = drawn_towns::draw_town(&mut seed);
        counts = counts.with_town(out, &mut seed, numbers, kinds, town)?;
    }
    Ok(counts)
}

// Runs all towns and prints the counts.
fn main(rt: HostRuntime) -> io::Result<()> {
    let mut numbers = [0u64; NUMBERS];
    let mut kinds = [0u64; NUMBERS];
    let mut out = io::writer(&rt);
    let counts = run(&mut out, &mut numbers, &mut kinds)?;
    let sizes = counts.sizes;
    streams::print_line(&mut out, b"towns ", TOWNS as u64)?;
    sizes.lines(&mut out)?;
    load_checks::lines(&mut out, numbers)?;
    kinds::lines(&mut out, kinds)?;
    streams::print_line(&mut out, b"answers compared ", counts.compared)?;
    streams::print_line(&mut out, b"differences ", counts.differences)
}
