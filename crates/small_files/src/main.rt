// Draws small towns, compares what the writer, the reader and the converter of survey files answer for files of both forms, right and damaged ones,
// with what plain programs find, and prints how often each answer came and how many were different.
#![tactic(auto)]

ghost use Rattle.drawn_towns.specs.Small.{Small};

use counts::Counts;
use drawn_towns::Town;
use lent::{FILE, UNTOUCHED};
use plain_files::writing;
use std::io::{self, Write};

mod converts;
mod counts;
mod damages;
mod lent;
mod reads;
mod writes;

// how many towns are tried
const TOWNS: u64 = 500;

// The file of a town in a form: written, read, converted, and damaged. An old file of a town with weights is that of the town without them.
fn compare_form(seed: &mut u64, counts: &mut Counts, town: Town, kind: u8, new_form: bool)
    requires { Small town }
{
    let mut file = [UNTOUCHED; FILE];
    let len = writing::write(&mut file, town, kind, new_form);
    let part = &file[..len];
    writes::compare_rooms(counts, town, kind, new_form);
    damages::compare(counts, part);
    reads::compare_lengths(counts, part);
    converts::compare_ways(counts, part, new_form);
    converts::compare_rooms(counts, part, false);
    converts::compare_rooms(counts, part, true);
    damages::compare_damages(seed, counts, file, len, town.n, town.m);
}

// A town in both forms.
fn compare_town(seed: &mut u64, counts: &mut Counts, town: Town)
    requires { Small town }
{
    let kind = drawn_towns::draw(seed, 2) as u8;
    writes::compare_changes(seed, counts, town, kind);
    compare_form(seed, counts, town, kind, false);
    compare_form(seed, counts, town, kind, true);
}

// The next town, with a drawn number of sites to choose.
fn drawn(seed: &mut u64) -> Town
    ensures { Small result }
{
    let town = drawn_towns::draw_town(seed);
    let k = drawn_towns::draw(seed, town.m) + 1;
    let sites = town.sites;
    drawn_towns::listing(town, sites, k)
}

// All towns.
fn run(counts: &mut Counts) {
    let mut seed: u64 = 1;
    for _ in 0..TOWNS {
        let town = drawn(&mut seed);
        compare_town(&mut seed, counts, town);
    }
}

fn main(rt: HostRuntime) -> io::Result<()> {
    let mut counts = Counts::none();
    run(&mut counts);
    let mut out = io::writer(&rt);
    streams::print_line(&mut out, b"towns ", TOWNS as u64)?;
    counts.lines(&mut out)
}
