// What the streets of a small town bring to their sites: no loads, and loads that are drawn for a plan. First come the streets' loads, and then each
// site's limits near its sums: one below, at and above them. Now and then there is a load or limit at the greatest one or one above it, or a buffer
// lacks an entry.
ghost use Rattle.std.specs.Prelude.{◌≤◌};
ghost use Rattle.drawn_towns.specs.Sized.{SizedLoad, Sized};
ghost use Rattle.drawn_towns.specs.Small.{Small};

use crate::{SITES, STREETS, Town};

// the greatest load and limit
pub const MOST_LOAD: u32 = 1000000;

// One kind of load, kilograms or litres: what each street brings, the first n, and the limit of each site, the first m.
#[derive(Clone, Copy, Debug, PartialEq, Eq)]
pub struct Load {
    pub streets: [u32; STREETS],
    pub limits: [u32; SITES],
}

// Both kinds. Of the four buffers that are lent, kilograms, litres and the limits of each, the one with the number `short`, from 1 on, lacks its last
// entry; 0 is none of them.
#[derive(Clone, Copy, Debug, PartialEq, Eq)]
pub struct Loads {
    pub kilograms: Load,
    pub litres: Load,
    pub short: usize,
}

// No loads: nothing is brought, and every limit is the greatest one.
pub fn none() -> Loads
    ensures { Sized result }
{
    let none = Load {
        streets: [0; STREETS],
        limits: [MOST_LOAD; SITES],
    };
    Loads {
        kilograms: none,
        litres: none,
        short: 0,
    }
}

// What the streets of a site bring to it.
pub fn site_sum(town: Town, division: [u8; STREETS], load: Load, site: u8) -> u64
    requires { Small town × SizedLoad load }
    ensures { result ≤ 34359738360 }
{
    let mut sum: u64 = 0;
    for (s, &load) in load.streets[..town.n].iter().enumerate() {
        if division[s] == site {
            sum += u64::from(load);
        }
    }
    sum
}

// A load that is drawn: mostly 0 to 3, now and then the greatest one or one above it.
fn draw_load(seed: &mut u64) -> u32 {
    match crate::draw(seed, 300) {
        0 => MOST_LOAD + 1,
        1 => MOST_LOAD,
        x => (x % 4) as u32,
    }
}

// What the streets of a town bring.
fn draw_streets(seed: &mut u64, town: Town) -> [u32; STREETS]
    requires { Small town }
{
    let mut streets = [0u32; STREETS];
    for load in &mut streets[..town.n] {
        *load = draw_load(seed);
    }
    streets
}

// A limit that is drawn for a site's sum: from one below it to two above it, but at most the greatest limit; now and then one above that.
fn draw_limit(seed: &mut u64, sum: u64) -> u32
    requires { sum ≤ 34359738360 }
{
    if crate::draw(seed, 150) == 0 {
        return MOST_LOAD + 1;
    }
    let above = sum + crate::draw(seed, 4) as u64;
    above.saturating_sub(1).min(u64::from(MOST_LOAD)) as u32
}

// One kind of load for the streets of a town, with limits near the sums of its sites.
fn draw_kind(seed: &mut u64, town: Town, division: [u8; STREETS]) -> Load
    requires { Small town }
    ensures { SizedLoad result }
{
    let load = Load {
        streets: draw_streets(seed, town),
        limits: [0; SITES],
    };
    let mut limits = [0u32; SITES];
    for (i, limit) in limits[..town.m].iter_mut().enumerate() {
        let sum = site_sum(town, division, load, (i + 1) as u8);
        *limit = draw_limit(seed, sum);
    }
    Load { limits, ..load }
}

// Which buffer lacks an entry, mostly none.
fn draw_short(seed: &mut u64) -> usize {
    let x = crate::draw(seed, 40);
    if x <= 4 { x } else { 0 }
}

// Loads for a plan of a town.
pub fn draw_loads(seed: &mut u64, town: Town, division: [u8; STREETS]) -> Loads
    requires { Small town }
    ensures { Sized result }
{
    let kilograms = draw_kind(seed, town, division);
    let litres = draw_kind(seed, town, division);
    let short = draw_short(seed);
    Loads {
        kilograms,
        litres,
        short,
    }
}
