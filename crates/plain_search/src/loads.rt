// What a hand-made plan of a small town is refused for in its loads, as the rule says it: 6 and 21, and 22 and 23.
ghost use Rattle.std.specs.Prelude.{◌≤◌};
ghost use Rattle.drawn_towns.specs.Sized.{SizedLoad, Sized};
ghost use Rattle.drawn_towns.specs.Small.{Small};

use drawn_towns::loads::{Load, Loads, MOST_LOAD};
use drawn_towns::{STREETS, Town, loads};

// Whether a number is above the greatest load and limit.
fn is_above(numbers: &[u32]) -> bool {
    numbers.iter().any(|x| MOST_LOAD < *x)
}

// Whether a load or a limit of one kind is above the greatest one; the loads of streets with no site count too.
fn is_too_great(town: Town, load: Load) -> bool
    requires { Small town × SizedLoad load }
{
    is_above(&load.streets[..town.n]) || is_above(&load.limits[..town.m])
}

// 6: a buffer lacks an entry; then 21: a load or limit is too great.
pub fn check_numbers(town: Town, loads: Loads) -> Result<(), u8>
    requires { Small town × Sized loads }
{
    if loads.short != 0 {
        return Err(6);
    }
    if is_too_great(town, loads.kilograms) || is_too_great(town, loads.litres) {
        return Err(21);
    }
    Ok(())
}

// The number of that refusal, and 0 where the numbers are right.
// kept: a number with 0 for none, since a plain model gives the papers' numbers, against which the library's own enum is compared
pub fn numbers_refusal(town: Town, loads: Loads) -> u8
    requires { Small town × Sized loads }
{
    check_numbers(town, loads).err().unwrap_or(0)
}

// Whether the sum of the site i + 1 is above its limit; an equal one fits.
fn is_over(town: Town, division: [u8; STREETS], load: Load, i: usize) -> bool
    requires { Small town × SizedLoad load × (i ≤ 4) }
{
    u64::from(load.limits[i]) < loads::site_sum(town, division, load, (i + 1) as u8)
}

// 22 and 23: the sites by number, at each of them kilograms before litres.
pub fn check_limits(town: Town, division: [u8; STREETS], loads: Loads) -> Result<(), u8>
    requires { Small town × Sized loads }
{
    for i in 0..town.m {
        if is_over(town, division, loads.kilograms, i) {
            return Err(22);
        }
        if is_over(town, division, loads.litres, i) {
            return Err(23);
        }
    }
    Ok(())
}

// Whether all that the streets bring to the site i + 1 fits, found without a sum: each street's load is taken off what is left of the limit.
fn fits(town: Town, division: [u8; STREETS], load: Load, i: usize) -> bool
    requires { Small town × SizedLoad load × (i ≤ 4) }
{
    let mut left = load.limits[i];
    for (&site, &brought) in division[..town.n].iter().zip(&load.streets) {
        if usize::from(site) == i + 1 {
            let Some(rest) = left.checked_sub(brought) else {
                return false;
            };
            left = rest;
        }
    }
    true
}

// Whether each site's two sums are within its two limits.
pub fn is_within(town: Town, division: [u8; STREETS], loads: Loads) -> bool
    requires { Small town × Sized loads }
{
    for i in 0..town.m {
        if !fits(town, division, loads.kilograms, i) || !fits(town, division, loads.litres, i) {
            return false;
        }
    }
    true
}
