// The numbers of the sites that have a share, and a division from sites to numbers and back.
ghost use Rattle.std.specs.Prelude.{◌≡◌, map, ℕ, ◌≤◌, ◌<◌, length};
ghost use Rattle.counting.specs.Bounds.{most_width};
ghost use Rattle.counting.specs.Lists.{at};
ghost use Rattle.compact.specs.Numbered.{Numbered};

use counting::WIDTH;

// From number to site, from site to number, the shares by number, and the count of the numbers.
#[derive(Drop)]
pub struct Numbering {
    pub sites: [u8; WIDTH],
    pub numbers: [u8; WIDTH],
    pub few: [u16; WIDTH],
    pub count: usize,
}

impl Numbering {
    // The sites that have a share get the numbers 1, 2, .. in their order; site 0 has the number 0.
    pub fn of(shares: &[u16]) -> Self
        requires { (0 < length shares.now) × (length shares.now ≤ most_width) × (at shares.now 0 ≡ 0) }
        ensures { Numbered shares.now result.sites result.numbers result.few
            (length shares.now) result.count }
    {
        let mut sites = [0; WIDTH];
        let mut numbers = [0; WIDTH];
        let mut few = [0; WIDTH];
        let mut count = 1;
        // kept: the new form is no plainer: the site's number is stored, and three lists are written at two places
        for a in 1..shares.len() {
            if shares[a] != 0 {
                sites[count] = a as u8;
                numbers[a] = count as u8;
                few[count] = shares[a];
                count += 1;
            }
        }
        Numbering {
            sites,
            numbers,
            few,
            count,
        }
    }
}

// Each street's site is given its other name.
pub fn rename(names: &[u8], division: &mut [u8])
    requires { (s : ℕ) → s < length division.old → at division.old s < length names.now }
    ensures { division.new ≡ map (at names.now) division.old }
{
    for site in division.iter_mut() {
        *site = names[usize::from(*site)];
    }
}
