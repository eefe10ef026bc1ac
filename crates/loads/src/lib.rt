// What a plan's streets bring to its sites, in kilograms and in litres, and what is turned down in it.
#![tactic(auto, using(call_answers::proofs::Refused::tries, counting::proofs::Refusals::chain))]

ghost use Rattle.std.specs.Prelude.{◌≡◌, [], ◌<◌, ◌≤◌, ltb, length};
ghost use Rattle.counting.specs.Bounds.{most_streets, most_sites};
ghost use Rattle.counting.specs.Words.{◌when◌, ◌or_else◌};
ghost use Rattle.counting.specs.Lists.{at};
ghost use Rattle.call_answers.specs.Answers.{number};
ghost use Rattle.loads.specs.Loads.{loads_lent, lengths_refusal, above_refusal, loads_refusal, limits_refusal};
ghost use Rattle.loads.specs.Sums.{Summed};

use call_answers::Refusal;
use survey_check::check::try_length;

// The greatest load of a street, and the greatest limit of a site.
pub const MOST: u32 = 1000000;

// What a caller lends of the loads: what each street brings, and what each site can hold, in kilograms and in litres.
#[derive(Clone, Copy)]
pub struct Loads<'a> {
    pub kilograms: &'a [u32],
    pub litres: &'a [u32],
    pub kilogram_limits: &'a [u32],
    pub litre_limits: &'a [u32],
}

// 21: a load or limit above the greatest one.
fn try_most(numbers: &[u32]) -> Result<(), Refusal>
    ensures { number result ≡ above_refusal numbers.now }
{
    for load in numbers {
        Refusal::Load.when(MOST < *load)?;
    }
    Ok(())
}

// Each site's sum, and at 0 what is brought by streets without a site, in one pass over the streets. The loads are added to a table of zeros where it
// lies: a table that is handed up by value is copied.
fn sum_sites(division: &[u8], loads: &[u32], sums: &mut [u32; 256])
    requires loads { (length loads.now ≡ length division.now) × (length division.now ≤ most_streets) × (above_refusal loads.now ≡ 0) }
    requires zeros { Summed (at loads.now) sums.old [] }
    ensures { Summed (at loads.now) sums.new division.now }
{
    for (s, site) in division.iter().enumerate() {
        sums[usize::from(*site)] += loads[s];
    }
}

impl<'a> Loads<'a> {
    // 6: a load of each kind for each street, and a limit of each kind for each site.
    pub fn try_lengths(self, n: usize, m: usize) -> Result<(), Refusal>
        ensures { number result ≡ lengths_refusal n m (loads_lent self.entry) }
    {
        try_length(self.kilograms.len(), n)?;
        try_length(self.litres.len(), n)?;
        try_length(self.kilogram_limits.len(), m)?;
        try_length(self.litre_limits.len(), m)
    }

    // 21 in any of the four buffers.
    pub fn try_loads(self) -> Result<(), Refusal>
        ensures { number result ≡ loads_refusal (loads_lent self.entry) }
    {
        try_most(self.kilograms)?;
        try_most(self.litres)?;
        try_most(self.kilogram_limits)?;
        try_most(self.litre_limits)
    }

    // 22 and 23 of the site a + 1, by its sums.
    fn try_site(self, a: usize, kilograms: u32, litres: u32) -> Result<(), Refusal>
        requires { (a < length self.kilogram_limits.now) × (a < length self.litre_limits.now) }
        ensures { number result ≡ 22 when ltb (at self.entry.kilogram_limits.now a) kilograms or_else 23 when ltb (at self.entry.litre_limits.now a) litres }
    {
        Refusal::Kilograms.when(self.kilogram_limits[a] < kilograms)?;
        Refusal::Litres.when(self.litre_limits[a] < litres)
    }

    // 22 and 23: the sites by number, at each of them kilograms before litres. What streets bring that have no site is held against no limit.
    pub fn try_limits(self, m: usize, division: &[u8]) -> Result<(), Refusal>
        requires sizes { (m ≤ most_sites) × (length division.now ≤ most_streets) }
        requires kilograms { (length self.kilograms.now ≡ length division.now) × (above_refusal self.kilograms.now ≡ 0)
            × (length self.kilogram_limits.now ≡ m) }
        requires litres { (length self.litres.now ≡ length division.now) × (above_refusal self.litres.now ≡ 0) × (length self.litre_limits.now ≡ m) }
        ensures { number result ≡ limits_refusal m (loads_lent self.entry) division.now }
    {
        let mut kilograms = [0u32; 256];
        let mut litres = [0u32; 256];
        sum_sites(division, self.kilograms, &mut kilograms);
        sum_sites(division, self.litres, &mut litres);
        // kept: the new form is no plainer, since the site's number is looked up in four tables
        for a in 0..m {
            self.try_site(a, kilograms[a + 1], litres[a + 1])?;
        }
        Ok(())
    }
}
