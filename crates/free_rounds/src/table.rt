// What the free plan's rounds read.
ghost use Rattle.std.specs.Prelude.{◌≡◌, ◌+◌, ◌*◌, ◌≤◌};
ghost use Rattle.survey.specs.Rows.{row_at};
ghost use Rattle.tables.specs.Tables.{SiteTable};
ghost use Rattle.free_rounds.specs.Weighed.{Weighed};

use crate::weights::Weighing;

// The scores of n streets for the sites 0, 1, .., m, by site, and the streets' weights.
#[derive(Clone, Copy)]
pub struct Table<'a> {
    pub n: usize,
    pub m: usize,
    pub values: &'a [u16],
    pub weights: Weighing<'a>,
    pub ghost site_table: { SiteTable n m values.now },
    pub ghost weighed: { Weighed n weights },
}

impl<'a> Table<'a> {
    // The scores of the site a, side by side.
    pub fn row(self, a: usize) -> &'a [u16]
        requires { a ≤ self.m }
        ensures { result.now ≡ row_at self.entry.n self.entry.values.now a }
    {
        let from = a * self.n;
        &self.values[from..from + self.n]
    }
}
