// What the balanced plan's rounds read.
ghost use Rattle.std.specs.Prelude.{◌≡◌, ◌≤◌, ◌<◌};
ghost use Rattle.survey.specs.Rows.{row_at};
ghost use Rattle.tables.specs.Tables.{StreetTable, value_in};
ghost use Rattle.balanced_rounds.specs.Lines.{Lines, Falling};

// The values of the sites 0, 1, .., m for n streets, by street, and for each site a line of all streets, along which its values never rise.
#[derive(Clone, Copy)]
pub struct Table<'a> {
    pub n: usize,
    pub m: usize,
    pub values: &'a [u32],
    pub orders: &'a [u16],
    pub ghost street_table: { StreetTable n m values.now },
    pub ghost lines: { Lines n m orders.now },
    pub ghost falling: { Falling (value_in values.now m) n m orders.now },
}

impl<'a> Table<'a> {
    // The line of the site a.
    pub fn line(self, a: usize) -> &'a [u16]
        requires { a ≤ self.m }
        ensures { result.now ≡ row_at self.entry.n self.entry.orders.now a }
    {
        let from = a * self.n;
        &self.orders[from..from + self.n]
    }

    // The value of the site a for the street s.
    pub fn value(self, s: usize, a: usize) -> u32
        requires { (s < self.n) × (a ≤ self.m) }
        ensures { result ≡ value_in self.entry.values.now self.entry.m s a }
    {
        self.values[s * (self.m + 1) + a]
    }
}
