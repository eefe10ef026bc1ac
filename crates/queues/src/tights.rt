// The rows of the tight streets, made once: a street that is tight for a site stays so when streets make tight moves.
ghost use Rattle.std.specs.Prelude.{◌≡◌, ◌+◌, ◌<◌, length};
ghost use Rattle.counting.specs.Lists.{at};
ghost use Rattle.queues.specs.Priced.{Fits, value_of, price_of};
ghost use Rattle.queues.specs.Tights.{Row, Listed};
ghost use Rattle.division.specs.Prices.{Agree};

use crate::price_table::PriceTable;
use counting::{STREETS, WIDTH};

// a row for each site, which has a 0 and room for every street behind it
pub const PLACES: usize = WIDTH * (STREETS + 1);

// The rows one after the other, and how many streets each row has.
#[derive(Drop)]
pub struct TightRows {
    pub tights: [u16; PLACES],
    pub ends: [u16; WIDTH],
}

// The street t joins the row of the site y where it is tight for y: how many streets the row has then.
fn push(
    table: &PriceTable,
    division: &[u8],
    y: usize,
    row: usize,
    e: usize,
    t: usize,
    tights: &mut [u16],
) -> usize
    requires fits { Fits table.now division.now }
    requires t_in_bounds { (t < length division.now) × (y < length table.now.shares.now) × (row + length division.now < length tights.old) }
    requires row { Row (value_of table.now) (price_of table.now) division.now tights.old row e y t }
    ensures { Row (value_of table.now) (price_of table.now) division.now tights.new row result y (t + 1)
        × Agree tights.old tights.new row }
{
    if !table.tight(division, t, y) {
        return e;
    }
    tights[row + (e + 1)] = t as u16;
    e + 1
}

// The whole row of the site y, where a 0 stands first: how many streets it has.
fn fill_row(table: &PriceTable, division: &[u8], y: usize, row: usize, tights: &mut [u16]) -> usize
    requires fits { Fits table.now division.now }
    requires y_lt_w { (y < length table.now.shares.now) × (row + length division.now < length tights.old) × (at tights.old row ≡ 0) }
    ensures { Row (value_of table.now) (price_of table.now) division.now tights.new row result y
        (length division.now)
        × Agree tights.old tights.new row }
{
    let mut e = 0;
    for t in 0..division.len() {
        e = push(table, division, y, row, e, t, tights);
    }
    e
}

impl TightRows {
    // Every site that has a share gets its row.
    pub fn list_sites(&mut self, table: &PriceTable, division: &[u8])
        requires { Fits table.now division.now }
        ensures { Listed (value_of table.now) (price_of table.now) division.now table.now.shares.now
            (length table.now.shares.now) self.new.tights self.new.ends }
    {
        for y in 0..table.shares.len() {
            self.list_site(table, division, y);
        }
    }

    // The site y gets its row, where it has a share.
    fn list_site(&mut self, table: &PriceTable, division: &[u8], y: usize)
        requires fits { Fits table.now division.now }
        requires y_lt_w { y < length table.now.shares.now }
        requires listed { Listed (value_of table.now) (price_of table.now) division.now table.now.shares.now y self.old.tights self.old.ends }
        ensures { Listed (value_of table.now) (price_of table.now) division.now table.now.shares.now
            (y + 1) self.new.tights self.new.ends }
    {
        if table.shares[y] == 0 {
            return;
        }
        let row = y * (division.len() + 1);
        self.tights[row] = 0;
        let e = fill_row(table, division, y, row, &mut self.tights);
        self.ends[y] = e as u16;
    }
}
