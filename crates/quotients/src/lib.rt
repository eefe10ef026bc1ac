// Quotients, rounded up, from a constant table.
#![tactic(auto)]

ghost use Rattle.std.specs.Prelude.{true, ◌≡◌, ◌≤◌};
ghost use Rattle.counting.specs.Bounds.{most_sites};
ghost use Rattle.balanced_plan.specs.Floor.{ceil};
ghost use Rattle.quotients.specs.Table.{is_table};

use counting::SITES;

mod table;

// The quotients of the numbers from 1 to 64.
#[derive(Drop)]
pub struct Quotients {
    pub rows: [[u8; SITES]; SITES],
    pub ghost right: { is_table rows ≡ true },
}

impl Quotients {
    // The whole table. It is written anew on each call, so a caller asks for it once and reads it by `at`.
    pub fn all() -> Self {
        Self {
            rows: table::QUOTIENTS,
        }
    }

    // What stands in a row and a column, both numbered from 1.
    pub fn at(&self, row: usize, column: usize) -> u8
        requires { (1 ≤ row) × (row ≤ most_sites) × (1 ≤ column) × (column ≤ most_sites) }
        ensures { result ≡ ceil row column }
    {
        self.rows[row - 1][column - 1]
    }
}
