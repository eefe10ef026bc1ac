// A town with the table of its values, by street: what the balanced plan's engines read.
ghost use Rattle.std.specs.Prelude.{◌+◌};
ghost use Rattle.survey.specs.Town.{lent};
ghost use Rattle.survey.specs.Rows.{value};
ghost use Rattle.tables.specs.Tables.{Tabled};

use survey::accepted::AcceptedTown;

#[derive(Clone, Copy)]
pub struct Valued<'a> {
    pub town: AcceptedTown<'a>,
    pub values: &'a [u32],
    pub ghost filled: { Tabled (value (lent town.town)) town.town.n (town.town.m + 1) values.now },
}
