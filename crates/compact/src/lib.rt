// The best division by a table that has a column for each site with a share and none for the others: the sites that have a share get numbers
// in their own order, which the tie rule goes by, and the division goes over to the numbers and back.
#![tactic(auto)]

ghost use Rattle.std.specs.Prelude.{◌≡◌, ℕ, ◌*◌, ◌≤◌, length};
ghost use Rattle.counting.specs.Lists.{at, cell};
ghost use Rattle.division.specs.Shares.{InShares, division_total};
ghost use Rattle.division.specs.Divide.{divide};
ghost use Rattle.division.specs.Problem.{Problem, tail};
ghost use Rattle.compact.specs.Numbered.{Numbered};

use numbers::Numbering;

mod columns;
mod numbers;

// The best division by the numbers, with a buffer for the small table.
fn best_of_few(
    values: &[u32],
    shares: &[u16],
    numbering: &Numbering,
    table: &mut [u32],
    division: &mut [u8],
) -> u32
    requires problem { Problem values.now shares.now (length division.old) × InShares division.old (tail shares.now) }
    requires numbered { Numbered shares.now numbering.now.sites numbering.now.numbers numbering.now.few (length shares.now) numbering.now.count }
    requires table_len { (length table.old ≡ length division.old * numbering.now.count) × ((i : ℕ) → at table.old i ≡ 0) }
    ensures total { result ≡ division_total (cell values.now (length shares.now))
        (divide (cell values.now (length shares.now)) (length division.old) (tail shares.now)) }
    ensures division { division.new
        ≡ divide (cell values.now (length shares.now)) (length division.old) (tail shares.now) }
{
    let n = division.len();
    let few = &numbering.few[..numbering.count];
    columns::fill(values, shares.len(), &numbering.sites, few.len(), n, table);
    numbers::rename(&numbering.numbers, division);
    let total = best_division::best(table, few, division);
    numbers::rename(&numbering.sites, division);
    total
}

// Any division in the shares becomes the best one, and its total is returned.
pub fn best(values: &[u32], shares: &[u16], division: &mut [u8]) -> u32
    requires { Problem values.now shares.now (length division.old) × InShares division.old (tail shares.now) }
    ensures total { result ≡ division_total (cell values.now (length shares.now))
        (divide (cell values.now (length shares.now)) (length division.old) (tail shares.now)) }
    ensures division { division.new
        ≡ divide (cell values.now (length shares.now)) (length division.old) (tail shares.now) }
{
    let numbering = Numbering::of(shares);
    let size = division.len() * numbering.count;
    let mut table = [0u32; counting::ENTRIES];
    best_of_few(values, shares, &numbering, &mut table[..size], division)
}
