// Where the streets go, once the sites are chosen.
ghost use Rattle.std.specs.Prelude.{◌≡◌, false, length, get_or};
ghost use Rattle.counting.specs.Buffers.{list_of};
ghost use Rattle.survey.specs.Town.{lent};
ghost use Rattle.survey.specs.Rows.{ranked_part, list_of_street};
ghost use Rattle.free_plan.specs.Greedy.{goes_to};

use survey::accepted::AcceptedTown;

// Where a street with this row goes. One look at the row is enough: its first zero ends the ranked part, and the first site that is chosen wins.
fn first_flagged(row: &[u8], flags: &[bool]) -> u8
    requires { length flags.now ≡ 256 }
    ensures { result ≡ goes_to (λ a. get_or flags.now a false) (ranked_part row.now) }
{
    for site in row {
        if *site == 0 {
            return 0;
        }
        if flags[usize::from(*site)] {
            return *site;
        }
    }
    0
}

// Each street goes to the first of its list that is chosen, 0 if none is.
pub fn serve(town: AcceptedTown<'_>, flags: &[bool], division: &mut [u8])
    requires { (length division.old ≡ town.town.n) × (length flags.now ≡ 256) }
    ensures { division.new
        ≡ list_of town.entry.town.n (λ s. goes_to (λ a. get_or flags.now a false) (list_of_street (lent town.entry.town) s)) }
{
    for (s, site) in division.iter_mut().enumerate() {
        *site = first_flagged(town.town.row(s), flags);
    }
}
