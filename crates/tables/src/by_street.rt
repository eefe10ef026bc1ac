// The table of a survey's values by street, filled once from scores, weights and rows: the values of the sites 0, 1, .., m for each street.
ghost use Rattle.std.specs.Prelude.{◌≡◌, ◌+◌, ◌*◌, length};
ghost use Rattle.survey.specs.Town.{lent};
ghost use Rattle.survey.specs.Rows.{score_at, value};
ghost use Rattle.survey.specs.Accepted.{SoundRow};
ghost use Rattle.tables.specs.Entries.{Room, Unread, Entered};
ghost use Rattle.tables.specs.Tables.{Blank, Tabled};

use survey::accepted::AcceptedTown;

// A street's values stand from an index on, that of each site at its number: the score at the place of each site that it ranked, times the street's
// weight. Any other site keeps its 0, so the row is read once.
fn fill_street(from: usize, scores: &[u16], weight: u8, row: &[u8], values: &mut [u32])
    requires sound { SoundRow (length row.now) row.now × (length scores.now ≡ length row.now) }
    requires room { Room (λ a. from + a) (length row.now) values.old }
    requires blank { Unread (λ p. weight * score_at scores.now p) (λ a. from + a) (length row.now) values.old }
    ensures { Entered (λ p. weight * score_at scores.now p) (λ a. from + a) row.now values.old values.new }
{
    for (j, site) in row.iter().enumerate() {
        if *site == 0 {
            return;
        }
        values[from + usize::from(*site)] = u32::from(weight) * u32::from(scores[j]);
    }
}

// The whole table: each street's row fills its m + 1 values.
pub fn fill_values(town: AcceptedTown<'_>, values: &mut [u32])
    requires { Blank town.town.n (town.town.m + 1) values.old }
    ensures { Tabled (value (lent town.entry.town)) town.entry.town.n (town.entry.town.m + 1) values.new }
{
    let town = town.town;
    for (s, weight) in town.weights.iter().enumerate() {
        fill_street(s * (town.m + 1), town.scores, *weight, town.row(s), values);
    }
}
