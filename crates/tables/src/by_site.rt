// The table of a survey's scores by site, filled once from scores and rows: a row of n scores for each of the sites 0, 1, .., m.
// It is for an engine that sums over the streets what they give a site, each by its weight: a site's scores stand side by side.
ghost use Rattle.std.specs.Prelude.{◌≡◌, ◌+◌, length};
ghost use Rattle.survey.specs.Town.{lent};
ghost use Rattle.survey.specs.Rows.{score_at, score};
ghost use Rattle.survey.specs.Accepted.{SoundRow};
ghost use Rattle.tables.specs.Entries.{Ranked, by_site, Room, Unread, Entered};
ghost use Rattle.tables.specs.Tables.{Blank, Tabled};

use survey::Town;

// kept: beside those of `by_street` and `keys`. One function for the three would take the entries' type, the entry of a place and the index of a site
// as parameters, and ask more of them than the loop has lines.
// The street s gets the score at the place of each site that it ranked. Any other site keeps its 0, so the row is read once.
fn fill_street(n: usize, s: usize, scores: &[u16], row: &[u8], values: &mut [u16])
    requires sound { SoundRow (length row.now) row.now × (length scores.now ≡ length row.now) }
    requires room { Room (λ a. by_site n a s) (length row.now) values.old }
    requires blank { Unread (score_at scores.now) (λ a. by_site n a s) (length row.now) values.old }
    ensures { Entered (score_at scores.now) (λ a. by_site n a s) row.now values.old values.new }
{
    for (j, site) in row.iter().enumerate() {
        if *site == 0 {
            return;
        }
        values[usize::from(*site) * n + s] = scores[j];
    }
}

// The whole table: each street's row fills the street's column.
pub fn fill_values(town: Town<'_>, values: &mut [u16])
    requires ranked { Ranked town.n town.m town.rows.now × (length town.scores.now ≡ town.m) }
    requires blank { Blank (town.m + 1) town.n values.old }
    ensures { Tabled (λ a s. score (lent town.entry) s a) (town.entry.m + 1) town.entry.n values.new }
{
    for s in 0..town.n {
        fill_street(town.n, s, town.scores, town.row(s), values);
    }
}
