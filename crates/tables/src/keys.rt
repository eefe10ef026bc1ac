// The table of keys by which a balanced round orders the streets for a site, filled once from the rows of a survey.
// It is by site: a row of n keys for each of the sites 0, 1, .., m. They are keys by place, and where streets have household weights these are
// weighed afterwards, from the table of values.
ghost use Rattle.std.specs.Prelude.{true, ◌≡◌, ℕ, suc, ◌+◌, ◌-◌, ◌*◌, ◌≤◌, ◌<◌, length};
ghost use Rattle.counting.specs.Bounds.{most_sites, most_value};
ghost use Rattle.counting.specs.Words.{◌or_else◌};
ghost use Rattle.counting.specs.Lists.{at, cell};
ghost use Rattle.counting.specs.Buffers.{Mapped};
ghost use Rattle.survey.specs.Accepted.{SoundRow};
ghost use Rattle.tables.specs.Entries.{Ranked, by_site, Room, Unread, Entered};
ghost use Rattle.tables.specs.Tables.{StreetTable, value_in};
ghost use Rattle.tables.specs.RoundKeys.{row_key, round_key};
ghost use Rattle.balanced_plan.specs.Falling.{FallsBy, CompareAlike};

use survey::Town;

// No value is above it: a score of at most 1,000 times a weight of at most 99.
const MOST_VALUE: u32 = 99000;

// The street s gets its place as the key at each site of its row. A site that it has not ranked keeps the key, so the row is read once.
fn fill_street(n: usize, s: usize, row: &[u8], keys: &mut [u32])
    requires sound_row { SoundRow (length row.now) row.now }
    requires room { Room (λ a. by_site n a s) (length row.now) keys.old }
    requires unread { Unread (λ p. p or_else suc (length row.now)) (λ a. by_site n a s) (length row.now) keys.old }
    ensures { Entered (λ p. p or_else suc (length row.now)) (λ a. by_site n a s) row.now keys.old keys.new }
{
    for (j, site) in row.iter().enumerate() {
        if *site == 0 {
            return;
        }
        keys[usize::from(*site) * n + s] = (j + 1) as u32;
    }
}

// The keys of all streets at every site: the place, and m + 1 where the street has not ranked the site. Before any row is read, every street comes
// last at every site.
fn fill_keys(town: Town<'_>, keys: &mut [u32])
    requires ranked { Ranked town.n town.m town.rows.now }
    requires keys_len { length keys.old ≡ (town.m + 1) * town.n }
    ensures { (a s : ℕ) → a ≤ town.entry.m → s < town.entry.n → cell keys.new town.entry.n a s ≡ row_key town.entry.m town.entry.rows.now a s }
{
    keys.fill(town.m as u32 + 1);
    for s in 0..town.n {
        fill_street(town.n, s, town.row(s), keys);
    }
}

// The keys of a site's row by counted score: what the value is below the greatest, highest first, and then the place that the row held.
fn weigh_site(values: &[u32], a: usize, m: usize, keys: &mut [u32])
    requires { StreetTable (length keys.old) m values.now × (a ≤ m) × ((s : ℕ) → at keys.old s ≤ most_sites + 1) }
    ensures { Mapped (λ s x. (most_value - cell values.now (m + 1) s a) * (m + 2) + x)
        keys.old keys.new (length keys.old) }
{
    let width = m + 1;
    let base = m as u32 + 2;
    for (s, key) in keys.iter_mut().enumerate() {
        *key += (MOST_VALUE - values[s * width + a]) * base;
    }
}

// The keys by place become those by counted score and then by place.
fn weigh_keys(values: &[u32], n: usize, m: usize, keys: &mut [u32])
    requires street_table { StreetTable n m values.now }
    requires keys_len { length keys.old ≡ (m + 1) * n }
    requires by_index { (a s : ℕ) → a ≤ m → s < n → cell keys.old n a s ≤ most_sites + 1 }
    ensures { (a s : ℕ) → a ≤ m → s < n →
        cell keys.new n a s ≡ (most_value - cell values.now (m + 1) s a) * (m + 2) + cell keys.old n a s }
{
    // kept: by index, since of a slice that is lent in chunks to be written a proof knows the length alone afterwards
    for a in 0..m + 1 {
        let low = a * n;
        let high = low + n;
        weigh_site(values, a, m, &mut keys[low..high]);
    }
}

// The keys by which the rounds order the streets: by counted score and then by place. Where the values fall with the places, as they do if all streets
// have the same weight, the keys by place give the same order, and they are small.
pub fn fill_for_rounds(town: Town<'_>, values: &[u32], even: bool, keys: &mut [u32])
    requires ranked { Ranked town.n town.m town.rows.now }
    requires street_table { StreetTable town.n town.m values.now }
    requires falls { even ≡ true → FallsBy (row_key town.m town.rows.now) (value_in values.now town.m) town.n town.m }
    requires keys_len { length keys.old ≡ (town.m + 1) * town.n }
    ensures { CompareAlike (cell keys.new town.entry.n) (round_key (value_in values.now town.entry.m) town.entry.m town.entry.rows.now)
        town.entry.n town.entry.m }
{
    fill_keys(town, keys);
    if !even {
        weigh_keys(values, town.n, town.m, keys);
    }
}
