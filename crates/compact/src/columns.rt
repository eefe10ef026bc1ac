// The small table: of each street's row only the columns of the sites that have a number.
ghost use Rattle.std.specs.Prelude.{◌≡◌, ℕ, ◌*◌, ◌≤◌, ◌<◌, length};
ghost use Rattle.counting.specs.Bounds.{most_streets, most_width, most_value};
ghost use Rattle.counting.specs.Lists.{at};
ghost use Rattle.compact.specs.Numbered.{Columns};

// One street's values, by the sites' numbers.
fn fill_row(values: &[u32], sites: &[u8], row: &mut [u32])
    requires row_in_bounds { length row.old ≤ length sites.now }
    requires by_index { (j : ℕ) → j < length row.old → at sites.now j < length values.now }
    ensures { (j : ℕ) → j < length row.old → at row.new j ≡ at values.now (at sites.now j) }
{
    for (j, value) in row.iter_mut().enumerate() {
        *value = values[usize::from(sites[j])];
    }
}

// All n streets' values: a row of w values becomes one of k.
pub fn fill(values: &[u32], w: usize, sites: &[u8], k: usize, n: usize, table: &mut [u32])
    requires values_len { (length values.now ≡ n * w) × (length table.old ≡ n * k) × (n ≤ most_streets) × (w ≤ most_width) × (k ≤ w) }
    requires k_in_bounds { (k ≤ length sites.now) × ((j : ℕ) → j < k → at sites.now j < w) }
    requires by_index { ((i : ℕ) → at values.now i ≤ most_value) × ((i : ℕ) → at table.old i ≡ 0) }
    ensures { Columns values.now w sites.now table.new k n }
{
    // kept: of a slice that is lent in chunks to be written a proof knows the length alone afterwards
    for s in 0..n {
        let from = s * w;
        let to = from + w;
        let low = s * k;
        let high = low + k;
        fill_row(&values[from..to], sites, &mut table[low..high]);
    }
}
