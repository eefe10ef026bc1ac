// The limits of the sites: the later streets that may leave a site all come before its limit, so that a site that can't be left is known at once.
ghost use Rattle.std.specs.Prelude.{◌≡◌, true, false, ℕ, ◌+◌, ◌≤◌, ◌<◌, length};
ghost use Rattle.counting.specs.Lists.{at};
ghost use Rattle.queues.specs.Limits.{Leaver, Limits, Raised, LastAt};
ghost use Rattle.queues.specs.Priced.{Fits, value_of, price_of};

use crate::price_table::PriceTable;

// The limit of a site becomes at least k.
pub fn raise(limits: &mut [u16], x: usize, k: u16)
    requires { x < length limits.old }
    ensures { Raised limits.old limits.new x k }
{
    limits[x] = limits[x].max(k);
}

// The limit of the site x is lowered to just above the last street that may leave it, if one is later than s: whether one is.
pub fn lower(table: &PriceTable, division: &[u8], s: usize, x: usize, limits: &mut [u16]) -> bool
    requires fits { Fits table.now division.now }
    requires s_in_bounds { (s < length division.now) × (x < length limits.old) }
    requires limits_2 { Limits (Leaver (value_of table.now) (price_of table.now) table.now.shares.now division.now) s division.now limits.old }
    ensures yes { result ≡ true → LastAt division.now s limits.new x }
    ensures no { result ≡ false → at limits.new x ≤ s + 1 }
    ensures limits { Limits
        (Leaver (value_of table.now) (price_of table.now) table.now.shares.now division.now)
        s division.now limits.new × ((y : ℕ) → at limits.new y ≤ at limits.old y) }
{
    let mut e = usize::from(limits[x]);
    while s + 1 < e {
        if table.stands(division, e - 1, x) {
            limits[x] = e as u16;
            return true;
        }
        e -= 1;
    }
    limits[x] = e as u16;
    false
}
