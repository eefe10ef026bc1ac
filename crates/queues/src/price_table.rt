// What the tie pass goes by, and what it asks of a street in a division: whether it is tight for a site, and whether it may go there or leave its own.
ghost use Rattle.std.specs.Prelude.{◌≡◌, true, false, ◌≢◌, ◌<◌, length};
ghost use Rattle.counting.specs.Lists.{at};
ghost use Rattle.division.specs.Prices.{Tight};
ghost use Rattle.queues.specs.Queue.{Tells};
ghost use Rattle.queues.specs.Limits.{Leaver};
ghost use Rattle.queues.specs.Priced.{Fits, value_of, price_of};

// The streets' values and the shares, both with site 0 in front, and prices that prove a division best.
#[derive(Clone, Copy)]
pub struct PriceTable<'a> {
    pub values: &'a [u32],
    pub shares: &'a [u16],
    pub prices: &'a [u32],
}

impl PriceTable<'_> {
    // Whether a street is tight for a site: its move there neither gains nor loses, after prices.
    pub fn tight(&self, division: &[u8], t: usize, y: usize) -> bool
        requires fits { Fits self.now division.now }
        requires t_in_bounds { (t < length division.now) × (y < length self.now.shares.now) }
        ensures { Tells result (Tight (value_of self.now) (price_of self.now) division.now t y) }
    {
        let x = usize::from(division[t]);
        let row = t * self.shares.len();
        self.prices[x] + self.values[row + y] == self.prices[y] + self.values[row + x]
    }

    // Whether a street may go to a site: the site has a share, and the street is tight for it.
    pub fn may(&self, division: &[u8], t: usize, y: usize) -> bool
        requires fits { Fits self.now division.now }
        requires t_in_bounds { (t < length division.now) × (y < length self.now.shares.now) }
        ensures { Tells result ((0 < at self.now.shares.now y)
            × Tight (value_of self.now) (price_of self.now) division.now t y) }
    {
        self.shares[y] != 0 && self.tight(division, t, y)
    }

    // Whether the street t may leave its site: it may go to another one.
    fn leaves(&self, division: &[u8], t: usize) -> bool
        requires fits { Fits self.now division.now }
        requires t_in_bounds { t < length division.now }
        ensures { result ≡ false
            → Leaver (value_of self.now) (price_of self.now) self.now.shares.now division.now t → ⊥ }
    {
        let own = usize::from(division[t]);
        for y in 0..self.shares.len() {
            if y != own && self.may(division, t, y) {
                return true;
            }
        }
        false
    }

    // Whether the street t stands at the site x and may leave it.
    pub(crate) fn stands(&self, division: &[u8], t: usize, x: usize) -> bool
        requires fits { Fits self.now division.now }
        requires t_in_bounds { t < length division.now }
        ensures yes { result ≡ true → at division.now t ≡ x }
        ensures no { result ≡ false → at division.now t ≡ x
            → Leaver (value_of self.now) (price_of self.now) self.now.shares.now division.now t → ⊥ }
    {
        usize::from(division[t]) == x && self.leaves(division, t)
    }
}
