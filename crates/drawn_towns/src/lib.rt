// Small towns, drawn one after the other by a generator of numbers whose state is one number, so that every run has the same towns.
#![tactic(auto)]

ghost use Rattle.std.specs.Prelude.{◌≡◌, ◌≤◌, ◌<◌, length, slice_range};
ghost use Rattle.drawn_towns.specs.Small.{Small};

pub mod asked;
pub mod changes;
pub mod loads;
pub mod weights;

// the most streets, sites and bytes of rows
pub const STREETS: usize = 8;

pub const SITES: usize = 5;

pub const BYTES: usize = STREETS * SITES;

// a weight for each street, and one more for a buffer that is too long
pub const WEIGHTS: usize = STREETS + 1;

// the generator's numbers are below this
const MODULUS: u64 = 2147483648;

// A town of n streets and m sites. Its scores are the first m, its rows the first `len`, n times m, and its weights the first `weighed`, which are n
// except where they are to be refused. Its sites are the numbers 1 to m in any order; the first k of them are its list.
#[derive(Clone, Copy, Debug, PartialEq, Eq)]
pub struct Town {
    pub n: usize,
    pub m: usize,
    pub k: usize,
    pub len: usize,
    pub scores: [u16; SITES],
    pub weights: [u8; WEIGHTS],
    pub weighed: usize,
    pub rows: [u8; BYTES],
    pub sites: [u8; SITES],
}

impl Town {
    // The scores, from place 1 on.
    pub fn scores(&self) -> &[u16]
        requires { Small self.now }
        ensures part { result.now ≡ slice_range self.now.scores 0 self.now.m }
        ensures len { length result.now ≡ self.now.m }
    {
        &self.scores[..self.m]
    }

    // The weights that are lent, street by street.
    pub fn weights(&self) -> &[u8]
        requires { Small self.now }
        ensures part { result.now ≡ slice_range self.now.weights 0 self.now.weighed }
        ensures len { length result.now ≡ self.now.weighed }
    {
        &self.weights[..self.weighed]
    }

    // The rows, one behind the other.
    pub fn rows(&self) -> &[u8]
        requires { Small self.now }
        ensures part { result.now ≡ slice_range self.now.rows 0 self.now.len }
        ensures len { length result.now ≡ self.now.len }
    {
        &self.rows[..self.len]
    }

    // The row of street s.
    pub fn row(&self, s: usize) -> &[u8]
        requires { Small self.now × (s ≤ 7) }
        ensures len { length result.now ≡ self.now.m }
    {
        let from = s * self.m;
        &self.rows[from..from + self.m]
    }

    // The list of sites.
    pub fn sites(&self) -> &[u8]
        requires { Small self.now }
        ensures part { result.now ≡ slice_range self.now.sites 0 self.now.k }
        ensures len { length result.now ≡ self.now.k }
    {
        &self.sites[..self.k]
    }
}

// The next number of the generator, brought below a bound.
pub fn draw(seed: &mut u64, bound: usize) -> usize
    requires { 0 < bound }
    ensures { result < bound }
{
    let next = (*seed % MODULUS * 1103515245 + 12345) % MODULUS;
    *seed = next;
    (next / 65536) as usize % bound
}

// A number from 1 to the most; half of the time it is the most, so that many towns are large.
fn size(seed: &mut u64, most: usize) -> usize
    requires { 0 < most }
    ensures { (0 < result) × (result ≤ most) }
{
    if draw(seed, 2) == 0 {
        return most;
    }
    draw(seed, most) + 1
}

// What the differences of neighbouring scores are below, beyond the least one: mostly little, so that many scores are equal.
fn spread(seed: &mut u64) -> usize
    ensures { (0 < result) × (result ≤ 200) }
{
    if draw(seed, 4) == 0 {
        return 200;
    }
    draw(seed, 3) + 1
}

// The scores of m places, drawn from the last to the first: all 0, all equal, ever falling or with equal neighbours, and ending at 0 or above.
fn draw_scores(seed: &mut u64, m: usize) -> [u16; SITES]
    requires { m ≤ 5 }
    ensures { length result ≡ 5 }
{
    let least = draw(seed, 2);
    let spread = spread(seed);
    let mut score = draw(seed, 3);
    let mut scores = [0u16; SITES];
    for entry in &mut scores[..m] {
        *entry = score as u16;
        score += least + draw(seed, spread);
    }
    scores[..m].reverse();
    scores
}

// The numbers from 1 to the list's length, in any order.
fn shuffle(seed: &mut u64, list: &mut [u8])
    requires { length list.old ≤ 5 }
{
    for i in 0..list.len() {
        let other = draw(seed, i + 1);
        list[i] = list[other];
        list[other] = (i + 1) as u8;
    }
}

// The row that is drawn from a number: an order of the sites, cut after some places, which may be none or all.
fn draw_row(from: u64, row: &mut [u8])
    requires { length row.old ≤ 5 }
{
    let mut seed = from;
    shuffle(&mut seed, row);
    let ranked = draw(&mut seed, row.len() + 3).min(row.len());
    row[ranked..].fill(0);
}

// The rows of n streets and m sites. Streets whose rows are drawn from the same number have the same row; where there are few such numbers,
// there are many ties.
fn draw_rows(seed: &mut u64, n: usize, m: usize) -> [u8; BYTES]
    requires { (n ≤ 8) × (0 < m) × (m ≤ 5) }
    ensures { length result ≡ 40 }
{
    let first = draw(seed, 30000);
    let different = draw(seed, 20) + 1;
    let mut rows = [0u8; BYTES];
    for row in rows[..n * m].chunks_mut(m) {
        let own = first + draw(seed, different);
        draw_row(own as u64, row);
    }
    rows
}

// The sites of a town, in any order.
fn draw_sites(seed: &mut u64, m: usize) -> [u8; SITES]
    requires { m ≤ 5 }
    ensures { length result ≡ 5 }
{
    let mut sites = [0u8; SITES];
    shuffle(seed, &mut sites[..m]);
    sites
}

// The next town, whose list is its first site.
pub fn draw_town(seed: &mut u64) -> Town
    ensures { Small result }
{
    let m = size(seed, SITES);
    let n = size(seed, STREETS);
    let scores = draw_scores(seed, m);
    let rows = draw_rows(seed, n, m);
    let sites = draw_sites(seed, m);
    let weights = weights::draw_weights(seed, n);
    Town {
        n,
        m,
        k: 1,
        len: n * m,
        scores,
        weights,
        weighed: n,
        rows,
        sites,
    }
}

// The town with another list, the first k of these sites.
pub fn listing(town: Town, sites: [u8; SITES], k: usize) -> Town
    requires { Small town × (0 < k) × (k ≤ town.m) }
    ensures { Small result }
{
    Town { k, sites, ..town }
}
