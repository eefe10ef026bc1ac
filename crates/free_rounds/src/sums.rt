// Sums over the streets. A site's values stand side by side, so that each sum runs over neighbours and stores nothing on its way.
// Where all streets have one weight, the plain scores are summed and the sum is multiplied once, which is faster.
ghost use Rattle.std.specs.Prelude.{◌≡◌, ◌*◌, ◌≤◌, max, length};
ghost use Rattle.counting.specs.Bounds.{most_streets};
ghost use Rattle.counting.specs.Words.{sum_of};
ghost use Rattle.counting.specs.Lists.{at};
ghost use Rattle.counting.specs.Buffers.{Mapped};
ghost use Rattle.free_rounds.specs.Held.{Scores, Beside, Weights};
ghost use Rattle.free_rounds.specs.Weighed.{Weighed, weight_of};

use crate::weights::Weighing;

// Each street's best score once a site is chosen besides, whose values are the row.
pub fn raise(bests: &mut [u16], row: &[u16])
    requires { length row.now ≡ length bests.old }
    ensures { Mapped (λ s x. max x (at row.now s)) bests.old bests.new (length bests.old) }
{
    for (s, value) in row.iter().enumerate() {
        bests[s] = bests[s].max(*value);
    }
}

// A part of the sum below, over at most 64 streets: it fits 16 bits, so that twice as many streets are added at once as in 32.
fn part(bests: &[u16], row: &[u16]) -> u16
    requires { Beside bests.now row.now × (length bests.now ≤ 64) }
    ensures { result ≡ sum_of (length bests.now) (λ s. max (at bests.now s) (at row.now s)) }
{
    let mut sum: u16 = 0;
    for (s, best) in bests.iter().enumerate() {
        sum += (*best).max(row[s]);
    }
    sum
}

// The sum over the streets of the better of the street's best and the site's value, with no weights.
fn plain_sum_with(bests: &[u16], row: &[u16]) -> u32
    requires { Beside bests.now row.now }
    ensures { result ≡ sum_of (length bests.now) (λ s. max (at bests.now s) (at row.now s)) }
{
    // kept: one index cuts both lists; chunks of both, zipped, say no more
    let mut raised: u32 = 0;
    let mut from = 0;
    while from < bests.len() {
        let to = bests.len().min(from + 64);
        raised += u32::from(part(&bests[from..to], &row[from..to]));
        from = to;
    }
    raised
}

// The same with each street's weight.
fn weighed_sum_with(bests: &[u16], row: &[u16], weights: &[u8]) -> u32
    requires { Beside bests.now row.now × (length weights.now ≡ length bests.now) × Weights weights.now }
    ensures { result ≡ sum_of (length bests.now)
        (λ s. at weights.now s * max (at bests.now s) (at row.now s)) }
{
    let mut counted: u32 = 0;
    for (s, weight) in weights.iter().enumerate() {
        counted += u32::from(*weight) * u32::from(bests[s].max(row[s]));
    }
    counted
}

// The total with a site besides, by the streets' weights.
pub fn sum_with(bests: &[u16], row: &[u16], weights: Weighing<'_>) -> u32
    requires { Beside bests.now row.now × Weighed (length bests.now) weights }
    ensures { result ≡ sum_of (length bests.now)
        (λ s. weight_of weights.entry s * max (at bests.now s) (at row.now s)) }
{
    match weights {
        Weighing::Even(weight) => u32::from(weight) * plain_sum_with(bests, row),
        Weighing::Own(weights) => weighed_sum_with(bests, row, weights),
    }
}

// The total of the streets' bests, by the streets' weights: that with a site whose values are the bests.
pub fn sum(bests: &[u16], weights: Weighing<'_>) -> u32
    requires { Scores bests.now × (length bests.now ≤ most_streets) × Weighed (length bests.now) weights }
    ensures { result ≡ sum_of (length bests.now) (λ s. weight_of weights.entry s * at bests.now s) }
{
    sum_with(bests, bests, weights)
}
