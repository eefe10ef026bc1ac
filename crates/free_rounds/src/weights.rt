// The streets' household weights, as the sums over the streets take them.
ghost use Rattle.std.specs.Prelude.{◌≡◌, ℕ, ◌<◌};
ghost use Rattle.counting.specs.Lists.{at};
ghost use Rattle.free_rounds.specs.Weighed.{Weighed, weight_of};

use survey::accepted::AcceptedTown;

// One weight that all streets have, or each street's own.
#[derive(Clone, Copy)]
pub enum Weighing<'a> {
    Even(u8),
    Own(&'a [u8]),
}

impl<'a> Weighing<'a> {
    // The weights of a town's streets.
    pub fn of(town: AcceptedTown<'a>) -> Self
        ensures weighed { Weighed town.entry.town.n result }
        ensures same { (s : ℕ) → s < town.entry.town.n → weight_of result s ≡ at town.entry.town.weights.now s }
    {
        let weights = town.town.weights;
        if survey::weights::even(weights) {
            Weighing::Even(weights[0])
        } else {
            Weighing::Own(weights)
        }
    }
}
