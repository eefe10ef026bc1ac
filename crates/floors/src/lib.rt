// The floor of the balanced plan: over the rounds, what each is sure of for the streets of its share.
#![tactic(auto)]

ghost use Rattle.std.specs.Prelude.{◌≡◌, ◌*◌, ◌≤◌, ◌<◌};
ghost use Rattle.counting.specs.Bounds.{most_sites, most_total};
ghost use Rattle.survey.specs.Town.{lent};
ghost use Rattle.survey.specs.Rows.{score_at, shortest};
ghost use Rattle.shares.specs.Rounds.{round_share};
ghost use Rattle.balanced_plan.specs.Floor.{sure, added, floor};
ghost use Rattle.plans.specs.Plans.{plan_floor};

use quotients::Quotients;
use survey::accepted::AcceptedTown;
use survey::{rows, weights};

// The rounds that choose k sites of a town, and the length t of its shortest list.
#[derive(Clone, Copy)]
struct Rounds<'a> {
    town: AcceptedTown<'a>,
    k: usize,
    t: usize,
    ghost some: { 1 ≤ k },
    ghost few: { k ≤ town.town.m },
    ghost shortest: { t ≡ shortest (lent town.town) },
}

impl<'a> Rounds<'a> {
    // The score that the round i is sure of for each street of its share: that at its place, where every list is so long.
    fn sure(self, quotients: &Quotients, i: usize) -> u16
        requires { i < self.k }
        ensures { result ≡ sure (score_at self.entry.town.town.scores.now) self.entry.t self.entry.town.town.m self.entry.k i }
    {
        let town = self.town.town;
        let place = i + usize::from(quotients.at(town.m - i, self.k - i));
        if self.t < place {
            return 0;
        }
        rows::score_at(town.scores, place)
    }

    // What the round i adds.
    fn added(self, quotients: &Quotients, i: usize) -> u32
        requires { i < self.k }
        ensures { (result ≡ added (round_share self.entry.town.town.n self.entry.k) (score_at self.entry.town.town.scores.now)
            self.entry.t self.entry.town.town.m self.entry.k i) × (result ≤ most_total) }
    {
        let share = shares::of_round(self.town.town.n, self.k, i);
        share as u32 * u32::from(self.sure(quotients, i))
    }

    // The floor by plain scores: the sum of what the rounds add.
    fn plain_floor(self) -> u32
        ensures { (result ≡ floor (round_share self.entry.town.town.n self.entry.k) (score_at self.entry.town.town.scores.now)
            self.entry.t self.entry.town.town.m self.entry.k) × (result ≤ most_sites * most_total) }
    {
        let quotients = Quotients::all();
        let mut total = 0;
        for i in 0..self.k {
            total += self.added(&quotients, i);
        }
        total
    }
}

// The length of a town's shortest list.
fn shortest(town: AcceptedTown<'_>) -> usize
    ensures { result ≡ shortest (lent town.entry.town) }
{
    let town = town.town;
    let mut least = town.m;
    for s in 0..town.n {
        least = least.min(rows::ranked(town.row(s)).len());
    }
    least
}

// The floor of k rounds: that by plain scores, times the smallest weight.
pub fn floor(town: AcceptedTown<'_>, k: usize) -> u32
    requires { (1 ≤ k) × (k ≤ town.town.m) }
    ensures { result ≡ plan_floor (lent town.entry.town) k }
{
    let rounds = Rounds {
        town,
        k,
        t: shortest(town),
    };
    u32::from(weights::least(town.town.weights)) * rounds.plain_floor()
}
