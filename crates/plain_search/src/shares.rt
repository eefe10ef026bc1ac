// The shares of a small town, as the rule says them: with n = q k + r and r below k, the first r rounds have q + 1 streets and the others q.
ghost use Rattle.std.specs.Prelude.{◌≤◌};
ghost use Rattle.drawn_towns.specs.Small.{Small};

use drawn_towns::Town;

// q, the streets that every round has at the least.
pub fn least(town: Town) -> usize
    requires { Small town }
    ensures { result ≤ 8 }
{
    town.n / town.k
}

// r, how many rounds have one street more.
pub fn larger(town: Town) -> usize
    requires { Small town }
    ensures { result ≤ town.k }
{
    town.n % town.k
}

// The streets of round i, which are also those of entry i of a list; both are counted from 0.
pub fn of_round(town: Town, i: usize) -> usize
    requires { Small town }
    ensures { result ≤ 9 }
{
    least(town) + usize::from(i < larger(town))
}
