// What sizes of towns were tried: each town with each number k of sites to choose.
ghost use Rattle.std.specs.Prelude.{◌≡◌, ◌+◌, ◌≤◌};
ghost use Rattle.drawn_towns.specs.Small.{Small};
ghost use Rattle.small_towns.specs.Counted.{Counted};

use drawn_towns::{SITES, STREETS, Town};
use std::io::{self, Write};
use streams::print_line;

// 1 to 8 streets, and for each of these 1 to 5 sites to choose
const PAIRS: usize = STREETS * SITES;

// How many choices there were, how many of them with a k that doesn't divide the streets, and how many with one above the streets; and for each
// pair of streets and k whether it was met.
#[derive(Drop)]
pub struct Sizes {
    pub choices: u64,
    pub uneven: u64,
    pub short: u64,
    pub met: [bool; PAIRS],
}

impl Sizes {
    // Nothing was tried yet.
    pub fn none() -> Self
        ensures { Counted result × (result.choices ≡ 0) }
    {
        Sizes {
            choices: 0,
            uneven: 0,
            short: 0,
            met: [false; PAIRS],
        }
    }

    // The same with one choice more.
    pub fn with_choice(mut self, town: Town) -> Self
        requires { Small town × Counted self × (self.choices ≤ 1000000) }
        ensures { Counted result × (result.choices ≡ self.choices + 1) }
    {
        let at = (town.n - 1) * SITES + (town.k - 1);
        self.choices += 1;
        self.uneven += u64::from(town.n % town.k != 0);
        self.short += u64::from(town.n < town.k);
        self.met[at] = true;
        self
    }

    // The lines that say it.
    pub fn lines(self, out: &mut impl Write) -> io::Result<()> {
        let pairs = self.met.iter().filter(|met| **met).count();
        print_line(out, b"numbers of sites to choose ", self.choices)?;
        print_line(out, b"of these, not dividing the streets ", self.uneven)?;
        print_line(out, b"of these, above the streets ", self.short)?;
        print_line(out, b"pairs of streets and sites to choose ", pairs as u64)
    }
}
