// What a call answers: its result, or why it refuses.
#![tactic(auto)]

ghost use Rattle.std.specs.Prelude.{◌≡◌};
ghost use Rattle.counting.specs.Words.{◌when◌};
ghost use Rattle.call_answers.specs.Answers.{number, number_of};

use std::error::Error;
use std::fmt;

// Why a call refuses. Each reason has the number that it is known by.
#[derive(Clone, Copy, Debug, PartialEq, Eq)]
pub enum Refusal {
    // the number of streets is outside 1 to 400
    Streets = 1,
    // the number of sites is outside 1 to 64
    Sites = 2,
    // the number of sites to choose, or the length of a list of sites, is outside 1 to the number of sites
    Chosen = 3,
    // the kind of plan is neither 0 nor 1
    Kind = 4,
    // there are more sites to choose than streets, so that a site would have no share
    Share = 5,
    // a lent buffer has another length than its exact one
    Length = 6,
    // a file buffer is shorter than the file
    Room = 7,
    // a score is above 1,000 or above the one before
    Score = 8,
    // a site stands behind a zero in a row
    Gap = 9,
    // a site's number is above the number of sites, in a file also 0
    Number = 10,
    // a site stands twice in one list of a street
    Twice = 11,
    // the file ends early
    Short = 12,
    // another mark stands where one is due
    Mark = 13,
    // a street is out of turn
    Turn = 14,
    // a street's list is longer than the number of sites
    Long = 15,
    // bytes follow the end of the file
    Behind = 16,
    // a site of a hand plan or of a list is outside its range
    Range = 17,
    // a hand plan has more sites than it may, or other shares than it must
    Usage = 18,
    // a claimed total is not the plan's
    Claim = 19,
    // a list of sites has a site twice
    Again = 20,
    // a load or a limit is above 1,000,000
    Load = 21,
    // a site gets more kilograms than its limit
    Kilograms = 22,
    // a site gets more litres than its limit
    Litres = 23,
    // a household weight is outside 1 to 99
    Weight = 24,
    // a weight is not 1, which a file of the old form would lose
    Lost = 25,
}

impl Refusal {
    // The refusal's number.
    pub fn number(self) -> u8
        ensures { result ≡ number_of self }
    {
        self as u8
    }

    // The refusal where a test holds.
    #[tactic(auto, using(counting::proofs::Refusals::chain))]
    pub fn when(self, test: bool) -> Result<(), Refusal>
        ensures { number result ≡ number_of self when test }
    {
        if test { Err(self) } else { Ok(()) }
    }
}

impl fmt::Display for Refusal {
    fn fmt<W: fmt::Write>(&self, f: &mut fmt::Formatter<W>) -> fmt::Result {
        write!(f, "refused {}", self.number())
    }
}

impl Error for Refusal {}
