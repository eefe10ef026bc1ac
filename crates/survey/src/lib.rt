// The survey: its bounds, its rows and scores, its weights, and the kinds of plan that are made of it.
#![tactic(auto)]

ghost use Rattle.std.specs.Prelude.{◌≡◌, ◌+◌, ◌*◌, ◌≤◌, length, replicate};
ghost use Rattle.counting.specs.Bounds.{most_streets, most_sites, top_score, top_weight, most_rows};
ghost use Rattle.survey.specs.Town.{lent};
ghost use Rattle.survey.specs.Rows.{row_of};
ghost use Rattle.survey.specs.ByKind.{Decodes};

use call_answers::Refusal;

pub mod accepted;
pub mod rows;
pub mod weights;

// What the streets and the survey team hand in, as a caller lends it: n streets and m sites, a score for each place, a household weight for each
// street, and the streets' rows of m bytes, one behind the other.
#[derive(Clone, Copy)]
pub struct Town<'a> {
    pub n: usize,
    pub m: usize,
    pub scores: &'a [u16],
    pub weights: &'a [u8],
    pub rows: &'a [u8],
}

impl<'a> Town<'a> {
    // The row of the street s.
    pub fn row(self, s: usize) -> &'a [u8]
        requires { s * self.m + self.m ≤ length self.rows.now }
        ensures { result.now ≡ row_of (lent self.entry) s }
    {
        let from = s * self.m;
        &self.rows[from..from + self.m]
    }
}

// The kinds of plan.
#[derive(Clone, Copy, Debug, PartialEq, Eq)]
pub enum Kind {
    Free,
    Balanced,
}

impl TryFrom<usize> for Kind {
    type Error = Refusal;

    ghost try_from_gives = { Decodes };

    fn try_from(number: usize) -> Result<Kind, Refusal> {
        match number {
            0 => Ok(Kind::Free),
            1 => Ok(Kind::Balanced),
            _ => Err(Refusal::Kind),
        }
    }
}

// A survey as a program holds it: the sizes and the kind of plan, then the buffers of the scores, the weights and the rows, of which the first m
// numbers, the first n bytes and the first n times m bytes count.
#[derive(Clone, Copy)]
pub struct Survey {
    pub n: usize,
    pub m: usize,
    pub k: usize,
    pub kind: usize,
    pub scores: [u16; Survey::SITES],
    pub weights: [u8; Survey::STREETS],
    pub rows: [u8; Survey::ROWS],
}

impl Survey {
    // the greatest numbers of streets and of sites, the greatest score, and the greatest weight
    pub const STREETS: usize = counting::STREETS;

    pub const SITES: usize = counting::SITES;

    pub const TOP_SCORE: u16 = 1000;

    pub const TOP_WEIGHT: u8 = 99;
    // the bytes of the longest rows
    pub const ROWS: usize = Survey::STREETS * Survey::SITES;
    // the bytes of the longest file: the town, a score for each site, a weight and a record with a full list for each street, and the end
    pub const FILE: usize = 7
        + (2 + 2 * Survey::SITES)
        + (2 + Survey::STREETS)
        + Survey::STREETS * (5 + Survey::SITES)
        + 2;

    // The first, empty state: no street, no site, and nothing ranked.
    pub fn empty() -> Self
        ensures sizes { (result.n ≡ 0) × (result.m ≡ 0) × (result.k ≡ 0) × (result.kind ≡ 0) }
        ensures buffers { (result.scores ≡ replicate most_sites 0) × (result.weights ≡ replicate most_streets 0) × (result.rows ≡ replicate most_rows 0) }
        ensures bounds { (Self.STREETS ≡ most_streets) × (Self.SITES ≡ most_sites) × (Self.TOP_SCORE ≡ top_score) × (Self.TOP_WEIGHT ≡ top_weight) }
    {
        Self {
            n: 0,
            m: 0,
            k: 0,
            kind: 0,
            scores: [0u16; Survey::SITES],
            weights: [0u8; Survey::STREETS],
            rows: [0u8; Survey::ROWS],
        }
    }
}
