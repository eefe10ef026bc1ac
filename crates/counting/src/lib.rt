// specs/ has the words that every definition of the planner is written in, and its bounds; proofs/ has their laws. The code has the bounds alone.
#![tactic(auto)]

// the most streets and sites of a survey
pub const STREETS: usize = 400;

pub const SITES: usize = 64;

// the sites 0, 1, .., m of a table, and the longest table with an entry for each street and each of them
pub const WIDTH: usize = SITES + 1;

pub const ENTRIES: usize = STREETS * WIDTH;
