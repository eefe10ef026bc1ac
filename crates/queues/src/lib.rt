// What the tie pass asks while it looks for a street's site: which streets are tight for a site, which sites can be left, which are in reach,
// and the turn that brings a street to one of them.
#![tactic(auto)]

pub mod limits;
pub mod path_back;
pub mod price_table;
pub mod queue;
pub mod tights;
