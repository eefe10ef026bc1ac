// What plans are right for a small town, found the plain way: word for word, or by trying everything. Nothing of the library is used here.
#![tactic(auto)]

pub mod asked;
pub mod divisions;
pub mod floors;
pub mod hands;
pub mod loads;
pub mod rounds;
pub mod scores;
pub mod sets;
pub mod shares;
