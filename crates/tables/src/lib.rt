// Tables that are filled once from a survey's scores and rows, and that the engines read in their place: values by street, values by site,
// and the keys by which a balanced round orders the streets.
#![tactic(auto)]

pub mod by_site;
pub mod by_street;
pub mod keys;
