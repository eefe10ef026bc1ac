// What is right for surveys and files of small towns, found the plain way. Nothing of the library is used here.
#![tactic(auto)]

pub mod converting;
pub mod filling;
pub mod reading;
pub mod surveys;
pub mod writing;
