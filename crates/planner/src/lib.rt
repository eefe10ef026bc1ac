// The library: every entry that a caller may call, by subject. Each checks its own input, on any input whatever, and answers with its result or with
// one of the numbered refusals; a refusal leaves the caller's buffers as they were. A call's contract stands where it is defined, in the crate named
// here, and what it promises is one record of specs/Calls there.
#![tactic(auto)]

// why a call refuses
pub use call_answers::Refusal;

// a survey, as a caller lends it
pub use survey::Town;
pub use survey_calls::{check_survey, ranked_part, row_score};

// a given list of sites
pub use list_calls::{balanced_division, free_division, list_total};

// plans
pub use plan_calls::{floor, plan};

// hand-made plans
pub use hand_calls::hand_plan;
pub use loads::Loads;

// survey files
pub use file_calls::{convert_file, read_file, write_file};
pub use survey_file::Sizes;
