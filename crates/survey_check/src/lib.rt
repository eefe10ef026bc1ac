// The check of a survey: its first refusal, or the town as one that is accepted.
#![tactic(auto, using(call_answers::proofs::Refused::tries, counting::proofs::Refusals::chain))]

pub mod check;
mod quick;
