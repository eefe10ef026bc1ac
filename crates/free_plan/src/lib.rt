// Definitions alone so far.
#![tactic(auto)]
