// What the plans of a town are: definitions, which the engines and the calls cite. There is no code here.
#![tactic(auto)]
