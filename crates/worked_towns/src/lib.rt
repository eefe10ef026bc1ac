// Document 01's worked surveys, and some more, as a table over the definitions: specs/ has the table, proofs/ the one fact about its lines.
#![tactic(auto)]
