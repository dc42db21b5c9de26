// What both editions of the mapping rules share, and what only edition 2 does. Theorems only: specs/ says what is claimed, proofs/ shows it.
#![tactic(auto)]
