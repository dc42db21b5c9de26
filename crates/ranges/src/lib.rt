// What ranges promise, and of whom. Theorems only: specs/ says what is claimed, proofs/ shows it.
#![tactic(auto)]
