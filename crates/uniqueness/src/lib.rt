// Of each public call's contract, as Rattle reads it off the source: it asks nothing of the caller, it leaves one outcome, a refusal changes nothing, and
// what demand 3 gives whoever consumes a payload. Theorems only: specs/ says what is claimed, proofs/ has a theorem for each call.
#![tactic(auto)]
