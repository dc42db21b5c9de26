// Demand 3: the channel check passes exactly where every payload that the channel admits is written whole, else names the first fault with its
// reason; what that means for the public calls; how long a pass lasts. Theorems only: specs/ says what is claimed, proofs/ that it is so.
#![tactic(auto)]
