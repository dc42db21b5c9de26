// The static library for C: each call of include/loomfinch.h under its symbol, with the clauses of the function that it calls.
// A slice is a pointer and then a length in elements.
#![tactic(auto)]

mod checking;
mod codec;
mod dictionary;
mod receiving;
mod storing;
