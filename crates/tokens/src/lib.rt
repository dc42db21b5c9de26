// What a line of a table holds: its tokens, room for what they say, sums, and numbers held against a line's.
#![tactic(auto)]

mod cells;
mod hex;

pub use cells::{NUMBERS, ROOM, are, listed, pairs, sum_of};
pub use hex::{bytes, has_next, index_at, last, next, number, sub_at};
