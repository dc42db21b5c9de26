// Saving the dictionary's values into the lent store.
#![tactic(auto)]

mod laying;
mod offering;
mod saving;

pub use offering::sub_in;
pub use saving::save;
