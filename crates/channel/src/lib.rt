// The channel check: which element of a channel would not be written whole, and why.
#![tactic(auto)]

mod checking;
mod every;
mod numbers;

use answers::Refusal;
pub use checking::{check, check_judged};
use element::Fault;
pub use every::{check_all, check_all_judged};
pub use numbers::{named, number};

// What the check says of a channel; an element is its place in the list, from 1. No Result: R12.2's answers are of one rank, and none is
// the value that the others lack.
#[derive(Clone, Copy)]
pub enum Checked {
    Pass,
    NoSender,
    NoList,
    Element { element: usize, fault: Fault },
    TooFar,
    Refused(Refusal),
}
