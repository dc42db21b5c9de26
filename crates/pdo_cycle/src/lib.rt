// The payloads of a cycle, consumed one after another: the dictionary is judged once for all of them.
#![tactic(auto)]

mod cycling;
mod payloads;

pub use cycling::{consume_cycle, consume_cycle_judged};

// How many payloads were consumed, and how many events there are.
#[derive(Clone, Copy)]
pub struct Cycle {
    pub consumed: usize,
    pub events: usize,
}
