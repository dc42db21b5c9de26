// The event list as records that the caller lends, and the events of a payload in it.
#![tactic(auto)]

mod receiving;
mod records;

use answers::Refusal;
use event::EventRecord;
pub use receiving::{consume_by_value, consume_pdo_payload};

// An answer, and the event list after it: what `consume_by_value` answers.
#[derive(Clone, Copy)]
pub struct Heard {
    pub answer: Result<usize, Refusal>,
    pub events: [EventRecord; 254],
}
