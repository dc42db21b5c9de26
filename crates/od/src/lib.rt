// An empty dictionary, and values read: each reading call judges the lent dictionary first.
#![tactic(auto)]

mod empty;
mod reading;

pub use empty::new;
pub use reading::{
    read, read_judged, read_number, read_number_judged, read_part, read_part_judged, read_u8,
    read_u16, read_u32, read_u64,
};

// A value's type and word: its number, or the length of a text or of bytes, which start at `start` of the lent bytes.
#[derive(Clone, Copy)]
pub struct Stored {
    pub value_type: u64,
    pub word: u64,
    pub start: u64,
}
