// An event: what happened at an element of a payload's mapping, as a record and as one number.
#![tactic(auto)]

mod numbers;
mod records;

pub use numbers::packed;
pub use records::{event_record, record_of};

// The field ends past the payload, has fewer bytes than its type needs, is no UTF-8 text from this byte of it on, or is a UnicodeString
// of odd length.
#[derive(Clone, Copy)]
pub enum Cause {
    Frame,
    Value { needed: u16, had: u16 },
    Text { at: u16 },
    Odd,
}

// Why a value was not written.
#[derive(Clone, Copy)]
pub enum Unwritten {
    CountNotWritable,
    TooLong,
}

#[derive(Clone, Copy)]
pub enum Event {
    MapVersion,
    PayloadShort(Cause),
    Server { index: u16, start: u16, len: u16 },
    Client { index: u16, start: u16, len: u16 },
    WriteRefused(Unwritten),
}

// The number of the payload in its cycle, the element's place in the mapping, and what happened there.
#[derive(Clone, Copy)]
pub struct EventRecord {
    pub payload: u16,
    pub element: u8,
    pub event: Event,
}
