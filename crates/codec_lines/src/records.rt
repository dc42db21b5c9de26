// Event records held against the numbers of events.
use loomfinch::{Cause, Event, EventRecord, Unwritten};

fn cause_number(c: Cause) -> u64 {
    match c {
        Cause::Frame => 2,
        Cause::Value { needed, had } => detailed(3, 0, needed, had),
        Cause::Text { at } => detailed(4, 0, at, 0),
        Cause::Odd => 5,
    }
}

fn unwritten_number(u: Unwritten) -> u64 {
    match u {
        Unwritten::CountNotWritable => 8,
        Unwritten::TooLong => 9,
    }
}

// A kind with its index, start and length, in the places that a number has for them.
fn detailed(kind: u64, index: u16, start: u16, len: u16) -> u64 {
    let place = u64::from(start % 8192) << 28 | u64::from(len % 8192) << 41;
    kind | u64::from(index) << 12 | place
}

fn event_number(e: Event) -> u64 {
    match e {
        Event::MapVersion => 1,
        Event::PayloadShort(c) => cause_number(c),
        Event::Server { index, start, len } => detailed(6, index, start, len),
        Event::Client { index, start, len } => detailed(7, index, start, len),
        Event::WriteRefused(u) => unwritten_number(u),
    }
}

// The number that says the record, by R11.14.
pub fn record_number(r: EventRecord) -> u64 {
    event_number(r.event) | u64::from(r.element) << 4 | u64::from(r.payload % 1024) << 54
}

// Is it an event's number, and does its record have that number?
pub fn says(e: u64) -> bool {
    loomfinch::event_record(e).is_some_and(|r| record_number(r) == e)
}

// Do the first n records say the first n numbers, and are all behind them `blank`? The record of each number says it too.
pub fn say(records: &[EventRecord; 254], log: &[u64; 1024], n: usize, blank: EventRecord) -> bool {
    for (i, record) in records.iter().enumerate() {
        let expected = if i < n { log[i] } else { record_number(blank) };
        if record_number(*record) != expected || !says(expected) {
            return false;
        }
    }
    n <= 254
}
