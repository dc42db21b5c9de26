// The record that an event's number says.
ghost use Rattle.std.specs.Prelude.{◌≡◌};
ghost use Rattle.event.specs.Record.{parts_of, cause_of, event_of, record_of, may_have, is_record, recorded_of};

use crate::{Cause, Event, EventRecord, Unwritten};

// Bit 4, the element's first.
const ELEMENT: u64 = 0x10;

// Bit 12, the index's first.
const INDEX: u64 = 0x1000;

// Bit 28, the start's first.
const START: u64 = 0x1000_0000;

// Bit 41, the length's first.
const LENGTH: u64 = 0x200_0000_0000;

// Bit 54, the payload's first.
const PAYLOAD: u64 = 0x40_0000_0000_0000;

// What a number says of its event.
struct Parts {
    kind: u64,
    index: u16,
    start: u16,
    len: u16,
}

fn parts_of(e: u64) -> Parts
    ensures { result ≡ parts_of e }
{
    Parts {
        kind: e % ELEMENT,
        index: (e / INDEX % 0x1_0000) as u16,
        start: (e / START % 0x2000) as u16,
        len: (e / LENGTH % 0x2000) as u16,
    }
}

fn cause_of(kind: u64, start: u16, len: u16) -> Cause
    ensures { result ≡ cause_of kind start len }
{
    match kind {
        2 => Cause::Frame,
        3 => Cause::Value {
            needed: start,
            had: len,
        },
        4 => Cause::Text { at: start },
        _ => Cause::Odd,
    }
}

#[tactic(auto, unfolding(crate::specs::Record::event_of))]
fn event_of(parts: Parts) -> Event
    ensures { result ≡ event_of parts.kind parts.index parts.start parts.len }
{
    let Parts {
        kind,
        index,
        start,
        len,
    } = parts;
    match kind {
        1 => Event::MapVersion,
        6 => Event::Server { index, start, len },
        7 => Event::Client { index, start, len },
        8 => Event::WriteRefused(Unwritten::CountNotWritable),
        9 => Event::WriteRefused(Unwritten::TooLong),
        _ => Event::PayloadShort(cause_of(kind, start, len)),
    }
}

// The record that a record's number says.
#[tactic(auto, unfolding(crate::specs::Record::record_of))]
pub fn record_of(e: u64) -> EventRecord
    ensures { result ≡ record_of e }
{
    EventRecord {
        payload: (e / PAYLOAD) as u16,
        element: (e / ELEMENT % 0x100) as u8,
        event: event_of(parts_of(e)),
    }
}

// Whether an event of that kind has these parts.
fn may_have(parts: Parts) -> bool
    ensures { result ≡ may_have parts.kind parts.index parts.start parts.len }
{
    let Parts {
        kind,
        index,
        start,
        len,
    } = parts;
    let handed = (kind == 6) | (kind == 7);
    let bare = (start == 0) & ((1 <= kind) & (kind <= 9));
    handed | ((index == 0) & ((kind == 3) | ((len == 0) & ((kind == 4) | bare))))
}

fn is_record(e: u64) -> bool
    ensures { result ≡ is_record e }
{
    may_have(parts_of(e))
}

// The record that a number of the log says.
pub fn event_record(e: u64) -> Option<EventRecord>
    ensures { result ≡ recorded_of e }
{
    if is_record(e) {
        Some(record_of(e))
    } else {
        None
    }
}
