// Payloads and cycles consumed on the memory of a program.
#![tactic(auto)]

ghost use Rattle.std.specs.Prelude.{◌≤◌};

use answers::Refusal;
use loomfinch::{Cycle, Event, EventRecord, Heard};
use memory::Memory;

// The answer to a payload or a cycle, and its list of events as numbers.
#[derive(Clone, Copy)]
pub struct Logged<T> {
    pub answer: Result<T, Refusal>,
    pub events: [u64; 1024],
}

// A record that no event of a single payload has: one that was written differs from it.
pub const BLANK: EventRecord = EventRecord {
    payload: 7,
    element: 9,
    event: Event::MapVersion,
};

// With an event list of `room` numbers; the answer is how many there are.
pub fn consume_logged(
    m: &mut Memory,
    payload: &[u8],
    sender: u8,
    version: u8,
    ready: bool,
    room: usize,
) -> Logged<usize>
    requires { room ≤ 1024 }
{
    let mut events = [0u64; 1024];
    let answer = pdo_handler::consume_logged(
        &m.objects,
        &m.slots,
        &mut m.words,
        &mut m.bytes,
        payload,
        sender,
        version,
        ready,
        room,
        &mut events[..room],
    );
    Logged { answer, events }
}

// With an event list of records, each of which is blank before.
pub fn consume_recorded(
    m: &mut Memory,
    payload: &[u8],
    sender: u8,
    version: u8,
    ready: bool,
) -> Heard {
    loomfinch::consume_by_value(
        &m.objects,
        &m.slots,
        &mut m.words,
        &mut m.bytes,
        payload,
        sender,
        version,
        ready,
        [BLANK; 254],
    )
}

// With an event list of `room` numbers.
pub fn consume_cycle(
    m: &mut Memory,
    delivered: &[u8],
    payloads: &[u64],
    room: usize,
) -> Logged<Cycle>
    requires { room ≤ 1024 }
{
    let mut events = [0u64; 1024];
    let answer = loomfinch::consume_cycle(
        &m.objects,
        &m.slots,
        &mut m.words,
        &mut m.bytes,
        delivered,
        payloads,
        &mut events[..room],
    );
    Logged { answer, events }
}
