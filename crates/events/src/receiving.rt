// Consuming a payload into a list of records.
ghost use Rattle.std.specs.Prelude.{◌≡◌};
ghost use Rattle.entry.specs.Table.{dict};
ghost use Rattle.entry.specs.Put.{contents};
ghost use Rattle.events.specs.Receive.{event_count, received, received_of};

use crate::Heard;
use crate::records::fill;
use answers::Refusal;
use event::EventRecord;

// How many events there are.
fn count(answer: Result<usize, Refusal>) -> usize
    ensures { result ≡ event_count answer }
{
    match answer {
        Ok(n) => n,
        Err(_) => 0,
    }
}

// Consumes a payload; each event is a record of the list, from the first on.
pub fn consume_pdo_payload(
    objects: &[u64],
    slots: &[u64],
    words: &mut [u64],
    bytes: &mut [u8],
    payload: &[u8],
    sender: u8,
    version: u8,
    ready: bool,
    events: &mut [EventRecord],
) -> Result<usize, Refusal>
    ensures { received result (contents words.new bytes.new) events.new ≡ received_of (dict objects.now slots.now words.old bytes.old) payload.now sender version ready events.old }
{
    let mut log = [0u64; 254];
    let answer = pdo_handler::consume_logged(
        objects,
        slots,
        words,
        bytes,
        payload,
        sender,
        version,
        ready,
        events.len(),
        &mut log,
    );
    fill(events, &log, count(answer));
    answer
}

// The same with the list by value, in and out: for programs. It stays beside the lending call, since docs/PUBLIC.md names it.
pub fn consume_by_value(
    objects: &[u64],
    slots: &[u64],
    words: &mut [u64],
    bytes: &mut [u8],
    payload: &[u8],
    sender: u8,
    version: u8,
    ready: bool,
    mut events: [EventRecord; 254],
) -> Heard
    ensures { received result.answer (contents words.new bytes.new) result.events ≡ received_of (dict objects.now slots.now words.old bytes.old) payload.now sender version ready events }
{
    let answer = consume_pdo_payload(
        objects,
        slots,
        words,
        bytes,
        payload,
        sender,
        version,
        ready,
        &mut events,
    );
    Heard { answer, events }
}
