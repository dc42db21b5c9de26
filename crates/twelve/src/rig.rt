// Cases 5 to 12: the set-up of the cases, with the version and the first mapping word as each of them has it.
use answers::Refusal;
use loomfinch::{Cause, Checked, Event, EventRecord, Fault, Heard};
use memory::Memory;

// A mapping of one, two and four bytes onto 6000h.
const ONE_BYTE: u64 = 0x0008_0000_0000_6000;

const TWO_BYTES: u64 = 0x0010_0000_0000_6000;

const FOUR_BYTES: u64 = 0x0020_0000_0000_6000;

// Case 2's word: 6200h/3.
const CASE_2: u64 = 0x0020_0010_0003_6200;

// An object without a name, its access absent.
fn insert(
    m: &mut Memory,
    index: u16,
    kind: u64,
    vals: &[u64],
    encodings: &[u8],
) -> Result<(), Refusal> {
    m.insert_plain(index, kind, 7, vals, encodings)
}

// The record and the list of channel 0: node 5 in a version, a first word, and case 2's word.
fn insert_channel(m: &mut Memory, version: u8, word: u64) -> Result<(), Refusal> {
    let mut list = [0; 16];
    list[..8].copy_from_slice(&word.to_le_bytes());
    list[8..].copy_from_slice(&CASE_2.to_le_bytes());
    insert(m, 0x1400, 2, &[5, 0, 1, 5, 0, 1], &[5, version])?;
    insert(m, 0x1600, 1, &[8, 0, 8, 8, 0, 8], &list)
}

// 6000h, an Unsigned16; 6200h, three Unsigned32; 1C80h and 1C81h, 32 zero bytes each.
fn insert_targets(m: &mut Memory) -> Result<(), Refusal> {
    insert(m, 0x6000, 0, &[6, 0, 2], &[0, 0])?;
    insert(m, 0x6200, 1, &[7, 0, 4, 7, 0, 4, 7, 0, 4], &[0; 12])?;
    insert(m, 0x1C80, 0, &[12, 32, 32], &[0; 32])?;
    insert(m, 0x1C81, 0, &[12, 32, 32], &[0; 32])
}

fn set_up(version: u8, word: u64) -> Result<Memory, Refusal> {
    let mut m = memory::zeros();
    m.new(1)?;
    insert_channel(&mut m, version, word)?;
    insert_targets(&mut m)?;
    Ok(m)
}

// A payload of node 5, ready.
fn receive(m: &mut Memory, payload: &[u8], version: u8) -> Heard {
    receiving::consume_recorded(m, payload, 5, version, true)
}

// Was it consumed, with so many events?
fn has_events(heard: &Heard, count: usize) -> bool {
    matches!(heard.answer, Ok(n) if n == count)
}

fn is_number(a: Result<u64, Refusal>, wanted: u64) -> bool {
    matches!(a, Ok(n) if n == wanted)
}

// 6000h and 6200h/3.
fn are_stored(m: &Memory, short: u64, long: u64) -> bool {
    is_number(m.read_number(6, 0x6000, 0), short) && is_number(m.read_number(7, 0x6200, 3), long)
}

// Is the byte at a place `wanted`, and every other one 0?
fn one_byte(part: &[u8], place: usize, wanted: u8) -> bool {
    part.iter()
        .enumerate()
        .all(|(i, b)| *b == if i == place { wanted } else { 0 })
}

// All 32 bytes of an error object.
fn error_is(m: &Memory, index: u16, place: usize, wanted: u8) -> bool {
    let part = loomfinch::read_part(&m.objects, &m.slots, &m.words, &m.bytes, index, 0);
    part.len() == 32 && one_byte(part, place, wanted)
}

// MapVersion, told of element 0.
fn is_version(r: EventRecord) -> bool {
    matches!(r.event, Event::MapVersion) && r.payload == 0 && r.element == 0
}

fn is_cause(c: Cause, frame: bool) -> bool {
    match c {
        Cause::Frame => frame,
        Cause::Value { needed, had } => !frame && needed == 2 && had == 1,
        _ => false,
    }
}

// PayloadShort, with cause Frame, or Value of a U16 that has one byte.
fn is_short(r: EventRecord, element: u8, frame: bool) -> bool {
    matches!(r.event, Event::PayloadShort(c) if is_cause(c, frame))
        && r.payload == 0
        && r.element == element
}

// A version that is right has no event and the fields stored; a wrong one has MapVersion and node 5's bit in 1C80h.
fn version_is(expected: u8, received: u8, right: bool) -> bool {
    let Ok(mut m) = set_up(expected, TWO_BYTES) else {
        return false;
    };
    let heard = receive(&mut m, b"\xC4\x09\x10\x27\x00\x00", received);
    if right {
        return has_events(&heard, 0) && are_stored(&m, 2_500, 10_000) && error_is(&m, 0x1C80, 0, 0);
    }
    has_events(&heard, 1)
        && is_version(heard.events[0])
        && are_stored(&m, 0, 0)
        && error_is(&m, 0x1C80, 0, 0x10)
}

pub fn case_5() -> bool {
    version_is(0, 0, true)
}

pub fn case_6() -> bool {
    version_is(0x10, 0x12, true) && version_is(0x12, 0x11, false) && version_is(0x12, 0x22, false)
}

// The bit of node 239 is in byte 29; node 240 has none.
pub fn case_7() -> bool {
    let Ok(mut none) = set_up(0x10, TWO_BYTES) else {
        return false;
    };
    let mut one = none;
    none.update_pdo_error_object(0x1C81, 240).is_ok()
        && one.update_pdo_error_object(0x1C81, 239).is_ok()
        && error_is(&none, 0x1C81, 0, 0)
        && error_is(&one, 0x1C81, 29, 0x40)
}

pub fn case_8() -> bool {
    let Ok(mut m) = set_up(0x10, TWO_BYTES) else {
        return false;
    };
    let heard = receive(&mut m, b"\xC4\x09\x10\x27\x00\x00", 0x12);
    has_events(&heard, 0) && are_stored(&m, 2_500, 10_000) && error_is(&m, 0x1C81, 0, 0)
}

pub fn case_9() -> bool {
    let Ok(mut m) = set_up(0x10, TWO_BYTES) else {
        return false;
    };
    let heard = receive(&mut m, b"\xC4\x09\x10\x27\x00", 0x12);
    has_events(&heard, 1)
        && is_short(heard.events[0], 2, true)
        && are_stored(&m, 2_500, 0)
        && error_is(&m, 0x1C81, 0, 0x10)
}

pub fn case_10() -> bool {
    let Ok(mut m) = set_up(0x10, ONE_BYTE) else {
        return false;
    };
    let heard = receive(&mut m, b"\xC4\x09\x10\x27\x00\x00", 0x12);
    has_events(&heard, 1)
        && is_short(heard.events[0], 1, false)
        && are_stored(&m, 0, 0)
        && error_is(&m, 0x1C81, 0, 0)
}

pub fn case_11() -> bool {
    let Ok(mut m) = set_up(0x10, FOUR_BYTES) else {
        return false;
    };
    let heard = receive(&mut m, b"\x90\x5F\x01\x00\x00\x00", 0x12);
    has_events(&heard, 0) && are_stored(&m, 24_464, 1) && error_is(&m, 0x1C81, 0, 0)
}

// Case 11's channel.
pub fn case_12() -> bool {
    let Ok(m) = set_up(0x10, FOUR_BYTES) else {
        return false;
    };
    matches!(
        m.check(0),
        Checked::Element {
            element: 1,
            fault: Fault::WrongLength,
        }
    )
}
