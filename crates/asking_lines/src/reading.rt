// Lines that read, find and list.
use loomfinch::Stored;
use memory::Memory;
use tokens::{ROOM, bytes, index_at, next, number, sub_at};

// Is it the part that starts at `at`? A number has none.
fn part_is(s: &[u8], at: usize, part: &[u8]) -> bool {
    let mut expected = [0; ROOM];
    let n = bytes(s, at, &mut expected);
    &expected[..n] == part
}

// The part of the bytes that a read hands out.
fn read_part_is(s: &[u8], at: usize, m: &Memory, index: u16, sub: u8) -> bool {
    let part = loomfinch::read_part(&m.objects, &m.slots, &m.words, &m.bytes, index, sub);
    part_is(s, at, part)
}

pub fn read_line(s: &[u8], at: usize, m: &Memory) -> bool {
    let index = index_at(s, at);
    let sub_index = next(s, at);
    let answer = next(s, sub_index);
    let expected = number(s, answer);
    let sub = sub_at(s, sub_index);
    match m.read(index, sub) {
        Ok(
            Stored {
                value_type,
                word,
                ..
            },
        ) => {
            let type_at = next(s, answer);
            let word_at = next(s, type_at);
            expected == 0
                && value_type == number(s, type_at)
                && word == number(s, word_at)
                && read_part_is(s, next(s, word_at), m, index, sub)
        }
        Err(r) => expected == answers::number(r),
    }
}

pub fn typed_line(s: &[u8], at: usize, m: &Memory) -> bool {
    let index = next(s, at);
    let sub = next(s, index);
    let answer = next(s, sub);
    let expected = number(s, answer);
    match m.read_number(number(s, at), index_at(s, index), sub_at(s, sub)) {
        Ok(n) => expected == 0 && n == number(s, next(s, answer)),
        Err(r) => expected == answers::number(r),
    }
}

pub fn name_line(s: &[u8], at: usize, m: &Memory) -> bool {
    let mut name = [0; ROOM];
    let n = bytes(s, at, &mut name);
    let answer = next(s, at);
    let expected = number(s, answer);
    match m.find_by_name(&name[..n]) {
        Ok(x) => expected == 0 && u64::from(x) == number(s, next(s, answer)),
        Err(r) => expected == answers::number(r),
    }
}

// Into `out`, all of which is lent; the answer starts at `at`.
fn nodes_are(s: &[u8], at: usize, m: &Memory, out: &mut [u8]) -> bool {
    let expected = number(s, at);
    match m.get_configured_cns(out) {
        Ok(n) => { expected == 0 && n <= out.len() && part_is(s, next(s, at), &out[..n]) }
        Err(r) => expected == answers::number(r),
    }
}

pub fn nodes_line(s: &[u8], at: usize, m: &Memory) -> bool {
    let mut out = [0; ROOM];
    let size = (number(s, at) % 256) as usize;
    nodes_are(s, next(s, at), m, &mut out[..size])
}
