// Lines that insert and count: each answers what the call does.
use answers::Refusal;
use loomfinch::Head;
use memory::Memory;
use tokens::{NUMBERS, ROOM, bytes, index_at, next, number, pairs, sub_at};

// Without a range.
fn head_at(s: &[u8], at: usize) -> Head {
    let kind = next(s, at);
    let access = next(s, kind);
    let default = next(s, access);
    memory::unranged(
        index_at(s, at),
        number(s, kind),
        number(s, access),
        number(s, default),
    )
}

// The insertion whose name starts at `at`.
fn inserted(s: &[u8], at: usize, head: Head, m: &mut Memory) -> Result<(), Refusal> {
    let vals_at = next(s, at);
    let encodings_at = next(s, vals_at);
    let mut name = [0; ROOM];
    let n = bytes(s, at, &mut name);
    let mut digits = [0; ROOM];
    let d = bytes(s, vals_at, &mut digits);
    let mut vals = [0; NUMBERS];
    let v = pairs(&digits[..d], &mut vals);
    let mut encodings = [0; ROOM];
    let e = bytes(s, encodings_at, &mut encodings);
    m.insert(head, &name[..n], &vals[..v], &encodings[..e])
}

// Four numbers, then the name.
fn name_after(s: &[u8], at: usize) -> usize {
    next(s, next(s, next(s, next(s, at))))
}

pub fn insert_line(s: &[u8], at: usize, m: &mut Memory) -> Result<(), Refusal> {
    inserted(s, name_after(s, at), head_at(s, at), m)
}

// The range's four numbers, then what a line without one has.
pub fn ranged_line(s: &[u8], at: usize, m: &mut Memory) -> Result<(), Refusal> {
    let low = next(s, at);
    let high_type = next(s, low);
    let high = next(s, high_type);
    let head_starts = next(s, high);
    let head = Head {
        low_type: number(s, at),
        low: number(s, low),
        high_type: number(s, high_type),
        high: number(s, high),
        ..head_at(s, head_starts)
    };
    inserted(s, name_after(s, head_starts), head, m)
}

pub fn counter_line(s: &[u8], at: usize, m: &mut Memory) -> Result<(), Refusal> {
    m.increment_counter(index_at(s, at), sub_at(s, next(s, at)))
}
