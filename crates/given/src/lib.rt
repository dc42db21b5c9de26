// Judging what an insertion is given.
#![tactic(auto)]

ghost use Rattle.std.specs.Prelude.{◌≡◌, false, cond, ◌+◌, ◌*◌, ◌<◌, ◌≤◌, length, take, drop};
ghost use Rattle.value.specs.Codec.{is_text};
ghost use Rattle.given.specs.Given.{type_in, room_in, length_in, extra_in, range_in, value_ok, vals_in, size_in};

use entry::Extra;

// What an insertion is given beside its name and its values. With a default (1, else 0) the last of the values is the default. A range has
// two ends of one integer type; all four numbers are 0 where there is none. Kind, access and types are numbers, as C fills them: any may
// stand there, and is judged.
#[derive(Clone, Copy)]
pub struct Head {
    pub index: u16,
    pub kind: u64,
    pub access: u64,
    pub default: u64,
    pub low_type: u64,
    pub low: u64,
    pub high_type: u64,
    pub high: u64,
}

// Value j as it is described. Each names its column: of one function for the three, every call would have to give a number. As methods of
// a struct, as a slot's columns are, they would make one in each of four loops, for three clauses.
pub fn type_in(vals: &[u64], j: usize) -> u64
    requires { (j < 255) × (3 * j + 3 ≤ length vals.now) }
    ensures { result ≡ type_in vals.now j }
{
    vals[3 * j]
}

pub fn room_in(vals: &[u64], j: usize) -> u64
    requires { (j < 255) × (3 * j + 3 ≤ length vals.now) }
    ensures { result ≡ room_in vals.now j }
{
    vals[3 * j + 1]
}

pub fn length_in(vals: &[u64], j: usize) -> u64
    requires { (j < 255) × (3 * j + 3 ≤ length vals.now) }
    ensures { result ≡ length_in vals.now j }
{
    vals[3 * j + 2]
}

// What a given object has beside its values, where it has so many elements.
pub fn extra_in(head: Head, count: u64) -> Extra
    ensures { result ≡ extra_in head count }
{
    Extra {
        kept: count,
        ranged: head.low_type,
        low: head.low,
        high: head.high,
    }
}

// The ends of the range have one type, and are a range of it, or none.
fn range_in(head: Head) -> bool
    ensures { result ≡ range_in head }
{
    (head.low_type == head.high_type) & judge::range_ok(head.low_type, head.low, head.high)
}

// How many bytes of its room a value of so many takes.
pub fn held_in(t: u64, len: usize) -> usize
    ensures { result ≡ cond (is_text t) len 0 }
{
    if value::is_text(t) { len } else { 0 }
}

// A value of type t and nothing else, within its room; as the default it has just its bytes.
fn value_ok(element: bool, t: u64, room: u64, s: &[u8]) -> bool
    ensures { result ≡ value_ok element t room s.now }
{
    if value::exactly(t, s).is_err() {
        return false;
    }
    let held = held_in(t, s.len()) as u64;
    (room <= 1490) & ((held <= room) & (element | (room == held)))
}

fn vals_in(vals: &[u64], encodings: &[u8], count: usize, u: usize, g: usize) -> Option<usize>
    requires { (u ≤ 255) × (3 * u ≤ length vals.now) × (g ≤ 32) }
    ensures { result ≡ vals_in vals.now encodings.now count u 0 0 g }
{
    let mut t = 0;
    let mut size = g;
    for j in 0..u {
        let kind = type_in(vals, j);
        let room = room_in(vals, j);
        let len = length_in(vals, j) as usize;
        let left = encodings.len() - t;
        if left < len {
            return None;
        }
        let end = t + len;
        if !value_ok(j < count, kind, room, &encodings[t..end]) {
            return None;
        }
        t = end;
        size += room as usize;
    }
    if t == encodings.len() {
        return Some(size);
    }
    None
}

// The bytes that the object takes, where its description adds up and it keeps the rules.
pub fn size_in(head: Head, name: &[u8], vals: &[u64], encodings: &[u8]) -> Option<usize>
    ensures { result ≡ size_in head name.now vals.now encodings.now }
{
    let u = vals.len() / 3;
    let flag = head.default as usize;
    let m = 3 * u;
    if m != vals.len() {
        return None;
    }
    if u < flag {
        return None;
    }
    let index = head.index as u64;
    let count = (u - flag) as u64;
    let len = name.len();
    if !judge::head_ok(
        index,
        head.kind,
        head.access,
        count,
        head.default,
        len as u64,
    ) {
        return None;
    }
    if !judge::is_good(name) {
        return None;
    }
    if !range_in(head) {
        return None;
    }
    vals_in(vals, encodings, u - flag, u, len)
}
