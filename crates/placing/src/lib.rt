// The act of insertion: gaps are opened and filled. It cannot fail.
#![tactic(auto)]

ghost use Rattle.std.specs.Prelude.{◌≡◌, List, false, ◌++◌, ℕ, ◌+◌, ◌-◌, ◌*◌, ◌^◌, ◌≤◌, ◌<◌, length, get_or, take, drop};
ghost use Rattle.lists.specs.Lists.{over, grown, spliced};
ghost use Rattle.value.specs.Codec.{is_text};
ghost use Rattle.entry.specs.Model.{Val, rooms, words_of};
ghost use Rattle.entry.specs.Table.{number_of, values_of, used_of, row_place, row_end, first_place, name_place, slot_place, start_place, values_before, bytes_before, dict, model_of, Lies};
ghost use Rattle.rows.specs.Rows.{rows_grown, starts_grown, totalled};
ghost use Rattle.given.specs.Given.{word_in, room_of, given, rooms_in, slots_in, count_in, obj_in, Values};
ghost use Rattle.placing.specs.Place.{row_in, inserted, Room};

use entry::Row;
use given::{Head, held_in, length_in, room_in, type_in};
use std::marker::Model;

// The values that are put in: three words a value, and their encodings back to back. A clause sees the values.
// `insert_at` makes it: up from there clauses say the object by `obj_in` of its four parts, as it was judged.
#[derive(Drop)]
struct Described<'a> {
    vals: &'a [u64],
    encodings: &'a [u8],
}

impl<'a> Model for Described<'a> {
    ghost Value = { List Val };

    ghost view = { λ d. given d.vals.now d.encodings.now (count_in d.vals.now) 0 0 };

    ghost invariant = { λ d. Values d.vals.now d.encodings.now (count_in d.vals.now) };
}

// The word that an encoding says.
fn word_in(t: u64, s: &[u8], start: usize, len: usize) -> u64
    requires { (start + len ≤ length s.now) × (is_text t ≡ false → len ≤ 8) }
    ensures { result ≡ word_in t (take len (drop start s.now)) }
{
    if value::is_text(t) {
        return len as u64;
    }
    lists::number(s, start, len)
}

// The new object's slots, words and rooms, laid into the gaps.
fn fill_slots(slots: &mut [u64], v: usize, b: usize, vals: &[u64], u: usize)
    requires u_bound { (u ≤ 255) × (v + u ≤ 6144) × (slot_place (v + u) ≤ length slots.old) × (3 * u ≤ length vals.now) }
    requires u_bound_2 { b + rooms_in vals.now u 0 ≤ 32768 }
    ensures { slots.new ≡ over slots.old (slot_place v) (slots_in vals.now u 0 b) }
{
    let mut start = b;
    for j in 0..u {
        let room = room_in(vals, j);
        rows::set_slot(slots, v + j, type_in(vals, j), start as u64, room);
        start += room as usize;
    }
}

fn fill_words(words: &mut [u64], v: usize, values: &Described)
    requires { v + length values.now ≤ length words.old }
    ensures { words.new ≡ over words.old v (words_of values.now) }
{
    let Described { vals, encodings } = *values;
    let mut t = 0;
    for j in 0..vals.len() / 3 {
        let len = length_in(vals, j) as usize;
        words[v + j] = word_in(type_in(vals, j), encodings, t, len);
        t += len;
    }
}

// One room: the string, and zeros behind it.
fn fill_room(bytes: &mut [u8], p: usize, room: usize, s: &[u8], start: usize, len: usize)
    requires { (p + room ≤ length bytes.old) × (start + len ≤ length s.now) × (len ≤ room) }
    ensures { bytes.new ≡ over bytes.old p (room_of room (take len (drop start s.now))) }
{
    let end = start + len;
    lists::lay(bytes, p, &s[start..end]);
    lists::lay_zeros(bytes, p + len, room - len);
}

fn fill_rooms(bytes: &mut [u8], at: usize, values: &Described)
    requires { at + length (rooms values.now) ≤ length bytes.old }
    ensures { bytes.new ≡ over bytes.old at (rooms values.now) }
{
    let Described { vals, encodings } = *values;
    let mut p = at;
    let mut t = 0;
    for j in 0..vals.len() / 3 {
        let room = room_in(vals, j) as usize;
        let len = length_in(vals, j) as usize;
        let held = held_in(type_in(vals, j), len);
        fill_room(bytes, p, room, encodings, t, held);
        p += room;
        t += len;
    }
}

// The gaps are opened and filled: the words of u values at place v of m.
fn insert_words(words: &mut [u64], v: usize, m: usize, values: &Described, u: usize)
    requires { (v ≤ m) × (m + u ≤ length words.old) × (u ≡ length values.now) }
    ensures { words.new ≡ spliced v m (words_of values.now) words.old }
{
    lists::move_up(words, v, m, u);
    fill_words(words, v, values);
}

// Their slots, whose rooms start at b; the rooms behind start g bytes further on.
fn insert_slots(slots: &mut [u64], v: usize, m: usize, b: usize, vals: &[u64], u: usize, g: u64)
    requires u_bound { (u ≤ 255) × (v ≤ m) × (m + u ≤ 6144) × (slot_place (m + u) ≤ length slots.old) × (3 * u ≤ length vals.now) × (b + rooms_in vals.now u 0 ≤ 32768) }
    requires by_index { (j : ℕ) → j < m - v → get_or slots.old (start_place v + 3 * j) 0 + g < 2 ^ 64 }
    ensures { slots.new ≡ spliced (slot_place v) (slot_place m) (slots_in vals.now u 0 b) (starts_grown v (m - v) g slots.old) }
{
    rows::open_slots(slots, v, m, u, g);
    fill_slots(slots, v, b, vals, u);
}

// The name and the rooms, g bytes, at place b of `used`.
fn insert_bytes(bytes: &mut [u8], b: usize, used: usize, g: usize, name: &[u8], values: &Described)
    requires { (b ≤ used) × (used + g ≤ length bytes.old) × (g ≡ length name.now + length (rooms values.now)) }
    ensures { bytes.new ≡ spliced b used (name.now ++ rooms values.now) bytes.old }
{
    lists::move_up(bytes, b, used, g);
    lists::lay(bytes, b, name);
    fill_rooms(bytes, b + name.len(), values);
}

// Its row, of u values, with v values and b bytes before them.
fn row_in(head: Head, v: usize, b: usize, len: usize, u: usize) -> [u64; 12]
    requires { head.default ≤ u }
    ensures { result ≡ row_in head v b len u }
{
    let count = u as u64 - head.default;
    rows::row_of(
        head.index as u64,
        head.kind,
        head.access,
        count,
        v as u64,
        b as u64,
        len as u64,
        head.default,
        given::extra_in(head, count),
    )
}

// The row and the header's totals.
fn insert_object(
    objects: &mut [u64],
    i: usize,
    n: usize,
    head: Head,
    v: usize,
    b: usize,
    len: usize,
    u: usize,
    g: usize,
)
    requires i_le_n { (i ≤ n) × (n < 1024) × (row_end n ≤ length objects.old) × (head.default ≤ u) }
    requires u_bound { (values_of objects.old + u < 2 ^ 64) × (used_of objects.old + g < 2 ^ 64) }
    requires by_index { (j : ℕ) → j < n - i → get_or objects.old (first_place i + 12 * j) 0 + u < 2 ^ 64 }
    requires by_index_2 { (j : ℕ) → j < n - i → get_or (grown 12 u (n - i) (first_place i) objects.old) (name_place i + 12 * j) 0 + g < 2 ^ 64 }
    ensures { objects.new ≡ totalled (n + 1) (values_of objects.old + u) (used_of objects.old + g) (spliced (row_place i) (row_place n) (row_in head v b len u) (rows_grown i (n - i) u g objects.old)) }
{
    let m = entry::values_of(objects);
    let used = entry::used_of(objects);
    let row = row_in(head, v, b, len, u);
    rows::insert_row(objects, i, n, &row, u as u64, g as u64);
    rows::set_totals(objects, (n + 1) as u64, m + u as u64, used + g as u64);
}

// How many values, and how many bytes, lie before object i. That the rows are there is a clause of this and of `occupied`: a struct that
// has it would be made in five functions.
pub fn before(objects: &[u64], i: usize) -> (usize, usize)
    requires { (number_of objects.now ≤ 1024) × (row_place (number_of objects.now) ≤ length objects.now) }
    ensures values { result.0 ≡ values_before objects.now i }
    ensures bytes { result.1 ≡ bytes_before objects.now i }
{
    let n = entry::number_of(objects) as usize;
    if i < n {
        let row = Row(objects, i);
        return (row.first() as usize, row.name() as usize);
    }
    (
        entry::values_of(objects) as usize,
        entry::used_of(objects) as usize,
    )
}

// The object, of g bytes, goes in as the one at place i: everything behind it moves up.
pub fn insert_at(
    objects: &mut [u64],
    slots: &mut [u64],
    words: &mut [u64],
    bytes: &mut [u8],
    i: usize,
    head: Head,
    name: &[u8],
    vals: &[u64],
    encodings: &[u8],
    g: usize,
)
    requires lies { Lies (model_of (dict objects.old slots.old words.old bytes.old)) (dict objects.old slots.old words.old bytes.old) }
    requires room { Room objects.old slots.old words.old bytes.old i (count_in vals.now) g }
    requires values { Values vals.now encodings.now (count_in vals.now) × (head.default ≤ count_in vals.now) × (g ≡ length name.now + rooms_in vals.now (count_in vals.now) 0) }
    ensures { dict objects.new slots.new words.new bytes.new ≡ inserted i (obj_in head name.now vals.now encodings.now) (dict objects.old slots.old words.old bytes.old) }
{
    let n = entry::number_of(objects) as usize;
    let m = entry::values_of(objects) as usize;
    let used = entry::used_of(objects) as usize;
    let (v, b) = before(objects, i);
    let u = vals.len() / 3;
    let values = Described { vals, encodings };
    insert_words(words, v, m, &values, u);
    insert_slots(slots, v, m, b + name.len(), vals, u, g as u64);
    insert_bytes(bytes, b, used, g, name, &values);
    insert_object(objects, i, n, head, v, b, name.len(), u, g);
}
