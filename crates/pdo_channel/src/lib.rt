// The channel that a sender has.
#![tactic(auto)]

ghost use Rattle.std.specs.Prelude.{◌≡◌, ◌+◌, ◌≤◌, Some};
ghost use Rattle.entry.specs.Table.{Dict, number_of};
ghost use Rattle.entry.specs.Find.{Rows, find_row};
ghost use Rattle.pdo_channel.specs.Channel.{u8_at, sender_for, is_sender, matches_in, comm_index, first_match, expected_of, right_version};

use entry::{Place, Row, Slot};
use judge::Dictionary;

// The row of an index, where row r is that row or the first behind its place; else the index is looked up.
fn row_near(objects: &[u64], r: usize, index: u16) -> Option<usize>
    requires { Rows objects.now × (r ≤ number_of objects.now) }
    ensures { result ≡ find_row objects.now index }
{
    let n = entry::number_of(objects) as usize;
    let x = index as u64;
    if 0 < r && x <= Row(objects, r - 1).index() {
        return entry::find(objects, index);
    }
    // Each payload comes here for each channel, and a match on the two numbers' order takes a quarter more instructions than two ifs.
    if r < n {
        let y = Row(objects, r).index();
        if y == x {
            return Some(r);
        }
        if y < x {
            return entry::find(objects, index);
        }
    }
    None
}

// The index of a channel's record.
pub fn comm_index(i: u8) -> u16
    ensures { result ≡ comm_index i }
{
    0x1400 + i as u16
}

// The U8 at a sub-index above 0 of the object in row i.
pub fn u8_in(d: &Dictionary, i: usize, index: u16, sub: u8) -> Option<u8>
    requires { find_row d.now.objects index ≡ Some i }
    ensures { result ≡ u8_at d.now index sub }
{
    let Some(Place::Value(p)) = entry::sub_at(d.objects, i, sub) else {
        return None;
    };
    if Slot(d.slots, p).value_type() == 5 {
        Some(d.words[p] as u8)
    } else {
        None
    }
}

// The U8 at a sub-index above 0 of the object at an index.
pub fn u8_at(d: &Dictionary, index: u16, sub: u8) -> Option<u8>
    ensures { result ≡ u8_at d.now index sub }
{
    let i = entry::find(d.objects, index)?;
    u8_in(d, i, index, sub)
}

// The sender that a channel's number names: 0 is the managing node.
pub fn sender_for(v: u8) -> u8
    ensures { result ≡ sender_for v }
{
    match v {
        0 => 240,
        _ => v,
    }
}

fn is_sender(sender: u8, v: u8) -> bool
    ensures { result ≡ is_sender sender v }
{
    sender == sender_for(v)
}

// Whether the sender is the one of the object at an index, which is in a row or missing.
fn matches_at(d: &Dictionary, row: Option<usize>, index: u16, sender: u8) -> bool
    requires { row ≡ find_row d.now.objects index }
    ensures { result ≡ matches_in sender (u8_at d.now index 1) }
{
    // No `row.and_then(..)`: the proof over two closures in a row did not close.
    let Some(i) = row else {
        return false;
    };
    u8_in(d, i, index, 1).is_some_and(|v| is_sender(sender, v))
}

// The row to look at next.
fn behind(objects: &[u64], r: usize, row: Option<usize>, index: u16) -> usize
    requires { Rows objects.now × (r ≤ number_of objects.now) × (row ≡ find_row objects.now index) }
    ensures { result ≤ number_of objects.now }
{
    // No `map_or`: the proof that its closure's `i + 1` fits did not close.
    match row {
        Some(i) => i + 1,
        None => r,
    }
}

// The first channel that matches; a row moves along with the channels. The scan yields it by `break`, as docs/FORMS.md asks.
pub fn first_match(d: &Dictionary, sender: u8) -> Option<u8>
    ensures { result ≡ first_match d.now sender }
{
    let mut r = entry::lower(d.objects, 0x1400);
    'scan: {
        for i in 0..=255u8 {
            let index = comm_index(i);
            let row = row_near(d.objects, r, index);
            if matches_at(d, row, index, sender) {
                break 'scan Some(i);
            }
            r = behind(d.objects, r, row, index);
        }
        None
    }
}

// The version that a channel expects.
pub fn version_of(d: &Dictionary, i: u8) -> u64
    ensures { result ≡ expected_of d.now i }
{
    u8_at(d, comm_index(i), 2).unwrap_or(0) as u64
}

pub fn right_version(expected: u64, received: u8) -> bool
    ensures { result ≡ right_version expected received }
{
    let v = received as u64;
    if expected == 0 {
        v == 0
    } else {
        (expected / 16 == v / 16) & (expected % 16 <= v % 16)
    }
}
