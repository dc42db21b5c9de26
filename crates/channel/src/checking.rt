// The check of a channel: its sender, its list, its elements, and how far they reach.
ghost use Rattle.std.specs.Prelude.{◌≡◌, ◌+◌, ◌<◌, ◌≤◌, length};
ghost use Rattle.entry.specs.Table.{dict, number_of, slot_place};
ghost use Rattle.entry.specs.Find.{find_row};
ghost use Rattle.pdo_channel.specs.Channel.{u8_at, comm_index};
ghost use Rattle.channel.specs.Check.{fault_from, is_far, on_elements, on_list, has_sender, check_of};

use crate::Checked;
use answers::Refusal;
use element::{Fault, word_verdict};
use entry::{Row, Slot};
use judge::Dictionary;
use pdo_channel::{comm_index, first_match, sender_for, u8_at};

// The first fault of a list's elements, of which the first is slot `first`, or what comes last.
fn first_fault(d: &Dictionary, first: usize, list: &[u64], last: Checked) -> Checked
    requires { (first + length list.now ≤ 6144) × (slot_place (first + length list.now) ≤ length d.now.slots) }
    ensures { result ≡ fault_from d.now.objects d.now.slots first list.now 0 last }
{
    for (j, &word) in list.iter().enumerate() {
        if Slot(d.slots, first + j).value_type() != 8 {
            return Checked::Element {
                element: j + 1,
                fault: Fault::NotMapping,
            };
        }
        if let Err(fault) = word_verdict(d, word) {
            return Checked::Element {
                element: j + 1,
                fault,
            };
        }
    }
    last
}

fn is_far(ends: Option<usize>) -> bool
    ensures { result ≡ is_far ends }
{
    ends.is_some_and(|e| 1490 < e)
}

// The elements of the list in row r.
fn check_elements(d: &Dictionary, r: usize) -> Checked
    requires { r < number_of d.now.objects }
    ensures { result ≡ on_elements d.now r }
{
    let row = Row(d.objects, r);
    let first = row.first() as usize;
    let n = row.list_count() as usize;
    let list = &d.words[first..first + n];
    let last = if is_far(pdo_validator::ends(d.slots, d.words, n, first)) {
        Checked::TooFar
    } else {
        Checked::Pass
    };
    first_fault(d, first, list, last)
}

fn check_list(d: &Dictionary, index: u16) -> Checked
    ensures { result ≡ on_list d.now (find_row d.now.objects index) }
{
    let Some(r) = entry::find(d.objects, index) else {
        return Checked::NoList;
    };
    let row = Row(d.objects, r);
    if (row.kind() == 0) | (row.list_count() == 0) {
        return Checked::NoList;
    }
    check_elements(d, r)
}

// Is channel i the first match of a sender?
fn has_sender(d: &Dictionary, i: u8) -> bool
    ensures { result ≡ has_sender d.now i (u8_at d.now (comm_index i) 1) }
{
    let Some(v) = u8_at(d, comm_index(i), 1) else {
        return false;
    };
    first_match(d, sender_for(v)) == Some(i)
}

// A channel of a dictionary that was judged.
pub fn check_judged(d: &Dictionary, channel: u8) -> Checked
    ensures { result ≡ check_of d.now channel }
{
    // Opens d for the proof: an answer before any row is read needs that d is well-formed too.
    let _ = &d.objects;
    if !has_sender(d, channel) {
        return Checked::NoSender;
    }
    check_list(d, 0x1600 + channel as u16)
}

// Checks a channel: would every payload that it admits be written whole? Nothing is changed.
pub fn check(objects: &[u64], slots: &[u64], words: &[u64], bytes: &[u8], channel: u8) -> Checked
    ensures { result ≡ check_of (dict objects.now slots.now words.now bytes.now) channel }
{
    let Ok(d) = Dictionary::judged(objects, slots, words, bytes) else {
        return Checked::Refused(Refusal::Malformed);
    };
    check_judged(&d, channel)
}
