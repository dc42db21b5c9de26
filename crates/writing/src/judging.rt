// The judging half of a write: it stores nothing.
ghost use Rattle.std.specs.Prelude.{◌≡◌, true, ◌<◌, ◌≤◌, length, get_or, Some};
ghost use Rattle.entry.specs.Table.{edition_of, slot_end};
ghost use Rattle.value.specs.Codec.{exact};
ghost use Rattle.entry.specs.Find.{find_row};
ghost use Rattle.lists.specs.Numbers.{number, Bytes};
ghost use Rattle.entry.specs.Rules.{range_ok};
ghost use Rattle.writing.specs.Judging.{signed_by, command_of, outside, at_value, keep_of, in_object, count_first, judge_value_of, judge_of};

use crate::{Act, WriteFault};
use answers::Refusal;
use entry::{Extra, Place, Row, Slot};
use judge::Dictionary;
use value::Inexact;

// The bytes of "save" and of "load": numbers, as DS 301 gives the signature (docs/DECISIONS.md, 29).
const SAVE: u64 = 0x6576_6173;

const LOAD: u64 = 0x6461_6F6C;

// A type's number, and data that is a value of it and nothing else.
#[derive(Drop)]
struct TypedData<'a> {
    value_type: u64,
    data: &'a [u8],
    ghost is_value: { exact value_type «data».now ≡ true },
    // A proof knows this of a lent slice, but not of one in a field.
    ghost bytes: { Bytes «data».now },
}

#[tactic(auto, using(crate::proofs::WriteLaws::whole), unfolding(crate::specs::Judging::signed_by))]
fn is_signed(signature: u64, sub: u8, v: &TypedData) -> bool
    ensures { result ≡ signed_by signature sub v.now.value_type v.now.«data».now }
{
    v.value_type == 11 && 0 < sub && v.data.len() == 4 && lists::number(v.data, 0, 4) == signature
}

// A command, where its signature is given and there is a store.
#[tactic(auto, unfolding(crate::specs::Judging::command_of))]
fn command(signature: u64, act: Act, store: usize, sub: u8, v: &TypedData) -> Result<Act, Refusal>
    ensures { result ≡ command_of signature act store sub v.now.value_type v.now.«data».now }
{
    if !is_signed(signature, sub, v) {
        return Err(Refusal::BadSignature);
    }
    if store < 2 {
        return Err(Refusal::NoStorage);
    }
    Ok(act)
}

// Whether a value lies outside an object's range, where that is of its type.
fn is_outside(extra: Extra, v: &TypedData) -> bool
    requires { range_ok extra.ranged extra.low extra.high ≡ true }
    ensures { result ≡ outside extra v.now.value_type (number v.now.«data».now) }
{
    let t = v.value_type;
    if (t == 0) | (extra.ranged != t) {
        return false;
    }
    let w = lists::number(v.data, 0, v.data.len());
    !(value::is_ordered(t, extra.low, w) & value::is_ordered(t, w, extra.high))
}

// At value p: type, then range, then room. It takes p and no `Slot`, since p is answered as well.
#[tactic(auto, unfolding(crate::specs::Judging::at_value))]
fn at_value(slots: &[u64], extra: Extra, p: usize, v: &TypedData) -> Result<Act, Refusal>
    requires p_bound { (p < 6144) × (slot_end p ≤ length slots.now) }
    requires range { range_ok extra.ranged extra.low extra.high ≡ true }
    ensures { result ≡ at_value slots.now extra p v.now.value_type v.now.«data».now }
{
    let slot = Slot(slots, p);
    if slot.value_type() != v.value_type {
        return Err(Refusal::TypeMismatch);
    }
    if is_outside(extra, v) {
        return Err(Refusal::OutOfRange);
    }
    let room = slot.room();
    if value::is_text(v.value_type) & (room < v.data.len() as u64) {
        return Err(Refusal::TooLong);
    }
    Ok(Act::Put(p))
}

// A mapping's count in row i: edition 2 keeps it.
#[tactic(auto, unfolding(crate::specs::Judging::keep_of))]
fn keep(objects: &[u64], i: usize, data: &[u8]) -> Act
    requires { 12 ≤ length objects.now }
    ensures { result ≡ keep_of (edition_of objects.now) i (get_or «data».now 0 0) }
{
    if entry::edition_of(objects) == 2 {
        Act::Keep(i, data.first().copied().unwrap_or(0))
    } else {
        Act::Accepted
    }
}

// In row i: access, then place.
fn in_row(d: &Dictionary, i: usize, index: u16, sub: u8, v: &TypedData) -> Result<Act, Refusal>
    requires { find_row d.now.objects index ≡ Some i }
    ensures { result ≡ in_object d.now index sub v.now.value_type v.now.«data».now (Some i) }
{
    let row = Row(d.objects, i);
    let access = row.access();
    if (access == 0) | (access == 5) {
        return Err(Refusal::ReadOnly);
    }
    match entry::sub_at(d.objects, i, sub) {
        None => Err(Refusal::SubObjectNotFound),
        Some(Place::Count(_)) if entry::is_mapping(index as u64) => Ok(keep(d.objects, i, v.data)),
        Some(Place::Count(_)) => Err(Refusal::CountNotWritable),
        Some(Place::Value(p)) => at_value(d.slots, row.extra(), p, v),
    }
}

fn in_object(d: &Dictionary, index: u16, sub: u8, v: &TypedData) -> Result<Act, Refusal>
    ensures { result ≡ in_object d.now index sub v.now.value_type v.now.«data».now (find_row d.now.objects index) }
{
    let Some(i) = entry::find(d.objects, index) else {
        return Err(Refusal::ObjectNotFound);
    };
    in_row(d, i, index, sub, v)
}

// Whether a mapping's count is right; Ok where what is written is no such count.
#[tactic(auto, using(crate::proofs::WriteLaws::one_byte), unfolding(crate::specs::Judging::count_first))]
fn count_first(d: &Dictionary, index: u16, sub: u8, v: &TypedData) -> Result<(), Refusal>
    ensures { result ≡ count_first d.now index sub v.now.value_type v.now.«data».now }
{
    if sub != 0 || !entry::is_mapping(index as u64) {
        return Ok(());
    }
    if v.value_type != 5 {
        return Err(Refusal::TypeMismatch);
    }
    pdo_validator::judge_count(d, index, v.data[0])
}

// What a write of a value comes to.
#[tactic(auto, unfolding(crate::specs::Judging::judge_value_of, lists::specs::Numbers::number))]
fn judge_value(
    d: &Dictionary,
    store: usize,
    index: u16,
    sub: u8,
    v: &TypedData,
) -> Result<Act, Refusal>
    ensures { result ≡ judge_value_of d.now store index sub v.now.value_type v.now.«data».now }
{
    match index {
        0x1010 => command(SAVE, Act::Save, store, sub, v),
        0x1011 => command(LOAD, Act::Restore, store, sub, v),
        _ => {
            count_first(d, index, sub, v)?;
            in_object(d, index, sub, v)
        }
    }
}

// What a write comes to, on a dictionary that was judged and with a store of so many bytes.
#[tactic(auto, unfolding(crate::specs::Judging::judge_of, value::specs::Codec::exact))]
pub fn judge_write(
    d: &Dictionary,
    store: usize,
    index: u16,
    sub: u8,
    t: u64,
    data: &[u8],
) -> Result<Act, WriteFault>
    ensures { result ≡ judge_of d.now store index sub t «data».now }
{
    match value::exactly(t, data) {
        Ok(()) => {
            let v = TypedData {
                value_type: t,
                data,
            };
            judge_value(d, store, index, sub, &v).map_err(WriteFault::Refused)
        }
        Err(Inexact::Fails(f)) => Err(WriteFault::NoValue(f)),
        Err(Inexact::NoType | Inexact::Many) => Err(WriteFault::Refused(Refusal::BadValue)),
    }
}
