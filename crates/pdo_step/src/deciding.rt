// What a mapping word comes to. It depends on the dictionary's shape alone, not on its values.
ghost use Rattle.std.specs.Prelude.{◌≡◌, ℕ, ◌+◌, ◌≤◌, ◌<◌, length};
ghost use Rattle.value.specs.Codec.{word_at};
ghost use Rattle.entry.specs.Table.{slot_end, type_at};
ghost use Rattle.aim.specs.declared.Class.TheVariants.{Value};
ghost use Rattle.pdo_step.specs.Outcomes.{part, Shape, on_count, on_value, on_class, outcome_of};

use crate::Outcome;
use aim::Class;
use entry::Slot;
use value::CodecFault;

// At a list's count, a U8.
fn at_count(index: u16, len: usize) -> Outcome
    ensures { result ≡ on_count index len }
{
    if len == 0 {
        return Outcome::Undecodable(CodecFault::Value { needed: 1, had: 0 });
    }
    if entry::is_mapping(index as u64) {
        return Outcome::Count;
    }
    Outcome::CountRefused
}

// At value p: decoding, then room. It takes p and no `Slot`, since p is answered as well.
fn at_value(slots: &[u64], payload: &[u8], p: usize, start: usize, len: usize) -> Outcome
    requires p_bound { (p < 6144) × (slot_end p ≤ length slots.now) }
    requires len_in_bounds { start + len ≤ length payload.now }
    ensures { result ≡ on_value slots.now p start len (word_at (type_at slots.now p) (part payload.now start len)) }
{
    let slot = Slot(slots, p);
    let t = slot.value_type();
    let room = slot.room();
    match value::decode_word(t, &payload[start..start + len]) {
        Err(f) => Outcome::Undecodable(f),
        Ok(_) => if value::is_text(t) & (room < len as u64) {
            Outcome::TooLong
        } else {
            Outcome::Stored { p, start, len }
        },
    }
}

// By what the word is, of an index; a value's field lies within the payload.
fn at_class(slots: &[u64], payload: &[u8], index: u16, class: Class) -> Outcome
    requires { (start n p : ℕ) → class ≡ Value start n p → (p < 6144) × (slot_end p ≤ length slots.now) × (start + n ≤ length payload.now) }
    ensures { result ≡ on_class slots.now payload.now index class }
{
    match class {
        Class::Misaligned => Outcome::Misaligned,
        Class::Server { start, len } => Outcome::Server { index, start, len },
        Class::Client { start, len } => Outcome::Client { index, start, len },
        Class::NoTarget => Outcome::NoTarget,
        Class::Count { len, .. } => at_count(index, len),
        Class::Value { start, len, p } => at_value(slots, payload, p, start, len),
    }
}

pub fn decide(objects: &[u64], slots: &[u64], payload: &[u8], word: u64) -> Outcome
    requires { Shape objects.now slots.now }
    ensures { result ≡ outcome_of objects.now slots.now payload.now word }
{
    let a = aim::aim_of(objects, word);
    let Some(field) = a.field else {
        return Outcome::Misaligned;
    };
    if payload.len() < field.start + field.length {
        return Outcome::Short;
    }
    at_class(slots, payload, a.entry.index, aim::classify(a))
}
