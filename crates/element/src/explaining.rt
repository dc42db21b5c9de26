// What an element of a channel's list maps, and onto what.
ghost use Rattle.std.specs.Prelude.{◌≡◌, ℕ, ◌<◌, ◌≤◌, length, Ok};
ghost use Rattle.entry.specs.Table.{dict, slot_end};
ghost use Rattle.entry.specs.declared.Place.TheVariants.{Value};
ghost use Rattle.element.specs.Explain.{target_at, target_of, of_word, explain_of};

use crate::{Explained, Target};
use answers::Refusal;
use entry::{Missing, Place, Row, Slot};
use judge::Dictionary;
use mapping::PdoMappingEntry;

fn target_value(slot: &Slot) -> Target
    ensures { result ≡ target_at slot.now.slots slot.now.p }
{
    let t = slot.value_type();
    Target::Value {
        value_type: t,
        holds: value::length_of(t, slot.room()),
    }
}

fn target_at(slots: &[u64], place: Result<Place, Missing>) -> Result<Target, Missing>
    requires { (p : ℕ) → place ≡ Ok (Value p) → (p < 6144) × (slot_end p ≤ length slots.now) }
    ensures { result ≡ target_of slots.now place }
{
    match place? {
        Place::Count(_) => Ok(Target::Count),
        Place::Value(p) => Ok(target_value(&Slot(slots, p))),
    }
}

// Of a mapping word.
pub fn of_word(d: &Dictionary, word: u64) -> Explained
    ensures { result ≡ of_word d.now.objects d.now.slots word }
{
    let a = aim::aim_of(d.objects, word);
    let target = target_at(d.slots, a.place);
    let PdoMappingEntry {
        index,
        sub_index,
        offset_bits,
        length_bits,
    } = a.entry;
    let Some(field) = a.field else {
        return Explained::Misaligned {
            index,
            sub_index,
            offset_bits,
            length_bits,
            target,
        };
    };
    Explained::Field {
        index,
        sub_index,
        start: field.start as u16,
        length: field.length as u16,
        target,
    }
}

// Explains an element of a dictionary that was judged.
pub fn explain_judged(d: &Dictionary, channel: u8, element: u8) -> Result<Explained, Refusal>
    ensures { result ≡ explain_of d.now channel element }
{
    let Some(r) = entry::find(d.objects, 0x1600 + channel as u16) else {
        return Err(Refusal::ObjectNotFound);
    };
    if Row(d.objects, r).kind() == 0 {
        return Err(Refusal::ObjectNotFound);
    }
    let Some(Place::Value(p)) = entry::sub_at(d.objects, r, element) else {
        return Err(Refusal::SubObjectNotFound);
    };
    let t = Slot(d.slots, p).value_type();
    if t != 8 {
        return Ok(Explained::Other(t));
    }
    Ok(of_word(d, d.words[p]))
}

// Explains an element, from 1, of the list 1600h + channel.
pub fn explain(
    objects: &[u64],
    slots: &[u64],
    words: &[u64],
    bytes: &[u8],
    channel: u8,
    element: u8,
) -> Result<Explained, Refusal>
    ensures { result ≡ explain_of (dict objects.now slots.now words.now bytes.now) channel element }
{
    let d = Dictionary::judged(objects, slots, words, bytes)?;
    explain_judged(&d, channel, element)
}
