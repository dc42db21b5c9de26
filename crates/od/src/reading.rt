// Reading a value.
ghost use Rattle.std.specs.Prelude.{◌≡◌, ◌+◌, ◌≤◌, true, Some, IfOk, length};
ghost use Rattle.value.specs.Codec.{is_text};
ghost use Rattle.entry.specs.Table.{dict};
ghost use Rattle.entry.specs.Find.{find_row};
ghost use Rattle.entry.specs.Judge.{well_formed};
ghost use Rattle.od.specs.Read.{read_of, part_in, of_type};

use crate::Stored;
use answers::Refusal;
use entry::{Place, Slot};
use judge::Dictionary;

// The value at a sub-index of row i, which has the index.
fn read_in(d: &Dictionary, i: usize, index: u16, sub: u8) -> Result<Stored, Refusal>
    requires { find_row d.now.objects index ≡ Some i }
    ensures { result ≡ read_of d.now index sub }
{
    match entry::sub_at(d.objects, i, sub) {
        None => Err(Refusal::SubObjectNotFound),
        Some(Place::Count(n)) => Ok(Stored {
            value_type: 5,
            word: n,
            start: 0,
        }),
        Some(Place::Value(p)) => {
            let slot = Slot(d.slots, p);
            Ok(Stored {
                value_type: slot.value_type(),
                word: d.words[p],
                start: slot.start(),
            })
        }
    }
}

// The value at an index and a sub-index of a dictionary that was judged.
pub fn read_judged(d: &Dictionary, index: u16, sub: u8) -> Result<Stored, Refusal>
    ensures { result ≡ read_of d.now index sub }
{
    let Some(i) = entry::find(d.objects, index) else {
        return Err(Refusal::ObjectNotFound);
    };
    read_in(d, i, index, sub)
}

// The value at an index and a sub-index; a list's sub-index 0 is the count of its elements.
pub fn read(
    objects: &[u64],
    slots: &[u64],
    words: &[u64],
    bytes: &[u8],
    index: u16,
    sub: u8,
) -> Result<Stored, Refusal>
    ensures { result ≡ read_of (dict objects.now slots.now words.now bytes.now) index sub }
{
    let d = Dictionary::judged(objects, slots, words, bytes)?;
    read_judged(&d, index, sub)
}

// The part of the lent bytes that holds a text or bytes that were found; the empty part where a number or nothing was.
fn part_in<'a>(bytes: &'a [u8], found: Result<Stored, Refusal>) -> &'a [u8]
    requires { IfOk found (λ v. is_text v.value_type ≡ true → v.start + v.word ≤ length bytes.now) }
    ensures { result.now ≡ part_in bytes.now found }
{
    match found {
        Ok(v) if value::is_text(v.value_type) => {
            let from = v.start as usize;
            let end = from + v.word as usize;
            &bytes[from..end]
        }
        _ => &[],
    }
}

// The part of the lent bytes that holds a text or bytes of a dictionary that was judged. It takes the slices, since a dictionary has one
// lifetime, and only the bytes must live as long as the part.
pub fn read_part_judged<'a>(
    objects: &[u64],
    slots: &[u64],
    words: &[u64],
    bytes: &'a [u8],
    index: u16,
    sub: u8,
) -> &'a [u8]
    requires { well_formed (dict objects.now slots.now words.now bytes.now) ≡ true }
    ensures { result.now ≡ part_in bytes.now (read_of (dict objects.now slots.now words.now bytes.now) index sub) }
{
    let d = Dictionary {
        objects,
        slots,
        words,
        bytes,
    };
    part_in(bytes, read_judged(&d, index, sub))
}

// The part of the lent bytes that holds a text or bytes; the empty part where a number or nothing is read.
pub fn read_part<'a>(
    objects: &[u64],
    slots: &[u64],
    words: &[u64],
    bytes: &'a [u8],
    index: u16,
    sub: u8,
) -> &'a [u8]
    ensures { result.now ≡ part_in bytes.now (read_of (dict objects.now slots.now words.now bytes.now) index sub) }
{
    if !judge::well_formed(objects, slots, words, bytes) {
        return &[];
    }
    read_part_judged(objects, slots, words, bytes, index, sub)
}

fn of_type(found: Result<Stored, Refusal>, t: u64) -> Result<u64, Refusal>
    ensures { result ≡ of_type t found }
{
    let v = found?;
    if v.value_type == t {
        Ok(v.word)
    } else {
        Err(Refusal::TypeMismatch)
    }
}

// The number of type t at an index and a sub-index of a dictionary that was judged.
pub fn read_number_judged(d: &Dictionary, index: u16, sub: u8, t: u64) -> Result<u64, Refusal>
    ensures { result ≡ of_type t (read_of d.now index sub) }
{
    of_type(read_judged(d, index, sub), t)
}

// The number of type t at an index and a sub-index.
pub fn read_number(
    objects: &[u64],
    slots: &[u64],
    words: &[u64],
    bytes: &[u8],
    index: u16,
    sub: u8,
    t: u64,
) -> Result<u64, Refusal>
    ensures { result ≡ of_type t (read_of (dict objects.now slots.now words.now bytes.now) index sub) }
{
    let judged = Dictionary::judged(objects, slots, words, bytes)?;
    read_number_judged(&judged, index, sub, t)
}

// The four readings have the Rust's names: each is the number of one type.
pub fn read_u8(
    objects: &[u64],
    slots: &[u64],
    words: &[u64],
    bytes: &[u8],
    index: u16,
    sub: u8,
) -> Result<u64, Refusal>
    ensures { result ≡ of_type 5 (read_of (dict objects.now slots.now words.now bytes.now) index sub) }
{
    read_number(objects, slots, words, bytes, index, sub, 5)
}

pub fn read_u16(
    objects: &[u64],
    slots: &[u64],
    words: &[u64],
    bytes: &[u8],
    index: u16,
    sub: u8,
) -> Result<u64, Refusal>
    ensures { result ≡ of_type 6 (read_of (dict objects.now slots.now words.now bytes.now) index sub) }
{
    read_number(objects, slots, words, bytes, index, sub, 6)
}

pub fn read_u32(
    objects: &[u64],
    slots: &[u64],
    words: &[u64],
    bytes: &[u8],
    index: u16,
    sub: u8,
) -> Result<u64, Refusal>
    ensures { result ≡ of_type 7 (read_of (dict objects.now slots.now words.now bytes.now) index sub) }
{
    read_number(objects, slots, words, bytes, index, sub, 7)
}

pub fn read_u64(
    objects: &[u64],
    slots: &[u64],
    words: &[u64],
    bytes: &[u8],
    index: u16,
    sub: u8,
) -> Result<u64, Refusal>
    ensures { result ≡ of_type 8 (read_of (dict objects.now slots.now words.now bytes.now) index sub) }
{
    read_number(objects, slots, words, bytes, index, sub, 8)
}
