// Finding an object by its name.
#![tactic(auto)]

ghost use Rattle.std.specs.Prelude.{◌≡◌, ◌<◌};
ghost use Rattle.entry.specs.Table.{dict, number_of};
ghost use Rattle.names.specs.Names.{same, name_of, name_from, by_name_of};

use answers::Refusal;
use entry::Row;
use judge::Dictionary;

fn has_name(d: &Dictionary, i: usize, name: &[u8]) -> bool
    requires { i < number_of d.now.objects }
    ensures { result ≡ same (name_of d.now i) name.now }
{
    let row = Row(d.objects, i);
    let start = row.name() as usize;
    let end = start + row.name_len() as usize;
    let own = &d.bytes[start..end];
    own == name
}

fn first_named(d: &Dictionary, name: &[u8]) -> Result<u16, Refusal>
    ensures { result ≡ name_from d.now name.now (number_of d.now.objects) 0 }
{
    for i in 0..entry::number_of(d.objects) as usize {
        if has_name(d, i, name) {
            return Ok(Row(d.objects, i).index() as u16);
        }
    }
    Err(Refusal::ObjectNotFound)
}

// The lowest index of that name in a dictionary that was judged.
pub fn find_by_name_judged(d: &Dictionary, name: &[u8]) -> Result<u16, Refusal>
    ensures { result ≡ by_name_of d.now name.now }
{
    // Opens d for the proof: an answer before any row is read needs that d is well-formed too.
    let _ = &d.objects;
    if name.len() > 32 {
        return Err(Refusal::BadValue);
    }
    text::text_ok(name).or(Err(Refusal::BadValue))?;
    first_named(d, name)
}

// The lowest index of that name.
pub fn find_by_name(
    objects: &[u64],
    slots: &[u64],
    words: &[u64],
    bytes: &[u8],
    name: &[u8],
) -> Result<u16, Refusal>
    ensures { result ≡ by_name_of (dict objects.now slots.now words.now bytes.now) name.now }
{
    let d = Dictionary::judged(objects, slots, words, bytes)?;
    find_by_name_judged(&d, name)
}
