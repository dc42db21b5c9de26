// An object put in the place of the one that has its index, or inserted where none has.
ghost use Rattle.std.specs.Prelude.{◌≡◌, true};
ghost use Rattle.entry.specs.Table.{dict};
ghost use Rattle.entry.specs.Judge.{well_formed};
ghost use Rattle.insertion.specs.Replace.{replace_answer_of, replace_memory_of};

use crate::{occupied, room};
use answers::Refusal;
use given::Head;

// What `replace` does with a dictionary that was judged. By slices and the clause, as `replace_at` says.
pub fn replace_judged(
    objects: &mut [u64],
    slots: &mut [u64],
    words: &mut [u64],
    bytes: &mut [u8],
    head: Head,
    name: &[u8],
    vals: &[u64],
    encodings: &[u8],
) -> Result<(), Refusal>
    requires { well_formed (dict objects.old slots.old words.old bytes.old) ≡ true }
    ensures answer { result ≡ replace_answer_of head name.now vals.now encodings.now (dict objects.old slots.old words.old bytes.old) }
    ensures memory { dict objects.new slots.new words.new bytes.new ≡ replace_memory_of head name.now vals.now encodings.now (dict objects.old slots.old words.old bytes.old) }
{
    let Some(g) = given::size_in(head, name, vals, encodings) else {
        return Err(Refusal::BadValue);
    };
    let index = head.index as u64;
    let i = entry::lower(objects, index);
    let replaces = occupied(objects, i, index);
    room::put_in(
        objects, slots, words, bytes, i, replaces, head, name, vals, encodings, g,
    )
}

// Puts an object in the place of the one that has its index; where none has, inserts it. It is described as for `insert`. A refusal
// changes nothing.
pub fn replace(
    objects: &mut [u64],
    slots: &mut [u64],
    words: &mut [u64],
    bytes: &mut [u8],
    head: Head,
    name: &[u8],
    vals: &[u64],
    encodings: &[u8],
) -> Result<(), Refusal>
    ensures answer { result ≡ replace_answer_of head name.now vals.now encodings.now (dict objects.old slots.old words.old bytes.old) }
    ensures memory { dict objects.new slots.new words.new bytes.new ≡ replace_memory_of head name.now vals.now encodings.now (dict objects.old slots.old words.old bytes.old) }
{
    if !judge::well_formed(objects, slots, words, bytes) {
        return Err(Refusal::Malformed);
    }
    replace_judged(objects, slots, words, bytes, head, name, vals, encodings)
}
