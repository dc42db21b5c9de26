// Inserting an object into the lent dictionary, and putting one in another's place: everything behind its place moves.
#![tactic(auto)]

mod act;
mod remove;
mod replacing;
mod room;

ghost use Rattle.std.specs.Prelude.{◌≡◌, true, false, cond, ◌≤◌, eqb, ltb, length};
ghost use Rattle.entry.specs.Table.{dict, number_of, row_place, index_at};
ghost use Rattle.entry.specs.Judge.{well_formed};
ghost use Rattle.insertion.specs.Insert.{answer_of, memory_of};

use answers::Refusal;
use entry::Row;
pub use given::Head;
pub use replacing::{replace, replace_judged};

// Whether the row at place i has the index.
fn occupied(objects: &[u64], i: usize, x: u64) -> bool
    requires { (number_of objects.now ≤ 1024) × (row_place (number_of objects.now) ≤ length objects.now) }
    ensures { result ≡ cond (ltb i (number_of objects.now)) (eqb (index_at objects.now i) x) false }
{
    i < entry::number_of(objects) as usize && Row(objects, i).index() == x
}

// What `insert` does with a dictionary that was judged. By slices and the clause, as `replace_at` says.
pub fn insert_judged(
    objects: &mut [u64],
    slots: &mut [u64],
    words: &mut [u64],
    bytes: &mut [u8],
    head: Head,
    name: &[u8],
    vals: &[u64],
    encodings: &[u8],
) -> Result<(), Refusal>
    requires { well_formed (dict objects.old slots.old words.old bytes.old) ≡ true }
    ensures answer { result ≡ answer_of head name.now vals.now encodings.now (dict objects.old slots.old words.old bytes.old) }
    ensures memory { dict objects.new slots.new words.new bytes.new ≡ memory_of head name.now vals.now encodings.now (dict objects.old slots.old words.old bytes.old) }
{
    let Some(g) = given::size_in(head, name, vals, encodings) else {
        return Err(Refusal::BadValue);
    };
    let index = head.index as u64;
    let i = entry::lower(objects, index);
    if occupied(objects, i, index) {
        return Err(Refusal::Occupied);
    }
    room::put_in(
        objects, slots, words, bytes, i, false, head, name, vals, encodings, g,
    )
}

// Inserts an object. `vals` has three words a value: type, size of its room, byte count of its encoding; `encodings` has all encodings
// back to back. A refusal changes nothing.
pub fn insert(
    objects: &mut [u64],
    slots: &mut [u64],
    words: &mut [u64],
    bytes: &mut [u8],
    head: Head,
    name: &[u8],
    vals: &[u64],
    encodings: &[u8],
) -> Result<(), Refusal>
    ensures answer { result ≡ answer_of head name.now vals.now encodings.now (dict objects.old slots.old words.old bytes.old) }
    ensures memory { dict objects.new slots.new words.new bytes.new ≡ memory_of head name.now vals.now encodings.now (dict objects.old slots.old words.old bytes.old) }
{
    if !judge::well_formed(objects, slots, words, bytes) {
        return Err(Refusal::Malformed);
    }
    insert_judged(objects, slots, words, bytes, head, name, vals, encodings)
}
