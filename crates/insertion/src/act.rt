// One act for insertion and replacement. It cannot fail.
ghost use Rattle.std.specs.Prelude.{◌≡◌, true, cond, ◌+◌, ◌≤◌, length};
ghost use Rattle.entry.specs.Judge.{well_formed};
ghost use Rattle.entry.specs.Table.{dict, number_of};
ghost use Rattle.given.specs.Given.{rooms_in, count_in, obj_in, Values};
ghost use Rattle.insertion.specs.Replace.{without, replaced, RoomIn};

use crate::remove;
use given::Head;

// The object, of g bytes, goes in at place i, where it replaces the one there or moves it up.
// `head, name, vals, encodings` are no struct: up to the public calls clauses say the object by `obj_in` of the four, and a struct of the
// values, as placing has one behind it, would want a second such definition.
// Nor are the slices, as in pdo_step's `Receiving`: lent `&mut`, that must end well-formed, and no clause here says that the object is
// right; by value, clauses would say what is left by pairs in pairs, `d.exit.1.0.now`.
pub fn replace_at(
    objects: &mut [u64],
    slots: &mut [u64],
    words: &mut [u64],
    bytes: &mut [u8],
    i: usize,
    replaces: bool,
    head: Head,
    name: &[u8],
    vals: &[u64],
    encodings: &[u8],
    g: usize,
)
    requires bytes_value { well_formed (dict objects.old slots.old words.old bytes.old) ≡ true }
    requires i_bound { (i + cond replaces 1 0 ≤ number_of objects.old) × RoomIn (without i (cond replaces 1 0) (dict objects.old slots.old words.old bytes.old)) i (count_in vals.now) g }
    requires values { Values vals.now encodings.now (count_in vals.now) × (head.default ≤ count_in vals.now) × (g ≡ length name.now + rooms_in vals.now (count_in vals.now) 0) }
    ensures { dict objects.new slots.new words.new bytes.new ≡ replaced i (cond replaces 1 0) (obj_in head name.now vals.now encodings.now) (dict objects.old slots.old words.old bytes.old) }
{
    if replaces {
        remove::remove_at(objects, slots, words, bytes, i);
    }
    placing::insert_at(
        objects, slots, words, bytes, i, head, name, vals, encodings, g,
    );
}
