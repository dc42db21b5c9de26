// Putting what each value gets.
ghost use Rattle.std.specs.Prelude.{◌≡◌, true, ◌<◌, ◌≤◌, length};
ghost use Rattle.entry.specs.Table.{number_of, count_at, type_at, slot_end};
ghost use Rattle.entry.specs.Encode.{encoding_in};
ghost use Rattle.entry.specs.Put.{contents, put_in, retyped, Puts};
ghost use Rattle.image.specs.Readable.{type_in};
ghost use Rattle.fitting.specs.Records.{body_in, Body};
ghost use Rattle.fitting.specs.Fit.{slot_in, chosen_at, fits_room, values_fit, rows_fit};
ghost use Rattle.restoring.specs.Restore.{restored_by, values_restored, rows_restored, Copies};
ghost use Rattle.restoring.specs.Restoring.{dict_of, Same};

use crate::Restoring;
use entry::{Row, Slot};
use fitting::{Choice, Image, choose, restorable};

// Puts the stored value of the record at place a as value p.
fn put_stored(
    slots: &mut [u64],
    words: &mut [u64],
    bytes: &mut [u8],
    stored: &Image,
    p: usize,
    a: usize,
)
    requires body { Body stored.now a × (p < 6144) × (slot_end p ≤ length slots.old) }
    requires puts { Puts (retyped slots.old p (type_in stored.now a)) words.old bytes.old p (body_in stored.now a) }
    ensures shape { slots.new ≡ retyped slots.old p (type_in stored.now a) }
    ensures held { contents words.new bytes.new ≡ put_in (retyped slots.old p (type_in stored.now a)) (contents words.old bytes.old) p (body_in stored.now a) }
{
    let store = stored.store;
    let head = stored.head(a);
    let t = head.value_type;
    let start = 2 + 8 * lists::number(store, 0, 2) as usize + head.start;
    let end = start + head.size;
    entry::put_new(slots, words, bytes, p, t, &store[start..end]);
}

// Puts the default at slot q as value p, whose room lies before it.
fn put_default(slots: &mut [u64], words: &mut [u64], bytes: &mut [u8], p: usize, q: usize)
    requires { Copies slots.old words.old bytes.old p q }
    ensures shape { slots.new ≡ retyped slots.old p (type_at slots.old q) }
    ensures held { contents words.new bytes.new ≡ put_in (retyped slots.old p (type_at slots.old q)) (contents words.old bytes.old) p (encoding_in slots.old words.old bytes.old q) }
{
    let default = Slot(slots, q);
    let t = default.value_type();
    let w = words[q];
    let from = default.start() as usize;
    let to = Slot(slots, p).start() as usize;
    let place = entry::slot_place(p);
    slots[place] = t;
    words[p] = w;
    if value::is_text(t) {
        lists::move_down(bytes, to, from, from + w as usize);
    }
}

// Value k of row i.
fn restore_value(d: &mut Restoring, stored: &mut Image, i: usize, k: usize)
    requires i_bound { (i < number_of d.old.objects.now) × (k < count_at d.old.objects.now i) }
    requires k_value { fits_room (dict_of d.old) stored.old (slot_in d.old.objects.now i k) (chosen_at (dict_of d.old) stored.old i k) ≡ true }
    ensures same { Same d.old d.new }
    ensures held { dict_of d.new ≡ restored_by (dict_of d.old) stored.old (slot_in d.old.objects.now i k) (chosen_at (dict_of d.old) stored.old i k) }
    ensures image { stored.new ≡ stored.old }
{
    // Opens it for the proof: the store's numbers are bytes.
    let _ = &stored.store;
    let choice = choose(&d.shown(), stored, i, k);
    let p = Row(d.objects, i).first() as usize + k;
    match choice {
        Choice::Keep => {}
        Choice::Stored(a) => put_stored(d.slots, d.words, d.bytes, stored, p, a),
        Choice::Default(q) => put_default(d.slots, d.words, d.bytes, p, q),
    }
}

// All values of row i.
fn restore_values(d: &mut Restoring, stored: &mut Image, i: usize)
    requires i_bound { i < number_of d.old.objects.now }
    requires i_value { values_fit (dict_of d.old) stored.old i (count_at d.old.objects.now i) 0 ≡ true }
    ensures same { Same d.old d.new }
    ensures held { dict_of d.new ≡ values_restored (dict_of d.old) stored.old i (count_at d.old.objects.now i) 0 }
    ensures image { stored.new ≡ stored.old }
{
    // Opens it for the proof: the store's numbers are bytes.
    let _ = &stored.store;
    let count = Row(d.objects, i).count() as usize;
    for k in 0..count {
        restore_value(d, stored, i, k);
    }
}

// `rows_fit` walks the same rows. Tried: one walk of both that takes a closure. `IsAlwaysCallable` does not hold of `restore_values`, which
// requires that the row fits; so the walk would have to say of each row it comes to that the closure may be called there, and what its
// calls made, by `step` over a list of rows: that is longer than the two loops.
pub fn restore_rows(d: &mut Restoring, stored: &mut Image, first: u16, last: u16)
    requires { rows_fit (dict_of d.old) stored.old first last (number_of d.old.objects.now) 0 ≡ true }
    ensures same { Same d.old d.new }
    ensures held { dict_of d.new ≡ rows_restored (dict_of d.old) stored.old first last (number_of d.old.objects.now) 0 }
{
    // Opens it for the proof: the store's numbers are bytes.
    let _ = &stored.store;
    let rows = image::rows_in(d.objects, first, last);
    for i in rows.start..rows.end {
        if restorable(Row(d.objects, i).index()) {
            restore_values(d, stored, i);
        }
    }
}
