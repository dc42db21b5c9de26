// The one writer of values.
ghost use Rattle.std.specs.Prelude.{◌≡◌, ◌<◌, ◌≤◌, length};
ghost use Rattle.entry.specs.Table.{slot_end};
ghost use Rattle.entry.specs.Put.{contents, put_in, retyped, Puts};

use crate::columns::Slot;
use crate::header::slot_place;

// Puts an encoded value as value p.
pub fn put_value(slots: &[u64], words: &mut [u64], bytes: &mut [u8], p: usize, data: &[u8])
    requires { Puts slots.now words.old bytes.old p «data».now }
    ensures { contents words.new bytes.new ≡ put_in slots.now (contents words.old bytes.old) p «data».now }
{
    let slot = Slot(slots, p);
    let t = slot.value_type();
    if value::is_text(t) {
        words[p] = data.len() as u64;
        let start = slot.start() as usize;
        lists::lay(bytes, start, data);
    } else {
        let n = value::size_of(t);
        words[p] = lists::number(data, 0, n);
    }
}

// Puts an encoded value of type t as value p, whatever type that had.
pub fn put_new(
    slots: &mut [u64],
    words: &mut [u64],
    bytes: &mut [u8],
    p: usize,
    t: u64,
    data: &[u8],
)
    requires p_bound { (p < 6144) × (slot_end p ≤ length slots.old) }
    requires puts { Puts (retyped slots.old p t) words.old bytes.old p «data».now }
    ensures shape { slots.new ≡ retyped slots.old p t }
    ensures held { contents words.new bytes.new ≡ put_in (retyped slots.old p t) (contents words.old bytes.old) p «data».now }
{
    let place = slot_place(p);
    slots[place] = t;
    put_value(slots, words, bytes, p, data);
}
