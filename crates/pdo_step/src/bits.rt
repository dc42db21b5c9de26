// The error bits of nodes.
ghost use Rattle.std.specs.Prelude.{ℕ, ◌≡◌, true, ◌<◌, length, Some};
ghost use Rattle.entry.specs.Table.{dict};
ghost use Rattle.entry.specs.Judge.{well_formed};
ghost use Rattle.entry.specs.Put.{contents};
ghost use Rattle.pdo_step.specs.Bits.{mask_of, bit_at, marked_at, marked_in};
ghost use Rattle.pdo_step.specs.Receiving.{held_in, Same};

use crate::Receiving;
use entry::{Row, Slot};
use judge::Dictionary;

// The byte that has the bit of a node, where the object is an OctetString Variable that long.
pub fn bit_place(d: &Dictionary, index: u16, node: u8) -> Option<usize>
    ensures { result ≡ bit_at d.now.objects d.now.slots d.now.words index node }
{
    if (node == 0) | (239 < node) {
        return None;
    }
    let i = entry::find(d.objects, index)?;
    let row = Row(d.objects, i);
    if row.kind() != 0 {
        return None;
    }
    let p = row.first() as usize;
    let k = (node - 1) as u64 / 8;
    let long = d.words[p];
    let slot = Slot(d.slots, p);
    if (slot.value_type() == 12) & (k < long) {
        return Some(slot.start() as usize + k as usize);
    }
    None
}

fn mask(node: u8) -> u8
    requires { 0 < node }
    ensures { result ≡ mask_of node }
{
    1 << ((node - 1) % 8)
}

// Sets the bit at the place that a node's was found at, or nothing.
fn set_at(bytes: &mut [u8], place: Option<usize>, node: u8)
    requires { (a : ℕ) → place ≡ Some a → (a < length bytes.old) × (0 < node) }
    ensures { bytes.new ≡ marked_at bytes.old node place }
{
    if let Some(a) = place {
        bytes[a] = bytes[a] | mask(node);
    }
}

// Sets the bit of a node in the object at an index; where it has none, nothing happens. It takes slices and the clause, since the
// public call lends the words as read only, and a `Receiving` is lent them to change.
pub fn set_bit(
    objects: &[u64],
    slots: &[u64],
    words: &[u64],
    bytes: &mut [u8],
    index: u16,
    node: u8,
)
    requires { well_formed (dict objects.now slots.now words.now bytes.old) ≡ true }
    ensures { bytes.new ≡ marked_in objects.now slots.now words.now bytes.old index node }
{
    let d = Dictionary {
        objects,
        slots,
        words,
        bytes: &*bytes,
    };
    let place = bit_place(&d, index, node);
    set_at(bytes, place, node);
}

// The same in a dictionary that a payload is put into.
pub fn mark(d: &mut Receiving, index: u16, node: u8)
    ensures same { Same d.old d.new }
    ensures held { held_in d.new ≡ contents d.old.words.now (marked_in d.old.objects.now d.old.slots.now d.old.words.now d.old.bytes.now index node) }
{
    let place = bit_place(&d.shown(), index, node);
    set_at(d.bytes, place, node);
}
