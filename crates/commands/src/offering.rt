// What a save offers, and how large it is.
ghost use Rattle.std.specs.Prelude.{◌≡◌, ◌≤◌, ◌<◌, length};
ghost use Rattle.entry.specs.Table.{slot_end};
ghost use Rattle.image.specs.Image.{to_store, sub_in, recs_in, offered_in, bodies};
ghost use Rattle.commands.specs.Save.{size_in, length_in, Row};

use entry::Slot;
use judge::Dictionary;

// How many records, and how many bytes their bodies have.
#[derive(Clone, Copy)]
pub struct Size {
    pub records: usize,
    pub bytes: usize,
}

// How many values of a row are for the store.
pub fn to_store(row: &entry::Row) -> usize
    ensures { result ≡ to_store row.now.objects row.now.i }
{
    let access = row.access();
    if (access == 4) | (access == 2) {
        return row.count() as usize;
    }
    0
}

// The sub-index of value k.
pub fn sub_in(kind: u64, k: usize) -> u64
    requires { k < 254 }
    ensures { result ≡ sub_in kind k }
{
    if kind == 0 { 0 } else { k as u64 + 1 }
}

// How long the encoding of value p is. It takes p and no `Slot`, since the word at p is read as well.
#[tactic(auto, unfolding(crate::specs::Save::length_in))]
pub fn length_at(slots: &[u64], words: &[u64], p: usize) -> usize
    requires { (p < 6144) × (slot_end p ≤ length slots.now) × (p < length words.now) }
    ensures { result ≡ length_in slots.now words.now p }
{
    value::length_of(Slot(slots, p).value_type(), words[p]) as usize
}

// The bytes of the bodies of n values of row i.
fn row_bytes(d: &Dictionary, i: usize, n: usize) -> usize
    requires { Row d.now.objects i n }
    ensures { result ≡ length (bodies (recs_in d.now i n 0)) }
{
    let first = entry::Row(d.objects, i).first() as usize;
    let mut sum = 0;
    for k in 0..n {
        sum += length_at(d.slots, d.words, first + k);
    }
    sum
}

// How large it is. A walk of its own beside that of `lay`: nothing may be laid before all is measured.
pub fn measure(d: &Dictionary, first: u16, last: u16) -> Size
    ensures { result ≡ size_in (offered_in d.now first last) }
{
    let rows = image::rows_in(d.objects, first, last);
    let mut size = Size {
        records: 0,
        bytes: 0,
    };
    for i in rows.start..rows.end {
        let n = to_store(&entry::Row(d.objects, i));
        size.bytes += row_bytes(d, i, n);
        size.records += n;
    }
    size
}
