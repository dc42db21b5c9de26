// The records and the bodies of the image, laid into the store.
ghost use Rattle.std.specs.Prelude.{◌≡◌, ◌+◌, ◌*◌, ◌≤◌, length};
ghost use Rattle.lists.specs.Lists.{over};
ghost use Rattle.image.specs.Image.{head_of, recs_in, offered_in, bodies};
ghost use Rattle.commands.specs.Save.{Row, recs_laid};

use crate::offering::{length_at, sub_in, to_store};
use entry::Slot;
use judge::Dictionary;

// The 8 bytes of a record.
fn lay_head(store: &mut [u8], at: usize, index: u64, sub: u64, t: u64, start: usize, len: usize)
    requires { at + 8 ≤ length store.old }
    ensures { store.new ≡ over store.old at (head_of index sub t start len) }
{
    lists::put_number(store, at, 2, index);
    lists::put_number(store, at + 2, 1, sub);
    lists::put_number(store, at + 3, 1, t);
    lists::put_number(store, at + 4, 2, start as u64);
    lists::put_number(store, at + 6, 2, len as u64);
}

// The record of value k of row i, and its body, which starts at byte `start` of the bodies; the body's length.
// `at` moves on by heads and `start` by bodies while `bodies_at` stays: each call would have to make a struct of the three anew.
fn lay_value(
    d: &Dictionary,
    i: usize,
    k: usize,
    store: &mut [u8],
    at: usize,
    bodies_at: usize,
    start: usize,
) -> usize
    requires row { Row d.now.objects i (k + 1) × (at + 8 ≤ bodies_at) }
    requires room { bodies_at + start + length (bodies (recs_in d.now i 1 k)) ≤ length store.old }
    ensures value { result ≡ length (bodies (recs_in d.now i 1 k)) }
    ensures store_after { store.new ≡ recs_laid store.old at bodies_at start (recs_in d.now i 1 k) }
{
    let row = entry::Row(d.objects, i);
    let p = row.first() as usize + k;
    let index = row.index();
    let sub = sub_in(row.kind(), k);
    let t = Slot(d.slots, p).value_type();
    let len = length_at(d.slots, d.words, p);
    lay_head(store, at, index, sub, t, start, len);
    entry::lay_encoding(d.slots, d.words, d.bytes, p, store, bodies_at + start);
    len
}

// The records and the bodies of n values of row i; where the next body starts.
fn lay_row(
    d: &Dictionary,
    i: usize,
    n: usize,
    store: &mut [u8],
    at: usize,
    bodies_at: usize,
    start: usize,
) -> usize
    requires row { Row d.now.objects i n × (at + 8 * n ≤ bodies_at) }
    requires room { bodies_at + start + length (bodies (recs_in d.now i n 0)) ≤ length store.old }
    ensures value { result ≡ start + length (bodies (recs_in d.now i n 0)) }
    ensures store_after { store.new ≡ recs_laid store.old at bodies_at start (recs_in d.now i n 0) }
{
    let mut s = start;
    for k in 0..n {
        s += lay_value(d, i, k, store, at + 8 * k, bodies_at, s);
    }
    s
}

// The records, from byte 2 on, and the bodies, from byte `bodies_at` on.
pub fn lay(d: &Dictionary, first: u16, last: u16, store: &mut [u8], bodies_at: usize)
    requires records { 2 + 8 * length (offered_in d.now first last) ≤ bodies_at }
    requires room { bodies_at + length (bodies (offered_in d.now first last)) ≤ length store.old }
    ensures { store.new ≡ recs_laid store.old 2 bodies_at 0 (offered_in d.now first last) }
{
    let rows = image::rows_in(d.objects, first, last);
    let mut at = 2;
    let mut start = 0;
    for i in rows.start..rows.end {
        let n = to_store(&entry::Row(d.objects, i));
        start = lay_row(d, i, n, store, at, bodies_at, start);
        at += 8 * n;
    }
}
