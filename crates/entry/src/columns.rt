// A row and a slot of the lent dictionary, and their columns, each read by its name. The crate `rows` knows too where a number stands,
// and is lent what it writes `&mut`, as `put` is: so these say by a clause where it lies. A body is one index: a function with the
// column's number as a parameter would have nothing to share.
ghost use Rattle.std.specs.Prelude.{◌≡◌, ◌≤◌, ◌<◌, length};
ghost use Rattle.entry.specs.Table.{RowAt, SlotAt, row_end, slot_end, index_at, kind_at, access_at, count_at, first_at, name_at, name_len_at, default_at, extra_at, is_mapping, list_count, type_at, start_at, room_at};

use crate::Extra;
use crate::header::edition_of;
use std::marker::Model;

// An index of mappings, received or sent.
pub fn is_mapping(index: u64) -> bool
    ensures { result ≡ is_mapping index }
{
    ((0x1600 <= index) & (index <= 0x16FF)) | ((0x1A00 <= index) & (index <= 0x1AFF))
}

// Row i of the objects, which they have: Row(objects, i).
#[derive(Drop)]
pub struct Row<'a>(pub &'a [u64], pub usize);

impl<'a> Model for Row<'a> {
    ghost Value = { RowAt };

    ghost view = { λ r. record { objects = r.0.now; i = r.1 } };

    ghost invariant = { λ r. (r.1 < 1024) × (row_end r.1 ≤ length r.0.now) };
}

impl<'a> Row<'a> {
    pub fn index(&self) -> u64
        ensures { result ≡ index_at self.now.objects self.now.i }
    {
        self.0[12 * self.1 + 12]
    }

    // The kind, the access and a type are numbers, and no enums: words of a lent row or slot, which may hold any.
    pub fn kind(&self) -> u64
        ensures { result ≡ kind_at self.now.objects self.now.i }
    {
        self.0[12 * self.1 + 13]
    }

    pub fn access(&self) -> u64
        ensures { result ≡ access_at self.now.objects self.now.i }
    {
        self.0[12 * self.1 + 14]
    }

    pub fn count(&self) -> u64
        ensures { result ≡ count_at self.now.objects self.now.i }
    {
        self.0[12 * self.1 + 15]
    }

    pub fn first(&self) -> u64
        ensures { result ≡ first_at self.now.objects self.now.i }
    {
        self.0[12 * self.1 + 16]
    }

    pub fn name(&self) -> u64
        ensures { result ≡ name_at self.now.objects self.now.i }
    {
        self.0[12 * self.1 + 17]
    }

    pub fn name_len(&self) -> u64
        ensures { result ≡ name_len_at self.now.objects self.now.i }
    {
        self.0[12 * self.1 + 18]
    }

    pub fn default(&self) -> u64
        ensures { result ≡ default_at self.now.objects self.now.i }
    {
        self.0[12 * self.1 + 19]
    }

    pub fn extra(&self) -> Extra
        ensures { result ≡ extra_at self.now.objects self.now.i }
    {
        let kept = self.0[12 * self.1 + 20];
        let ranged = self.0[12 * self.1 + 21];
        let low = self.0[12 * self.1 + 22];
        let high = self.0[12 * self.1 + 23];
        Extra {
            kept,
            ranged,
            low,
            high,
        }
    }

    // How many elements of the list are in use.
    pub fn list_count(&self) -> u64
        ensures { result ≡ list_count self.now.objects self.now.i }
    {
        if (edition_of(self.0) == 2) & is_mapping(self.index()) {
            return self.0[12 * self.1 + 20];
        }
        self.count()
    }
}

// Slot p of the slots, which they have: Slot(slots, p).
#[derive(Drop)]
pub struct Slot<'a>(pub &'a [u64], pub usize);

impl<'a> Model for Slot<'a> {
    ghost Value = { SlotAt };

    ghost view = { λ s. record { slots = s.0.now; p = s.1 } };

    ghost invariant = { λ s. (s.1 < 6144) × (slot_end s.1 ≤ length s.0.now) };
}

impl<'a> Slot<'a> {
    pub fn value_type(&self) -> u64
        ensures { result ≡ type_at self.now.slots self.now.p }
    {
        self.0[3 * self.1]
    }

    pub fn start(&self) -> u64
        ensures { result ≡ start_at self.now.slots self.now.p }
    {
        self.0[3 * self.1 + 1]
    }

    pub fn room(&self) -> u64
        ensures { result ≡ room_at self.now.slots self.now.p }
    {
        self.0[3 * self.1 + 2]
    }
}
