// The calls that change a dictionary or a store. The store is lent from its first byte on, `size` bytes of it.
ghost use Rattle.std.specs.Prelude.{◌≤◌};

use crate::Memory;
use answers::Refusal;
use loomfinch::{Head, WriteFault, Wrote};

// What an object without a range is given.
pub fn unranged(index: u16, kind: u64, access: u64, default: u64) -> Head {
    Head {
        index,
        kind,
        access,
        default,
        low_type: 0,
        low: 0,
        high_type: 0,
        high: 0,
    }
}

impl Memory {
    pub fn new(&mut self, edition: u64) -> Result<(), Refusal> {
        loomfinch::new(&mut self.objects, edition)
    }

    pub fn insert(
        &mut self,
        head: Head,
        name: &[u8],
        vals: &[u64],
        encodings: &[u8],
    ) -> Result<(), Refusal> {
        loomfinch::insert(
            &mut self.objects,
            &mut self.slots,
            &mut self.words,
            &mut self.bytes,
            head,
            name,
            vals,
            encodings,
        )
    }

    // An object without a name, a default or a range.
    pub fn insert_plain(
        &mut self,
        index: u16,
        kind: u64,
        access: u64,
        vals: &[u64],
        encodings: &[u8],
    ) -> Result<(), Refusal> {
        self.insert(unranged(index, kind, access, 0), b"", vals, encodings)
    }

    pub fn increment_counter(&mut self, index: u16, sub_index: u8) -> Result<(), Refusal> {
        loomfinch::increment_counter(
            &self.objects,
            &self.slots,
            &mut self.words,
            &self.bytes,
            index,
            sub_index,
        )
    }

    pub fn write(
        &mut self,
        size: usize,
        index: u16,
        sub_index: u8,
        kind: u64,
        data: &[u8],
    ) -> Result<Wrote, WriteFault>
        requires { size ≤ 1000 }
    {
        let store = &mut self.store[..];
        loomfinch::write(
            &mut self.objects,
            &self.slots,
            &mut self.words,
            &mut self.bytes,
            &mut store[..size],
            index,
            sub_index,
            kind,
            data,
        )
    }

    pub fn restore_power_on_values(
        &mut self,
        size: usize,
        first: u16,
        last: u16,
    ) -> Result<(), Refusal>
        requires { size ≤ 1000 }
    {
        loomfinch::restore_power_on_values(
            &self.objects,
            &mut self.slots,
            &mut self.words,
            &mut self.bytes,
            &self.store[..size],
            first,
            last,
        )
    }

    pub fn update_pdo_error_object(&mut self, index: u16, node: u8) -> Result<(), Refusal> {
        loomfinch::update_pdo_error_object(
            &self.objects,
            &self.slots,
            &self.words,
            &mut self.bytes,
            index,
            node,
        )
    }
}
