// The calls that change nothing but what they answer into.
use crate::Memory;
use answers::Refusal;
use loomfinch::{Checked, Explained, Stored};

impl Memory {
    pub fn read(&self, index: u16, sub_index: u8) -> Result<Stored, Refusal> {
        loomfinch::read(
            &self.objects,
            &self.slots,
            &self.words,
            &self.bytes,
            index,
            sub_index,
        )
    }

    // The number of type 5 to 8, an Unsigned8 to an Unsigned64.
    pub fn read_number(&self, t: u64, index: u16, sub_index: u8) -> Result<u64, Refusal> {
        match t {
            5 => loomfinch::read_u8(
                &self.objects,
                &self.slots,
                &self.words,
                &self.bytes,
                index,
                sub_index,
            ),
            6 => loomfinch::read_u16(
                &self.objects,
                &self.slots,
                &self.words,
                &self.bytes,
                index,
                sub_index,
            ),
            7 => loomfinch::read_u32(
                &self.objects,
                &self.slots,
                &self.words,
                &self.bytes,
                index,
                sub_index,
            ),
            _ => loomfinch::read_u64(
                &self.objects,
                &self.slots,
                &self.words,
                &self.bytes,
                index,
                sub_index,
            ),
        }
    }

    pub fn find_by_name(&self, name: &[u8]) -> Result<u16, Refusal> {
        loomfinch::find_by_name(&self.objects, &self.slots, &self.words, &self.bytes, name)
    }

    pub fn get_configured_cns(&self, out: &mut [u8]) -> Result<usize, Refusal> {
        loomfinch::get_configured_cns(&self.objects, &self.slots, &self.words, &self.bytes, out)
    }

    pub fn validate_pdo_mapping(&self, index: u16, count: u8) -> Result<(), Refusal> {
        loomfinch::validate_pdo_mapping(
            &self.objects,
            &self.slots,
            &self.words,
            &self.bytes,
            index,
            count,
        )
    }

    pub fn check(&self, channel: u8) -> Checked {
        loomfinch::check(
            &self.objects,
            &self.slots,
            &self.words,
            &self.bytes,
            channel,
        )
    }

    pub fn check_all(&self, out: &mut [u64]) -> Result<usize, Refusal> {
        loomfinch::check_all(&self.objects, &self.slots, &self.words, &self.bytes, out)
    }

    pub fn explain(&self, channel: u8, element: u8) -> Result<Explained, Refusal> {
        loomfinch::explain(
            &self.objects,
            &self.slots,
            &self.words,
            &self.bytes,
            channel,
            element,
        )
    }
}
