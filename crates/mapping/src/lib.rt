// The mapping word of a process data object: which value lies where in a payload.
#![tactic(auto)]

ghost use Rattle.std.specs.Prelude.{◌≡◌};
ghost use Rattle.mapping.specs.Word.{entry_of, word_of, aligned_of, end_of, field_of};

#[derive(Clone, Copy)]
pub struct PdoMappingEntry {
    pub index: u16,
    pub sub_index: u8,
    pub offset_bits: u16,
    pub length_bits: u16,
}

// Where a field lies in the payload, in bytes where its offset and its length are both multiples of 8.
#[derive(Clone, Copy)]
pub struct Field {
    pub start: usize,
    pub length: usize,
}

impl PdoMappingEntry {
    // Drops bits 24 to 31. No `From`, which drops nothing; and the two have the Rust's names.
    #[tactic(auto, unfolding(crate::specs::Word::entry_of))]
    pub fn from_u64(value: u64) -> Self
        ensures { result ≡ entry_of value }
    {
        let b = value.to_le_bytes();
        Self {
            index: u16::from_le_bytes([b[0], b[1]]),
            sub_index: b[2],
            offset_bits: u16::from_le_bytes([b[4], b[5]]),
            length_bits: u16::from_le_bytes([b[6], b[7]]),
        }
    }

    pub fn to_u64(self) -> u64
        ensures { result ≡ word_of self }
    {
        let i = self.index.to_le_bytes();
        let o = self.offset_bits.to_le_bytes();
        let n = self.length_bits.to_le_bytes();
        u64::from_le_bytes([i[0], i[1], self.sub_index, 0, o[0], o[1], n[0], n[1]])
    }

    pub fn byte_offset(self) -> Option<usize>
        ensures { result ≡ aligned_of self.offset_bits }
    {
        whole_bytes(self.offset_bits)
    }

    pub fn byte_length(self) -> Option<usize>
        ensures { result ≡ aligned_of self.length_bits }
    {
        whole_bytes(self.length_bits)
    }

    // How many bytes a payload must have to hold the field. The sum of the bits is rounded up, so misaligned fields have an end too.
    pub fn end(self) -> usize
        ensures { result ≡ end_of self }
    {
        (self.offset_bits as usize + self.length_bits as usize).div_ceil(8)
    }

    #[tactic(auto, unfolding(crate::specs::Word::field_of))]
    pub fn field(self) -> Option<Field>
        ensures { result ≡ field_of self }
    {
        let start = self.byte_offset()?;
        let length = self.byte_length()?;
        Some(Field { start, length })
    }
}

fn whole_bytes(bits: u16) -> Option<usize>
    ensures { result ≡ aligned_of bits }
{
    if bits % 8 == 0 {
        Some(bits as usize / 8)
    } else {
        None
    }
}
