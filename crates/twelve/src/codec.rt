// Cases 1 to 4: mapping words and values.
use loomfinch::{ObjectValue, PdoMappingEntry};

pub fn case_1() -> bool {
    let e = PdoMappingEntry::from_u64(0x0020_0010_AB03_6200);
    e.index == 0x6200 && e.sub_index == 3 && e.offset_bits == 16 && e.length_bits == 32
}

pub fn case_2() -> bool {
    let e = PdoMappingEntry::from_u64(0x0020_0010_AB03_6200);
    e.to_u64() == 0x0020_0010_0003_6200
}

// Is it an Integer16 of this value?
fn is_integer_16(data: &[u8], wanted: i16) -> bool {
    matches!(loomfinch::decode(2, data), Ok(ObjectValue::Integer16(n)) if n == wanted)
}

pub fn case_3() -> bool {
    is_integer_16(b"\xFF\xFF", -1)
}

pub fn case_4() -> bool {
    is_integer_16(b"\x00\x80", -32768)
}
