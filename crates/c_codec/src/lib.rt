// Values and mapping words, for C. Results go into the lent numbers, from the first one on.
// include/loomfinch.h says what each call asks, answers and leaves.
#![tactic(auto)]

ghost use Rattle.std.specs.Prelude.{◌≡◌};
ghost use Rattle.mapping.specs.Word.{word_of};
ghost use Rattle.c_answers.specs.Answers.{lent, wrote, results};
ghost use Rattle.c_codec.specs.Codec.{value_numbers, after_decode, decode_numbers, encode_numbers, entry_numbers};

use mapping::PdoMappingEntry;
use value::{DecodeFault, ObjectValue};

// A value's word and its parts.
#[tactic(auto, using(crate::proofs::FieldLaws::length_fields), unfolding(crate::specs::Codec::value_numbers))]
fn give(v: ObjectValue, numbers: &mut [u64]) -> u64
    ensures { lent result numbers.new ≡ value_numbers v numbers.old }
{
    let [a, b, c, d, e, f] = object_value::fields(v);
    c_answers::lend(&[object_value::to_word(v), a, b, c, d, e, f], numbers)
}

#[tactic(auto, unfolding(crate::specs::Codec::decode_numbers))]
pub fn loomfinch_decode(
    type_number: u64,
    data: &[u8],
    numbers: &mut [u64],
    place: &mut u64,
    had: &mut u64,
) -> u64
    ensures { after_decode result numbers.new place.new had.new ≡ decode_numbers type_number «data».now numbers.old place.old had.old }
{
    match object_value::decode(type_number, data) {
        Ok(v) => give(v, numbers),
        Err(DecodeFault::NoType) => 2,
        Err(DecodeFault::Fails(f)) => {
            c_answers::tell(f, place, had);
            answers::number(value::refusal(f))
        }
    }
}

#[tactic(auto, unfolding(crate::specs::Codec::encode_numbers))]
pub fn loomfinch_encode(
    type_number: u64,
    word: u64,
    part: &[u8],
    out: &mut [u8],
    written: &mut u64,
) -> u64
    ensures { wrote result out.new written.new ≡ encode_numbers type_number word part.now out.old written.old }
{
    c_answers::tell_number(value::encode_word(type_number, word, part, out), written)
}

#[tactic(auto, unfolding(crate::specs::Codec::entry_numbers))]
fn entry_numbers(word: u64) -> [u64; 9]
    ensures { result ≡ entry_numbers word }
{
    let e = PdoMappingEntry::from_u64(word);
    let offset = e.byte_offset();
    let length = e.byte_length();
    [
        e.index as u64,
        e.sub_index as u64,
        e.offset_bits as u64,
        e.length_bits as u64,
        offset.is_some() as u64,
        offset.unwrap_or(0) as u64,
        length.is_some() as u64,
        length.unwrap_or(0) as u64,
        e.end() as u64,
    ]
}

pub fn loomfinch_from_u64(word: u64, numbers: &mut [u64]) -> u64
    ensures { lent result numbers.new ≡ results (entry_numbers word) numbers.old }
{
    c_answers::lend(&entry_numbers(word), numbers)
}

pub fn loomfinch_to_u64(index: u16, sub_index: u8, offset_bits: u16, length_bits: u16) -> u64
    ensures { result ≡ word_of (record { index = index; sub_index = sub_index; offset_bits = offset_bits; length_bits = length_bits }) }
{
    let e = PdoMappingEntry {
        index,
        sub_index,
        offset_bits,
        length_bits,
    };
    e.to_u64()
}
