// Values and mapping words: the calls of c_codec.
ghost use Rattle.std.specs.Prelude.{◌≡◌};
ghost use Rattle.mapping.specs.Word.{word_of};
ghost use Rattle.c_answers.specs.Answers.{lent, wrote, results};
ghost use Rattle.c_codec.specs.Codec.{after_decode, decode_numbers, encode_numbers, entry_numbers};

#[unsafe(no_mangle)]
pub extern "C" fn loomfinch_decode(
    type_number: u64,
    data: &[u8],
    numbers: &mut [u64],
    place: &mut u64,
    had: &mut u64,
) -> u64
    ensures { after_decode result numbers.new place.new had.new ≡ decode_numbers type_number «data».now numbers.old place.old had.old }
{
    c_codec::loomfinch_decode(type_number, data, numbers, place, had)
}

#[unsafe(no_mangle)]
pub extern "C" fn loomfinch_encode(
    type_number: u64,
    word: u64,
    part: &[u8],
    out: &mut [u8],
    written: &mut u64,
) -> u64
    ensures { wrote result out.new written.new ≡ encode_numbers type_number word part.now out.old written.old }
{
    c_codec::loomfinch_encode(type_number, word, part, out, written)
}

#[unsafe(no_mangle)]
pub extern "C" fn loomfinch_from_u64(word: u64, numbers: &mut [u64]) -> u64
    ensures { lent result numbers.new ≡ results (entry_numbers word) numbers.old }
{
    c_codec::loomfinch_from_u64(word, numbers)
}

#[unsafe(no_mangle)]
pub extern "C" fn loomfinch_to_u64(
    index: u16,
    sub_index: u8,
    offset_bits: u16,
    length_bits: u16,
) -> u64
    ensures { result ≡ word_of (record { index = index; sub_index = sub_index; offset_bits = offset_bits; length_bits = length_bits }) }
{
    c_codec::loomfinch_to_u64(index, sub_index, offset_bits, length_bits)
}
