// Values as words: the little-endian number of a fixed type's bytes, or the length of a text or of bytes.
ghost use Rattle.std.specs.Prelude.{◌≡◌, true, false, [], ◌-◌, ◌*◌, ◌^◌, ◌≤◌};
ghost use Rattle.value.specs.Codec.{size_of, is_text, length_of, fits_type, text_word, word_at, exactly_of, encode_of, after_encode};

use crate::{CodecFault, Inexact};
use answers::Refusal;

// The bytes that a fixed type has; 0 for the four types that have a room, and for no type.
// A constant array would be built on the stack at each use. A `match` is compiled to one load where every type has an arm and no arm
// has two types in a row, as 0 and 1: those left to `_`, and those in a row, get a test of their own. So arms of one answer stand apart.
pub fn size_of(t: u64) -> usize
    ensures { result ≡ size_of t }
{
    match t {
        0 | 5 => 1,
        1 => 1,
        2 | 6 => 2,
        3 | 7 | 9 | 20 => 4,
        4 | 8 | 10 | 17 => 8,
        11 | 13 => 0,
        12 | 14 => 0,
        15 | 19 => 6,
        16 => 6,
        18 => 8,
        _ => 0,
    }
}

// The bits that a word of the type does not have. A mask is loaded, as a size is; the largest word, to compare with, would be jumped for,
// since the arms of eight bytes need no comparison.
fn over(t: u64) -> u64
    ensures { result ≡ 2 ^ 64 - 2 ^ (8 * size_of t) }
{
    match t {
        0 | 5 => 0xFFFF_FFFF_FFFF_FF00,
        1 => 0xFFFF_FFFF_FFFF_FF00,
        2 | 6 => 0xFFFF_FFFF_FFFF_0000,
        3 | 7 | 9 | 20 => 0xFFFF_FFFF_0000_0000,
        4 | 8 | 10 | 17 => 0,
        11 | 13 => 0xFFFF_FFFF_FFFF_FFFF,
        12 | 14 => 0xFFFF_FFFF_FFFF_FFFF,
        15 | 19 => 0xFFFF_0000_0000_0000,
        16 => 0xFFFF_0000_0000_0000,
        18 => 0,
        _ => 0xFFFF_FFFF_FFFF_FFFF,
    }
}

// One of the four types that have a room.
pub fn is_text(t: u64) -> bool
    ensures { result ≡ is_text t }
{
    (11 <= t) & (t <= 14)
}

// How many bytes a value has: its type's size or, of a type that has a room, so many as are held.
pub fn length_of(t: u64, held: u64) -> u64
    ensures { result ≡ length_of t held }
{
    if is_text(t) { held } else { size_of(t) as u64 }
}

// The word is a number of as many bytes as the type has.
pub fn fits(t: u64, word: u64) -> bool
    ensures { result ≡ fits_type t word }
{
    word & over(t) == 0
}

fn decode_text(t: u64, data: &[u8]) -> Result<u64, CodecFault>
    ensures { result ≡ text_word t «data».now }
{
    if t == 11 {
        return match text::text_ok(data) {
            Ok(()) => Ok(data.len() as u64),
            Err(k) => Err(CodecFault::Text { at: k }),
        };
    }
    let odd = data.len() % 2 == 1;
    if (t == 13) & odd {
        return Err(CodecFault::Odd);
    }
    Ok(data.len() as u64)
}

// The word of a value of type t. Bytes behind a fixed type are ignored.
pub fn decode_word(t: u64, data: &[u8]) -> Result<u64, CodecFault>
    ensures { result ≡ word_at t «data».now }
{
    if is_text(t) {
        return decode_text(t, data);
    }
    let n = size_of(t);
    if data.len() < n {
        return Err(CodecFault::Value {
            needed: n,
            had: data.len(),
        });
    }
    Ok(lists::number(data, 0, n))
}

// Whether the data is a value of type t and nothing else, or why it is none.
#[tactic(auto, unfolding(crate::specs::Codec::exactly_of))]
pub fn exactly(t: u64, data: &[u8]) -> Result<(), Inexact>
    ensures { result ≡ exactly_of t «data».now }
{
    if 20 < t {
        return Err(Inexact::NoType);
    }
    decode_word(t, data).map_err(Inexact::Fails)?;
    if is_text(t) | (data.len() <= size_of(t)) {
        return Ok(());
    }
    Err(Inexact::Many)
}

fn encode_text(t: u64, word: u64, part: &[u8], out: &mut [u8]) -> Result<usize, Refusal>
    requires { (t ≤ 20) × (is_text t ≡ true) }
    ensures { after_encode result out.new ≡ encode_of t word part.now out.old }
{
    let length = part.len() as u64;
    if word != length {
        return Err(Refusal::BadValue);
    }
    let Ok(_) = decode_text(t, part) else {
        return Err(Refusal::BadValue);
    };
    if out.len() < part.len() {
        return Err(Refusal::BufferTooShort);
    }
    lists::lay(out, 0, part);
    Ok(part.len())
}

fn encode_fixed(t: u64, word: u64, out: &mut [u8]) -> Result<usize, Refusal>
    requires { (t ≤ 20) × (is_text t ≡ false) }
    ensures { after_encode result out.new ≡ encode_of t word [] out.old }
{
    if !fits(t, word) {
        return Err(Refusal::BadValue);
    }
    let n = size_of(t);
    if out.len() < n {
        return Err(Refusal::BufferTooShort);
    }
    lists::put_number(out, 0, n, word);
    Ok(n)
}

// Lays the value's encoding over `out` from its start on. The part beside a fixed type is not looked at.
pub fn encode_word(t: u64, word: u64, part: &[u8], out: &mut [u8]) -> Result<usize, Refusal>
    ensures { after_encode result out.new ≡ encode_of t word part.now out.old }
{
    if 20 < t {
        return Err(Refusal::BadValue);
    }
    if is_text(t) {
        return encode_text(t, word, part, out);
    }
    encode_fixed(t, word, out)
}
