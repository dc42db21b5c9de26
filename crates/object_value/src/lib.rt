// Values as an enum, with the Rust's names: made from a type and a word, taken apart, decoded and encoded.
#![tactic(auto)]

mod parts;
mod words;

ghost use Rattle.std.specs.Prelude.{◌≡◌};
ghost use Rattle.value.specs.Codec.{decode_of, encode_of, after_encode};
ghost use Rattle.value.specs.Meaning.{type_of, word_of};

use answers::Refusal;
pub use parts::fields;
use value::{DecodeFault, ObjectValue};
pub use words::{from_word, to_word, type_number};

// The value of type t that the data begins with. Of a text, and of bytes, it is the whole data.
#[tactic(auto, unfolding(value::specs::Codec::decode_of))]
pub fn decode(t: u64, data: &[u8]) -> Result<ObjectValue, DecodeFault>
    ensures { result ≡ decode_of t «data».now }
{
    if 20 < t {
        return Err(DecodeFault::NoType);
    }
    let x = value::decode_word(t, data).map_err(DecodeFault::Fails)?;
    Ok(from_word(t, x))
}

// Lays the value's bytes over `out` from its start on. The part is the text or the bytes of a value that has a room.
pub fn encode(v: ObjectValue, part: &[u8], out: &mut [u8]) -> Result<usize, Refusal>
    ensures { after_encode result out.new ≡ encode_of (type_of v) (word_of v) part.now out.old }
{
    let t = type_number(v);
    let x = to_word(v);
    value::encode_word(t, x, part, out)
}
