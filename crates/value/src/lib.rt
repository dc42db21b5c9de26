// The 21 value types: what their bits mean, and bytes decoded to a word and encoded from one.
#![tactic(auto)]

mod codec;
mod order;

ghost use Rattle.std.specs.Prelude.{◌≡◌};
ghost use Rattle.value.specs.Codec.{refusal_of};

use answers::Refusal;
pub use codec::{decode_word, encode_word, exactly, fits, is_text, length_of, size_of};
pub use order::is_ordered;

// A moment, and a span between two. They have the same parts, and are two types as in the Rust, so that neither passes for the other.
#[derive(Clone, Copy)]
pub struct TimeOfDay {
    pub ms: u32,
    pub days: u16,
}

#[derive(Clone, Copy)]
pub struct TimeDifference {
    pub ms: u32,
    pub days: u16,
}

#[derive(Clone, Copy)]
pub struct NetTime {
    pub seconds: u32,
    pub nanoseconds: u32,
}

#[derive(Clone, Copy)]
pub struct RelativeTime(pub u64);

// The addresses have the Rust's names, and a place for each byte: structs of six and of four bytes (docs/DECISIONS.md, 5).
#[derive(Clone, Copy)]
pub struct MacAddress(pub u8, pub u8, pub u8, pub u8, pub u8, pub u8);

#[derive(Clone, Copy)]
pub struct IpAddress(pub u8, pub u8, pub u8, pub u8);

// A value. Reals are their bits. The four types that have a room hold their length in bytes; the bytes are a part beside the value.
#[derive(Clone, Copy)]
pub enum ObjectValue {
    Boolean(u8),
    Integer8(i8),
    Integer16(i16),
    Integer32(i32),
    Integer64(i64),
    Unsigned8(u8),
    Unsigned16(u16),
    Unsigned32(u32),
    Unsigned64(u64),
    Real32(u32),
    Real64(u64),
    VisibleString(u64),
    OctetString(u64),
    UnicodeString(u64),
    Domain(u64),
    TimeOfDay(TimeOfDay),
    TimeDifference(TimeDifference),
    NetTime(NetTime),
    RelativeTime(RelativeTime),
    MacAddress(MacAddress),
    IpAddress(IpAddress),
}

// Why bytes are no value of a type: fewer than it needs, no UTF-8 text from this byte on, an odd count.
#[derive(Clone, Copy)]
pub enum CodecFault {
    Value { needed: usize, had: usize },
    Text { at: usize },
    Odd,
}

// Why data has no value of a type: a number that names no type, or bytes that do not decode.
#[derive(Clone, Copy)]
pub enum DecodeFault {
    NoType,
    Fails(CodecFault),
}

// Why data is not a value of a type and nothing else: a number that names no type, bytes that do not decode, or bytes behind the value.
#[derive(Clone, Copy)]
pub enum Inexact {
    NoType,
    Fails(CodecFault),
    Many,
}

// A function, and no `From`: a fault is so refused where bytes are decoded. Encoding and writing refuse it as BadValue, and there a `?` would
// take the `From`.
pub fn refusal(f: CodecFault) -> Refusal
    ensures { result ≡ refusal_of f }
{
    match f {
        CodecFault::Value { .. } => Refusal::BufferTooShort,
        CodecFault::Text { .. } | CodecFault::Odd => Refusal::TypeMismatch,
    }
}
