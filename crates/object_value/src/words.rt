// A value and its word.
ghost use Rattle.std.specs.Prelude.{◌≡◌, ◌+◌, ◌*◌, ◌/◌, ◌%◌, ◌^◌};
ghost use Rattle.value.specs.Meaning.{reading, net_time, mac_address, ip_address, type_of, word_of};

use value::{IpAddress, MacAddress, NetTime, ObjectValue, RelativeTime, TimeDifference, TimeOfDay};

// The low bits of x, as many as the type has, since `as` may lose none. A const parameter could not choose the type, and a trait for the
// three, with an impl and a law of each, would be longer than they are.
fn low8(x: u64) -> u8
    ensures { result ≡ x % 2 ^ 8 }
{
    (x % 0x100) as u8
}

fn low16(x: u64) -> u16
    ensures { result ≡ x % 2 ^ 16 }
{
    (x % 0x1_0000) as u16
}

fn low32(x: u64) -> u32
    ensures { result ≡ x % 2 ^ 32 }
{
    (x % 0x1_0000_0000) as u32
}

// The milliseconds and the days, of a time of day and of a difference alike.
fn time(x: u64) -> (u32, u16)
    ensures { (result.0 ≡ x % 2 ^ 32) × (result.1 ≡ x / 2 ^ 32 % 2 ^ 16) }
{
    (low32(x), low16(x / 0x1_0000_0000))
}

fn net_time(x: u64) -> NetTime
    ensures { result ≡ net_time x }
{
    NetTime {
        seconds: low32(x),
        nanoseconds: low32(x / 0x1_0000_0000),
    }
}

fn mac_address(x: u64) -> MacAddress
    ensures { result ≡ mac_address x }
{
    let b = x.to_le_bytes();
    MacAddress(b[0], b[1], b[2], b[3], b[4], b[5])
}

fn ip_address(x: u64) -> IpAddress
    ensures { result ≡ ip_address x }
{
    let b = x.to_le_bytes();
    IpAddress(b[0], b[1], b[2], b[3])
}

// The value that type t and its word say. A table by the type's number, as the definition is: a `From` has no second number to choose by.
#[tactic(auto, unfolding(value::specs::Meaning::readings))]
pub fn from_word(t: u64, x: u64) -> ObjectValue
    ensures { result ≡ reading t x }
{
    match t {
        0 => ObjectValue::Boolean(low8(x)),
        1 => ObjectValue::Integer8(low8(x).cast_signed()),
        2 => ObjectValue::Integer16(low16(x).cast_signed()),
        3 => ObjectValue::Integer32(low32(x).cast_signed()),
        4 => ObjectValue::Integer64(x.cast_signed()),
        5 => ObjectValue::Unsigned8(low8(x)),
        6 => ObjectValue::Unsigned16(low16(x)),
        7 => ObjectValue::Unsigned32(low32(x)),
        8 => ObjectValue::Unsigned64(x),
        9 => ObjectValue::Real32(low32(x)),
        10 => ObjectValue::Real64(x),
        11 => ObjectValue::VisibleString(x),
        12 => ObjectValue::OctetString(x),
        13 => ObjectValue::UnicodeString(x),
        14 => ObjectValue::Domain(x),
        15 => {
            let (ms, days) = time(x);
            ObjectValue::TimeOfDay(TimeOfDay { ms, days })
        }
        16 => {
            let (ms, days) = time(x);
            ObjectValue::TimeDifference(TimeDifference { ms, days })
        }
        17 => ObjectValue::NetTime(net_time(x)),
        18 => ObjectValue::RelativeTime(RelativeTime(x)),
        19 => ObjectValue::MacAddress(mac_address(x)),
        _ => ObjectValue::IpAddress(ip_address(x)),
    }
}

// The type's number: the same table backwards, named beside `from_word`.
#[tactic(auto, unfolding(value::specs::Meaning::type_of))]
pub fn type_number(v: ObjectValue) -> u64
    ensures { result ≡ type_of v }
{
    match v {
        ObjectValue::Boolean(_) => 0,
        ObjectValue::Integer8(_) => 1,
        ObjectValue::Integer16(_) => 2,
        ObjectValue::Integer32(_) => 3,
        ObjectValue::Integer64(_) => 4,
        ObjectValue::Unsigned8(_) => 5,
        ObjectValue::Unsigned16(_) => 6,
        ObjectValue::Unsigned32(_) => 7,
        ObjectValue::Unsigned64(_) => 8,
        ObjectValue::Real32(_) => 9,
        ObjectValue::Real64(_) => 10,
        ObjectValue::VisibleString(_) => 11,
        ObjectValue::OctetString(_) => 12,
        ObjectValue::UnicodeString(_) => 13,
        ObjectValue::Domain(_) => 14,
        ObjectValue::TimeOfDay(_) => 15,
        ObjectValue::TimeDifference(_) => 16,
        ObjectValue::NetTime(_) => 17,
        ObjectValue::RelativeTime(_) => 18,
        ObjectValue::MacAddress(_) => 19,
        ObjectValue::IpAddress(_) => 20,
    }
}

// A word of two halves, the lower first.
fn joined(low: u32, high: u32) -> u64
    ensures { result ≡ low + high * 2 ^ 32 }
{
    low as u64 + high as u64 * 0x1_0000_0000
}

#[tactic(auto, unfolding(value::specs::Meaning::word_of))]
fn ip_word(a: IpAddress) -> u64
    ensures { result ≡ word_of (ObjectValue.IpAddress a) }
{
    u32::from_le_bytes([a.0, a.1, a.2, a.3]) as u64
}

#[tactic(auto, unfolding(value::specs::Meaning::word_of))]
fn mac_word(a: MacAddress) -> u64
    ensures { result ≡ word_of (ObjectValue.MacAddress a) }
{
    u64::from_le_bytes([a.0, a.1, a.2, a.3, a.4, a.5, 0, 0])
}

// The word that says the value, beside its type. No `From`: without its type the word is not the value.
#[tactic(auto, unfolding(value::specs::Meaning::word_of))]
pub fn to_word(v: ObjectValue) -> u64
    ensures { result ≡ word_of v }
{
    match v {
        ObjectValue::Boolean(b) => b as u64,
        ObjectValue::Integer8(z) => z.cast_unsigned() as u64,
        ObjectValue::Integer16(z) => z.cast_unsigned() as u64,
        ObjectValue::Integer32(z) => z.cast_unsigned() as u64,
        ObjectValue::Integer64(z) => z.cast_unsigned(),
        ObjectValue::Unsigned8(n) => n as u64,
        ObjectValue::Unsigned16(n) => n as u64,
        ObjectValue::Unsigned32(n) => n as u64,
        ObjectValue::Unsigned64(n) => n,
        ObjectValue::Real32(b) => b as u64,
        ObjectValue::Real64(b) => b,
        ObjectValue::VisibleString(n) => n,
        ObjectValue::OctetString(n) => n,
        ObjectValue::UnicodeString(n) => n,
        ObjectValue::Domain(n) => n,
        ObjectValue::TimeOfDay(t) => joined(t.ms, t.days as u32),
        ObjectValue::TimeDifference(t) => joined(t.ms, t.days as u32),
        ObjectValue::NetTime(t) => joined(t.seconds, t.nanoseconds),
        ObjectValue::RelativeTime(t) => t.0,
        ObjectValue::MacAddress(a) => mac_word(a),
        ObjectValue::IpAddress(a) => ip_word(a),
    }
}
