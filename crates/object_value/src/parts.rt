// A value's parts as numbers, for callers in other languages.
ghost use Rattle.std.specs.Prelude.{◌≡◌, ◌≤◌, ◌++◌, take, replicate};
ghost use Rattle.value.specs.Meaning.{fields_of};

use value::ObjectValue;

// The parts stand first, and 0 behind them.
#[tactic(auto, using(crate::proofs::PartsLaws::padded_all))]
fn padded<const N: usize>(parts: [u64; N]) -> [u64; 6]
    requires { N ≤ 6 }
    ensures { result ≡ take 6 (parts.entry ++ replicate 6 0) }
{
    let mut all = [0; 6];
    all[..N].copy_from_slice(&parts);
    all
}

#[tactic(auto, unfolding(value::specs::Meaning::fields_of, value::specs::Meaning::parts_of))]
fn integer(z: i64) -> [u64; 6]
    ensures { result ≡ fields_of (ObjectValue.Integer64 z) }
{
    padded([z.cast_unsigned()])
}

// An integer is said in 64 bits, a real by its bits, a text and bytes by their length. A table, as the definition is: a `From` would not
// say which parts.
#[tactic(auto, unfolding(value::specs::Meaning::fields_of, value::specs::Meaning::parts_of))]
pub fn fields(v: ObjectValue) -> [u64; 6]
    ensures { result ≡ fields_of v }
{
    match v {
        ObjectValue::Boolean(b) => padded([b as u64]),
        ObjectValue::Integer8(z) => integer(i64::from(z)),
        ObjectValue::Integer16(z) => integer(i64::from(z)),
        ObjectValue::Integer32(z) => integer(i64::from(z)),
        ObjectValue::Integer64(z) => integer(z),
        ObjectValue::Unsigned8(n) => padded([n as u64]),
        ObjectValue::Unsigned16(n) => padded([n as u64]),
        ObjectValue::Unsigned32(n) => padded([n as u64]),
        ObjectValue::Unsigned64(n) => padded([n]),
        ObjectValue::Real32(b) => padded([b as u64]),
        ObjectValue::Real64(b) => padded([b]),
        ObjectValue::VisibleString(n) => padded([n]),
        ObjectValue::OctetString(n) => padded([n]),
        ObjectValue::UnicodeString(n) => padded([n]),
        ObjectValue::Domain(n) => padded([n]),
        ObjectValue::TimeOfDay(t) => padded([t.ms as u64, t.days as u64]),
        ObjectValue::TimeDifference(t) => padded([t.ms as u64, t.days as u64]),
        ObjectValue::NetTime(t) => padded([t.seconds as u64, t.nanoseconds as u64]),
        ObjectValue::RelativeTime(t) => padded([t.0]),
        ObjectValue::MacAddress(a) => padded([
            a.0 as u64, a.1 as u64, a.2 as u64, a.3 as u64, a.4 as u64, a.5 as u64,
        ]),
        ObjectValue::IpAddress(a) => padded([a.0 as u64, a.1 as u64, a.2 as u64, a.3 as u64]),
    }
}
