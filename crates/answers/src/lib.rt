// The refusals that calls share, with their numbers.
#![tactic(auto)]

ghost use Rattle.std.specs.Prelude.{◌≡◌};
ghost use Rattle.answers.specs.Numbers.{refusal_number};

#[derive(Clone, Copy)]
pub enum Refusal {
    Malformed,
    BadValue,
    ObjectNotFound,
    SubObjectNotFound,
    TypeMismatch,
    ReadOnly,
    BadSignature,
    NoStorage,
    CountNotWritable,
    MissingEntries,
    PdoMapOverrun,
    BufferTooShort,
    TooLong,
    PayloadTooLong,
    NoEventRoom,
    Occupied,
    Full,
    StoreFull,
    OutOfRange,
}

pub fn number(r: Refusal) -> u64
    ensures { result ≡ refusal_number r }
{
    match r {
        Refusal::Malformed => 1,
        Refusal::BadValue => 2,
        Refusal::ObjectNotFound => 3,
        Refusal::SubObjectNotFound => 4,
        Refusal::TypeMismatch => 5,
        Refusal::ReadOnly => 6,
        Refusal::BadSignature => 7,
        Refusal::NoStorage => 8,
        Refusal::CountNotWritable => 9,
        Refusal::MissingEntries => 10,
        Refusal::PdoMapOverrun => 11,
        Refusal::BufferTooShort => 12,
        Refusal::TooLong => 13,
        Refusal::PayloadTooLong => 14,
        Refusal::NoEventRoom => 15,
        Refusal::Occupied => 16,
        Refusal::Full => 17,
        Refusal::StoreFull => 18,
        Refusal::OutOfRange => 21,
    }
}
