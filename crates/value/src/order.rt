// The order of integers, by what their words mean.
ghost use Rattle.std.specs.Prelude.{◌≡◌, true, ◌≤◌};
ghost use Rattle.value.specs.Codec.{fits_type};
ghost use Rattle.value.specs.Order.{integer_of, ordered};

// The integer that a word of an Integer type means.
fn integer_of(t: u64, word: u64) -> i64
    requires { (1 ≤ t) × (t ≤ 4) × (fits_type t word ≡ true) }
    ensures { result ≡ integer_of t word }
{
    match t {
        1 => i64::from((word as u8).cast_signed()),
        2 => i64::from((word as u16).cast_signed()),
        3 => i64::from((word as u32).cast_signed()),
        _ => word.cast_signed(),
    }
}

// Of words of one of the types 1..8: is a no more than b, by the integers that they mean?
#[tactic(auto, unfolding(crate::specs::Order::integer_of))]
pub fn is_ordered(t: u64, a: u64, b: u64) -> bool
    requires { (1 ≤ t) × (fits_type t a ≡ true) × (fits_type t b ≡ true) }
    ensures { result ≡ ordered t a b }
{
    if 4 < t {
        a <= b
    } else {
        integer_of(t, a) <= integer_of(t, b)
    }
}
