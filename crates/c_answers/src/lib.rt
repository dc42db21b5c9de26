// What every call for C answers: a number of RULES.md R13.1, and results in what was lent.
#![tactic(auto)]

ghost use Rattle.std.specs.Prelude.{◌≡◌};
ghost use Rattle.c_answers.specs.Answers.{answer_number, place_after, had_after, told, number_told, lent, results};

use answers::Refusal;
use value::CodecFault;

pub fn number_of(a: Result<(), Refusal>) -> u64
    ensures { result ≡ answer_number a }
{
    match a {
        Ok(()) => 0,
        Err(r) => answers::number(r),
    }
}

// A number that was found is told, and 0 is answered; a refusal leaves what was lent.
pub fn tell_number(found: Result<usize, Refusal>, number: &mut u64) -> u64
    ensures { told result number.new ≡ number_told found number.old }
{
    match found {
        Ok(n) => {
            *number = n as u64;
            0
        }
        Err(r) => answers::number(r),
    }
}

// N results go into the lent numbers, from the first one on, and 0 is answered; where fewer are lent, they stay.
pub fn lend<const N: usize>(found: &[u64; N], numbers: &mut [u64]) -> u64
    ensures { lent result numbers.new ≡ results found.now numbers.old }
{
    if numbers.len() < N {
        return answers::number(Refusal::BufferTooShort);
    }
    lists::lay(numbers, 0, found);
    0
}

// Lays the numbers that a fault has: the bytes needed, or the place of the byte; and the bytes had. The others stay.
pub fn tell(f: CodecFault, place: &mut u64, had: &mut u64)
    ensures place { place.new ≡ place_after f place.old }
    ensures had { had.new ≡ had_after f had.old }
{
    match f {
        CodecFault::Value { needed, had: n } => {
            *place = needed as u64;
            *had = n as u64;
        }
        CodecFault::Text { at } => {
            *place = at as u64;
        }
        CodecFault::Odd => {}
    }
}
