// What is wrong with an element of a channel's list, by what it maps.
ghost use Rattle.std.specs.Prelude.{◌≡◌};
ghost use Rattle.element.specs.Elements.{fits_in, onto_target, said_of, word_verdict};

use crate::explaining::of_word;
use crate::{Explained, Fault, Target};
use entry::Missing;
use judge::Dictionary;

// Is a field of n bytes a value of the type that takes, or has room for, so many?
fn fits_in(t: u64, most: u64, n: u16) -> bool
    ensures { result ≡ fits_in t most n }
{
    if value::is_text(t) {
        return (n as u64 <= most) & !((t == 13) & (n % 2 == 1));
    }
    n as u64 == most
}

fn onto_target(n: u16, target: Result<Target, Missing>) -> Result<(), Fault>
    ensures { result ≡ onto_target n target }
{
    match target {
        Err(_) => Err(Fault::NoTarget),
        Ok(Target::Count) => Err(Fault::CountTarget),
        Ok(Target::Value { value_type, holds }) => {
            if fits_in(value_type, holds, n) {
                Ok(())
            } else {
                Err(Fault::WrongLength)
            }
        }
    }
}

// What the check says of an element by itself, from its explanation alone.
pub fn said(e: Explained) -> Result<(), Fault>
    ensures { result ≡ said_of e }
{
    match e {
        Explained::Other(_) => Err(Fault::NotMapping),
        Explained::Misaligned { .. } => Err(Fault::Misaligned),
        Explained::Field {
            index,
            length,
            target,
            ..
        } => match index {
            0x1200..=0x12FF => Err(Fault::HandOff),
            _ => onto_target(length, target),
        },
    }
}

// Of a mapping word.
pub fn word_verdict(d: &Dictionary, word: u64) -> Result<(), Fault>
    ensures { result ≡ word_verdict d.now.objects d.now.slots word }
{
    said(of_word(d, word))
}
