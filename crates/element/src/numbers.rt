// The numbers of a fault and of an explanation.
ghost use Rattle.std.specs.Prelude.{◌≡◌};
ghost use Rattle.element.specs.Numbers.{fault_number, verdict_number, there_number, there_type, there_holds, explained_numbers};

use crate::elements::said;
use crate::{Explained, Fault, Target};
use answers::Refusal;
use entry::Missing;

// It and `explained_numbers` are no `From`: C's numbers are made of them, and docs/PUBLIC.md names their definitions.
pub fn fault_number(f: Fault) -> u64
    ensures { result ≡ fault_number f }
{
    match f {
        Fault::NotMapping => 33,
        Fault::Misaligned => 34,
        Fault::HandOff => 35,
        Fault::NoTarget => 36,
        Fault::CountTarget => 37,
        Fault::WrongLength => 38,
    }
}

fn verdict_number(v: Result<(), Fault>) -> u64
    ensures { result ≡ verdict_number v }
{
    match v {
        Ok(()) => 0,
        Err(f) => fault_number(f),
    }
}

fn there(t: Result<Target, Missing>) -> u64
    ensures { result ≡ there_number t }
{
    match t {
        Err(Missing::NoObject) => 0,
        Err(Missing::NoSub) => 1,
        Ok(Target::Count) => 2,
        Ok(Target::Value { .. }) => 3,
    }
}

fn there_type(t: Result<Target, Missing>) -> u64
    ensures { result ≡ there_type t }
{
    match t {
        Err(_) => 0,
        Ok(Target::Count) => 5,
        Ok(Target::Value { value_type, .. }) => value_type,
    }
}

fn there_holds(t: Result<Target, Missing>) -> u64
    ensures { result ≡ there_holds t }
{
    match t {
        Err(_) => 0,
        Ok(Target::Count) => 1,
        Ok(Target::Value { holds, .. }) => holds,
    }
}

// An explanation in eleven numbers; a refusal explains nothing.
pub fn explained_numbers(e: Result<Explained, Refusal>) -> [u64; 11]
    ensures { result ≡ explained_numbers e }
{
    let Ok(e) = e else {
        return [0; 11];
    };
    match e {
        Explained::Other(t) => [33, t, 0, 0, 0, 0, 0, 0, 0, 0, 0],
        Explained::Misaligned {
            index,
            sub_index,
            offset_bits,
            length_bits,
            target,
        } => [
            34,
            8,
            index as u64,
            sub_index as u64,
            offset_bits as u64,
            length_bits as u64,
            0,
            0,
            there(target),
            there_type(target),
            there_holds(target),
        ],
        Explained::Field {
            index,
            sub_index,
            start,
            length,
            target,
        } => [
            verdict_number(said(e)),
            8,
            index as u64,
            sub_index as u64,
            start as u64 * 8,
            length as u64 * 8,
            start as u64,
            length as u64,
            there(target),
            there_type(target),
            there_holds(target),
        ],
    }
}
