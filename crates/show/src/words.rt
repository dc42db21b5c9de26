// The words for each answer of the check.
use loomfinch::{Checked, Explained, Fault, Missing, Refusal, Target};
use std::io;

fn reason(fault: Fault) -> &'static str {
    match fault {
        Fault::NotMapping => "it is no mapping word",
        Fault::Misaligned => "its offset or length is not whole bytes",
        Fault::HandOff => "its target belongs to SDO",
        Fault::NoTarget => "its target is missing",
        Fault::CountTarget => "its target is a list's count",
        Fault::WrongLength => "its length is not the target's size",
    }
}

fn holding(rt: &impl Print, target: Result<Target, Missing>) -> io::Result<()> {
    match target {
        Err(_) => print!(rt; "which is not there"),
        Ok(Target::Count) => print!(rt; "the count of a list"),
        Ok(Target::Value { holds, .. }) => print!(rt; "which holds {holds}"),
    }
}

fn mapped(
    rt: &impl Print,
    length: u16,
    unit: &str,
    index: u16,
    sub_index: u8,
    target: Result<Target, Missing>,
) -> io::Result<()> {
    print!(rt; "    it maps {length} {unit} onto {index:04x}h/{sub_index}, ")?;
    holding(rt, target)?;
    println!(rt)
}

// What an element maps, and onto what.
pub fn explanation(rt: &impl Print, e: Result<Explained, Refusal>) -> io::Result<()> {
    let Ok(e) = e else {
        return println!(rt; "    there is no such element");
    };
    match e {
        Explained::Other(_) => println!(rt; "    it maps nothing"),
        Explained::Misaligned {
            index,
            sub_index,
            length_bits,
            target,
            ..
        } => mapped(rt, length_bits, "bits", index, sub_index, target),
        Explained::Field {
            index,
            sub_index,
            length,
            target,
            ..
        } => mapped(rt, length, "bytes", index, sub_index, target),
    }
}

pub fn answer(rt: &impl Print, a: Checked) -> io::Result<()> {
    print!(rt; "  the check: ")?;
    match a {
        Checked::Pass => println!(rt; "channel 0 passes"),
        Checked::NoSender => println!(rt; "channel 0 has no sender"),
        Checked::NoList => println!(rt; "channel 0 maps nothing"),
        Checked::Element { element, fault } => {
            println!(rt; "channel 0, element {element}: {}", reason(fault))
        }
        Checked::TooFar => println!(rt; "channel 0 reaches past 1490 bytes"),
        Checked::Refused(_) => println!(rt; "no dictionary"),
    }
}
