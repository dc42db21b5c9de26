// A dictionary of three objects: the record of channel 0, its list of one word, and the object that the word maps.
use crate::words::{answer, explanation};
use answers::Refusal;
use loomfinch::Checked;
use memory::Memory;
use std::io;

// An object that can be read and written, without a name.
fn insert(
    m: &mut Memory,
    index: u16,
    kind: u64,
    vals: &[u64],
    encodings: &[u8],
) -> Result<(), Refusal> {
    m.insert_plain(index, kind, 3, vals, encodings)
}

// Node 5 in version 10h, one mapping word, and 6000h, an Unsigned16.
fn rig(word: u64) -> Result<Memory, Refusal> {
    let mut m = memory::zeros();
    m.new(1)?;
    insert(&mut m, 0x1400, 2, &[5, 0, 1, 5, 0, 1], &[5, 0x10])?;
    insert(&mut m, 0x1600, 1, &[8, 0, 8], &word.to_le_bytes())?;
    insert(&mut m, 0x6000, 0, &[6, 0, 2], &[0, 0])?;
    Ok(m)
}

// A payload of node 5: how many events it has.
fn consume(rt: &impl Print, m: &mut Memory, payload: &[u8]) -> io::Result<()> {
    match receiving::consume_recorded(m, payload, 5, 0x10, true).answer {
        Ok(n) => print!(rt; "{n} events"),
        Err(_) => print!(rt; "no events"),
    }
}

fn stored(rt: &impl Print, m: &Memory) -> io::Result<()> {
    match m.read_number(6, 0x6000, 0) {
        Ok(n) => print!(rt; "{n}"),
        Err(_) => print!(rt; "nothing"),
    }
}

// The check's answer, and what the element that it names maps.
fn check(rt: &impl Print, m: &Memory) -> io::Result<()> {
    let a = m.check(0);
    answer(rt, a)?;
    if let Checked::Element { element, .. } = a {
        explanation(rt, m.explain(0, (element % 256) as u8))?;
    }
    Ok(())
}

pub fn show(rt: &impl Print, word: u64, payload: &[u8], time: u64) -> io::Result<()> {
    let Ok(mut m) = rig(word) else {
        return println!(rt; "  no rig");
    };
    check(rt, &m)?;
    print!(rt; "  consumed: {time} ms, ")?;
    consume(rt, &mut m, payload)?;
    print!(rt; ", and 6000h is ")?;
    stored(rt, &m)?;
    println!(rt)
}
