// A rig whose ramp time is mapped wrongly: what the channel check says of it, what consuming stores all the same, and the rig mended.
#![tactic(auto)]

mod rig;
mod words;

use std::io;

fn main(rt: HostRuntime) -> io::Result<()> {
    println!(rt; "A ramp time of four bytes, mapped onto 6000h, an Unsigned16:")?;
    rig::show(&rt, 0x0020_0000_0000_6000, b"\x90\x5F\x01\x00", 90_000)?;
    println!(rt; "The same rig with a mapping of two bytes:")?;
    rig::show(&rt, 0x0010_0000_0000_6000, b"\xC4\x09", 2_500)
}
