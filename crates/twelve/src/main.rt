// Runs the twelve cases of RULES.md 14 on the public calls, and writes how many were run, a space, how many differ, and a newline.
// crates/demand/specs/Twelve.antt has the same table, computed.
#![tactic(auto)]

mod codec;
mod rig;

use std::io;

fn main(rt: HostRuntime) -> io::Result<()> {
    let cases = [
        codec::case_1(),
        codec::case_2(),
        codec::case_3(),
        codec::case_4(),
        rig::case_5(),
        rig::case_6(),
        rig::case_7(),
        rig::case_8(),
        rig::case_9(),
        rig::case_10(),
        rig::case_11(),
        rig::case_12(),
    ];
    let run = cases.len();
    let differ = cases.iter().filter(|right| !**right).count();
    println!(rt; "{run} {differ}")
}
