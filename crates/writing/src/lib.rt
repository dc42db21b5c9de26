// Writing a value: judged wholly before anything is stored.
#![tactic(auto)]

mod judging;
mod writing;

use answers::Refusal;
pub use judging::judge_write;
use value::CodecFault;
pub use writing::{write, write_judged};

// What a write does: a value is put at a slot, a count accepted and not kept, or kept in a row, or a command followed.
#[derive(Clone, Copy)]
pub enum Act {
    Put(usize),
    Accepted,
    Keep(usize, u8),
    Save,
    Restore,
}

#[derive(Clone, Copy)]
pub enum Wrote {
    Done,
    RestoreRequested,
}

// Data that does not decode is refused as BadValue is, and why stands beside it.
#[derive(Clone, Copy)]
pub enum WriteFault {
    NoValue(CodecFault),
    Refused(Refusal),
}
