// One mapping word on a dictionary and a payload: what it comes to, and its act; and the error bits.
#![tactic(auto)]

mod acting;
mod bits;
mod deciding;
mod receiving;

pub use acting::step;
pub use bits::{bit_place, mark, set_bit};
pub use deciding::decide;
pub use receiving::Receiving;
use value::CodecFault;

// What a mapping word comes to: the field and its target value, or why nothing is stored. Start and length stand in each case, and not as a
// `Field`, since the uses take them apart.
#[derive(Clone, Copy)]
pub enum Outcome {
    Misaligned,
    Short,
    Server {
        index: u16,
        start: usize,
        len: usize,
    },
    Client {
        index: u16,
        start: usize,
        len: usize,
    },
    NoTarget,
    Count,
    CountRefused,
    Undecodable(CodecFault),
    TooLong,
    Stored {
        p: usize,
        start: usize,
        len: usize,
    },
}
