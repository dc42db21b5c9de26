// An element of a channel's list: what it maps, onto what, and what is wrong with it.
#![tactic(auto)]

mod elements;
mod explaining;
mod numbers;

pub use elements::word_verdict;
pub use entry::Missing;
pub use explaining::{explain, explain_judged};
pub use numbers::{explained_numbers, fault_number};

// What is wrong with an element.
#[derive(Clone, Copy)]
pub enum Fault {
    NotMapping,
    Misaligned,
    HandOff,
    NoTarget,
    CountTarget,
    WrongLength,
}

// What there is at an index and a sub-index; a value holds so many bytes: its type's size, or its room.
#[derive(Clone, Copy)]
pub enum Target {
    Count,
    Value { value_type: u64, holds: u64 },
}

// What an element maps, and onto what.
#[derive(Clone, Copy)]
pub enum Explained {
    // Of this type, so no mapping word.
    Other(u64),
    // In bits, since one of them is not whole bytes.
    Misaligned {
        index: u16,
        sub_index: u8,
        offset_bits: u16,
        length_bits: u16,
        target: Result<Target, Missing>,
    },
    // In bytes.
    Field {
        index: u16,
        sub_index: u8,
        start: u16,
        length: u16,
        target: Result<Target, Missing>,
    },
}
