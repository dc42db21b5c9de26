// The lent dictionary: four slices that are looked up and put into. The crate `judge` judges them, and `rows` writes their rows.
#![tactic(auto)]

mod columns;
mod encoding;
mod header;
mod lookup;
mod put;

pub use columns::{Row, Slot, is_mapping};
pub use encoding::lay_encoding;
pub use header::{edition_of, number_of, row_end, row_place, slot_place, used_of, values_of};
pub use lookup::{find, locate, lower, sub_at};
pub use put::{put_new, put_value};

// What an index and a sub-index name: the count of a list's elements, or a value.
#[derive(Clone, Copy)]
pub enum Place {
    Count(u64),
    Value(usize),
}

// What is missing where they name nothing.
#[derive(Clone, Copy)]
pub enum Missing {
    NoObject,
    NoSub,
}

// What a row has beside its object's kind, values and name: a kept count, and a range by its type and its ends.
#[derive(Clone, Copy)]
pub struct Extra {
    pub kept: u64,
    pub ranged: u64,
    pub low: u64,
    pub high: u64,
}
