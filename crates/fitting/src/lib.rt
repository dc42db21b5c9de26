// What a restore gives each value: the record at its place in the stored image, the default, or nothing; and whether it fits its room.
#![tactic(auto)]

mod choosing;
mod looking;
mod rooms;

pub use choosing::choose;
pub use looking::Image;
pub use rooms::{restorable, rows_fit};

// What a value gets: nothing, the stored value of the record at a place of the image, or the default at a slot.
#[derive(Clone, Copy)]
pub enum Choice {
    Keep,
    Stored(usize),
    Default(usize),
}
