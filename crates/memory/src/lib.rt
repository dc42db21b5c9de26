// A dictionary and a store in one struct, and the public calls on it: for programs, which would otherwise hand five lent slices from
// function to function. There is room for 8 objects, 300 values and 1,200 bytes, so that each of these can be full.
#![tactic(auto)]

mod asking;
mod changing;

pub use changing::unranged;

#[derive(Clone, Copy)]
pub struct Memory {
    pub objects: [u64; 108],
    pub slots: [u64; 900],
    pub words: [u64; 300],
    pub bytes: [u8; 1200],
    pub store: [u8; 1000],
}

// Nothing was called on it yet.
pub fn zeros() -> Memory {
    Memory {
        objects: [0; 108],
        slots: [0; 900],
        words: [0; 300],
        bytes: [0; 1200],
        store: [0; 1000],
    }
}
