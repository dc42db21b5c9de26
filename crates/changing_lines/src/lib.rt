// Lines of tables that change a dictionary or a store, but by payloads.
#![tactic(auto)]

mod damaging;
mod inserting;
mod storing;

pub use damaging::damage;
pub use inserting::{counter_line, insert_line, ranged_line};
pub use storing::{bit_line, restore_line, write_line};
