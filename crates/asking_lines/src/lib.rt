// Lines of tables that ask of the memory as it is.
#![tactic(auto)]

mod checking;
mod reading;
mod sums;

pub use checking::{channel_line, channels_line, count_line, element_line};
pub use reading::{name_line, nodes_line, read_line, typed_line};
pub use sums::{sum, sum_with_store};
