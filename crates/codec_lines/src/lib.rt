// Lines of tables that ask the codec (codec.rt says their form), and event records held against the numbers of events.
#![tactic(auto)]

mod codec;
mod records;

pub use codec::{asked, tells};
pub use records::say;
