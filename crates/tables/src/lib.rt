// Tables of calls and the answers that they must give, a line each: those of the codec (codec_lines) and histories, whose lines call
// one dictionary and one store after another (history.rt). A line that begins with # says something to its reader.
#![tactic(auto)]

mod history;
mod looking;
mod tally;

pub use tally::{State, fresh, missing, run};
