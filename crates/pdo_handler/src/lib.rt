// Received payloads: the sender's channel, its version, its mapped words in turn; and the error bits.
#![tactic(auto)]

mod consuming;
mod errors;

pub use consuming::{consume_logged, consume_logged_judged, consume_on_channel, receive};
pub use errors::{update_pdo_error_object, update_pdo_error_object_judged};
