// Restoring what was stored, or the defaults: everything is judged against its room before anything is put.
#![tactic(auto)]

mod acting;
mod restore;
mod restoring;

pub use restore::{restore_judged, restore_power_on_values};
pub use restoring::Restoring;
