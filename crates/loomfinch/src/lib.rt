// The public calls. None has a `requires`: each judges its own input and refuses what breaks a rule. The crates c_* have the same
// calls for C.
#![tactic(auto)]

pub use answers::{Refusal, number as refusal_number};
pub use channel::{Checked, check, check_all};
pub use counter::increment_counter;
pub use element::{Explained, Fault, Missing, Target, explain};
pub use event::{Cause, Event, EventRecord, Unwritten, event_record};
pub use events::{Heard, consume_by_value, consume_pdo_payload};
pub use insertion::{Head, insert, replace};
pub use mapping::{Field, PdoMappingEntry};
pub use names::find_by_name;
pub use nodes::get_configured_cns;
pub use object_value::{decode, encode};
pub use od::{Stored, new, read, read_part, read_u8, read_u16, read_u32, read_u64};
pub use pdo_cycle::{Cycle, consume_cycle};
pub use pdo_handler::update_pdo_error_object;
pub use pdo_validator::validate_pdo_mapping;
pub use restoring::restore_power_on_values;
pub use value::{
    CodecFault, DecodeFault, IpAddress, MacAddress, NetTime, ObjectValue, RelativeTime,
    TimeDifference, TimeOfDay,
};
pub use writing::{WriteFault, Wrote, write};
