//! The service manager's processes: what they report, their ends, the controls that wait for them,
//! and the triggers that start and stop them.
#![tactic(auto)]

mod controlling;
mod raising;
mod reporting;

pub use controlling::{control, control_verdict, take_control};
pub use raising::{raise, raise_starts, raise_verdict, started_in};
pub use reporting::{end, report, set_status, set_status_verdict};
