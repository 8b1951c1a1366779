//! What the configuration of a service has to be.
#![tactic(auto)]

mod checking;
mod lines;
mod reading;
mod writing;

pub use checking::{check_change, check_new, has_bad_lists, is_bad_account, is_bad_name};
pub use lines::{is_bad_line, is_broken};
pub use reading::{RecordFault, read_record, read_record_1};
pub use writing::{put_count, put_text, record_bytes};
