//! What the replies of a service control manager hold, as lines of a label and a value.
#![tactic(auto)]

mod configs;
mod levels;
mod lines;
mod listings;
mod locks;
mod printing;
mod reading;
mod security;
mod statuses;
mod triggers;

pub use configs::add_config;
pub use levels::{add_description, add_failure, add_flag, is_on};
pub use lines::{Appended, Line, add_lines};
pub use listings::add_listing;
pub use locks::add_lock;
pub use security::add_security;
pub use statuses::{add_process, add_status};
pub use triggers::add_triggers;
