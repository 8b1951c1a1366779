//! What a manager begins with as lines, both ways: limits, a moment, listed groups and
//! configurations.
#![tactic(auto)]

mod law;
mod opening;
mod reading;
mod writing;

pub use law::heads_are_read;
pub use opening::Opening;
pub use reading::{read_config, read_group, read_limits, read_moment};
pub use writing::{put_config, put_group, put_limits, put_moment};
