//! The services: found by number, name, display name and group, and seen in order of number.
#![tactic(auto)]

mod iter;
mod live;
mod table;
mod texts;

pub use iter::Services;
pub use table::RecordTable;
