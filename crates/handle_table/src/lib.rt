//! The handles that callers hold: found by number, with a count for each service and each caller.
#![tactic(auto)]

mod counts;
mod rows;
mod table;

pub use table::HandleTable;
