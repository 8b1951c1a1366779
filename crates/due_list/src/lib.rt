//! What becomes due: the row that is due first stands first, and contracts see the rows in order of
//! number.
#![tactic(auto)]

mod dues;

pub use dues::DueList;
