//! What a history came to, in lines.
#![tactic(auto)]

mod counting;
mod lines;
mod summary;

pub use lines::add_numbered;
pub use summary::summary_of;
