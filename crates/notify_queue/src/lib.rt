//! The registrations: which caller waits for which events, and the event that each was notified of.
#![tactic(auto)]

mod queue;
mod row;
mod rows;

pub use queue::NotifyQueue;
pub use row::Notice;
