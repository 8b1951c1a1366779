//! The service manager's calls on registrations: who wants to be told of events, and what each was
//! told.
#![tactic(auto)]

mod registering;
mod telling;

pub use registering::{notify, notify_verdict};
pub use telling::{close_notify, get_notify};
