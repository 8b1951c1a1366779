//! The client as a whole: a command of words, over a connection that is dialled for it.
#![tactic(auto)]

mod client;
mod diagnostics;
mod fault;
mod hearing;
mod messages;
mod usage;

pub use client::sc_main;
pub use diagnostics::finish;
pub use fault::{ScFault, status_of};
