//! One command of `sc` over a connection: its bind and requests, and the answers to them.
#![tactic(auto)]

mod fault;
mod held;
mod requests;
mod running;
mod talk;
mod talking;

pub use fault::ClientFault;
pub use running::run_command;
