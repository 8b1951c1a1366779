//! One connection over the book: each request, a call or a raise, is a step of the connection's
//! pass, and a start that waits is looked after until it is decided.
#![tactic(auto)]

mod connection;
mod desk;
mod waiter;

pub use connection::{Ended, serve_connection};
pub use desk::BookDesk;
pub use waiter::{PipeWaiter, Waiter};
