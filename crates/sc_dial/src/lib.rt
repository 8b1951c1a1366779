//! What makes connections to a peer, in memory and over TCP.
#![tactic(auto)]

mod counted;
mod dialer;
mod memory;
mod tcp;

pub use counted::{CountedSink, CountedSource};
pub use dialer::{Connection, Dialer};
pub use memory::{MemoryConnection, MemoryDialer};
pub use tcp::TcpDialer;
