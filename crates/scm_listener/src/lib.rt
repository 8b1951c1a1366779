//! What hands out connections and takes them back, in memory and on ports of the loopback.
#![tactic(auto)]

mod accepted;
mod accepting;
mod listener;
mod memory;
mod port;
mod spare;

pub use accepted::{Accepted, Numbered};
pub use accepting::PortSource;
pub use listener::{Listener, Listening};
pub use memory::{MemoryEnds, MemoryIn, MemoryListener, MemoryPast, MemoryPeer, Noted};
pub use port::{PortListener, PortPast};
