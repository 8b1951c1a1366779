//! A connection's stream of PDUs as the items that they ask for, and the replies.
#![tactic(auto)]

mod contexts;
mod known;
mod replies;
mod session;
mod spare;
mod state;

pub use contexts::Interface;
pub use session::{Session, SessionFault};
pub use spare::KEPT_BYTES;
pub use state::{Incoming, RequestItem};
