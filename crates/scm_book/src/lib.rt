//! The book: one legal history for all callers.
//!
//! What the holder of the turn has ([`Held`]) is the manager, the trail of its steps and the
//! journal of the configurations with its keeper. Who has a [`Pass`] makes steps, each at the end
//! of the history, and has then seen all of it.
#![tactic(auto)]

mod answers;
mod bells;
mod book;
mod controlling;
mod fault;
mod held;
mod joining;
mod laws;
mod pass;
mod processes;
mod turning;

pub use answers::{CallEnd, EndLook, JoinFault, NotJoined, StartEnd};
pub use bells::Bell;
pub use book::{Book, Closed, Opened};
pub use controlling::{ControlLook, ControlRoom};
pub use fault::MakeFault;
pub use held::{Held, Owed, PendingEntry};
pub use laws::{each_entry_follows, standing_is_kept};
pub use pass::{Pass, Spent};
pub use processes::{EndedEnd, LaunchLook, LaunchRoom, ReportEnd, TickEnd};
