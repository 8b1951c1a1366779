//! How a child runs over the book: its launch, what is reported of it to the manager, and the
//! controls that it is sent.
#![tactic(auto)]

mod fault;
mod launching;
mod quitting;
mod sending;
mod served;
mod serving;

pub use fault::LaunchFault;
pub use launching::{LaunchEnd, launch_one};
pub use quitting::BellQuit;
pub use sending::{ControlsEnded, ControlsSent, Sender, send_controls};
pub use served::{ChildEnded, ChildServed};
pub use serving::serve_child;
