//! The launcher: the children of one book, from the launch that is wanted to their ends, and the
//! ticks that do what is due.
#![tactic(auto)]

mod children;
mod launcher;
mod ticking;

pub use children::{Child, ChildPast, Next, launch_next, run_child};
pub use launcher::{Launched, launch_all};
pub use ticking::tick_all;
