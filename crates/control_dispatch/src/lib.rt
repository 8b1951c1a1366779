//! Which controls a service gets, as `RControlService` sends them, and those that wait for its
//! process.
#![tactic(auto)]

mod judging;
mod waiting;

pub use judging::judge;
pub use waiting::Controls;
