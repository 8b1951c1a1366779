//! The service manager: its state, and the steps that change it.
#![tactic(auto)]

mod effect;
mod manager;
mod room;

pub use manager::{Manager, is_owed};
