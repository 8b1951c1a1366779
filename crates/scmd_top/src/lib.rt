//! The service control manager as a program: what it does by its words, with what it meets outside.
#![tactic(auto)]

mod auditing;
mod groups;
mod histories;
mod jobs;
mod limits;
mod lines;
mod modes;
mod opening;
mod pipe;
mod settings;
mod stores;
mod summary;
mod top;
mod words;
mod world;

pub use top::{scmd_main, scmd_with};
pub use words::NoWords;
pub use world::World;
