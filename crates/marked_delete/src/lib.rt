//! Which services are marked, and which of them leaves next.
#![tactic(auto)]

mod leaving;

pub use leaving::{Free, Leaving};
