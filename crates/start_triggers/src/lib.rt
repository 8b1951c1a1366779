//! What starts services unasked: their triggers (`SERVICE_TRIGGER`), and the order in which those
//! start that start automatically, by groups and tags.
#![tactic(auto)]

mod order;
mod triggers;

pub use order::{AutoStart, auto_order, auto_starts, automatic_services_are_in_a_stable_order};
pub use triggers::matching;
