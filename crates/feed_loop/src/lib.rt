//! The loop that reads the pieces of a source and feeds them to whatever eats them.
#![tactic(auto)]

mod eater;
mod fed;
mod feeding;

pub use eater::ByteConsumer;
pub use fed::ReadEnd;
pub use feeding::feed_all;
