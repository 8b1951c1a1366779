//! A journal is replaced by its compact text, or moved to an empty store as its compact text.
#![tactic(auto)]

mod compacting;
mod law;
mod moving;

pub use compacting::compact;
pub use law::a_settled_store_leaves_its_content;
pub use moving::{MoveFault, move_journal};
