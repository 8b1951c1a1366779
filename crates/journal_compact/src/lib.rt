//! The shortest journal of configurations: each of them is created, and nothing else happens.
#![tactic(auto)]

mod law;
mod writing;

pub use law::a_compact_text_is_read_back;
pub use writing::compact_text;
