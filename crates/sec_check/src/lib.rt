//! What a security descriptor allows a principal.
#![tactic(auto)]

mod checking;
mod identities;
mod laws;

pub use checking::allowed;
pub use laws::first_entry_decides;
