//! Whether a text is a legal history, and if not, which line is the first wrong one.
#![tactic(auto)]

mod audited;
mod auditing;
mod auditor;
mod entering;
mod feeding;
mod head;
mod stop;

pub use audited::Audited;
pub use auditing::audit;
