//! One connection, served from a source to a sink over a book that only it calls.
#![tactic(auto)]

mod alone;

pub use alone::{Piped, serve_alone};
pub use conn_desk::Served;
