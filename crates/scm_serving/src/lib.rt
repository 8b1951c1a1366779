//! A server over a book of its own: where it listens, its connections, and what its whole history
//! came to.
#![tactic(auto)]

mod listening;
mod serving;

pub use listening::listen_both;
pub use serving::{BookEnd, BookServed, serve_book};
