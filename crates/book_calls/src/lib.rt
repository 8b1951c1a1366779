//! Calls of the book in short, and books over keepers in memory: what its tests and its benchmark
//! share.
#![tactic(auto)]

mod asking;
mod books;
mod remaking;
mod starts;

pub use asking::{Asked, Told, ask, call, raise, request_of, told_by};
pub use books::{Site, close, guest, leaves, limits, new_book, new_manager, runner};
pub use remaking::make;
pub use starts::{begin_start, end_start};
