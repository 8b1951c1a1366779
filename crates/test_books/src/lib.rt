//! What tests of several crates build their books with: books in memory and what their one caller
//! asks, children in memory and their launches, and connections, each alone at a book of its own.
#![tactic(auto)]

mod alone;
mod books;
mod fates;
mod launches;
mod quits;

pub use alone::{SESSION, TEXTS, Talk, WHOLE, comes_to, comes_to_failing};
pub use books::{
    Ask, BEGIN, CLOCK, MOMENT, NOTHING, Stage, TestBook, begin, begin_within, decided, exit_code,
    runner, state, status, tells,
};
pub use fates::{Fates, add_child, add_fault, add_source};
pub use launches::launch;
pub use quits::AfterLooks;
