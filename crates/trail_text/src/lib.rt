//! Histories as text: which texts are one, at which line a text stops being one, and the line that
//! is due after an entry.
#![tactic(auto)]

mod answering;
mod law;

pub use answering::answer_entry;
pub use law::{histories_are_told, lines_are_judged, texts_are_judged, texts_are_split};
