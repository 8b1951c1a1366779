//! Steps that are read from lines, and lines that answer them.
#![tactic(auto)]

mod answers;
mod entries;
mod line;
mod reading;
mod verb;
mod words;

pub use answers::{put_line, put_number, put_order, put_told};
pub use entries::{add_hex, add_numbers, lines_are_read, put_entry};
pub use line::Line;
pub use reading::{code_at, read_line};
pub use words::{bytes_at, words_of};
