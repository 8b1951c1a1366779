//! Bodies by their shapes: a shape is a list of kinds of items, and bodies of every shape are read
//! and written here.
#![tactic(auto)]

mod handle_body;
mod item;
mod levels;
mod levels_written;
mod reading;
mod records;
mod values;
mod words;
mod writing;

pub use handle_body::{HandleBody, is_handle_body, read_handle_body, write_handle, write_numbers};
pub use item::{Item, Piece, Value};
pub use reading::{read_body, read_body_into};
pub use values::Values;
pub use writing::write_pieces;
