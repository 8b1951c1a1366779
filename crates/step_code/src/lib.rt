//! The code of a history's entries: a moment and a step as bytes.
#![tactic(auto)]

mod entries_read;
mod entries_written;
mod fields_passed;
mod fields_read;
mod fields_written;
mod fronts_read;
mod law;
mod length;
mod requests_passed;
mod requests_read;
mod requests_written;

pub use entries_read::{DecodedEntry, read_entry};
pub use entries_written::{write_code, write_step};
pub use fronts_read::{DecodedFront, Front, read_front};
pub use law::codes_are_read;
pub use length::code_length;
