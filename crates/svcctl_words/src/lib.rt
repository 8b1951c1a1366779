//! Rows in words as what is sent and answered: bodies and PDUs of svcctl, and lines of steps and
//! answers. They are made by the formats alone, and nothing of the program is used. For tests.
#![tactic(auto)]

mod bodies;
mod names;
mod sheet;

pub use bodies::{Body, put_hex, put_hex_lines};
pub use names::Table;
pub use sheet::{Sheet, Side, first_word};
