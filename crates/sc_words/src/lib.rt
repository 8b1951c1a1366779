//! Commands of `sc` as words, what they ask of a manager, and what is printed of its answers.
#![tactic(auto)]

mod asking;
mod calls;
mod command;
mod fault;
mod reading;
mod security;
mod settings;
mod showing;
mod texts;
mod triggers;
mod values;
mod verb;

pub use asking::next_request;
pub use calls::{Failure, Heard, Method};
pub use command::{Command, Level, Task};
pub use fault::WordsFault;
pub use reading::read_words;
pub use security::NewSecurity;
pub use settings::{Key, Settings};
pub use showing::{failure_of, show_reply};
pub use texts::word_text;
pub use values::StartType;
pub use verb::{Verb, verb_named};
