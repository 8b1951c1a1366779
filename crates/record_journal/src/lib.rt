//! The journal of the configurations: what keeps its bytes, and what appends to it.
#![tactic(auto)]

mod configs;
mod entry;
mod file;
mod journal;
mod keeper;
mod law;
mod memory;
mod numbered;
mod opening;
mod reading;
mod replaying;

pub use configs::Configs;
pub use file::FileKeeper;
pub use journal::Journal;
pub use keeper::{KeepFault, Keeper};
pub use law::{
    a_changed_byte_cuts_nothing, a_journal_is_read_back, an_entry_has_parts,
    appended_changes_are_a_journal, appended_changes_end_form_1,
};
pub use memory::{Fate, MemoryKeeper};
pub use opening::{JournalFault, Restored, open_journal};
