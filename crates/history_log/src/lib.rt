//! Where the history of a run goes as it grows: nowhere, into memory, or into a file.
#![tactic(auto)]

mod log;

pub use log::HistoryLog;
