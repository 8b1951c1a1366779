//! Histories, written as text.
#![tactic(auto)]

mod beginning;
mod entries;
mod exporting;
mod fault;
mod gathering;
mod head;
mod law;
mod writing;

pub use exporting::export;
pub use fault::ExportFault;
pub use law::an_export_is_legal;
