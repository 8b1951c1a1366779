//! The three files of a journal as its store sees them: what a read gives, and what a crash may
//! leave.
#![tactic(auto)]

mod calls;
mod disk;
mod file_disk;
mod files;
mod images;
mod memory;

pub use calls::{DiskCall, DiskFate, TakenCall};
pub use disk::Disk;
pub use file_disk::FileDisk;
pub use files::DiskFiles;
pub use images::Tear;
pub use memory::MemoryDisk;
