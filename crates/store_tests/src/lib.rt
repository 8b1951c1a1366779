//! Tests of the store of a journal, of compactions and of moves, over a disk in memory: bytes that
//! are stated outside, what is left if a call of the disk fails, and what the images open to that a
//! crash may leave.
#![tactic(auto)]

#[cfg(test)]
mod bytes;
#[cfg(test)]
mod compactions;
#[cfg(test)]
mod crashes;
#[cfg(test)]
mod files;
#[cfg(test)]
mod images;
#[cfg(test)]
mod moves;
#[cfg(test)]
mod rows;
#[cfg(test)]
mod stores;
