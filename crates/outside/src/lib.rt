//! What stands outside: where bytes come from and go to, and what tells moments. An object that can
//! fail counts its faults, and a call that fails has raised the count.
#![tactic(auto)]

mod clock;
mod fates;
mod sink;
mod source;

pub use clock::{Clock, FixedClock, SystemClock};
pub use sink::{MemorySink, Sink, WriteSink, write_all};
pub use source::{MemorySource, ReadSource, SliceSource, Source};

/// An object outside failed, and its count of faults rose.
#[derive(Clone, Copy, Debug, PartialEq, Eq)]
pub struct Failed;
