ghost use Rattle.std.specs.Prelude.{◌≡◌, None, Some};
ghost use Rattle.child_link.specs.Children.{FeedPast, feed_past};

use outside::{MemorySink, Sink, WriteSink};
use std::process::ChildStdin;

/// The standard input of a child.
pub trait Feed: Sink {
    /// What is left of it when it has ended. Another thread may get it.
    type Past: Drop + Send;

    /// What it held when it ended, where the object tells it, and how often it had failed.
    ghost tells: { Self.Past → FeedPast };

    /// Ends the child's input.
    fn end(self) -> Self::Past
        ensures { tells result ≡ feed_past (Self.held self) (Self.faults self) };
}

impl Feed for MemorySink {
    type Past = MemorySink;

    ghost tells = { λ s. feed_past (Some s.held) s.faults };

    fn end(self) -> MemorySink {
        self
    }
}

/// The pipe of a program's standard input. It tells no content.
pub type PipeFeed = WriteSink<ChildStdin>;

/// A pipe that has ended, by how often it had failed.
#[derive(Clone, Copy, Debug, PartialEq, Eq)]
pub struct PipePast {
    pub faults: u64,
}

impl Feed for PipeFeed {
    type Past = PipePast;

    ghost tells = { λ past. feed_past None past.faults };

    fn end(self) -> PipePast {
        let faults = self.faults();
        drop(self);
        PipePast { faults }
    }
}
