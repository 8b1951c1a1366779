ghost use Rattle.std.specs.Prelude.{◌≡◌, ◌≤◌};
ghost use Rattle.feed_loop.specs.declared.fed.ReadEnd.{ReadEnd};
ghost use Rattle.scm_replay.specs.Along.{replayed_as};
ghost use Rattle.scm_replay.specs.Replay.{IsReplayCaused, IsFresh, IsReplayed};
ghost use Rattle.scm_replay.specs.Outcomes.{standing};

use super::feeding::Reading;
use super::replayed::Replayed;
use super::replayer::Replayer;
use super::stop::Stop;
use feed_loop::{ReadEnd, feed_all};
use outside::{Sink, Source};
use scm_core::Manager;
use scm_shapes::Values;
use std::alloc::Global;

/// How a run ends, by how its feeding ended and whether nothing stands after the last line.
fn replayed_as(fed: ReadEnd<Stop>, at_rest: bool) -> Replayed
    ensures { result ≡ replayed_as fed at_rest }
{
    match fed {
        ReadEnd::Ended if at_rest => Replayed::Ended,
        ReadEnd::Ended => Replayed::Truncated,
        ReadEnd::ReadFault => Replayed::ReadFault,
        ReadEnd::Worn => Replayed::Worn,
        ReadEnd::Stopped(Stop::BadLine) => Replayed::BadLine,
        ReadEnd::Stopped(Stop::WriteFault) => Replayed::WriteFault,
        ReadEnd::Stopped(Stop::OutOfMemory) => Replayed::OutOfMemory,
    }
}

/// Makes the steps of the input's lines, each in the state that the step before it left, and writes
/// for each line the one that answers it, before more is read. Nothing is appended anywhere: a
/// `call`'s change is taken as kept, a `failcall`'s as one that couldn't be. `WriteFault` and
/// `OutOfMemory` leave a front of the text, all else the whole text of what was read.
///
/// The manager then stands where the steps that were made leave it. A line that is bad, full, too
/// many or looked in vain made none. Beside the manager this holds one line, with what it says and
/// its answer, and one piece of 4,096 bytes.
pub fn replay<I: Source, O: Sink>(
    alloc: Global,
    manager: &mut Manager,
    input: &mut I,
    output: &mut O,
) -> Replayed
    requires { IsFresh manager.old }
    ensures replayed { IsReplayed manager.old.limits (standing manager.old) (standing manager.new)
        (I.left input.old) (I.left input.new) (O.held output.old) (O.held output.new) result }
    ensures limits { manager.new.limits ≡ manager.old.limits }
    ensures input { I.faults input.old ≤ I.faults input.new }
    ensures output { O.faults output.old ≤ O.faults output.new }
    ensures cause { IsReplayCaused result
        (I.faults input.old) (I.faults input.new) (O.faults output.old) (O.faults output.new) }
{
    let mut replayer = Replayer {
        alloc,
        reading: Reading {
            pending: Vec::new(alloc),
            number: 1,
            values: Values::new(alloc),
            text: Vec::new(alloc),
        },
    };
    let mut read = 0u64;
    let fed = feed_all(&mut replayer, manager, output, input, &mut read);
    let at_rest = replayer.reading.pending.is_empty();
    drop(replayer);
    replayed_as(fed, at_rest)
}
