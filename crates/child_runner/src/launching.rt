ghost use Rattle.std.specs.Prelude.{◌≡◌, ◌≤◌, IfOk};
ghost use Rattle.scm_book.specs.Passes.{IsOf};
ghost use Rattle.child_runner.specs.Launches.{SpawnComesTo, IsEmpty, Launches, spawning_of};
ghost use Rattle.child_runner.specs.Launches.{started_words};

use crate::fault::LaunchFault;
use child_link::Link;
use outside::Clock;
use process_runner::{Spawned, Spawner, split_command};
use record_journal::Keeper;
use scm_book::{Book, LaunchLook, LaunchRoom, Pass};
use std::alloc::Global;
use std::sync::Wait;

/// What comes of a look for a launch that is wanted.
#[derive(Drop)]
pub enum LaunchEnd<L, F> {
    /// The process was launched. These are its ends.
    Started { process: u64, link: L, feed: F },
    /// It couldn't be launched, and this error of the system (MS-ERREF) was reported to the
    /// manager: 2 if no program is there, 3 if a part of its path is no folder, 5 if it may not be
    /// run, 8 if out of memory, 31 for any other fault.
    Failed { process: u64, code: u32 },
    /// No launch is wanted.
    Empty,
}

/// Starts the words of a line.
fn start<P: Spawner>(
    alloc: Global,
    line: &LaunchRoom,
    spawner: &mut P,
) -> Result<Spawned<P::Link, P::Feed>, LaunchFault>
    ensures comes { SpawnComesTo (spawning_of (P.started spawner.old) (P.started spawner.new)
        (P.faults spawner.old) (P.faults spawner.new)) result
        (started_words (line.now.path.units, line.now.words)) }
    ensures given { IfOk result (λ child. P.gives spawner.old child.link child.feed) }
{
    let Ok(words) = split_command(alloc, line.path.units(), &line.words) else {
        return Err(LaunchFault::OutOfMemory);
    };
    let started = spawner.start(&words);
    drop(words);
    match started {
        Ok(child) => Ok(child),
        Err(fault) => Err(LaunchFault::Spawn(fault)),
    }
}

/// Takes the launch that is wanted first, starts the words of its line, and reports the outcome to
/// the manager: that the process was launched, or that it couldn't be. `room` holds the line
/// meanwhile.
pub fn launch_one<R: Wait, K: Keeper, P: Spawner, C: Clock>(
    rt: &R,
    alloc: Global,
    book: &Book<K>,
    pass: &mut Pass,
    room: &mut LaunchRoom,
    spawner: &mut P,
    clock: &C,
) -> LaunchEnd<P::Link, P::Feed>
    requires book { IsOf book.now pass.old }
    requires path { 2048 ≤ room.old.path.room }
    ensures book { IsOf book.now pass.new }
    ensures path { room.new.path.room ≡ room.old.path.room }
    ensures launches { Launches book.now.opening (C.tells clock.now) P.Link.pid
        (P.gives spawner.old) pass.old
        (spawning_of (P.started spawner.old) (P.started spawner.new)
        (P.faults spawner.old) (P.faults spawner.new)) result pass.new }
    ensures spawner { IsEmpty result → spawner.new ≡ spawner.old }
    ensures room { IsEmpty result → room.new ≡ room.old }
{
    let LaunchLook::Launch(process) = book.take_launch(rt, pass, clock.now(), room) else {
        return LaunchEnd::Empty;
    };
    match start(alloc, room, spawner) {
        Ok(Spawned { link, feed }) => {
            book.launched(rt, pass, clock.now(), process, link.id());
            LaunchEnd::Started {
                process,
                link,
                feed,
            }
        }
        Err(fault) => {
            let code = fault.code();
            book.launch_failed(rt, pass, clock.now(), process, code);
            LaunchEnd::Failed { process, code }
        }
    }
}
