// Launches of children in memory.
ghost use Rattle.std.specs.Prelude.{◌≤◌, IfSome};
ghost use Rattle.scm_model.specs.declared.flat.Phase.TheVariants as phases;
ghost use Rattle.scm_book.specs.Passes.{HoldsProcess, IsOf};

use crate::books::CLOCK;
use book_calls::Site;
use child_runner::{LaunchEnd, launch_one};
use process_runner::MemorySpawner;
use scm_book::{LaunchRoom, Pass};
use std::sync::Wait;

/// Launches what is wanted first, lets the ends of the child go, and tells the process.
fn launch_in<R: Wait>(
    at: &Site<'_, R>,
    runner: &mut Pass,
    room: &mut LaunchRoom,
    spawner: &mut MemorySpawner,
) -> Option<u64>
    requires book { IsOf at.now.book.now runner.old }
    requires path { 2048 ≤ room.old.path.room }
    ensures book { IsOf at.now.book.now runner.new }
    ensures held { IfSome result (λ process. HoldsProcess at.now.book.now.opening runner.new process
        phases.Launched) }
{
    match launch_one(at.rt, at.alloc, at.book, runner, room, spawner, &CLOCK) {
        LaunchEnd::Started {
            process,
            link,
            feed,
        } => {
            drop(link);
            drop(feed);
            Some(process)
        }
        LaunchEnd::Failed { .. } | LaunchEnd::Empty => None,
    }
}

/// The same, with new room.
pub fn launch<R: Wait>(
    at: &Site<'_, R>,
    runner: &mut Pass,
    spawner: &mut MemorySpawner,
) -> Option<u64>
    requires { IsOf at.now.book.now runner.old }
    ensures book { IsOf at.now.book.now runner.new }
    ensures held { IfSome result (λ process. HoldsProcess at.now.book.now.opening runner.new process
        phases.Launched) }
{
    match LaunchRoom::new(at.alloc) {
        Ok(mut room) => {
            let process = launch_in(at, runner, &mut room, spawner);
            drop(room);
            process
        }
        Err(_) => None,
    }
}
