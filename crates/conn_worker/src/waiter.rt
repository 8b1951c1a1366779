// What a connection does while its start waits.
ghost use Rattle.std.specs.Prelude.{◌≡◌, ◌≤◌, Bool, false};
ghost use Rattle.scm_book.specs.Passes.{IsOf};
ghost use Rattle.conn_worker.specs.Waiting.{FailsWanted, KeepsPlans, Turns};

use record_journal::Keeper;
use scm_book::{Book, LaunchLook, LaunchRoom, Pass};
use scm_model::codes::ERROR_SERVICE_NO_THREAD;
use scm_text::OutOfMemory;
use std::alloc::Global;
use std::marker::Model;
use std::sync::Wait;

/// Takes a turn after each look that found a start undecided.
pub trait Waiter<K: Keeper> {
    /// Whether no turn makes a step.
    ghost silent: { Bool };

    /// Leaves the pass as it is, but for what it has seen, or lets the launch that is wanted first
    /// fail; a silent waiter does only the first. `seen` is the count of the book's bell before the
    /// look; the answer is the count for the next one.
    fn turn(&mut self, book: &Book<K>, pass: &mut Pass, moment: u64, seen: u64) -> u64
        requires { IsOf book.now pass.old }
        ensures book { IsOf book.now pass.new }
        ensures turns { Turns silent book.now.opening pass.old moment pass.new }
        ensures plans { KeepsPlans book.now.opening pass.old pass.new };
}

/// Lets each launch that is wanted fail with ERROR_SERVICE_NO_THREAD, since no process is run.
#[derive(Drop)]
pub struct PipeWaiter<'a, R: Wait> {
    rt: &'a R,
    room: LaunchRoom,
}

impl<'a, R: Wait> Model for PipeWaiter<'a, R> {
    ghost use Rattle.std.specs.Prelude.{◌≤◌};

    ghost Value = { Unit {0} };

    ghost view = { λ w. tt };

    ghost invariant = { λ w. 2048 ≤ w.room.path.room };
}

impl<'a, R: Wait> PipeWaiter<'a, R> {
    pub fn new(rt: &'a R, alloc: Global) -> Result<PipeWaiter<'a, R>, OutOfMemory> {
        let room = LaunchRoom::new(alloc)?;
        Ok(PipeWaiter { rt, room })
    }
}

/// Takes the launch that is wanted first, if there is one, and lets it fail.
fn fail_launch<R: Wait, K: Keeper>(
    rt: &R,
    book: &Book<K>,
    pass: &mut Pass,
    moment: u64,
    room: &mut LaunchRoom,
)
    requires book { IsOf book.now pass.old }
    requires path { 2048 ≤ room.old.path.room }
    ensures path { room.new.path.room ≡ room.old.path.room }
    ensures book { IsOf book.now pass.new }
    ensures turns { Turns false book.now.opening pass.old moment pass.new }
    ensures plans { KeepsPlans book.now.opening pass.old pass.new }
    ensures wanted { FailsWanted book.now.opening pass.old moment pass.new }
{
    match book.take_launch(rt, pass, moment, room) {
        LaunchLook::Launch(process) => {
            book.launch_failed(rt, pass, moment, process, ERROR_SERVICE_NO_THREAD);
        }
        LaunchLook::Empty => {}
    }
}

impl<'a, R: Wait, K: Keeper> Waiter<K> for PipeWaiter<'a, R> {
    ghost silent = { false };

    fn turn(&mut self, book: &Book<K>, pass: &mut Pass, moment: u64, seen: u64) -> u64
        requires { IsOf book.now pass.old }
        ensures book { IsOf book.now pass.new }
        ensures turns { Turns false book.now.opening pass.old moment pass.new }
        ensures plans { KeepsPlans book.now.opening pass.old pass.new }
        ensures wanted { FailsWanted book.now.opening pass.old moment pass.new }
    {
        fail_launch(self.rt, book, pass, moment, &mut self.room);
        seen
    }
}
