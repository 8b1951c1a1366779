// A launch that is wanted, and the two threads of the child that comes of it.
ghost use Rattle.std.specs.Prelude.{◌≡◌, ◌≤◌};
ghost use Rattle.scm_book.specs.Passes.{IsOf, HoldsProcess, KeepsAll};
ghost use Rattle.child_runner.specs.Launches.{spawning_of};
ghost use Rattle.scm_launcher.specs.Launches.{Hands, LooksOn};
ghost use Rattle.scm_model.specs.declared.flat.Phase.TheVariants as phases;
ghost use Rattle.child_runner.specs.Sending.{Sends};
ghost use Rattle.scm_launcher.specs.Children.{ServesLink};

use child_link::{Feed, Link};
use child_runner::{ChildEnded, ControlsEnded, LaunchEnd, launch_one, send_controls, serve_child};
use outside::Clock;
use process_runner::{Quit, Spawner};
use record_journal::Keeper;
use scm_book::{Book, LaunchRoom, Pass};
use std::alloc::Global;
use std::mem;
use std::sync::Wait;
use std::thread::{self, Threads};

/// A process that was launched: its ends, the pass that launched it, and one for its controls.
#[derive(Drop)]
pub struct Child<L, F> {
    pub process: u64,
    pub link: L,
    pub feed: F,
    pub taken: Pass,
    pub other: Pass,
}

/// The outcome of a look for a launch.
#[derive(Drop)]
pub enum Next<L, F> {
    /// The process was launched.
    Child(Child<L, F>),
    /// It couldn't be launched, and the manager was told this error of the system (MS-ERREF), as
    /// `launch_one` tells it.
    Failed { process: u64, code: u32 },
    /// No launch is wanted.
    Empty,
}

/// Launches what is wanted first by the launcher's own pass, as `launch_one` does. That pass stays
/// with the child, and the launcher goes on by a new one.
pub fn launch_next<R: Wait, K: Keeper, P: Spawner, C: Clock>(
    rt: &R,
    alloc: Global,
    book: &Book<K>,
    by: &mut Pass,
    room: &mut LaunchRoom,
    spawner: &mut P,
    clock: &C,
) -> Next<P::Link, P::Feed>
    requires book { IsOf book.now by.old }
    requires nobody { by.old.caller ≡ 0 }
    requires path { 2048 ≤ room.old.path.room }
    ensures book { IsOf book.now by.new }
    ensures nobody { by.new.caller ≡ 0 }
    ensures path { room.new.path.room ≡ room.old.path.room }
    ensures looks { LooksOn book.now.opening (C.tells clock.now) P.Link.pid
        (P.gives spawner.old) by.old
        (spawning_of (P.started spawner.old) (P.started spawner.new)
        (P.faults spawner.old) (P.faults spawner.new)) result by.new }
    ensures hands { Hands book.now result }
{
    match launch_one(rt, alloc, book, by, room, spawner, clock) {
        LaunchEnd::Started {
            process,
            link,
            feed,
        } => {
            let other = book.join_runner(by);
            let next = book.join_runner(by);
            let taken = mem::replace(by, next);
            Next::Child(Child {
                process,
                link,
                feed,
                taken,
                other,
            })
        }
        LaunchEnd::Failed { process, code } => Next::Failed { process, code },
        LaunchEnd::Empty => Next::Empty,
    }
}

/// How the serving of a child and the sending of its controls ended, each with its spent pass, and
/// what its feed left.
#[derive(Drop)]
pub struct ChildPast<P> {
    pub child: ChildEnded,
    pub controls: ControlsEnded<P>,
}

/// Serves a child until it ends, and drops its link.
fn serve_link<R: Wait, K: Keeper, L: Link + Drop, C: Clock>(
    rt: &R,
    alloc: Global,
    book: &Book<K>,
    pass: Pass,
    process: u64,
    link: L,
    clock: &C,
) -> ChildEnded
    requires book { IsOf book.now pass }
    requires nobody { pass.caller ≡ 0 }
    requires process { HoldsProcess book.now.opening pass process phases.Launched }
    ensures book { IsOf book.now result.spent }
    ensures serves { ServesLink (C.tells clock.now) book.now.opening process L.left L.faults L.ended
        link pass result.how result.spent }
{
    let mut link = link;
    let ended = serve_child(rt, alloc, book, pass, process, &mut link, clock);
    drop(link);
    ended
}

/// Serves a launched child by the pass that launched it, and sends it its controls by another,
/// until both are over. The controls are sent in a thread of their own. If no thread can be started
/// they come last, when the child has ended and gets none.
pub fn run_child<R, K, L, F, C, Q>(
    rt: &R,
    alloc: Global,
    book: &Book<K>,
    taken: Pass,
    other: Pass,
    process: u64,
    link: L,
    feed: F,
    clock: &C,
    quit: &Q,
) -> ChildPast<F::Past>
where
    R: Threads + Wait + Sync,
    K: Keeper + Send,
    L: Link + Drop,
    F: Feed + Drop + Send,
    C: Clock + Sync,
    Q: Quit + Sync,
    requires taken { IsOf book.now taken }
    requires nobody { taken.caller ≡ 0 }
    requires process { HoldsProcess book.now.opening taken process phases.Launched }
    requires other { IsOf book.now other }
    requires runner { other.caller ≡ 0 }
    ensures child_book { IsOf book.now result.child.spent }
    ensures serves { ServesLink (C.tells clock.now) book.now.opening process L.left L.faults L.ended
        link taken result.child.how result.child.spent }
    ensures controls_book { IsOf book.now result.controls.spent }
    ensures sends { let past = F.tells result.controls.past in Sends (C.tells clock.now)
        book.now.opening process (Q.may_ask quit.now) other (F.held feed) past.held
        (F.faults feed) past.faults result.controls.how result.controls.spent }
    ensures keeps { KeepsAll book.now.opening other result.controls.spent }
{
    let (controls, child) = thread::join(
        rt,
        || -> ControlsEnded<F::Past>
            requires { IsOf book.now other × (other.caller ≡ 0) }
            ensures book { IsOf book.entry.now result.spent }
            ensures sends { let past = F.tells result.past in Sends (C.tells clock.entry.now)
                book.entry.now.opening process (Q.may_ask quit.entry.now) other (F.held feed)
                past.held (F.faults feed) past.faults result.how result.spent }
            ensures keeps { KeepsAll book.entry.now.opening other result.spent }
        { send_controls(rt, alloc, book, other, process, feed, clock, quit) },
        || -> ChildEnded
            requires { IsOf book.now taken × (taken.caller ≡ 0)
                × HoldsProcess book.now.opening taken process phases.Launched }
            ensures book { IsOf book.entry.now result.spent }
            ensures serves { ServesLink (C.tells clock.entry.now) book.entry.now.opening process
                L.left L.faults L.ended link taken result.how result.spent }
        { serve_link(rt, alloc, book, taken, process, link, clock) },
    );
    ChildPast { child, controls }
}
