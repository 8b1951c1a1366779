// Starts whose launches fail.
ghost use Rattle.std.specs.Prelude.{◌≢◌, ◌≤◌};
ghost use Rattle.scm_book.specs.Passes.{IsOf};

use crate::plays::{Play, is_played};
use book_calls::Site;
use child_runner::{LaunchEnd, launch_one};
use process_runner::{MemorySpawner, SpawnFault};
use scm_book::{LaunchRoom, Pass};
use std::alloc::Global;
use std::sync::Wait;
use test_books::{Ask, CLOCK, Fates, NOTHING, add_child, add_fault, launch, runner, tells};

/// The code with which the launch that is wanted first fails.
fn failure_in<R: Wait>(
    at: &Site<'_, R>,
    runner: &mut Pass,
    room: &mut LaunchRoom,
    spawner: &mut MemorySpawner,
) -> Option<u32>
    requires book { IsOf at.now.book.now runner.old }
    requires path { 2048 ≤ room.old.path.room }
    ensures { IsOf at.now.book.now runner.new }
{
    match launch_one(at.rt, at.alloc, at.book, runner, room, spawner, &CLOCK) {
        LaunchEnd::Failed { code, .. } => Some(code),
        LaunchEnd::Started {
            process: _,
            link,
            feed,
        } => {
            drop(link);
            drop(feed);
            None
        }
        LaunchEnd::Empty => None,
    }
}

/// The same, with new room.
fn failure<R: Wait>(at: &Site<'_, R>, runner: &mut Pass, spawner: &mut MemorySpawner) -> Option<u32>
    requires { IsOf at.now.book.now runner.old }
    ensures { IsOf at.now.book.now runner.new }
{
    match LaunchRoom::new(at.alloc) {
        Ok(mut room) => {
            let code = failure_in(at, runner, &mut room, spawner);
            drop(room);
            code
        }
        Err(_) => None,
    }
}

/// Whether a start fails with each of these codes, one after another.
fn fail<R: Wait>(
    at: &Site<'_, R>,
    caller: &mut Pass,
    runner: &mut Pass,
    spawner: &mut MemorySpawner,
    codes: &[u32],
) -> bool
    requires caller { IsOf at.now.book.now caller.old × (caller.old.caller ≢ 0) }
    requires runner { IsOf at.now.book.now runner.old }
    ensures caller { IsOf at.now.book.now caller.new × (caller.new.caller ≢ 0) }
    ensures runner { IsOf at.now.book.now runner.new }
{
    for code in codes {
        let starts = tells(at, caller, &[(Ask::Starts(2), 0)]);
        if !starts || failure(at, runner, spawner) != Some(*code) {
            return false;
        }
    }
    true
}

/// Whether one program was started, of these two words.
fn is_started(spawner: &MemorySpawner, first: &str, second: &str) -> bool {
    match spawner.started() {
        [words] => match words.as_slice() {
            [one, other] => one.as_str() == first && other.as_str() == second,
            _ => false,
        },
        _ => false,
    }
}

/// A service with a path and a word.
const CREATED: [(Ask<'static>, u32); 2] = [
    (Ask::OpensManager, 0),
    (Ask::Creates("A", "\"/a b\" -x", NOTHING), 0),
];

/// Whether four starts fail, each with the code of its fault, and the fifth starts its program.
pub fn fails_then_starts<R: Wait>(
    at: &Site<'_, R>,
    caller: &mut Pass,
    spawner: &mut MemorySpawner,
) -> bool
    requires { IsOf at.now.book.now caller.old × (caller.old.caller ≢ 0) }
{
    let mut first = runner(at.book, caller);
    let made = tells(at, caller, &CREATED);
    let codes = [2, 3, 5, 31];
    let failed = fail(at, caller, &mut first, spawner, &codes);
    let starts = tells(at, caller, &[(Ask::Starts(2), 0)]);
    let fifth = launch(at, &mut first, spawner);
    drop(first);
    let started = is_started(spawner, "/a b", "-x");
    made && failed && starts && fifth == Some(5) && started
}

/// The faults of the starts, the last one first.
const FAULTS: [SpawnFault; 4] = [
    SpawnFault::Other,
    SpawnFault::Denied,
    SpawnFault::NoPath,
    SpawnFault::NotFound,
];

fn add_faults(fates: &mut Fates) -> bool {
    for fault in FAULTS {
        if !add_fault(fates, fault) {
            return false;
        }
    }
    true
}

/// Whether each fault of a spawner has its code.
pub fn faults_have_codes<R: Wait>(rt: &R, alloc: Global) -> bool {
    let mut fates = Vec::new(alloc);
    let are_added = add_child(alloc, &mut fates, 7, b"") && add_faults(&mut fates);
    let is_played = is_played(rt, alloc, Play::FailsThenStarts, fates);
    are_added && is_played
}
