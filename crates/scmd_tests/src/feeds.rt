// Controls, and feeds that fail.
ghost use Rattle.std.specs.Prelude.{◌≡◌, ◌≢◌};
ghost use Rattle.scm_book.specs.Passes.{IsOf};

use crate::plays::{Play, is_played};
use book_calls::Site;
use child_runner::{BellQuit, ControlsEnded, ControlsSent, Sender, send_controls};
use outside::MemorySink;
use process_runner::{MemorySpawner, NoQuit, Quit};
use scm_book::{EndedEnd, Pass};
use std::alloc::Global;
use std::sync::Wait;
use test_books::{AfterLooks, Ask, CLOCK, NOTHING, add_child, launch, runner, tells};

/// `B`, and `A`, which needs it; `B` is started.
const BEGIN: [(Ask<'static>, u32); 4] = [
    (Ask::OpensManager, 0),
    (Ask::Creates("B", "/b", NOTHING), 0),
    // It needs `B`.
    (Ask::Creates("A", "/a", &[0x42, 0, 0, 0, 0, 0]), 0),
    (Ask::Starts(2), 0),
];

/// `B` runs as process 1, and is asked to stop while `A` starts as process 2, and once that has
/// ended.
fn stops<R: Wait>(at: &Site<'_, R>, caller: &mut Pass, spawner: &mut MemorySpawner) -> bool
    requires { IsOf at.now.book.now caller.old × (caller.old.caller ≢ 0) }
    ensures { IsOf at.now.book.now caller.new × (caller.new.caller ≢ 0) }
{
    let mut by = runner(at.book, caller);
    let begins = tells(at, caller, &BEGIN);
    let first = launch(at, &mut by, spawner);
    let runs = tells(at, caller, &[(Ask::Runs(2), 0), (Ask::Starts(3), 0)]);
    let Some(second) = launch(at, &mut by, spawner) else {
        drop(by);
        return false;
    };
    let refused = tells(at, caller, &[(Ask::Stops(2), 1051)]);
    let ended = at.book.ended(at.rt, &mut by, 0, second);
    drop(by);
    let granted = tells(at, caller, &[(Ask::Stops(2), 0)]);
    begins
        && first == Some(1)
        && runs
        && second == 2
        && refused
        && ended == EndedEnd::Taken
        && granted
}

/// Whether the controls of a process are so sent until so many looks were made, to a feed
/// that has this written then.
fn writes<R: Wait>(
    at: &Site<'_, R>,
    pass: &mut Pass,
    process: u64,
    looks: u64,
    feed: &mut MemorySink,
    how: ControlsSent,
    written: &[u8],
) -> bool
    requires { IsOf at.now.book.now pass.old }
    ensures { IsOf at.now.book.now pass.new }
{
    let quit = AfterLooks::new(looks);
    let sender = Sender {
        rt: at.rt,
        alloc: at.alloc,
        book: at.book,
        process,
        clock: &CLOCK,
        quit: &quit,
    };
    let ended = sender.write_controls(pass, feed);
    drop(sender);
    drop(quit);
    ended == how && feed.bytes() == written
}

/// How the sending of a process's controls by a new pass ends that sends nothing.
fn sends<R: Wait, Q: Quit>(
    at: &Site<'_, R>,
    caller: &mut Pass,
    process: u64,
    quit: &Q,
) -> Option<ControlsSent>
    requires { IsOf at.now.book.now caller.old }
    ensures book { IsOf at.now.book.now caller.new }
    ensures caller { caller.new.caller ≡ caller.old.caller }
{
    let runner = at.book.join_runner(caller);
    let feed = MemorySink::new(at.alloc, Vec::new(at.alloc));
    let ControlsEnded { how, spent, past } = send_controls(
        at.rt, at.alloc, at.book, runner, process, feed, &CLOCK, quit,
    );
    let is_empty = past.bytes().is_empty();
    drop(past);
    drop(spent);
    if is_empty { Some(how) } else { None }
}

/// The line of a control to stop.
const STOP_LINE: &[u8] = b"CONTROL 1\n";

/// Whether the control of process 1 is written once, to a feed of its own.
fn is_written_once<R: Wait>(at: &Site<'_, R>, runner: &mut Pass) -> bool
    requires { IsOf at.now.book.now runner.old }
    ensures { IsOf at.now.book.now runner.new }
{
    let mut feed = MemorySink::new(at.alloc, Vec::new(at.alloc));
    let how = ControlsSent::Shut;
    let is_written = writes(at, runner, 1, 3, &mut feed, how, STOP_LINE);
    drop(feed);
    is_written
}

/// What is written of it if each of its bytes fails in turn.
const FRONTS: &[&[u8]] = &[
    b"",
    b"C",
    b"CO",
    b"CON",
    b"CONT",
    b"CONTR",
    b"CONTRO",
    b"CONTROL",
    b"CONTROL ",
    b"CONTROL 1",
];

/// Puts a failure and so many successes before it. Whether there is memory for them.
fn put_failure(fails: &mut Vec<bool>, before: usize) -> bool {
    if fails.push(true).is_err() {
        return false;
    }
    for _ in 0..before {
        if fails.push(false).is_err() {
            return false;
        }
    }
    true
}

/// Whether a control of process 1 is written up to here to a feed that takes a byte at a time and
/// fails then.
fn is_fault<R: Wait>(at: &Site<'_, R>, runner: &mut Pass, written: &[u8]) -> bool
    requires { IsOf at.now.book.now runner.old }
    ensures { IsOf at.now.book.now runner.new }
{
    let mut fails = Vec::new(at.alloc);
    let is_ready = put_failure(&mut fails, written.len());
    let mut feed = MemorySink::in_pieces(at.alloc, 1, fails);
    let how = ControlsSent::WriteFault;
    let is_fault = writes(at, runner, 1, 3, &mut feed, how, written);
    drop(feed);
    is_ready && is_fault
}

/// Whether that is so of each front of the line, each time after one more stop.
fn each_is_fault<R: Wait>(at: &Site<'_, R>, caller: &mut Pass, runner: &mut Pass) -> bool
    requires caller { IsOf at.now.book.now caller.old × (caller.old.caller ≢ 0) }
    requires runner { IsOf at.now.book.now runner.old }
    ensures caller { IsOf at.now.book.now caller.new × (caller.new.caller ≢ 0) }
    ensures runner { IsOf at.now.book.now runner.new }
{
    for written in FRONTS {
        let again = tells(at, caller, &[(Ask::Stops(2), 0)]);
        if !again || !is_fault(at, runner, written) {
            return false;
        }
    }
    true
}

/// Whether a stop that is granted is written once, and more are asked for then; and how the sending
/// ends where it is asked to, where any call of its feed fails, and where no such process is
/// listed.
pub fn stops_once<R: Wait>(at: &Site<'_, R>, caller: &mut Pass, spawner: &mut MemorySpawner) -> bool
    requires { IsOf at.now.book.now caller.old × (caller.old.caller ≢ 0) }
{
    // A look that finds no control waits no longer.
    at.book.shut(at.rt);
    let stopped = stops(at, caller, spawner);
    let asked = BellQuit::new(at.book.bell());
    let shut = sends(at, caller, 1, &asked) == Some(ControlsSent::Shut);
    let mut by = runner(at.book, caller);
    let written = is_written_once(at, &mut by);
    let fault = each_is_fault(at, caller, &mut by);
    drop(by);
    let over = sends(at, caller, 2, &NoQuit) == Some(ControlsSent::Over);
    stopped && shut && written && fault && over
}

/// Whether a stop that is granted is written once, and each write of it that fails ends the
/// sending.
pub fn is_stopped_once<R: Wait>(rt: &R, alloc: Global) -> bool {
    let mut fates = Vec::new(alloc);
    let are_added = add_child(alloc, &mut fates, 7, b"") && add_child(alloc, &mut fates, 7, b"");
    let is_played = is_played(rt, alloc, Play::StopsOnce, fates);
    are_added && is_played
}
