ghost use Rattle.std.specs.Prelude.{◌≢◌, ◌≤◌};
ghost use Rattle.scm_model.specs.declared.flat.Phase.TheVariants as phases;
ghost use Rattle.scm_book.specs.Passes.{HoldsProcess, IsOf};

use book_calls::Site;
use child_link::{Link, PipeFeed, PipeLink, Reported, read_line_step};
use child_runner::{ControlsEnded, ControlsSent, LaunchEnd, Sender, launch_one, send_controls};
use process_runner::{ProcessSpawner, Spawner};
use scm_book::{EndedEnd, LaunchRoom, Pass, ReportEnd};
use scm_model::Step;
use std::alloc::Global;
use std::env;
use std::rt::Env;
use std::sync::Wait;
use std::test::Fail;
use test_books::{AfterLooks, Ask, CLOCK, NOTHING, Stage, begin, runner, tells};

/// A shell that reports, obeys STOP and nothing else, and reports again.
const SHELL: &str = "/bin/sh -c \"echo STATUS 16 4 1 0 0 0 0; read word code; \
    [ $word$code = CONTROL1 ] && echo STATUS 16 1 0 0 0 0 0\"";

/// A shell that does so for service 1, `Sh`, after it has read that this service is to start.
const SHARED_SHELL: &str = "/bin/sh -c \"read word number name; \
    [ $word$number$name = START1Sh ] && echo STATUS 1 32 4 1 0 0 0 0; read word number code; \
    [ $word$number$code = CONTROL11 ] && echo STATUS 1 32 1 0 0 0 0 0\"";

/// A program that is started: what creates its service, and how many lines it is sent before it
/// reports.
#[derive(Clone, Copy)]
struct Program<'a> {
    creates: Ask<'a>,
    lines: u64,
}

/// The command line of the program that is started: that which the variable SERVICE has, or the
/// shell's.
fn command<R: Env + AllocGlobal>(rt: &R) -> Option<String> {
    match env::var(rt, "SERVICE") {
        Ok(line) => Some(line),
        Err(_) => String::from_str(rt.alloc(), SHELL).ok(),
    }
}

/// Reads what a child writes up to its next line feed, or its end. Whether no read failed.
fn read_line<L: Link>(link: &mut L, line: &mut Vec<u8>) -> bool {
    let mut byte = [0];
    for _ in 0..128 {
        match link.read(&mut byte) {
            Ok(0) => return true,
            Ok(_) => {}
            Err(_) => return false,
        }
        if line.push(byte[0]).is_err() {
            return false;
        }
        if byte[0] == b'\n' {
            return true;
        }
    }
    true
}

/// What a step reports, if it is a report.
fn report_of(step: &Option<Step>) -> Option<Reported> {
    match step {
        Some(
            Step::Report {
                service,
                status,
                ..
            },
        ) => Some(Reported {
            service: *service,
            status: *status,
        }),
        _ => None,
    }
}

/// What a line reports.
fn report_in(line: &[u8], process: u64) -> Option<Reported> {
    let step = read_line_step(line, process);
    let report = report_of(&step);
    drop(step);
    report
}

/// What a child's next line reports.
fn next_report<L: Link>(alloc: Global, link: &mut L, process: u64) -> Option<Reported> {
    let mut line = Vec::new(alloc);
    let is_read = read_line(link, &mut line);
    let report = report_in(line.as_slice(), process);
    drop(line);
    if is_read { report } else { None }
}

/// Makes the report of a child's next line, and tells its state where that was taken.
fn report_next<R: Wait, L: Link>(
    at: &Site<'_, R>,
    runner: &mut Pass,
    process: u64,
    link: &mut L,
) -> Option<u32>
    requires book { IsOf at.now.book.now runner.old }
    requires process { HoldsProcess at.now.book.now.opening runner.old process phases.Launched }
    ensures book { IsOf at.now.book.now runner.new }
    ensures process { HoldsProcess at.now.book.now.opening runner.new process phases.Launched }
{
    let Reported { service, status } = next_report(at.alloc, link, process)?;
    match at.book.report(at.rt, runner, 0, process, service, &status) {
        ReportEnd::Taken => Some(status.state),
        _ => None,
    }
}

/// Whether a process is sent as many lines.
fn is_sent<R: Wait>(
    at: &Site<'_, R>,
    caller: &mut Pass,
    process: u64,
    feed: &mut PipeFeed,
    lines: u64,
) -> bool
    requires { IsOf at.now.book.now caller.old × (caller.old.caller ≢ 0) }
    ensures { IsOf at.now.book.now caller.new × (caller.new.caller ≢ 0) }
{
    let mut pass = runner(at.book, caller);
    let quit = AfterLooks::new(lines);
    let sender = Sender {
        rt: at.rt,
        alloc: at.alloc,
        book: at.book,
        process,
        clock: &CLOCK,
        quit: &quit,
    };
    let how = sender.write_controls(&mut pass, feed);
    drop(sender);
    drop(quit);
    drop(pass);
    how == ControlsSent::Shut
}

/// Whether a child reports RUNNING, is sent a STOP, reports STOPPED and ends.
fn obeys<R: Wait>(
    at: &Site<'_, R>,
    caller: &mut Pass,
    runner: &mut Pass,
    process: u64,
    link: &mut PipeLink,
    feed: PipeFeed,
) -> bool
    requires caller { IsOf at.now.book.now caller.old × (caller.old.caller ≢ 0) }
    requires runner { IsOf at.now.book.now runner.old }
    requires process { HoldsProcess at.now.book.now.opening runner.old process phases.Launched }
{
    let running = report_next(at, runner, process, link);
    let granted = tells(at, caller, &[(Ask::Stops(2), 0)]);
    let sender = at.book.join_runner(caller);
    let quit = AfterLooks::new(1);
    let ControlsEnded { how, spent, past } = send_controls(
        at.rt, at.alloc, at.book, sender, process, feed, &CLOCK, &quit,
    );
    drop(spent);
    drop(quit);
    let stopped = report_next(at, runner, process, link);
    let waited = link.wait();
    let ended = at.book.ended(at.rt, runner, 0, process);
    running == Some(4)
        && granted
        && how == ControlsSent::Shut
        && past.faults == 0
        && stopped == Some(1)
        && waited.is_ok()
        && ended == EndedEnd::Stale
}

/// Whether the program of a new service is started and obeys.
fn starts<R: Wait, P: Spawner<Link = PipeLink, Feed = PipeFeed>>(
    at: &Site<'_, R>,
    caller: &mut Pass,
    room: &mut LaunchRoom,
    spawner: &mut P,
    program: Program<'_>,
) -> bool
    requires caller { IsOf at.now.book.now caller.old × (caller.old.caller ≢ 0) }
    requires path { 2048 ≤ room.old.path.room }
{
    let mut by = runner(at.book, caller);
    let begins = [
        (Ask::OpensManager, 0),
        (program.creates, 0),
        (Ask::Starts(2), 0),
    ];
    let made = tells(at, caller, &begins);
    match launch_one(at.rt, at.alloc, at.book, &mut by, room, spawner, &CLOCK) {
        LaunchEnd::Started {
            process,
            mut link,
            mut feed,
        } => {
            let sent = is_sent(at, caller, process, &mut feed, program.lines);
            let obeyed = obeys(at, caller, &mut by, process, &mut link, feed);
            drop(link);
            drop(by);
            made && sent && obeyed
        }
        LaunchEnd::Failed { .. } | LaunchEnd::Empty => {
            drop(by);
            false
        }
    }
}

/// The same over a new book.
fn starts_in<R: Wait, P: Spawner<Link = PipeLink, Feed = PipeFeed>>(
    rt: &R,
    alloc: Global,
    room: &mut LaunchRoom,
    spawner: &mut P,
    program: Program<'_>,
) -> bool
    requires { 2048 ≤ room.old.path.room }
{
    match begin(rt, alloc) {
        Some(Stage { book, mut caller }) => {
            let at = Site {
                rt,
                alloc,
                book: &book,
            };
            let starts = starts(&at, &mut caller, room, spawner, program);
            drop(at);
            drop(caller);
            drop(book);
            starts
        }
        None => false,
    }
}

/// The same with new room.
fn starts_by<R: Wait, P: Spawner<Link = PipeLink, Feed = PipeFeed>>(
    rt: &R,
    alloc: Global,
    spawner: &mut P,
    program: Program<'_>,
) -> bool {
    match LaunchRoom::new(alloc) {
        Ok(mut room) => {
            let starts = starts_in(rt, alloc, &mut room, spawner, program);
            drop(room);
            starts
        }
        Err(_) => false,
    }
}

#[test]
fn a_program_that_is_started_obeys_a_stop(rt: HostRuntime) -> Result<(), Fail> {
    let path = command(&rt).ok_or("memory")?;
    let program = Program {
        creates: Ask::Creates("A", path.as_str(), NOTHING),
        lines: 0,
    };
    let mut spawner = ProcessSpawner::new(&rt, rt.alloc());
    let starts = starts_by(&rt, rt.alloc(), &mut spawner, program);
    drop(spawner);
    drop(path);
    assert!(rt; starts);
    Ok(())
}

#[test]
fn a_program_is_told_which_service_is_to_start(rt: HostRuntime) -> Result<(), Fail> {
    let program = Program {
        creates: Ask::Shares("Sh", SHARED_SHELL),
        lines: 1,
    };
    let mut spawner = ProcessSpawner::new(&rt, rt.alloc());
    let starts = starts_by(&rt, rt.alloc(), &mut spawner, program);
    drop(spawner);
    assert!(rt; starts);
    Ok(())
}
