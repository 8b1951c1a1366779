// Children in memory: what they write, and links that fail.
ghost use Rattle.std.specs.Prelude.{◌≡◌, ◌≢◌, ◌≤◌, IfSome};
ghost use Rattle.scm_book.specs.Passes.{IsOf};

use book_calls::{Site, close};
use child_runner::{ChildEnded, ChildServed, LaunchEnd, launch_one, serve_child};
use outside::MemorySource;
use process_runner::MemorySpawner;
use scm_book::{LaunchRoom, Pass};
use scm_model::Step;
use scm_trail::Trail;
use std::alloc::Global;
use std::sync::Wait;
use test_books::{
    BEGIN, CLOCK, Fates, Stage, TestBook, add_source, begin_within, exit_code, runner, tells,
};

/// What a child writes, which of its reads and waits fail (the last of a list goes first), how it
/// is served, what the history then tells, and the exit code of its service, where the limits have
/// room for the call that asks for it.
#[derive(Clone, Copy)]
struct Row {
    output: &'static str,
    reads: &'static [bool],
    waits: &'static [bool],
    how: ChildServed,
    told: u64,
    exit: Option<u32>,
}

/// A child that writes nothing, and ends.
const ENDED: Row = Row {
    output: "",
    reads: &[],
    waits: &[],
    how: ChildServed::Ended,
    told: 9,
    exit: Some(1067),
};

const RUNNING: &str = "STATUS 16 4 1 0 0 0 0\n";

/// A child whose line takes four reads, of which the first one fails.
const READ_FAULT: Row = Row {
    output: RUNNING,
    reads: &[true],
    how: ChildServed::ReadFault,
    ..ENDED
};

/// Thirteen reports.
const MANY: &str = "STATUS 16 4 1 0 0 0 0\nSTATUS 16 4 1 0 0 0 0\nSTATUS 16 4 1 0 0 0 0\n\
    STATUS 16 4 1 0 0 0 0\nSTATUS 16 4 1 0 0 0 0\nSTATUS 16 4 1 0 0 0 0\n\
    STATUS 16 4 1 0 0 0 0\nSTATUS 16 4 1 0 0 0 0\nSTATUS 16 4 1 0 0 0 0\n\
    STATUS 16 4 1 0 0 0 0\nSTATUS 16 4 1 0 0 0 0\nSTATUS 16 4 1 0 0 0 0\n\
    STATUS 16 4 1 0 0 0 0\n";

/// A child for whose reports there is no room: there is for eleven, and for its end.
const FULL: Row = Row {
    output: MANY,
    how: ChildServed::Full,
    told: 444_444_444_449,
    exit: None,
    ..ENDED
};

const ROWS: &[Row] = &[
    Row {
        output: "STATUS 16 4 1 0 0 0 0\nhello\nSTATUS 16 1 0 0 0 0 0\r\n",
        told: 419,
        exit: Some(0),
        ..ENDED
    },
    Row {
        output: RUNNING,
        told: 49,
        ..ENDED
    },
    // Half a line, no line, and a line that is no report.
    Row {
        output: "STATUS 16 4 1 0 0 0 0",
        ..ENDED
    },
    ENDED,
    Row {
        output: "STATUS 16 04 1 0 0 0 0\n",
        ..ENDED
    },
    // Each read of a line fails, the read after it, and the wait.
    READ_FAULT,
    Row {
        reads: &[true, false],
        ..READ_FAULT
    },
    Row {
        reads: &[true, false, false],
        ..READ_FAULT
    },
    Row {
        reads: &[true, false, false, false],
        ..READ_FAULT
    },
    Row {
        reads: &[true, false, false, false, false],
        told: 49,
        ..READ_FAULT
    },
    Row {
        reads: &[],
        waits: &[true],
        told: 49,
        ..READ_FAULT
    },
    // The read and the wait fail of a child that writes nothing.
    Row {
        output: "",
        ..READ_FAULT
    },
    Row {
        output: "",
        reads: &[],
        waits: &[true],
        ..READ_FAULT
    },
    FULL,
    Row {
        waits: &[true],
        ..FULL
    },
];

/// The state that a report tells, or 9 for the end of a process.
fn digit(step: &Step) -> Option<u64> {
    match step {
        Step::Report { status, .. } => Some(u64::from(status.state)),
        Step::Ended { .. } => Some(9),
        _ => None,
    }
}

/// The same of an entry.
fn digit_of(entry: (u64, Step)) -> Option<u64> {
    let (_, step) = entry;
    let digit = digit(&step);
    drop(step);
    digit
}

/// The states that the reports of a history tell, each a digit, and 9 for each end of a process.
fn told(trail: &Trail) -> u64 {
    let mut told = 0u64;
    for place in trail.past()..trail.len() {
        let Ok(entry) = trail.entry(place) else {
            return 0;
        };
        if let Some(digit) = digit_of(entry) {
            told = told.wrapping_mul(10).wrapping_add(digit);
        }
    }
    told
}

/// Adds the child of a row, which gives seven bytes at a time.
fn add_row(alloc: Global, fates: &mut Fates, row: &Row) -> bool {
    let mut bytes = Vec::new(alloc);
    let mut reads = Vec::new(alloc);
    let mut waits = Vec::new(alloc);
    let has_bytes = bytes.extend_from_slice(row.output.as_bytes()).is_ok();
    let has_reads = reads.extend_from_slice(row.reads).is_ok();
    let has_waits = waits.extend_from_slice(row.waits).is_ok();
    let output = MemorySource::in_pieces(bytes, 7, reads);
    let is_added = add_source(alloc, fates, 1, output, waits);
    has_bytes && has_reads && has_waits && is_added
}

/// How a child was served, and the exit code of its service then.
struct Served {
    ended: ChildEnded,
    exit: Option<u32>,
}

/// Starts a service, launches its child and serves that to its end.
fn serve<R: Wait>(
    at: &Site<'_, R>,
    caller: &mut Pass,
    room: &mut LaunchRoom,
    spawner: &mut MemorySpawner,
) -> Option<Served>
    requires caller { IsOf at.now.book.now caller.old × (caller.old.caller ≢ 0) }
    requires path { 2048 ≤ room.old.path.room }
    ensures { IfSome result (λ served. IsOf at.now.book.now served.ended.spent) }
{
    if !tells(at, caller, &BEGIN) {
        return None;
    }
    let mut by = runner(at.book, caller);
    match launch_one(at.rt, at.alloc, at.book, &mut by, room, spawner, &CLOCK) {
        LaunchEnd::Started {
            process,
            mut link,
            feed,
        } => {
            drop(feed);
            let ended = serve_child(at.rt, at.alloc, at.book, by, process, &mut link, &CLOCK);
            drop(link);
            let exit = exit_code(at.rt, at.book, caller, 2);
            Some(Served { ended, exit })
        }
        LaunchEnd::Failed { .. } | LaunchEnd::Empty => {
            drop(by);
            None
        }
    }
}

/// How a child was served, what the whole history then tells, and the exit code of its service.
#[derive(Clone, Copy)]
struct Outcome {
    how: ChildServed,
    told: u64,
    exit: Option<u32>,
}

/// The outcome in a book that is closed.
fn outcome_in<R: Wait>(rt: &R, book: TestBook, served: Served) -> Outcome
    requires { IsOf book served.ended.spent }
{
    let Served { ended, exit } = served;
    let ChildEnded { how, spent } = ended;
    let trail = close(rt, book, spent);
    let told = told(&trail);
    drop(trail);
    Outcome { how, told, exit }
}

/// The outcome of a child at a stage.
fn play<R: Wait>(
    rt: &R,
    alloc: Global,
    stage: Stage,
    room: &mut LaunchRoom,
    spawner: &mut MemorySpawner,
) -> Option<Outcome>
    requires stage { IsOf stage.book stage.caller × (stage.caller.caller ≢ 0) }
    requires path { 2048 ≤ room.old.path.room }
{
    let Stage { book, mut caller } = stage;
    let at = Site {
        rt,
        alloc,
        book: &book,
    };
    let served = serve(&at, &mut caller, room, spawner);
    drop(at);
    drop(caller);
    match served {
        Some(served) => Some(outcome_in(rt, book, served)),
        None => {
            drop(book);
            None
        }
    }
}

/// Whether a row's child is served as the row says, in a book of twenty steps.
fn is_served_in<R: Wait>(
    rt: &R,
    alloc: Global,
    row: &Row,
    room: &mut LaunchRoom,
    spawner: &mut MemorySpawner,
) -> bool
    requires { 2048 ≤ room.old.path.room }
{
    match begin_within(rt, alloc, 20) {
        Some(stage) => match play(rt, alloc, stage, room, spawner) {
            Some(Outcome { how, told, exit }) => {
                how == row.how && told == row.told && exit == row.exit
            }
            None => false,
        },
        None => false,
    }
}

/// The same with new room.
fn is_served_by<R: Wait>(rt: &R, alloc: Global, row: &Row, spawner: &mut MemorySpawner) -> bool {
    match LaunchRoom::new(alloc) {
        Ok(mut room) => {
            let is_served = is_served_in(rt, alloc, row, &mut room, spawner);
            drop(room);
            is_served
        }
        Err(_) => false,
    }
}

/// The same by a spawner that starts the row's child.
fn is_served<R: Wait>(rt: &R, alloc: Global, row: &Row) -> bool {
    let mut fates = Vec::new(alloc);
    let is_added = add_row(alloc, &mut fates, row);
    let mut spawner = MemorySpawner::new(alloc, fates);
    let is_served = is_served_by(rt, alloc, row, &mut spawner);
    drop(spawner);
    is_added && is_served
}

/// The place of the first child that isn't served as its row says.
pub fn first_wrong_child<R: Wait>(rt: &R, alloc: Global) -> Option<usize> {
    for (place, row) in ROWS.iter().enumerate() {
        if !is_served(rt, alloc, row) {
            return Some(place);
        }
    }
    None
}
