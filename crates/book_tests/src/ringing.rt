// Which bells ring as calls are made, and as a process is launched, reports, is sent a control and
// ends.
ghost use Rattle.std.specs.Prelude.{◌≢◌, IfSome};
ghost use Rattle.scm_model.specs.declared.flat.Phase.TheVariants as phases;
ghost use Rattle.scm_book.specs.Passes.{HoldsProcess, IsOf};

use crate::rows::{Row, come, told};
use crate::starts::{Sight, is_seen, launch, look, report};
use book_calls::{Asked, Site, begin_start};
use record_journal::MemoryKeeper;
use scm_book::{Book, ControlLook, EndedEnd, Pass, ReportEnd};
use scm_model::Order;
use scm_model::codes::{SERVICE_CONTROL_STOP, SERVICE_RUNNING, SERVICE_STOPPED};
use std::alloc::Global;
use std::sync::Wait;
use std::test::Fail;

/// The STOP of the first service.
const STOP: Order = Order {
    service: 1,
    code: SERVICE_CONTROL_STOP,
};

/// The counts of the common bell, and of the bells of processes 1 and 2.
#[derive(Clone, Copy)]
struct Counts {
    common: u64,
    first: u64,
    second: u64,
}

fn counted(book: &Book<MemoryKeeper>) -> Counts {
    Counts {
        common: book.bell().count(),
        first: book.child_bell(1).count(),
        second: book.child_bell(2).count(),
    }
}

/// Which of the three bells ring.
#[derive(Clone, Copy, PartialEq, Eq)]
enum Rung {
    Nothing,
    Common,
    First,
    CommonAndFirst,
    All,
}

/// Which of them have rung since they were counted.
fn rung_since(book: &Book<MemoryKeeper>, before: Counts) -> Option<Rung> {
    let now = counted(book);
    let common = now.common != before.common;
    let first = now.first != before.first;
    let second = now.second != before.second;
    match (common, first, second) {
        (false, false, false) => Some(Rung::Nothing),
        (true, false, false) => Some(Rung::Common),
        (false, true, false) => Some(Rung::First),
        (true, true, false) => Some(Rung::CommonAndFirst),
        (true, true, true) => Some(Rung::All),
        _ => None,
    }
}

/// Whether a call has the outcome that is wanted of it, and rings so.
fn ring_once<R: Wait>(at: &Site<'_, R>, pass: &mut Pass, row: Row, rung: Rung) -> bool
    requires book { IsOf at.now.book.now pass.old }
    requires caller { pass.old.caller ≢ 0 }
    ensures book { IsOf at.now.book.now pass.new }
    ensures caller { pass.new.caller ≢ 0 }
{
    let before = counted(at.book);
    let is_right = come(at, pass, &[row]);
    is_right && rung_since(at.book, before) == Some(rung)
}

/// Whether each call has its outcome in `rows`, and rings as stated beside it.
fn ring<R: Wait>(at: &Site<'_, R>, pass: &mut Pass, rows: &[(Row, Rung)]) -> bool
    requires book { IsOf at.now.book.now pass.old }
    requires caller { pass.old.caller ≢ 0 }
    ensures book { IsOf at.now.book.now pass.new }
    ensures caller { pass.new.caller ≢ 0 }
{
    for (row, rung) in rows {
        if !ring_once(at, pass, *row, *rung) {
            return false;
        }
    }
    true
}

/// A service is made and looked at.
fn made() -> [(Row, Rung); 4] {
    let (manager, name) = (1, 0x41);
    let stopped = u64::from(SERVICE_STOPPED);
    [
        (told(Asked::OpensManager, 0, 1), Rung::Nothing),
        (told(Asked::Creates { manager, name }, 0, 2), Rung::Common),
        (told(Asked::Opens { manager, name }, 0, 3), Rung::Nothing),
        (
            told(Asked::Queries { handle: 2 }, 0, stopped),
            Rung::Nothing,
        ),
    ]
}

/// It is looked at, and stopped.
fn stopped() -> [(Row, Rung); 2] {
    let running = u64::from(SERVICE_RUNNING);
    [
        (
            told(Asked::Queries { handle: 2 }, 0, running),
            Rung::Nothing,
        ),
        (
            told(Asked::Stops { handle: 2 }, 0, running),
            Rung::CommonAndFirst,
        ),
    ]
}

/// Whether the start of a service rings so. Its process, if all do.
fn starts<R: Wait>(at: &Site<'_, R>, pass: &mut Pass, other: &mut Pass) -> Option<u64>
    requires book { IsOf at.now.book.now pass.old }
    requires caller { pass.old.caller ≢ 0 }
    requires other { IsOf at.now.book.now other.old }
    ensures book { IsOf at.now.book.now pass.new }
    ensures caller { pass.new.caller ≢ 0 }
    ensures other { IsOf at.now.book.now other.new }
    ensures process { IfSome result (λ process.
        HoldsProcess at.now.book.now.opening other.new process phases.Launched) }
{
    let before = counted(at.book);
    let is_begun = begin_start(at.rt, at.alloc, at.book, pass, 2).is_some();
    let begun = rung_since(at.book, before);
    let before = counted(at.book);
    let process = launch(at, other)?;
    let launched = rung_since(at.book, before);
    if is_begun && begun == Some(Rung::Common) && launched == Some(Rung::Common) {
        Some(process)
    } else {
        None
    }
}

/// Whether a process that was sent a control takes it, stops its service and ends, and rings so.
fn ends<R: Wait>(
    rt: &R,
    alloc: Global,
    book: &Book<MemoryKeeper>,
    other: &mut Pass,
    process: u64,
) -> bool
    requires book { IsOf book.now other.old }
    requires process { HoldsProcess book.now.opening other.old process phases.Launched }
    ensures book { IsOf book.now other.new }
{
    let before = counted(book);
    let control = look(rt, alloc, book, other, process);
    let taken = rung_since(book, before);
    let is_stopped = reports(rt, book, other, process, SERVICE_STOPPED, Rung::Common);
    let before = counted(book);
    let end = book.ended(rt, other, 0, process);
    let ended = rung_since(book, before);
    control
        == ControlLook::Control {
            order: STOP,
            shared: false,
        }
        && taken == Some(Rung::First)
        && is_stopped
        && end == EndedEnd::Stale
        && ended == Some(Rung::CommonAndFirst)
}

/// Whether the report of a state is taken, and rings so.
fn reports<R: Wait>(
    rt: &R,
    book: &Book<MemoryKeeper>,
    other: &mut Pass,
    process: u64,
    state: u32,
    rung: Rung,
) -> bool
    requires book { IsOf book.now other.old }
    requires process { HoldsProcess book.now.opening other.old process phases.Launched }
    ensures book { IsOf book.now other.new }
    ensures process { HoldsProcess book.now.opening other.new process phases.Launched }
{
    let before = counted(book);
    let is_taken = report(rt, book, other, process, &[(state, ReportEnd::Taken)]);
    is_taken && rung_since(book, before) == Some(rung)
}

/// Whether a process reports, is sent a control, takes it, stops its service and ends, and rings
/// so.
fn lives<R: Wait>(at: &Site<'_, R>, pass: &mut Pass, other: &mut Pass, process: u64) -> bool
    requires book { IsOf at.now.book.now pass.old }
    requires caller { pass.old.caller ≢ 0 }
    requires other { IsOf at.now.book.now other.old }
    requires process { HoldsProcess at.now.book.now.opening other.old process phases.Launched }
    ensures { IsOf at.now.book.now other.new }
{
    reports(
        at.rt,
        at.book,
        other,
        process,
        SERVICE_RUNNING,
        Rung::Common,
    ) && ring(at, pass, &stopped())
        && ends(at.rt, at.alloc, at.book, other, process)
}

/// Whether all that a caller does rings so.
pub fn rings<R: Wait>(at: &Site<'_, R>, pass: &mut Pass, root: &mut Pass) -> bool
    requires book { IsOf at.now.book.now pass.old }
    requires caller { pass.old.caller ≢ 0 }
    requires root { IsOf at.now.book.now root.old }
    ensures { IsOf at.now.book.now root.new }
{
    let is_made = ring(at, pass, &made());
    match starts(at, pass, root) {
        Some(process) => is_made && lives(at, pass, root, process),
        None => false,
    }
}

#[test]
fn bells_ring_for_what_is_waited_for(rt: HostRuntime) -> Result<(), Fail> {
    assert!(rt; is_seen(&rt, rt.alloc(), Sight::Ringing));
    Ok(())
}
