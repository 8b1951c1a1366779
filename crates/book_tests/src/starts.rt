// Starts, with the launches that they want, and what processes report and are sent.
ghost use Rattle.std.specs.Prelude.{◌≢◌, ◌≤◌, IfSome};
ghost use Rattle.scm_model.specs.declared.flat.Phase.TheVariants as phases;
ghost use Rattle.scm_book.specs.Passes.{HasPlan, HoldsProcess, IsOf, KeepsAll};

use crate::raising::raises;
use crate::ringing::rings;
use crate::rows::{Row, come, entry_at, full, history_of, told};
use book_calls::{Asked, Site, begin_start, end_start, guest, leaves, limits, new_book, runner};
use record_journal::MemoryKeeper;
use scm_book::{
    Book, ControlLook, ControlRoom, EndedEnd, LaunchLook, LaunchRoom, MakeFault, Opened, Pass,
    ReportEnd, TickEnd,
};
use scm_model::codes::{
    ERROR_INVALID_DATA, ERROR_SERVICE_NO_THREAD, ERROR_SERVICE_REQUEST_TIMEOUT,
    SERVICE_ACCEPT_STOP, SERVICE_CONTROL_STOP, SERVICE_RUNNING, SERVICE_START_PENDING,
    SERVICE_STOPPED, SERVICE_WIN32_OWN_PROCESS,
};
use scm_model::{Order, Status, Step};
use scm_trail::Trail;
use std::alloc::Global;
use std::sync::Wait;
use std::test::Fail;

/// The STOP of the first service.
const STOP: Order = Order {
    service: 1,
    code: SERVICE_CONTROL_STOP,
};

/// The same, as it is taken for its process.
const STOPS: ControlLook = ControlLook::Control {
    order: STOP,
    shared: false,
};

/// Takes the launch of `/a`, and leaves its line in `room`.
fn take_into<R: Wait>(at: &Site<'_, R>, pass: &mut Pass, room: &mut LaunchRoom) -> Option<u64>
    requires book { IsOf at.now.book.now pass.old }
    requires path { 2048 ≤ room.old.path.room }
    ensures book { IsOf at.now.book.now pass.new }
    ensures process { IfSome result (λ process.
        HoldsProcess at.now.book.now.opening pass.new process phases.Taken) }
{
    match at.book.take_launch(at.rt, pass, 0, room) {
        LaunchLook::Launch(process) if room.path.units() == [0x2F, 0x61].as_slice() => {
            Some(process)
        }
        _ => None,
    }
}

/// Takes the launch of `/a`.
pub fn take<R: Wait>(at: &Site<'_, R>, pass: &mut Pass) -> Option<u64>
    requires { IsOf at.now.book.now pass.old }
    ensures book { IsOf at.now.book.now pass.new }
    ensures process { IfSome result (λ process.
        HoldsProcess at.now.book.now.opening pass.new process phases.Taken) }
{
    match LaunchRoom::new(at.alloc) {
        Ok(mut room) => {
            let process = take_into(at, pass, &mut room);
            drop(room);
            process
        }
        Err(_) => None,
    }
}

/// Takes the launch of `/a`, and carries it out.
pub fn launch<R: Wait>(at: &Site<'_, R>, pass: &mut Pass) -> Option<u64>
    requires { IsOf at.now.book.now pass.old }
    ensures book { IsOf at.now.book.now pass.new }
    ensures process { IfSome result (λ process.
        HoldsProcess at.now.book.now.opening pass.new process phases.Launched) }
{
    let process = take(at, pass)?;
    at.book.launched(at.rt, pass, 0, process, 7);
    Some(process)
}

/// A caller makes a service that nobody needs.
pub fn service() -> [Row; 2] {
    let (manager, name) = (1, 0x41);
    [
        told(Asked::OpensManager, 0, 1),
        told(Asked::Creates { manager, name }, 0, 2),
    ]
}

/// How a process tells that its service is in a state.
fn standing(state: u32) -> Status {
    Status {
        kind: SERVICE_WIN32_OWN_PROCESS,
        state,
        accepted: if state == SERVICE_RUNNING {
            SERVICE_ACCEPT_STOP
        } else {
            0
        },
        win32: 0,
        specific: 0,
        checkpoint: 0,
        hint: 0,
    }
}

/// Whether the reports of these states come to this.
pub fn report<R: Wait>(
    rt: &R,
    book: &Book<MemoryKeeper>,
    pass: &mut Pass,
    process: u64,
    reports: &[(u32, ReportEnd)],
) -> bool
    requires book { IsOf book.now pass.old }
    requires process { HoldsProcess book.now.opening pass.old process phases.Launched }
    ensures book { IsOf book.now pass.new }
    ensures process { HoldsProcess book.now.opening pass.new process phases.Launched }
{
    for (state, want) in reports {
        if book.report(rt, pass, 0, process, 0, &standing(*state)) != *want {
            return false;
        }
    }
    true
}

/// What a look for a control finds.
pub fn look<R: Wait>(
    rt: &R,
    alloc: Global,
    book: &Book<MemoryKeeper>,
    pass: &mut Pass,
    process: u64,
) -> ControlLook
    requires book { IsOf book.now pass.old }
    ensures book { IsOf book.now pass.new }
    ensures keeps { KeepsAll book.now.opening pass.old pass.new }
{
    let Ok(mut room) = ControlRoom::new(alloc) else {
        return ControlLook::Unmade(MakeFault::OutOfMemory);
    };
    let look = book.take_control(rt, pass, 0, process, &mut room);
    drop(room);
    look
}

/// As many queries as find room in a book of twenty steps after the start of the service and its
/// report, and one more.
fn queries() -> [Row; 11] {
    let query = Asked::Queries { handle: 2 };
    let mut rows = [told(query, 0, u64::from(SERVICE_RUNNING)); 11];
    rows[10] = full(query);
    rows
}

/// A caller makes a service, and begins to start it. The start's plan, if all is answered so.
fn begin<R: Wait>(at: &Site<'_, R>, pass: &mut Pass) -> Option<u64>
    requires book { IsOf at.now.book.now pass.old }
    requires caller { pass.old.caller ≢ 0 }
    ensures book { IsOf at.now.book.now pass.new }
    ensures caller { pass.new.caller ≢ 0 }
    ensures plan { IfSome result (HasPlan at.now.book.now.opening pass.new) }
{
    let is_made = come(at, pass, &service());
    let plan = begin_start(at.rt, at.alloc, at.book, pass, 2)?;
    if is_made { Some(plan) } else { None }
}

/// A caller starts a service, and asks after it until no room is left. The process, if all is
/// answered so in a book of twenty steps.
fn fill<R: Wait>(at: &Site<'_, R>, pass: &mut Pass, other: &mut Pass) -> Option<u64>
    requires book { IsOf at.now.book.now pass.old }
    requires caller { pass.old.caller ≢ 0 }
    requires other { IsOf at.now.book.now other.old }
    ensures book { IsOf at.now.book.now pass.new }
    ensures other { IsOf at.now.book.now other.new }
    ensures process { IfSome result (λ process.
        HoldsProcess at.now.book.now.opening other.new process phases.Launched) }
{
    let plan = begin(at, pass)?;
    let process = launch(at, other)?;
    let is_started = end_start(at.rt, at.book, pass, plan) == Some(0);
    let runs = [(SERVICE_RUNNING, ReportEnd::Taken)];
    let is_running = report(at.rt, at.book, other, process, &runs);
    let is_asked = come(at, pass, &queries());
    if is_started && is_running && is_asked {
        Some(process)
    } else {
        None
    }
}

/// Whether a process ends, and is its service's.
fn is_over<R: Wait>(
    rt: &R,
    book: &Book<MemoryKeeper>,
    pass: &mut Pass,
    process: Option<u64>,
) -> bool
    requires book { IsOf book.now pass.old }
    requires process { IfSome process (λ process. HoldsProcess book.now.opening pass.old process
        phases.Launched) }
    ensures { IsOf book.now pass.new }
{
    match process {
        Some(process) => book.ended(rt, pass, 0, process) == EndedEnd::Taken,
        None => false,
    }
}

/// The same caller goes then, and its process ends.
fn fill_beside<R: Wait>(at: &Site<'_, R>, root: &mut Pass, other: &mut Pass) -> bool
    requires book { IsOf at.now.book.now root.old }
    requires other { IsOf at.now.book.now other.old }
    ensures book { IsOf at.now.book.now root.new }
    ensures other { IsOf at.now.book.now other.new }
{
    match guest(at.rt, at.book, root, 0) {
        Ok(mut pass) => {
            let process = fill(at, &mut pass, other);
            leaves(at.rt, at.book, root, pass, 0);
            is_over(at.rt, at.book, other, process)
        }
        Err(_) => false,
    }
}

/// Whether all is answered so in a book of twenty steps.
fn fill_twenty<R: Wait>(at: &Site<'_, R>, root: &mut Pass) -> bool
    requires { IsOf at.now.book.now root.old }
    ensures { IsOf at.now.book.now root.new }
{
    let mut other = runner(at.book, root);
    let is_filled = fill_beside(at, root, &mut other);
    leaves(at.rt, at.book, root, other, 0);
    is_filled
}

/// The history of such a book, if all was right.
fn twenty<R: Wait>(rt: &R, alloc: Global) -> Option<Trail> {
    let Opened { book, mut pass } = new_book(alloc, limits(20), Vec::new(alloc))?;
    let at = Site {
        rt,
        alloc,
        book: &book,
    };
    let is_right = fill_twenty(&at, &mut pass);
    drop(at);
    history_of(rt, book, pass, is_right)
}

/// Whether the one entry is that caller 1 went, and the other that process 1 ended.
fn are_gone_and_ended(one: &Option<(u64, Step)>, other: &Option<(u64, Step)>) -> bool {
    match (one, other) {
        (Some((_, Step::Gone { caller })), Some((_, Step::Ended { process }))) => {
            *caller == 1 && *process == 1
        }
        _ => false,
    }
}

/// Whether the last two of twenty entries are that caller 1 went, and that process 1 ended.
fn ends_with_owed(trail: &Trail) -> bool {
    let (gone, ended) = (entry_at(trail, 18), entry_at(trail, 19));
    let is_so = are_gone_and_ended(&gone, &ended);
    drop(gone);
    drop(ended);
    is_so && trail.len() == 20
}

/// Whether the history of a book of twenty steps ends so.
fn is_owed_room<R: Wait>(rt: &R, alloc: Global) -> bool {
    match twenty(rt, alloc) {
        Some(trail) => {
            let is_so = ends_with_owed(&trail);
            drop(trail);
            is_so
        }
        None => false,
    }
}

#[test]
fn what_is_owed_has_steps_of_twenty(rt: HostRuntime) -> Result<(), Fail> {
    assert!(rt; is_owed_room(&rt, rt.alloc()));
    Ok(())
}

/// Whether a start waits until its launch is decided, and is answered with why that failed; no
/// launch is wanted then.
fn fail<R: Wait>(at: &Site<'_, R>, pass: &mut Pass, other: &mut Pass, plan: u64) -> bool
    requires book { IsOf at.now.book.now pass.old }
    requires plan { HasPlan at.now.book.now.opening pass.old plan }
    requires other { IsOf at.now.book.now other.old }
    ensures book { IsOf at.now.book.now pass.new }
    ensures caller { pass.new.caller ≢ 0 }
    ensures other { IsOf at.now.book.now other.new }
{
    let None = end_start(at.rt, at.book, pass, plan) else {
        return false;
    };
    let Some(process) = take(at, other) else {
        return false;
    };
    at.book
        .launch_failed(at.rt, other, 0, process, ERROR_SERVICE_NO_THREAD);
    let told = end_start(at.rt, at.book, pass, plan);
    told == Some(ERROR_SERVICE_NO_THREAD) && take(at, other).is_none()
}

/// Whether a start whose launch is never taken is given up at its deadline, two minutes later.
fn is_late<R: Wait>(rt: &R, book: &Book<MemoryKeeper>, pass: &mut Pass, plan: u64) -> bool
    requires book { IsOf book.now pass.old }
    requires plan { HasPlan book.now.opening pass.old plan }
    ensures { IsOf book.now pass.new }
{
    let before = book.tick(rt, pass, 119_999);
    let at = book.tick(rt, pass, 120_000);
    let told = end_start(rt, book, pass, plan);
    before == TickEnd::Idle && at == TickEnd::Ticked && told == Some(ERROR_SERVICE_REQUEST_TIMEOUT)
}

/// Whether a start of a caller's service is given up so.
fn fails_late<R: Wait>(at: &Site<'_, R>, pass: &mut Pass) -> bool
    requires book { IsOf at.now.book.now pass.old }
    requires caller { pass.old.caller ≢ 0 }
{
    match begin_start(at.rt, at.alloc, at.book, pass, 2) {
        Some(plan) => is_late(at.rt, at.book, pass, plan),
        None => false,
    }
}

/// Whether two starts of a caller's service fail so.
fn two_fail<R: Wait>(at: &Site<'_, R>, pass: &mut Pass, root: &mut Pass) -> bool
    requires book { IsOf at.now.book.now pass.old }
    requires caller { pass.old.caller ≢ 0 }
    requires root { IsOf at.now.book.now root.old }
    ensures { IsOf at.now.book.now root.new }
{
    match begin(at, pass) {
        Some(plan) => fail(at, pass, root, plan) && fails_late(at, pass),
        None => false,
    }
}

/// What a caller of a book is to see: how starts fail, how a process obeys, which bells ring, or
/// what a raise does.
#[derive(Clone, Copy)]
pub enum Sight {
    Failing,
    Obeying,
    Ringing,
    Raising,
}

/// Whether a caller sees it.
fn looks<R: Wait>(at: &Site<'_, R>, pass: &mut Pass, root: &mut Pass, sight: Sight) -> bool
    requires book { IsOf at.now.book.now pass.old }
    requires caller { pass.old.caller ≢ 0 }
    requires root { IsOf at.now.book.now root.old }
    ensures { IsOf at.now.book.now root.new }
{
    match sight {
        Sight::Failing => two_fail(at, pass, root),
        Sight::Obeying => serves(at, pass, root),
        Sight::Ringing => rings(at, pass, root),
        Sight::Raising => raises(at, pass, root),
    }
}

/// Whether a new caller sees it.
fn sees<R: Wait>(at: &Site<'_, R>, root: &mut Pass, sight: Sight) -> bool
    requires { IsOf at.now.book.now root.old }
    ensures { IsOf at.now.book.now root.new }
{
    match guest(at.rt, at.book, root, 0) {
        Ok(mut pass) => {
            let is_seen = looks(at, &mut pass, root, sight);
            drop(pass);
            is_seen
        }
        Err(_) => false,
    }
}

/// Whether a caller of a new book sees it.
pub fn is_seen<R: Wait>(rt: &R, alloc: Global, sight: Sight) -> bool {
    match new_book(alloc, limits(16_777_216), Vec::new(alloc)) {
        Some(Opened { book, mut pass }) => {
            let at = Site {
                rt,
                alloc,
                book: &book,
            };
            let is_seen = sees(&at, &mut pass, sight);
            drop(at);
            drop(pass);
            drop(book);
            is_seen
        }
        None => false,
    }
}

#[test]
fn a_start_that_fails_is_told_why(rt: HostRuntime) -> Result<(), Fail> {
    assert!(rt; is_seen(&rt, rt.alloc(), Sight::Failing));
    Ok(())
}

/// Whether a process that runs takes a control that its service is sent, stops, and then tells
/// nothing more.
fn obeys<R: Wait>(at: &Site<'_, R>, pass: &mut Pass, other: &mut Pass, process: u64) -> bool
    requires book { IsOf at.now.book.now pass.old }
    requires caller { pass.old.caller ≢ 0 }
    requires other { IsOf at.now.book.now other.old }
    requires process { HoldsProcess at.now.book.now.opening other.old process phases.Launched }
    ensures book { IsOf at.now.book.now other.new }
{
    let runs = [
        (SERVICE_RUNNING, ReportEnd::Taken),
        (
            SERVICE_START_PENDING,
            ReportEnd::Refused(ERROR_INVALID_DATA),
        ),
    ];
    let is_running = report(at.rt, at.book, other, process, &runs);
    let none = look(at.rt, at.alloc, at.book, other, process);
    let stops = [told(Asked::Stops { handle: 2 }, 0, u64::from(SERVICE_RUNNING))];
    let is_asked = come(at, pass, &stops);
    let control = look(at.rt, at.alloc, at.book, other, process);
    let ends = [
        (SERVICE_STOPPED, ReportEnd::Taken),
        (SERVICE_STOPPED, ReportEnd::Stale),
    ];
    let is_stopped = report(at.rt, at.book, other, process, &ends);
    let end = at.book.ended(at.rt, other, 0, process);
    let over = look(at.rt, at.alloc, at.book, other, process);
    is_running
        && none == ControlLook::Empty
        && is_asked
        && control == STOPS
        && is_stopped
        && end == EndedEnd::Stale
        && over == ControlLook::Over
}

/// Whether the process of a caller's service does.
fn serves<R: Wait>(at: &Site<'_, R>, pass: &mut Pass, root: &mut Pass) -> bool
    requires book { IsOf at.now.book.now pass.old }
    requires caller { pass.old.caller ≢ 0 }
    requires root { IsOf at.now.book.now root.old }
    ensures { IsOf at.now.book.now root.new }
{
    let Some(plan) = begin(at, pass) else {
        return false;
    };
    let Some(process) = launch(at, root) else {
        return false;
    };
    let is_started = end_start(at.rt, at.book, pass, plan) == Some(0);
    is_started && obeys(at, pass, root, process)
}

#[test]
fn a_process_reports_and_takes_controls_until_it_stops(rt: HostRuntime) -> Result<(), Fail> {
    assert!(rt; is_seen(&rt, rt.alloc(), Sight::Obeying));
    Ok(())
}
