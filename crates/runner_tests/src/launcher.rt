// A child that a launcher runs, and what becomes due, while a caller is served.
ghost use Rattle.std.specs.Prelude.{◌≡◌, ◌≢◌, IfSome};
ghost use Rattle.std.specs.Thread.{IsSync};
ghost use Rattle.scm_book.specs.Passes.{HasPlan, IsOf};

use crate::clocks::Hurried;
use crate::events::{Event, Events};
use crate::held::HeldSpawner;
use book_calls::{Site, begin_start};
use child_runner::BellQuit;
use outside::FixedClock;
use process_runner::MemorySpawner;
use scm_book::{Pass, Spent};
use scm_launcher::{Launched, launch_all, tick_all};
use std::alloc::Global;
use std::sync::Wait;
use std::test::Fail;
use std::thread::{self, Threads};
use std::time;
use test_books::{
    Ask, Fates, NOTHING, Stage, TestBook, add_child, begin, decided, runner, state, tells,
};

/// The manager is opened, and `A` of `/a` is created.
const CREATED: [(Ask<'static>, u32); 2] = [
    (Ask::OpensManager, 0),
    (Ask::Creates("A", "/a", NOTHING), 0),
];

/// Creates `A` and begins its start, which waits.
fn begin_a<R: Wait>(rt: &R, alloc: Global, book: &TestBook, caller: &mut Pass) -> Option<u64>
    requires book { IsOf book.now caller.old }
    requires caller { caller.old.caller ≢ 0 }
    ensures book { IsOf book.now caller.new }
    ensures plan { IfSome result (HasPlan book.now.opening caller.new) }
{
    let at = Site { rt, alloc, book };
    if tells(&at, caller, &CREATED) {
        begin_start(rt, alloc, book, caller, 2)
    } else {
        None
    }
}

/// The code that a start is answered with, and the states of its service at its launch and at its
/// report.
#[derive(Clone, Copy)]
struct StartTold {
    code: u32,
    pending: u64,
    running: u64,
}

/// Starts `A`, and asks for its state while its child holds its line and while it holds its end.
/// Tells the code and the states.
fn visit<R: Wait>(
    rt: &R,
    alloc: Global,
    book: &TestBook,
    caller: &mut Pass,
    events: &Events,
) -> Option<StartTold>
    requires book { IsOf book.now caller.old }
    requires caller { caller.old.caller ≢ 0 }
    ensures { IsOf book.now caller.new }
{
    let plan = begin_a(rt, alloc, book, caller)?;
    let code = decided(rt, book, caller, plan);
    events.wait(Event::Launched);
    let pending = state(rt, book, caller, 2);
    events.set(Event::Told);
    events.wait(Event::Read);
    let running = state(rt, book, caller, 2);
    events.set(Event::Over);
    Some(StartTold {
        code,
        pending: pending?,
        running: running?,
    })
}

/// The same, and the end is asked for.
fn visit_last<R: Wait>(
    rt: &R,
    alloc: Global,
    book: &TestBook,
    mut caller: Pass,
    events: &Events,
) -> Option<StartTold>
    requires book { IsOf book.now caller }
    requires caller { caller.caller ≢ 0 }
{
    let told = visit(rt, alloc, book, &mut caller, events);
    drop(caller);
    book.shut(rt);
    told
}

/// What a visit was told, and how many programs were started beside it.
#[derive(Clone, Copy)]
struct Beside {
    told: Option<StartTold>,
    started: usize,
}

/// The visit, beside a launcher.
fn serve<R: Threads + Wait + Sync>(
    rt: &R,
    alloc: Global,
    book: &TestBook,
    caller: Pass,
    runner: Pass,
    spawner: MemorySpawner,
    events: &Events,
) -> Beside
    requires caller { IsOf book.now caller × (caller.caller ≢ 0) }
    requires runner { IsOf book.now runner × (runner.caller ≡ 0) }
{
    let spawner = HeldSpawner { spawner, events };
    let clock = FixedClock { moment: 0 };
    let quit = BellQuit::new(book.bell());
    let (started, told) = thread::join(
        rt,
        || -> usize
            requires { IsSync R.row × IsOf book.now runner × (runner.caller ≡ 0) }
        { started(launch_all(rt, alloc, book, runner, spawner, &clock, &quit)) },
        || -> Option<StartTold>
            requires { IsOf book.now caller × (caller.caller ≢ 0) }
        { visit_last(rt, alloc, book, caller, events) },
    );
    Beside { told, started }
}

/// How many programs a launcher started.
fn started(launched: Launched<HeldSpawner<'_>>) -> usize {
    let started = launched.spawner.spawner.started().len();
    drop(launched);
    started
}

/// Whether the answer to the start is code 0, and its service was START_PENDING and then RUNNING.
fn is_told(told: Option<StartTold>) -> bool {
    match told {
        Some(told) => told.code == 0 && told.pending == 2 && told.running == 4,
        None => false,
    }
}

/// Whether a visit gets these answers beside one child, over a new book.
fn is_served<R: Threads + Wait + Sync>(rt: &R, alloc: Global, fates: Fates) -> bool {
    let spawner = MemorySpawner::new(alloc, fates);
    match begin(rt, alloc) {
        Some(Stage { book, mut caller }) => {
            let runner = runner(&book, &mut caller);
            let events = Events::new();
            let Beside { told, started } = serve(
                rt, alloc, &book, caller, runner, spawner, &events,
            );
            let are_whole = events.are_whole();
            drop(events);
            drop(book);
            is_told(told) && started == 1 && are_whole
        }
        None => {
            drop(spawner);
            false
        }
    }
}

#[test]
fn a_caller_is_served_while_a_child_runs(rt: HostRuntime) -> Result<(), Fail> {
    let alloc = rt.alloc();
    let mut fates = Vec::new(alloc);
    let is_added = add_child(alloc, &mut fates, 1, b"STATUS 16 4 1 0 0 0 0\n");
    let is_served = is_served(&rt, alloc, fates);
    assert!(rt; is_added && is_served);
    Ok(())
}

/// Starts `A`, which nobody launches, and tells the code; then the end is asked for.
fn start_in_vain<R: Wait>(rt: &R, alloc: Global, book: &TestBook, mut caller: Pass) -> Option<u32>
    requires book { IsOf book.now caller }
    requires caller { caller.caller ≢ 0 }
{
    let code = match begin_a(rt, alloc, book, &mut caller) {
        Some(plan) => Some(decided(rt, book, &mut caller, plan)),
        None => None,
    };
    drop(caller);
    book.shut(rt);
    code
}

/// That, beside a ticker whose clock is ahead.
fn tick<R: Threads + Wait + time::Clock + Sync>(
    rt: &R,
    alloc: Global,
    book: &TestBook,
    caller: Pass,
    runner: Pass,
) -> Option<u32>
    requires caller { IsOf book.now caller × (caller.caller ≢ 0) }
    requires runner { IsOf book.now runner × (runner.caller ≡ 0) }
{
    let clock = Hurried::new();
    let quit = BellQuit::new(book.bell());
    let (spent, code) = thread::join(
        rt,
        || -> Spent
            requires { IsOf book.now runner × (runner.caller ≡ 0) }
        { tick_all(rt, book, runner, &clock, &quit) },
        || -> Option<u32>
            requires { IsOf book.now caller × (caller.caller ≢ 0) }
        { start_in_vain(rt, alloc, book, caller) },
    );
    drop(spent);
    drop(clock);
    code
}

/// The same over a new book.
fn tick_in<R: Threads + Wait + time::Clock + Sync>(rt: &R, alloc: Global) -> Option<u32> {
    match begin(rt, alloc) {
        Some(Stage { book, mut caller }) => {
            let runner = runner(&book, &mut caller);
            let code = tick(rt, alloc, &book, caller, runner);
            drop(book);
            code
        }
        None => None,
    }
}

#[test]
fn a_start_is_given_up_once_the_clock_tells_two_minutes(rt: HostRuntime) -> Result<(), Fail> {
    assert_eq!(rt; tick_in(&rt, rt.alloc()), Some(1053));
    Ok(())
}
