// The end of a process that runs its service no more.
ghost use Rattle.std.specs.Prelude.{◌≢◌};
ghost use Rattle.scm_book.specs.Passes.{IsOf};

use book_calls::Site;
use process_runner::MemorySpawner;
use scm_book::{EndedEnd, Pass, ReportEnd};
use std::alloc::Global;
use std::sync::Wait;
use std::test::Fail;
use test_books::{Ask, BEGIN, Stage, add_child, begin, launch, runner, status, tells};

/// Whether a process that reports STOPPED ends while a second one runs its service, and changes
/// nothing.
fn ends_late<R: Wait>(at: &Site<'_, R>, caller: &mut Pass, spawner: &mut MemorySpawner) -> bool
    requires { IsOf at.now.book.now caller.old × (caller.old.caller ≢ 0) }
{
    let mut first = runner(at.book, caller);
    let begins = tells(at, caller, &BEGIN);
    let Some(former) = launch(at, &mut first, spawner) else {
        drop(first);
        return false;
    };
    let stopped = at
        .book
        .report(at.rt, &mut first, 0, former, 0, &status(1, 0));
    let starts = tells(at, caller, &[(Ask::Starts(2), 0)]);
    let mut second = runner(at.book, caller);
    let later = launch(at, &mut second, spawner);
    let runs = tells(at, caller, &[(Ask::Runs(2), 0)]);
    let ended = at.book.ended(at.rt, &mut first, 0, former);
    // Only a service that runs is granted this.
    let running = tells(at, caller, &[(Ask::Stops(2), 0)]);
    drop(second);
    drop(first);
    begins
        && former == 1
        && stopped == ReportEnd::Taken
        && starts
        && later == Some(2)
        && runs
        && ended == EndedEnd::Stale
        && running
}

/// The same over a new book.
fn ends_late_in<R: Wait>(rt: &R, alloc: Global, spawner: &mut MemorySpawner) -> bool {
    match begin(rt, alloc) {
        Some(Stage { book, mut caller }) => {
            let at = Site {
                rt,
                alloc,
                book: &book,
            };
            let is_so = ends_late(&at, &mut caller, spawner);
            drop(at);
            drop(caller);
            drop(book);
            is_so
        }
        None => false,
    }
}

#[test]
fn the_end_of_a_former_process_stops_nothing(rt: HostRuntime) -> Result<(), Fail> {
    let alloc = rt.alloc();
    let mut fates = Vec::new(alloc);
    let are_added = add_child(alloc, &mut fates, 7, b"") && add_child(alloc, &mut fates, 7, b"");
    let mut spawner = MemorySpawner::new(alloc, fates);
    let is_so = ends_late_in(&rt, alloc, &mut spawner);
    drop(spawner);
    assert!(rt; are_added && is_so);
    Ok(())
}
