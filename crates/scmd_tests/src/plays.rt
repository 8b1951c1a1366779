// What a test needs over a book in which nothing took place: its caller's pass, and a spawner in
// memory.
ghost use Rattle.std.specs.Prelude.{◌≢◌};
ghost use Rattle.scm_book.specs.Passes.{IsOf};

use crate::feeds::stops_once;
use crate::launches::fails_then_starts;
use book_calls::Site;
use process_runner::MemorySpawner;
use scm_book::Pass;
use std::alloc::Global;
use std::sync::Wait;
use test_books::{Fates, Stage, begin};

/// What takes place.
#[derive(Clone, Copy)]
pub enum Play {
    FailsThenStarts,
    StopsOnce,
}

/// Whether it takes place as it should.
fn takes_place<R: Wait>(
    at: &Site<'_, R>,
    play: Play,
    caller: &mut Pass,
    spawner: &mut MemorySpawner,
) -> bool
    requires { IsOf at.now.book.now caller.old × (caller.old.caller ≢ 0) }
{
    match play {
        Play::FailsThenStarts => fails_then_starts(at, caller, spawner),
        Play::StopsOnce => stops_once(at, caller, spawner),
    }
}

/// The same over a new book.
fn takes_place_in<R: Wait>(rt: &R, alloc: Global, play: Play, spawner: &mut MemorySpawner) -> bool {
    match begin(rt, alloc) {
        Some(Stage { book, mut caller }) => {
            let at = Site {
                rt,
                alloc,
                book: &book,
            };
            let is_so = takes_place(&at, play, &mut caller, spawner);
            drop(at);
            drop(caller);
            drop(book);
            is_so
        }
        None => false,
    }
}

/// The same by a spawner whose starts come to these fates.
pub fn is_played<R: Wait>(rt: &R, alloc: Global, play: Play, fates: Fates) -> bool {
    let mut spawner = MemorySpawner::new(alloc, fates);
    let is_so = takes_place_in(rt, alloc, play, &mut spawner);
    drop(spawner);
    is_so
}
