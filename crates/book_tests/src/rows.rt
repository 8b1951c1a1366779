// Rows: calls of one caller, each with its answer.
ghost use Rattle.std.specs.Prelude.{◌≡◌, ◌≢◌, true, IfSome};
ghost use Rattle.scm_book.specs.Passes.{IsOf};

use book_calls::{Asked, Site, Told, ask, close, guest, leaves, limits, new_book};
use record_journal::{Fate, MemoryKeeper};
use scm_book::{Book, Closed, JoinFault, MakeFault, Opened, Pass, Spent};
use scm_model::{Kept, Principal, Step};
use scm_trail::Trail;
use std::alloc::Global;
use std::sync::Wait;
use std::test::Fail;

/// A call, and its outcome.
pub type Row = (Asked, Result<Told, MakeFault>);

/// A call that is answered with this code and number.
pub fn told(asked: Asked, code: u32, number: u64) -> Row {
    (asked, Ok(Told { code, number }))
}

/// A call for which the limits have no room.
pub fn full(asked: Asked) -> Row {
    (asked, Err(MakeFault::Full))
}

/// Whether a call came to what is wanted of it.
fn is_wanted(told: &Result<Told, MakeFault>, want: &Result<Told, MakeFault>) -> bool {
    match (told, want) {
        (Ok(told), Ok(want)) => told == want,
        (Err(MakeFault::Full), Err(MakeFault::Full)) => true,
        (Err(MakeFault::OutOfMemory), Err(MakeFault::OutOfMemory)) => true,
        _ => false,
    }
}

/// Whether these calls come to this.
pub fn come<R: Wait>(at: &Site<'_, R>, pass: &mut Pass, rows: &[Row]) -> bool
    requires book { IsOf at.now.book.now pass.old }
    requires caller { pass.old.caller ≢ 0 }
    ensures book { IsOf at.now.book.now pass.new }
    ensures caller { pass.new.caller ≢ 0 }
{
    for (asked, want) in rows {
        if !is_wanted(&ask(at.rt, at.alloc, at.book, pass, 0, *asked), want) {
            return false;
        }
    }
    true
}

/// Whether these calls, which only open handles, come to this in a book of four steps, nobody else
/// finds room, and the bell doesn't tell of them.
fn fill_four<R: Wait>(at: &Site<'_, R>, root: &mut Pass, rows: &[Row]) -> bool
    requires book { IsOf at.now.book.now root.old }
    ensures { IsOf at.now.book.now root.new }
{
    let Ok(mut pass) = guest(at.rt, at.book, root, 0) else {
        return false;
    };
    let seen = at.book.bell().count();
    let are_right = come(at, &mut pass, rows);
    let is_quiet = at.book.bell().count() == seen;
    let is_full = guest(at.rt, at.book, root, 0).err() == Some(JoinFault::Unmade(MakeFault::Full));
    leaves(at.rt, at.book, root, pass, 0);
    are_right && is_quiet && is_full
}

/// Whether a bell that is shut lets all go that wait.
fn shuts<R: Wait>(rt: &R, book: &Book<MemoryKeeper>) -> bool {
    let bell = book.bell();
    let was_open = !bell.is_shut();
    bell.shut(rt);
    let seen = bell.count();
    bell.wait(rt, seen) == seen && was_open && bell.is_shut()
}

/// The history of a book, once the last caller has gone, if all was right.
pub fn history_of<R: Wait>(
    rt: &R,
    book: Book<MemoryKeeper>,
    last: Pass,
    is_right: bool,
) -> Option<Trail>
    requires { IsOf book last }
{
    let spent = book.gone(rt, last, 0);
    let trail = close(rt, book, spent);
    if is_right {
        Some(trail)
    } else {
        drop(trail);
        None
    }
}

/// The history of such a book, if all was right.
fn four<R: Wait>(rt: &R, alloc: Global, rows: &[Row]) -> Option<Trail> {
    let Opened { book, mut pass } = new_book(alloc, limits(4), Vec::new(alloc))?;
    let at = Site {
        rt,
        alloc,
        book: &book,
    };
    let is_right = fill_four(&at, &mut pass, rows) && shuts(rt, &book);
    drop(at);
    history_of(rt, book, pass, is_right)
}

/// A copy of the entry at a place of a history, if it is held.
pub fn entry_at(trail: &Trail, place: u64) -> Option<(u64, Step)> {
    if trail.past() <= place && place < trail.len() {
        trail.entry(place).ok()
    } else {
        None
    }
}

/// Who goes by an entry.
fn gone(entry: &Option<(u64, Step)>) -> Option<u64> {
    match entry {
        Some((_, Step::Gone { caller })) => Some(*caller),
        _ => None,
    }
}

/// Whether the history has so many entries, of which the last is that a caller went.
fn ends_with_gone(trail: &Trail, entries: u64, who: u64) -> bool {
    let last = entry_at(trail, entries.saturating_sub(1));
    let gone = gone(&last);
    drop(last);
    trail.len() == entries && gone == Some(who)
}

/// Whether the history of a book of four steps ends with the going of its first caller.
fn goes_last<R: Wait>(rt: &R, alloc: Global, rows: &[Row]) -> bool {
    match four(rt, alloc, rows) {
        Some(trail) => {
            let is_last = ends_with_gone(&trail, 4, 1);
            drop(trail);
            is_last
        }
        None => false,
    }
}

#[test]
fn who_went_has_a_step_of_four(rt: HostRuntime) -> Result<(), Fail> {
    let rows = [
        told(Asked::OpensManager, 0, 1),
        told(Asked::OpensManager, 0, 2),
        full(Asked::OpensManager),
    ];
    assert!(rt; goes_last(&rt, rt.alloc(), &rows));
    Ok(())
}

/// Whether one more caller joins.
fn joins<R: Wait>(rt: &R, book: &Book<MemoryKeeper>, root: &mut Pass) -> bool
    requires book { IsOf book.now root.old }
    ensures { IsOf book.now root.new }
{
    match guest(rt, book, root, 0) {
        Ok(pass) => {
            drop(pass);
            true
        }
        Err(_) => false,
    }
}

/// Whether so many callers join.
fn join<R: Wait>(rt: &R, book: &Book<MemoryKeeper>, root: &mut Pass, callers: u32) -> bool
    requires book { IsOf book.now root.old }
    ensures { IsOf book.now root.new }
{
    for _ in 0..callers {
        if !joins(rt, book, root) {
            return false;
        }
    }
    true
}

/// Whether 64 callers may join and one more may not, until one goes.
fn crowds<R: Wait>(rt: &R, book: &Book<MemoryKeeper>, root: &mut Pass) -> bool
    requires book { IsOf book.now root.old }
    ensures { IsOf book.now root.new }
{
    let Ok(first) = guest(rt, book, root, 0) else {
        return false;
    };
    let others = join(rt, book, root, 63);
    let one_more = guest(rt, book, root, 0).err();
    leaves(rt, book, root, first, 0);
    others && one_more == Some(JoinFault::TooMany) && joins(rt, book, root)
}

/// The same in a new book.
fn may_64_join<R: Wait>(rt: &R, alloc: Global) -> bool {
    match new_book(alloc, limits(16_777_216), Vec::new(alloc)) {
        Some(Opened { book, mut pass }) => {
            let are_right = crowds(rt, &book, &mut pass);
            drop(pass);
            drop(book);
            are_right
        }
        None => false,
    }
}

#[test]
fn one_more_than_64_may_not_join(rt: HostRuntime) -> Result<(), Fail> {
    assert!(rt; may_64_join(&rt, rt.alloc()));
    Ok(())
}

/// The only caller comes, makes calls that come to this, and goes.
fn stay<R: Wait>(at: &Site<'_, R>, root: Pass, rows: &[Row]) -> Option<Spent>
    requires book { IsOf at.now.book.now root }
    requires nobody { root.caller ≡ 0 }
    requires alone { root.alone ≡ true }
    ensures { IfSome result (IsOf at.now.book.now) }
{
    match at.book.join_alone(at.rt, root, 0, Principal::Admin) {
        Ok(mut pass) => {
            let are_right = come(at, &mut pass, rows);
            let spent = at.book.gone(at.rt, pass, 0);
            if are_right {
                Some(spent)
            } else {
                drop(spent);
                None
            }
        }
        Err(back) => {
            drop(back);
            None
        }
    }
}

/// What is left where calls come to this, and the second append fails when five bytes are there.
fn kept<R: Wait>(rt: &R, alloc: Global, rows: &[Row]) -> Option<Closed<MemoryKeeper>> {
    let Ok(fates) = Vec::from_array(alloc, [Fate::Fails { done: 5 }, Fate::Succeeds]) else {
        return None;
    };
    let Opened { book, pass } = new_book(alloc, limits(16_777_216), fates)?;
    let at = Site {
        rt,
        alloc,
        book: &book,
    };
    let stayed = stay(&at, pass, rows);
    drop(at);
    match stayed {
        Some(spent) => Some(book.close(rt, spent)),
        None => {
            drop(book);
            None
        }
    }
}

/// What became of the change of a call.
fn kept_in(entry: &Option<(u64, Step)>) -> Option<Kept> {
    match entry {
        Some((_, Step::Call { kept, .. })) => Some(*kept),
        _ => None,
    }
}

/// What became of the change of the call at a place.
fn append_at(trail: &Trail, place: u64) -> Option<Kept> {
    let entry = entry_at(trail, place);
    let kept = kept_in(&entry);
    drop(entry);
    kept
}

/// A journal that the services `A` and `C` were created in.
const JOURNAL: [u8; 150] = [
    0x53, 0x43, 0x4D, 0x4A, 2, 0, 0, 0, // header
    1, 0x42, 0, 0, 0, 1, 0, 0, 0, 0x41, 0, 1, 0, 0, 0, 0x41, 0, // names
    0x10, 0, 0, 0, 3, 0, 0, 0, 1, 0, 0, 0, 2, 0, 0, 0, 0x2F, 0, 0x61, 0, // up to the path
    0, 0, 0, 0, 0, 0, 0, 0, 0, 0, 0, 0, 0, 0, 0, 0, 0, 0, 0, 0, 0, 0, 0, 0, 0, 0, 0, 0, 0, //
    0, 0, 0, 0, 0, // a delayed start, triggers
    1, 0x42, 0, 0, 0, 1, 0, 0, 0, 0x43, 0, 1, 0, 0, 0, 0x43, 0, // names
    0x10, 0, 0, 0, 3, 0, 0, 0, 1, 0, 0, 0, 2, 0, 0, 0, 0x2F, 0, 0x61, 0, // up to the path
    0, 0, 0, 0, 0, 0, 0, 0, 0, 0, 0, 0, 0, 0, 0, 0, 0, 0, 0, 0, 0, 0, 0, 0, 0, 0, 0, 0, 0, //
    0, 0, 0, 0, 0, // a delayed start, triggers
];

/// What became of each change that the calls asked for.
const APPENDS: [(u64, Kept); 3] = [(2, Kept::Kept), (3, Kept::Failed), (5, Kept::Kept)];

/// Whether two services are left, the trail has what became of each change, and the journal has
/// the changes that were kept.
fn are_told(closed: &Closed<MemoryKeeper>) -> bool {
    for (place, append) in APPENDS {
        if append_at(&closed.trail, place) != Some(append) {
            return false;
        }
    }
    closed.services == 2 && closed.keeper.bytes() == JOURNAL.as_slice()
}

/// Whether calls come to this, and leave that.
fn is_kept<R: Wait>(rt: &R, alloc: Global, rows: &[Row]) -> bool {
    match kept(rt, alloc, rows) {
        Some(closed) => {
            let are_told = are_told(&closed);
            drop(closed);
            are_told
        }
        None => false,
    }
}

#[test]
fn what_is_not_kept_is_not_made(rt: HostRuntime) -> Result<(), Fail> {
    let rows = [
        told(Asked::OpensManager, 0, 1),
        told(
            Asked::Creates {
                manager: 1,
                name: 0x41,
            },
            0,
            2,
        ),
        told(
            Asked::Creates {
                manager: 1,
                name: 0x42,
            },
            1013,
            0,
        ),
        told(
            Asked::Opens {
                manager: 1,
                name: 0x42,
            },
            1060,
            0,
        ),
        told(
            Asked::Creates {
                manager: 1,
                name: 0x43,
            },
            0,
            3,
        ),
    ];
    assert!(rt; is_kept(&rt, rt.alloc(), &rows));
    Ok(())
}
