// Many callers of one book, each in a thread of its own.
ghost use Rattle.std.specs.Prelude.{◌<◌, IfSome};
ghost use Rattle.scm_book.specs.Passes.{IsOf};

use crate::talking::{Line, talk};
use book_calls::{Site, guest, leaves, runner};
use record_journal::MemoryKeeper;
use scm_book::{Book, Pass};
use std::alloc::Global;
use std::sync::Wait;
use std::thread::{self, Threads};

/// What one caller asked and was told.
#[derive(Drop)]
pub struct Visit {
    pub lines: Vec<Line>,
    /// Who the caller is, once its Joined was read in the history, and how many of the lines were.
    pub caller: u64,
    pub read: usize,
}

/// A pass that has seen visits, and the visits by their marks.
#[derive(Drop)]
pub struct Crowd {
    pub pass: Pass,
    pub visits: Vec<Visit>,
}

/// A crowd, if all its visits are there.
fn crowd_of(
    book: &Book<MemoryKeeper>,
    pass: Pass,
    visits: Vec<Visit>,
    is_whole: bool,
) -> Option<Crowd>
    requires { IsOf book.now pass }
    ensures { IfSome result (λ crowd. IsOf book.now crowd.pass) }
{
    let _ = book;
    if is_whole {
        Some(Crowd { pass, visits })
    } else {
        drop(visits);
        drop(pass);
        None
    }
}

/// A caller comes, makes so many calls, and goes.
fn come_and_go<R: Wait>(
    rt: &R,
    alloc: Global,
    book: &Book<MemoryKeeper>,
    by: &mut Pass,
    mark: u64,
    calls: u64,
) -> Option<Vec<Line>>
    requires book { IsOf book.now by.old }
    ensures { IsOf book.now by.new }
{
    let Ok(mut pass) = guest(rt, book, by, mark) else {
        return None;
    };
    let mut lines = Vec::new(alloc);
    let at = Site { rt, alloc, book };
    let is_whole = talk(&at, &mut pass, mark, calls, &mut lines);
    leaves(rt, book, by, pass, mark);
    if is_whole {
        Some(lines)
    } else {
        drop(lines);
        None
    }
}

/// A crowd of one.
fn one<R: Wait>(
    rt: &R,
    alloc: Global,
    book: &Book<MemoryKeeper>,
    mut pass: Pass,
    mark: u64,
    calls: u64,
) -> Option<Crowd>
    requires book { IsOf book.now pass }
    ensures { IfSome result (λ crowd. IsOf book.now crowd.pass) }
{
    let Some(lines) = come_and_go(rt, alloc, book, &mut pass, mark, calls) else {
        drop(pass);
        return None;
    };
    let mut visits = Vec::new(alloc);
    let pushed = visits.push(Visit {
        lines,
        caller: 0,
        read: 0,
    });
    let is_pushed = pushed.is_ok();
    drop(pushed);
    crowd_of(book, pass, visits, is_pushed)
}

/// A visit for each mark from `low` to below `high`, each in a thread of its own.
pub fn gather<R: Threads + Wait + Sync>(
    rt: &R,
    alloc: Global,
    book: &Book<MemoryKeeper>,
    mut pass: Pass,
    low: u64,
    high: u64,
    calls: u64,
) -> Option<Crowd>
    requires book { IsOf book.now pass }
    requires marks { low < high }
    ensures { IfSome result (λ crowd. IsOf book.now crowd.pass) }
{
    if high - low == 1 {
        return one(rt, alloc, book, pass, low, calls);
    }
    let middle = low + (high - low) / 2;
    let other = runner(book, &mut pass);
    let (left, right) = thread::join(
        rt,
        || -> Option<Crowd>
            requires { IsOf book.now pass × (low < middle) }
            ensures { IfSome result (λ crowd. IsOf book.entry.now crowd.pass) }
        { gather(rt, alloc, book, pass, low, middle, calls) },
        || -> Option<Crowd>
            requires { IsOf book.now other × (middle < high) }
            ensures { IfSome result (λ crowd. IsOf book.entry.now crowd.pass) }
        { gather(rt, alloc, book, other, middle, high, calls) },
    );
    both(rt, book, left, right)
}

/// Takes a crowd into another.
fn merge<R: Wait>(rt: &R, book: &Book<MemoryKeeper>, left: Crowd, right: Crowd) -> Option<Crowd>
    requires left { IsOf book.now left.pass }
    requires right { IsOf book.now right.pass }
    ensures { IfSome result (λ crowd. IsOf book.now crowd.pass) }
{
    let Crowd {
        mut pass,
        mut visits,
    } = left;
    let Crowd {
        pass: other,
        visits: mut more,
    } = right;
    leaves(rt, book, &mut pass, other, 0);
    let is_whole = visits.append(&mut more).is_ok();
    drop(more);
    crowd_of(book, pass, visits, is_whole)
}

/// Takes a crowd into another, if both are there.
fn both<R: Wait>(
    rt: &R,
    book: &Book<MemoryKeeper>,
    left: Option<Crowd>,
    right: Option<Crowd>,
) -> Option<Crowd>
    requires left { IfSome left (λ crowd. IsOf book.now crowd.pass) }
    requires right { IfSome right (λ crowd. IsOf book.now crowd.pass) }
    ensures { IfSome result (λ crowd. IsOf book.now crowd.pass) }
{
    let Some(left) = left else {
        drop(right);
        return None;
    };
    match right {
        Some(right) => merge(rt, book, left, right),
        None => {
            drop(left);
            None
        }
    }
}
