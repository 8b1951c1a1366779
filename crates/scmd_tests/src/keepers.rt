//! A service is created, deleted and created anew over a keeper of which one call fails: a plain
//! one, or a store whose disk fails.
use crate::runs::{PIPE, Run, ends};
use journal_disk::DiskFate;
use record_journal::Fate;
use std::alloc::{AllocError, Global};
use std::sync::Wait;
use std::thread::Threads;
use std::time;
use svcctl_words::Sheet;

const MADE: &str = "bind
manager
               | create h1 'Spooler' - own '/bin/true' plain | - h2 0
               | create h1 'SPOOLER' - own '/bin/true' plain | - h0 1073
               | delete h2                                   | 0
               | delete h2                                   | 1072
               | create h1 'SPOOLER' - own '/bin/true' plain | - h0 1072
               | close h2                                    | h0 0
               | create h1 'SPOOLER' - own '/bin/true' plain | - h3 0
";

const NOT_CREATED: &str = "bind
manager
can't be kept  | create h1 'Spooler' - own '/bin/true' plain | - h0 1013
the name is free | create h1 'SPOOLER' - own '/bin/true' plain | - h2 0
               | delete h2                                   | 0
               | delete h2                                   | 1072
               | create h1 'SPOOLER' - own '/bin/true' plain | - h0 1072
               | close h2                                    | h0 0
               | create h1 'SPOOLER' - own '/bin/true' plain | - h3 0
";

const NOT_DELETED: &str = "bind
manager
               | create h1 'Spooler' - own '/bin/true' plain | - h2 0
               | create h1 'SPOOLER' - own '/bin/true' plain | - h0 1073
can't be kept  | delete h2                                   | 1013
it isn't marked | delete h2                                  | 0
               | create h1 'SPOOLER' - own '/bin/true' plain | - h0 1072
               | close h2                                    | h0 0
               | create h1 'SPOOLER' - own '/bin/true' plain | - h3 0
";

const NOT_CREATED_ANEW: &str = "bind
manager
               | create h1 'Spooler' - own '/bin/true' plain | - h2 0
               | create h1 'SPOOLER' - own '/bin/true' plain | - h0 1073
               | delete h2                                   | 0
               | delete h2                                   | 1072
               | create h1 'SPOOLER' - own '/bin/true' plain | - h0 1072
               | close h2                                    | h0 0
can't be kept  | create h1 'SPOOLER' - own '/bin/true' plain | - h0 1013
";

/// What a keeper does that fails, from its first call to its last; what is then asked and answered,
/// and the status. If no call fails all is made.
const ENDS: &[(&str, &str, u8)] = &[
    // It opens.
    (MADE, "", 3),
    (NOT_CREATED, NOT_CREATED, 0),
    (NOT_DELETED, NOT_DELETED, 0),
    (NOT_CREATED_ANEW, NOT_CREATED_ANEW, 0),
    (MADE, MADE, 0),
];

/// No run takes as many calls.
const CALLS: usize = 64;

/// What keeps the journal.
#[derive(Clone, Copy)]
enum Kept {
    Plain,
    Stored,
}

/// Whether a run has one of the ends.
fn is_end<'a, R>(
    rt: &R,
    alloc: Global,
    sheet: &mut Sheet,
    words: &'a str,
    keeps: &'a [Fate],
    disk: &'a [DiskFate],
    end: usize,
) -> bool
where
    R: Threads + Wait + time::Clock + Sync,
{
    let Some((asked, told, status)) = ENDS.get(end) else {
        return false;
    };
    let run = Run {
        words,
        asked: *asked,
        told: *told,
        status: *status,
        keeps,
        disk,
        ..PIPE
    };
    ends(rt, alloc, sheet, &run).is_ok()
}

/// Puts a fault of a keeper and so many successes before it.
fn put_fates(fates: &mut Vec<Fate>, before: usize) -> Result<(), AllocError> {
    fates.push(Fate::Fails { done: 5 })?;
    for _ in 0..before {
        fates.push(Fate::Succeeds)?;
    }
    Ok(())
}

/// The same of a disk.
fn put_disk_fates(fates: &mut Vec<DiskFate>, before: usize) -> Result<(), AllocError> {
    fates.push(DiskFate::Fails { done: 5 })?;
    for _ in 0..before {
        fates.push(DiskFate::Succeeds)?;
    }
    Ok(())
}

/// Whether a run has one of the ends over a plain keeper whose call of this number fails.
fn ends_plain<R>(rt: &R, alloc: Global, sheet: &mut Sheet, call: usize, end: usize) -> bool
where
    R: Threads + Wait + time::Clock + Sync,
{
    let mut fates = Vec::new(alloc);
    let is_put = put_fates(&mut fates, call).is_ok();
    let words = "pipe --db journal";
    let is_end = is_end(rt, alloc, sheet, words, fates.as_slice(), &[], end);
    drop(fates);
    is_put && is_end
}

/// The same over a store whose disk's call of this number fails.
fn ends_stored<R>(rt: &R, alloc: Global, sheet: &mut Sheet, call: usize, end: usize) -> bool
where
    R: Threads + Wait + time::Clock + Sync,
{
    let mut fates = Vec::new(alloc);
    let is_put = put_disk_fates(&mut fates, call).is_ok();
    let words = "pipe --store journal";
    let is_end = is_end(rt, alloc, sheet, words, &[], fates.as_slice(), end);
    drop(fates);
    is_put && is_end
}

/// The end that a run has whose keeper's call of this number fails, if it is that of the call
/// before or the next one.
fn end_at<R>(
    rt: &R,
    alloc: Global,
    sheet: &mut Sheet,
    kept: Kept,
    call: usize,
    before: usize,
) -> Option<usize>
where
    R: Threads + Wait + time::Clock + Sync,
{
    for end in [before, before.saturating_add(1)] {
        let is_end = match kept {
            Kept::Plain => ends_plain(rt, alloc, sheet, call, end),
            Kept::Stored => ends_stored(rt, alloc, sheet, call, end),
        };
        if is_end {
            return Some(end);
        }
    }
    None
}

/// Whether the ends follow one another as the calls do of which one fails.
fn are_in_order<R>(rt: &R, alloc: Global, sheet: &mut Sheet, kept: Kept) -> bool
where
    R: Threads + Wait + time::Clock + Sync,
{
    let mut last = 0usize;
    for call in 0..CALLS {
        match end_at(rt, alloc, sheet, kept, call, last) {
            Some(end) => last = end,
            None => return false,
        }
    }
    last.saturating_add(1) == ENDS.len()
}

/// Whether they do so over a plain keeper, and over a store.
pub fn fail_in_order<R>(rt: &R, alloc: Global, sheet: &mut Sheet) -> bool
where
    R: Threads + Wait + time::Clock + Sync,
{
    are_in_order(rt, alloc, sheet, Kept::Plain) && are_in_order(rt, alloc, sheet, Kept::Stored)
}
