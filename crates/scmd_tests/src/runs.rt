//! Runs of the program in memory, and how each is to end.
use crate::rows::{SMALLEST, SMALLEST_ASKED};
use crate::running::{Coming, Memory, Outside, put_words, run};
use journal_disk::DiskFate;
use record_journal::Fate;
use scm_listener::{MemoryListener, MemoryPeer, Noted};
use std::alloc::Global;
use std::process::Abort;
use std::sync::Wait;
use std::test::*;
use std::thread::Threads;
use std::time;
use svcctl_words::{Sheet, Side, put_hex, put_hex_lines};

/// What becomes of a listener.
#[derive(Clone, Copy)]
pub enum Port<'a> {
    /// Nobody comes.
    Idle,
    /// So many come that ask the smallest session, and so many of them are served. Which calls
    /// fail, the next one last: the first listens, and the others accept.
    Comes {
        come: usize,
        served: usize,
        fails: &'a [bool],
    },
}

/// A run, and how it ends.
#[derive(Clone, Copy)]
pub struct Run<'a> {
    pub words: &'a str,
    /// What its keeper has before, in hexadecimal.
    pub stands: &'a str,
    pub asked: &'a str,
    /// How many bytes a read gives at most.
    pub piece: usize,
    /// What becomes of its reads, of its writes and of the calls of its keeper and of the disk of
    /// its store, the next one last.
    pub reads: &'a [bool],
    pub writes: &'a [bool],
    pub keeps: &'a [Fate],
    pub disk: &'a [DiskFate],
    pub admin: Port<'a>,
    pub user: Port<'a>,
    pub status: u8,
    /// The rows whose whole text is written at the least. At the most that of all that it is asked.
    pub told: &'a str,
    /// What its keeper has at the end, in hexadecimal, where that is looked at.
    pub kept: Option<&'a str>,
}

/// A connection that asks nothing, where nothing stands or fails.
pub const PIPE: Run<'static> = Run {
    words: "pipe",
    stands: "",
    asked: "",
    piece: 4096,
    reads: &[],
    writes: &[],
    keeps: &[],
    disk: &[],
    admin: Port::Idle,
    user: Port::Idle,
    status: 0,
    told: "",
    kept: None,
};

/// Adds a peer that is to connect to a listener.
fn add_peer(alloc: Global, coming: &mut Coming) -> Option<()> {
    let mut bytes = Vec::new(alloc);
    let is_put = put_hex_lines(&mut bytes, SMALLEST_ASKED).is_some();
    let peer = MemoryPeer {
        bytes,
        reads: Vec::new(alloc),
        writes: Vec::new(alloc),
    };
    let has_come = coming.peers.push_back(peer).is_ok();
    if is_put && has_come { Some(()) } else { None }
}

/// Adds the peers that are to connect to a listener.
fn let_come(alloc: Global, coming: &mut Coming, port: Port) -> Option<()> {
    let Port::Comes { come, fails, .. } = port else {
        return Some(());
    };
    coming.fails.extend_from_slice(fails).ok()?;
    for _ in 0..come {
        add_peer(alloc, coming)?;
    }
    Some(())
}

/// Puts in place what a run meets. `None` where it can't be read, or where there is no memory.
fn prepare(alloc: Global, sheet: &mut Sheet, run: &Run, outside: &mut Outside) -> Option<()> {
    put_words(alloc, &mut outside.words, run.words, ' ')?;
    sheet.put(run.words, run.asked, Side::Asks)?;
    outside.input.extend_from_slice(sheet.bytes()).ok()?;
    outside.piece = run.piece;
    outside.reads.extend_from_slice(run.reads).ok()?;
    outside.writes.extend_from_slice(run.writes).ok()?;
    outside.keeps.extend_from_slice(run.keeps).ok()?;
    outside.disk.extend_from_slice(run.disk).ok()?;
    put_hex(&mut outside.stands, run.stands)?;
    let_come(alloc, &mut outside.admin, run.admin)?;
    let_come(alloc, &mut outside.user, run.user)
}

/// Whether no more was written than the answers to all that was asked.
fn is_no_more(sheet: &mut Sheet, run: &Run, written: &[u8]) -> bool {
    sheet.put(run.words, run.asked, Side::Tells).is_some() && sheet.bytes().starts_with(written)
}

/// Whether a keeper has what is stated, if anything is.
fn is_kept(alloc: Global, kept: Option<&str>, bytes: &[u8]) -> bool {
    let Some(hex) = kept else {
        return true;
    };
    let mut stated = Vec::new(alloc);
    put_hex(&mut stated, hex).is_some() && stated.as_slice() == bytes
}

/// Whether as many connections came as are served, of which the last was told as much as the
/// smallest session.
fn is_served(sheet: &mut Sheet, port: Port, listener: &MemoryListener) -> bool {
    let Port::Comes { come, served, .. } = port else {
        return true;
    };
    if listener.waiting() != come.saturating_sub(served) {
        return false;
    }
    match listener.noted() {
        Noted::Last(ends, _) => {
            served > 0
                && sheet.put("pipe", SMALLEST, Side::Tells).is_some()
                && ends.output.bytes().len() == sheet.bytes().len()
        }
        Noted::Nothing => served == 0,
    }
}

/// Whether a run ended as it is to; else what is otherwise: a row that isn't told, or in words.
fn judge<'a>(
    alloc: Global,
    sheet: &mut Sheet,
    run: &Run<'a>,
    status: u8,
    world: &Memory,
) -> Result<(), &'a str> {
    let written = world.output.bytes();
    sheet.begins(run.words, run.told, written)?;
    if !is_no_more(sheet, run, written) {
        Err("more is written")
    } else if !is_kept(alloc, run.kept, world.keeper.bytes()) {
        Err("something else is kept")
    } else if !is_served(sheet, run.admin, &world.admin)
        || !is_served(sheet, run.user, &world.user)
    {
        Err("others are served")
    } else if status != run.status {
        Err("it has another status")
    } else {
        Ok(())
    }
}

/// Makes a run. Whether it ends as it is to; else what is otherwise.
pub fn ends<'a, R>(rt: &R, alloc: Global, sheet: &mut Sheet, of: &Run<'a>) -> Result<(), &'a str>
where
    R: Threads + Wait + time::Clock + Sync,
{
    let mut outside = Outside::new(alloc);
    let is_ready = prepare(alloc, sheet, of, &mut outside).is_some();
    let (status, world) = run(rt, alloc, outside);
    let judged = if is_ready {
        judge(alloc, sheet, of, status, &world)
    } else {
        Err("it can't be read")
    };
    drop(world);
    judged
}

/// What is otherwise in the first of some runs that doesn't end as it is to.
pub fn first_otherwise<'a, R>(
    rt: &R,
    alloc: Global,
    sheet: &mut Sheet,
    runs: &[Run<'a>],
) -> Option<&'a str>
where
    R: Threads + Wait + time::Clock + Sync,
{
    for run in runs {
        if let Err(what) = ends(rt, alloc, sheet, run) {
            return Some(what);
        }
    }
    None
}

/// Fails unless a run ends as it is to.
pub fn holds<R>(rt: &R, sheet: &mut Sheet, run: &Run)
where
    R: Abort + Threads + Wait + time::Clock + Sync + AllocGlobal,
{
    if let Err(what) = ends(rt, rt.alloc(), sheet, run) {
        panic!(rt; "scmd {}: {what}; it was asked\n{}", run.words, run.asked);
    }
}
