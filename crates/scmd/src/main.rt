//! `scmd`: the service control manager. `scmd pipe` serves one connection of svcctl from its input
//! to its output, `scmd replay` makes the steps that stand in the lines of its input and answers
//! them, `scmd audit` says whether its input is a legal history, `scmd generate N` prints the
//! summary of a stated list of steps, and `scmd serve` serves the connections of two ports of the
//! loopback. `scmd compact` makes the journal in a store as short as it can be, and `scmd move`
//! moves a journal from a plain file to a store.
#![tactic(auto)]

use child_link::{Feed, Link};
use journal_disk::FileDisk;
use journal_store::{Compactor, JournalStore};
use outside::{Clock, ReadSource, Sink, Source, SystemClock, WriteSink};
use process_runner::{ProcessSpawner, Spawner};
use record_journal::{FileKeeper, Keeper};
use scm_listener::{Listener, PortListener};
use scm_text::{Items, Text};
use scmd_top::{NoWords, World, scmd_with};
use standard_streams::fill_closed;
use std::alloc::Global;
use std::env::{self, Args};
use std::io::{self, ErrorKind};
use std::process::ExitCode;
use std::rt::Env;
use std::sync::Wait;
use std::thread::Threads;
use std::time;

/// How many connections of users are served at a time: three quarters of the places that there are
/// for callers, so that administrators always find one.
const USERS: usize = 48;

/// The status of a program whose standard streams can't be used.
const OUTPUT_FAULT: u8 = 2;

/// Why the words can't be had.
fn no_words(fault: io::Error) -> NoWords {
    let kind = fault.kind();
    drop(fault);
    match kind {
        ErrorKind::InvalidData => NoWords::NotText,
        _ => NoWords::OutOfMemory,
    }
}

/// Adds the words after the first.
fn add_words(args: Args, words: &mut Vec<Text>) -> Result<(), NoWords> {
    for word in args.skip(1) {
        if words.push(Text::from_string(word)).is_err() {
            return Err(NoWords::OutOfMemory);
        }
    }
    Ok(())
}

/// The words after the program's name.
fn arguments<R: Env + AllocGlobal>(rt: &R) -> Result<Items<Text>, NoWords> {
    let args = env::args(rt).map_err(no_words)?;
    let mut words = Vec::new(rt.alloc());
    match add_words(args, &mut words) {
        Ok(()) => Ok(Items::from_vec(words)),
        Err(fault) => {
            drop(words);
            Err(fault)
        }
    }
}

/// The whole program. Its bounds give it no leave to write to standard error, nor to any place that
/// it isn't handed.
fn program<R, I, O, K, Q, N, NI, NO, A, P, L, F, C>(
    rt: &R,
    world: World<I, O, K, Q, N, P, C>,
) -> ExitCode
where
    R: Env + AllocGlobal + Threads + Wait + time::Clock + Sync,
    I: Source + Drop,
    O: Sink + Drop,
    K: Keeper + Send,
    Q: Compactor + Send,
    NI: Source + Send + Drop,
    NO: Sink + Send + Drop,
    A: Send + Drop,
    N: Listener<In = NI, Out = NO, Past = A> + Send + Drop,
    L: Link + Send + Drop,
    F: Feed + Send + Drop,
    P: Spawner<Link = L, Feed = F> + Send + Drop,
    C: Clock + Sync + Drop,
{
    let (status, world) = scmd_with(rt, rt.alloc(), arguments(rt), world);
    drop(world);
    ExitCode::from(status)
}

fn main(rt: HostRuntime) -> ExitCode {
    if fill_closed(&rt).is_err() {
        return ExitCode::from(OUTPUT_FAULT);
    }
    let alloc: Global = rt.alloc();
    let world = World {
        input: ReadSource::new(rt.stdin()),
        output: WriteSink::new(rt.stdout()),
        keeper: FileKeeper::new(alloc, rt),
        store: JournalStore::new(alloc, FileDisk::new(alloc, rt)),
        admin: PortListener::new(alloc, rt, None),
        user: PortListener::new(alloc, rt, Some(USERS)),
        spawner: ProcessSpawner::new(rt, alloc),
        clock: SystemClock::new(rt),
    };
    program(&rt, world)
}
