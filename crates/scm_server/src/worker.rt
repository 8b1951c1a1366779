// A connection at work in a thread of its own.
ghost use Rattle.scm_server.specs.Works.{IsDone, out_of};

use crate::working::Worked;
use outside::Clock;
use record_journal::Keeper;
use scm_book::{Book, Pass};
use scm_listener::{Listener, Numbered};
use std::alloc::{AllocError, Global};
use std::snapshot::Snapshot;
use std::sync::Arc;
use std::sync::atomic::AtomicU64;
use std::thread::{Promise, PromisedHandle};

/// What a connection at work will have come to: it was served as the caller whose pass it was. Only
/// contracts read what this remembers.
#[derive(Drop)]
pub struct AtWork<K: Keeper, N: Listener, C: Clock> {
    pub book: Snapshot<Book<K>>,
    pub pass: Snapshot<Pass>,
    pub input: Snapshot<Numbered<N::In>>,
    pub output: Snapshot<Numbered<N::Out>>,
    pub clock: Snapshot<C>,
}

impl<K: Keeper, N: Listener, C: Clock> Promise<Worked<N::Past>> for AtWork<K, N, C> {
    ghost kept_by = { λ p r. IsDone (C.tells p.clock.value) p.book.value
        (out_of p.input.value.number (N.In.left p.input.value.end) (N.Out.held p.output.value.end)
        (N.In.faults p.input.value.end) (N.Out.faults p.output.value.end) p.pass.value)
        r.spent (N.tells r.past) r.how };
}

/// Is 1 where the thread is about to end.
pub type Flag = Arc<AtomicU64>;

/// A flag, once for the thread and once for who joins it.
pub fn flags(alloc: Global) -> Result<(Flag, Flag), AllocError> {
    let flag = Arc::new(alloc, AtomicU64::new(0))?;
    let done = Arc::try_clone(&flag)?;
    Ok((flag, done))
}

/// A thread at work on a connection.
#[derive(Drop)]
pub struct Worker<K: Keeper, N: Listener, C: Clock> {
    pub handle: PromisedHandle<Worked<N::Past>, AtWork<K, N, C>>,
    pub done: Flag,
}
