ghost use Rattle.std.specs.Prelude.{◌≡◌, IfOk, IsErrOf};
ghost use Rattle.scm_book.specs.Ghosts.{ghosts_of};
ghost use Rattle.scmd_top.specs.Modes.{HasDone};

use crate::words::{NoWords, list_of, path_of, store_of, task_of};
use crate::world::World;
use child_link::{Feed, Link};
use journal_store::Compactor;
use outside::{Clock, Sink, Source};
use process_runner::Spawner;
use record_journal::Keeper;
use scm_listener::Listener;
use scm_text::{Items, Text};
use std::alloc::Global;
use std::sync::Wait;
use std::thread::Threads;
use std::time;

/// Does what the arguments `words` ask for, and returns the status of the program: 0 done, 1 the
/// input failed, 2 the output failed, 3 the keeper failed when the journal was opened, or in
/// `compact` and `move` the keeper or the store failed, 4 the journal is damaged, 5 arguments that
/// are no mode, 6 an input that ends within a PDU, a request or a line, 7 a bad PDU or a request
/// that is too long, 8 out of memory, 9 no room for a request by the limits, 10 a listener failed,
/// 11 a bad line, 12 as many bytes of input as are read at most, 2^40, 13 the store that a journal
/// is to be moved to has bytes already, 14 a wrong line of a history.
pub fn scmd_main<R, I, O, K, Q, N, NI, NO, A, P, L, F, C>(
    rt: &R,
    alloc: Global,
    words: &Items<Text>,
    world: World<I, O, K, Q, N, P, C>,
) -> (u8, World<I, O, K, Q, N, P, C>)
where
    R: Threads + Wait + time::Clock + Sync,
    I: Source,
    O: Sink,
    K: Keeper + Send,
    Q: Compactor + Send,
    NI: Source + Send + Drop,
    NO: Sink + Send + Drop,
    A: Send + Drop,
    N: Listener<In = NI, Out = NO, Past = A> + Send + Drop,
    L: Link + Send + Drop,
    F: Feed + Send + Drop,
    P: Spawner<Link = L, Feed = F> + Send + Drop,
    C: Clock + Sync,
    ensures done { HasDone I.left I.faults O.held O.faults
        (ghosts_of K.held K.faults K.settled K.crashes K.are_crashes K.asked)
        (ghosts_of Q.held Q.faults Q.settled Q.crashes Q.are_crashes Q.asked)
        N.left N.accepted N.noted N.listened N.faults C.tells
        words.now world result.1 result.0 }
{
    match task_of(words) {
        Some(task) => world.run_task(
            rt,
            alloc,
            task,
            path_of(words),
            store_of(words),
            list_of(words),
        ),
        None => (5, world),
    }
}

/// `scmd_main` with the words that the program was given. Where they can't be had nothing is read
/// or written: words that aren't text are no job, and else there was no memory for them.
pub fn scmd_with<R, I, O, K, Q, N, NI, NO, A, P, L, F, C>(
    rt: &R,
    alloc: Global,
    words: Result<Items<Text>, NoWords>,
    world: World<I, O, K, Q, N, P, C>,
) -> (u8, World<I, O, K, Q, N, P, C>)
where
    R: Threads + Wait + time::Clock + Sync,
    I: Source,
    O: Sink,
    K: Keeper + Send,
    Q: Compactor + Send,
    NI: Source + Send + Drop,
    NO: Sink + Send + Drop,
    A: Send + Drop,
    N: Listener<In = NI, Out = NO, Past = A> + Send + Drop,
    L: Link + Send + Drop,
    F: Feed + Send + Drop,
    P: Spawner<Link = L, Feed = F> + Send + Drop,
    C: Clock + Sync,
    ensures lacks { IsErrOf words NoWords.OutOfMemory → result ≡ (8, world) }
    ensures not_text { IsErrOf words NoWords.NotText → result ≡ (5, world) }
    ensures done { IfOk words (λ w. HasDone I.left I.faults O.held O.faults
        (ghosts_of K.held K.faults K.settled K.crashes K.are_crashes K.asked)
        (ghosts_of Q.held Q.faults Q.settled Q.crashes Q.are_crashes Q.asked)
        N.left N.accepted N.noted N.listened N.faults C.tells
        w world result.1 result.0) }
{
    match words {
        Ok(words) => scmd_main(rt, alloc, &words, world),
        Err(NoWords::NotText) => (5, world),
        Err(NoWords::OutOfMemory) => (8, world),
    }
}
