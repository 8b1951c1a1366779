// A book, from its opening to its close.
ghost use Rattle.std.specs.Prelude.{◌≡◌, false};
ghost use Rattle.scm_core.specs.Managed.{AreSmall};
ghost use Rattle.scm_rules.specs.Opening.{IsOpening};
ghost use Rattle.record_journal.specs.Bearing.{Bears, stood_in};
ghost use Rattle.scm_book.specs.Ghosts.{ghosts_of};
ghost use Rattle.scm_book.specs.Passes.{IsOf};
ghost use Rattle.scm_serving.specs.Listening.{told_by};
ghost use Rattle.scm_serving.specs.Serving.{HasClosed, IsTold, ServesBook};

use child_link::{Feed, Link};
use outside::{Clock, Sink, Source};
use process_runner::Spawner;
use record_journal::{Journal, Keeper};
use scm_book::{Book, Closed, Opened, Spent};
use scm_core::Manager;
use scm_listener::Listener;
use scm_server::{ServeEnd, ServedAll, serve_all};
use scm_summary::summary_of;
use scm_text::{Items, OutOfMemory};
use scm_trail::Trail;
use std::alloc::Global;
use std::sync::Wait;
use std::thread::Threads;
use std::time;

/// How a server over a book of its own ended.
#[derive(Drop)]
pub enum BookEnd {
    /// Both listeners are closed. The summary is that of the whole history.
    Ended { summary: Items<u8>, history: Trail },
    /// A listener failed.
    ListenFault,
    /// There was no memory for the book, for a connection or for the summary.
    OutOfMemory,
}

/// How a server ended, and what it was handed.
#[derive(Drop)]
pub struct BookServed<K: Keeper, N, P> {
    pub end: BookEnd,
    pub keeper: K,
    pub admin: N,
    pub user: N,
    pub spawner: P,
}

/// How a server ended over a book with this history, which left so many services.
fn book_end(alloc: Global, end: ServeEnd, history: Trail, services: u64) -> BookEnd
    requires { history.past ≡ 0 }
    ensures { IsTold history.entries services end result }
{
    let fault = match end {
        ServeEnd::Ended => match summary_of(alloc, &history, services) {
            Ok(summary) => return BookEnd::Ended { summary, history },
            Err(OutOfMemory) => BookEnd::OutOfMemory,
        },
        ServeEnd::ListenFault => BookEnd::ListenFault,
        ServeEnd::OutOfMemory => BookEnd::OutOfMemory,
    };
    drop(history);
    fault
}

/// Closes the book after its last pass, and sums its history up, of which nothing was let go.
fn closed<R: Wait, K: Keeper, N, P>(
    rt: &R,
    alloc: Global,
    book: Book<K>,
    last: Spent,
    served: ServedAll<N, P>,
) -> BookServed<K, N, P>
    requires book { IsOf book last }
    requires whole { book.opening.records ≡ false }
    ensures closes { HasClosed (ghosts_of K.held K.faults K.settled K.crashes K.are_crashes K.asked)
        book.opening last.seen served.end result.end result.keeper }
    ensures admin { result.admin ≡ served.admin }
    ensures user { result.user ≡ served.user }
{
    let ServedAll {
        end,
        admin,
        user,
        spawner,
    } = served;
    let Closed {
        trail,
        recorder,
        keeper,
        services,
    } = book.close(rt, last);
    drop(recorder);
    let end = book_end(alloc, end, trail, services);
    BookServed {
        end,
        keeper,
        admin,
        user,
        spawner,
    }
}

/// Serves two listeners that listen, over a book that opens with this manager and this journal, and
/// closes the book. The callers of the first listener join as administrators, those of the other as
/// users; `spawner` starts the programs of services.
pub fn serve_book<R, K, N, I, O, A, P, L, F, C>(
    rt: &R,
    alloc: Global,
    manager: Manager,
    journal: Journal,
    keeper: K,
    admin: N,
    user: N,
    spawner: P,
    clock: &C,
) -> BookServed<K, N, P>
where
    R: Threads + Wait + time::Clock + Sync,
    K: Keeper + Send,
    I: Source + Send + Drop,
    O: Sink + Send + Drop,
    A: Send + Drop,
    N: Listener<In = I, Out = O, Past = A> + Send + Drop,
    L: Link + Send + Drop,
    F: Feed + Send + Drop,
    P: Spawner<Link = L, Feed = F> + Send + Drop,
    C: Clock + Sync,
    requires begins { IsOpening manager.limits manager.flat }
    requires small { AreSmall manager.limits }
    requires steps { manager.steps ≡ 0 }
    requires text { manager.text ≡ 0 }
    requires journal { Bears (stood_in journal.form (K.held keeper)) journal (K.held keeper) }
    requires settled { K.settled keeper }
    ensures { ServesBook (ghosts_of K.held K.faults K.settled K.crashes K.are_crashes K.asked)
        (C.tells clock.now) manager.limits manager.flat journal
        (told_by N.left N.accepted N.noted N.listened N.faults admin)
        (told_by N.left N.accepted N.noted N.listened N.faults result.admin)
        (told_by N.left N.accepted N.noted N.listened N.faults user)
        (told_by N.left N.accepted N.noted N.listened N.faults result.user)
        keeper result.keeper result.end }
{
    match Book::new(alloc, manager, journal, keeper) {
        Ok(Opened { book, pass }) => {
            let mut root = pass;
            let served = serve_all(rt, alloc, &book, &mut root, admin, user, spawner, clock);
            let last = book.gone(rt, root, clock.now());
            closed(rt, alloc, book, last, served)
        }
        Err(keeper) => BookServed {
            end: BookEnd::OutOfMemory,
            keeper,
            admin,
            user,
            spawner,
        },
    }
}
