// Connections at work that are past, taken back.
ghost use Rattle.std.specs.Prelude.{◌≡◌, ◌<◌, ◌+◌, ◌||◌, [], IfSome, length, map};
ghost use Rattle.scm_book.specs.Joins.{TakesIn};
ghost use Rattle.scm_book.specs.Passes.{IsOf};
ghost use Rattle.scm_listener.specs.Connections.{PastConnection, and_last};
ghost use Rattle.scm_server.specs.Acceptors.{IsAt, TakesBack};
ghost use Rattle.scm_server.specs.Handling.{wants_memory};
ghost use Rattle.scm_server.specs.Ports.{told_by};
ghost use Rattle.scm_server.specs.Serving.{OnlyNotes};

use crate::acceptor::Acceptor;
use crate::worker::Worker;
use crate::working::Worked;
use conn_desk::Served;
use outside::Clock;
use record_journal::Keeper;
use scm_book::{Book, Pass};
use scm_listener::Listener;
use std::sync::Wait;
use std::sync::atomic::Ordering::SeqCst;
use std::thread::Threads;

/// Whether a connection ended because memory ran out.
fn wants_memory(how: Served) -> bool
    ensures { result ≡ wants_memory how }
{
    match how {
        Served::OutOfMemory => true,
        _ => false,
    }
}

pub fn is_either(one: bool, other: bool) -> bool
    ensures { result ≡ (one || other) }
{
    one || other
}

/// Takes the pass of a connection in that was served, and notes the connection. Answers whether
/// there was no memory for it.
pub fn take_back<K: Keeper, N: Listener>(
    book: &Book<K>,
    by: &mut Pass,
    listener: &mut N,
    worked: Worked<N::Past>,
) -> bool
    requires by { IsOf book.now by.old }
    requires spent { IsOf book.now worked.spent }
    ensures takes { TakesIn by.old worked.spent by.new }
    ensures only { let tell = told_by N.left N.accepted N.noted N.listened N.faults in
        OnlyNotes (tell listener.old) (tell listener.new) }
    ensures noted { N.noted listener.new ≡ and_last (N.noted listener.old) (N.tells worked.past) }
    ensures short { result ≡ wants_memory worked.how }
{
    let Worked { past, spent, how } = worked;
    book.leave(by, spent);
    listener.note(past);
    wants_memory(how)
}

/// Where the first thread stands that is about to end.
fn first_done<K: Keeper, N: Listener, C: Clock>(workers: &[Worker<K, N, C>]) -> Option<usize>
    ensures { IfSome result (λ at. at < length workers.now) }
{
    workers
        .iter()
        .position(|worker| worker.done.load(SeqCst) != 0)
}

/// Waits for the listener's next connection, but not for long, and not at all where no thread is at
/// work. Returns whether an `accept` is to follow.
fn is_next<K: Keeper, N: Listener, C: Clock>(listener: &mut N, workers: &[Worker<K, N, C>]) -> bool
    ensures same { let tell = told_by N.left N.accepted N.noted N.listened N.faults in
        tell listener.new ≡ tell listener.old }
{
    workers.is_empty() || listener.wait_briefly()
}

impl<K: Keeper, N: Listener, C: Clock> Acceptor<K, N, C> {
    /// Waits for the thread at this place of the list, and takes its connection back.
    fn join_at<R: Threads>(&mut self, rt: &R, book: &Book<K>, clock: &C, at: usize)
        requires stands { IsAt book.now clock.now self.old }
        requires at { at < length self.old.workers.items }
        ensures fewer { length self.new.workers.items + 1 ≡ length self.old.workers.items }
        ensures takes { TakesBack N.left N.accepted N.noted N.listened N.faults
            N.In.left N.Out.held N.In.faults N.Out.faults
            (C.tells clock.now) book.now clock.now self.old self.new }
    {
        let _ = clock;
        let Worker { handle, done } = self.workers.remove(at);
        drop(done);
        let one = take_back(book, &mut self.by, &mut self.listener, handle.join(rt));
        self.is_short = is_either(self.is_short, one);
    }

    /// Takes the connections back whose threads are about to end.
    pub fn reap<R: Threads>(&mut self, rt: &R, book: &Book<K>, clock: &C)
        requires { IsAt book.now clock.now self.old }
        ensures { TakesBack N.left N.accepted N.noted N.listened N.faults
            N.In.left N.Out.held N.In.faults N.Out.faults
            (C.tells clock.now) book.now clock.now self.old self.new }
    {
        while let Some(at) = first_done(self.workers.as_slice()) {
            self.join_at(rt, book, clock, at);
        }
    }

    /// Takes the connections back whose threads are about to end, again and again until the
    /// listener's next connection came.
    pub fn reap_until_next<R: Threads + Wait>(&mut self, rt: &R, book: &Book<K>, clock: &C)
        requires { IsAt book.now clock.now self.old }
        ensures { TakesBack N.left N.accepted N.noted N.listened N.faults
            N.In.left N.Out.held N.In.faults N.Out.faults
            (C.tells clock.now) book.now clock.now self.old self.new }
    {
        for _ in rt.forever() {
            self.reap(rt, book, clock);
            if is_next(&mut self.listener, self.workers.as_slice()) {
                return;
            }
        }
        unreachable!()
    }

    /// Waits for all threads, and takes their connections back.
    pub fn join_all<R: Threads>(&mut self, rt: &R, book: &Book<K>, clock: &C)
        requires { IsAt book.now clock.now self.old }
        ensures none { self.new.workers.items ≡ [] }
        ensures takes { TakesBack N.left N.accepted N.noted N.listened N.faults
            N.In.left N.Out.held N.In.faults N.Out.faults
            (C.tells clock.now) book.now clock.now self.old self.new }
    {
        while self.workers.len() != 0 {
            self.join_at(rt, book, clock, 0);
        }
    }
}
