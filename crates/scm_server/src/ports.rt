// All connections of one listener, served at the same time.
ghost use Rattle.std.specs.Prelude.{◌≡◌, if◌then◌else◌};
ghost use Rattle.std.specs.Thread.{IsSend, IsSync};
ghost use Rattle.scm_book.specs.Passes.{IsOf};
ghost use Rattle.scm_server.specs.declared.ending.ServeEnd.TheVariants as ends;
ghost use Rattle.scm_server.specs.Ports.{EndsFor, GoesFar, ServesPort, told_by, was_short};

use crate::acceptor::{Acceptor, Host};
use crate::ending::ServeEnd;
use outside::{Clock, Sink, Source};
use record_journal::Keeper;
use scm_book::{Book, Pass};
use scm_listener::Listener;
use scm_model::Principal;
use std::alloc::Global;
use std::sync::Wait;
use std::thread::{self, Scope, Threads};

/// A listener that was served, the pass by which its callers joined, and how it ended.
#[derive(Drop)]
pub struct Port<N> {
    pub listener: N,
    pub pass: Pass,
    pub end: ServeEnd,
}

/// Want of memory for a connection is the end that it is.
fn end_of(is_failed: bool, is_short: bool) -> ServeEnd
    ensures { result ≡ (if is_short then ends.OutOfMemory else
        (if is_failed then ends.ListenFault else ends.Ended)) }
{
    match (is_short, is_failed) {
        (true, _) => ServeEnd::OutOfMemory,
        (false, true) => ServeEnd::ListenFault,
        (false, false) => ServeEnd::Ended,
    }
}

/// As `serve_port`, by threads of this scope.
fn serve_in<'s, E, R, K, N, I, O, P, C>(
    scope: &Scope<'s, E>,
    rt: &'s R,
    alloc: Global,
    book: &'s Book<K>,
    pass: Pass,
    listener: N,
    principal: Principal,
    clock: &'s C,
) -> Port<N>
where
    R: Threads + Wait + Sync + 's,
    K: Keeper + Send + 's,
    I: Source + Send + Drop + 's,
    O: Sink + Send + Drop + 's,
    P: Send + Drop + 's,
    N: Listener<In = I, Out = O, Past = P> + Send + Drop + 's,
    C: Clock + Sync + 's,
    requires { IsOf book.now pass }
    ensures book { IsOf book.now result.pass }
    ensures goes { GoesFar book.now.opening pass result.pass }
    ensures serves { let tell = told_by N.left N.accepted N.noted N.listened N.faults in
        ServesPort (C.tells clock.now) book.now.opening principal result.pass.seen (tell listener)
        (tell result.listener) (was_short result.end) }
    ensures ends { let tell = told_by N.left N.accepted N.noted N.listened N.faults in
        EndsFor result.end (tell listener) (tell result.listener) }
{
    book.opens();
    let host = Host {
        rt,
        alloc,
        book,
        clock,
        principal,
    };
    let mut acceptor = Acceptor {
        by: pass,
        listener,
        workers: Vec::new(alloc),
        is_short: false,
    };
    let is_failed = acceptor.accept_all(scope, &host);
    acceptor.join_all(rt, book, clock);
    let Acceptor {
        by,
        listener,
        workers,
        is_short,
    } = acceptor;
    drop(workers);
    Port {
        listener,
        pass: by,
        end: end_of(is_failed, is_short),
    }
}

/// Serves the connections of a listener that listens until it is closed or fails, each in a thread
/// of its own, or here where none can be made. Each is noted once, when its thread has ended: as
/// the caller that joined for it, or unread where none could join.
pub fn serve_port<R, K, N, I, O, P, C>(
    rt: &R,
    alloc: Global,
    book: &Book<K>,
    pass: Pass,
    listener: N,
    principal: Principal,
    clock: &C,
) -> Port<N>
where
    R: Threads + Wait + Sync,
    K: Keeper + Send,
    I: Source + Send + Drop,
    O: Sink + Send + Drop,
    P: Send + Drop,
    N: Listener<In = I, Out = O, Past = P> + Send + Drop,
    C: Clock + Sync,
    requires { IsOf book.now pass }
    ensures book { IsOf book.now result.pass }
    ensures goes { GoesFar book.now.opening pass result.pass }
    ensures serves { let tell = told_by N.left N.accepted N.noted N.listened N.faults in
        ServesPort (C.tells clock.now) book.now.opening principal result.pass.seen (tell listener)
        (tell result.listener) (was_short result.end) }
    ensures ends { let tell = told_by N.left N.accepted N.noted N.listened N.faults in
        EndsFor result.end (tell listener) (tell result.listener) }
{
    thread::scope(
        thread::scope_env(),
        rt,
        move |scope| -> Port<N>
            requires { IsSync R.row × IsSend K.row × IsSend I.row × IsSend O.row × IsSend P.row
                × IsSend N.row × IsSync C.row × IsOf book.now pass }
            ensures book { IsOf book.entry.now result.pass }
            ensures goes { GoesFar book.entry.now.opening pass result.pass }
            ensures serves { let tell = told_by N.left N.accepted N.noted N.listened N.faults in
                ServesPort (C.tells clock.entry.now) book.entry.now.opening principal
                result.pass.seen (tell listener) (tell result.listener) (was_short result.end) }
            ensures ends { let tell = told_by N.left N.accepted N.noted N.listened N.faults in
                EndsFor result.end (tell listener) (tell result.listener) }
        { serve_in(scope, rt, alloc, book, pass, listener, principal, clock) },
    )
}
