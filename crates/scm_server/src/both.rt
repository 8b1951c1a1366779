// Two listeners over one book, served at the same time.
ghost use Rattle.std.specs.Prelude.{◌≡◌};
ghost use Rattle.std.specs.Thread.{IsSend, IsSync};
ghost use Rattle.scm_book.specs.Joins.{TakesIn};
ghost use Rattle.scm_book.specs.Passes.{IsOf};
ghost use Rattle.scm_model.specs.declared.flat.Principal.TheVariants as principals;
ghost use Rattle.scm_server.specs.All.{EndsAll, ServedFrom, of_both};
ghost use Rattle.scm_server.specs.Ports.{EndsFor, GoesFar, ServesPort, told_by, was_short};

use crate::ending::ServeEnd;
use crate::ports::{Port, serve_port};
use outside::{Clock, Sink, Source};
use record_journal::Keeper;
use scm_book::{Book, Pass};
use scm_listener::Listener;
use scm_model::Principal;
use std::alloc::Global;
use std::sync::Wait;
use std::thread::{self, Threads};

/// Two listeners that were served to their ends, the pass by which it was done, and how it ended.
#[derive(Drop)]
pub struct Both<N> {
    pub admin: N,
    pub user: N,
    pub pass: Pass,
    pub end: ServeEnd,
}

/// How serving ended, of how it ended with each.
fn end_of_both(admin: ServeEnd, user: ServeEnd) -> ServeEnd
    ensures { result ≡ of_both admin user }
{
    match admin {
        ServeEnd::OutOfMemory => ServeEnd::OutOfMemory,
        ServeEnd::ListenFault => match user {
            ServeEnd::OutOfMemory => ServeEnd::OutOfMemory,
            _ => ServeEnd::ListenFault,
        },
        ServeEnd::Ended => user,
    }
}

/// Takes the pass of the administrators' port in, and puts both ports together.
fn both_of<R: Wait, K: Keeper, N: Listener, C: Clock>(
    rt: &R,
    book: &Book<K>,
    admin: Port<N>,
    user: Port<N>,
    clock: &C,
) -> Both<N>
    requires admin { IsOf book.now admin.pass }
    requires nobody { admin.pass.caller ≡ 0 }
    requires user { IsOf book.now user.pass }
    ensures book { IsOf book.now result.pass }
    ensures takes { TakesIn user.pass admin.pass result.pass }
    ensures admin { result.admin ≡ admin.listener }
    ensures user { result.user ≡ user.listener }
    ensures end { result.end ≡ of_both admin.end user.end }
{
    let spent = book.gone(rt, admin.pass, clock.now());
    let mut pass = user.pass;
    book.leave(&mut pass, spent);
    Both {
        admin: admin.listener,
        user: user.listener,
        pass,
        end: end_of_both(admin.end, user.end),
    }
}

/// Serves two listeners to their ends at the same time, each in a thread where one can be started,
/// and then shuts the book's bells. The callers of the first join as administrators, those of the
/// second as users. A listener that fails doesn't end the other.
pub fn serve_both<R, K, N, I, O, P, C>(
    rt: &R,
    alloc: Global,
    book: &Book<K>,
    pass: Pass,
    admin: N,
    user: N,
    clock: &C,
) -> Both<N>
where
    R: Threads + Wait + Sync,
    K: Keeper + Send,
    I: Source + Send + Drop,
    O: Sink + Send + Drop,
    P: Send + Drop,
    N: Listener<In = I, Out = O, Past = P> + Send + Drop,
    C: Clock + Sync,
    requires book { IsOf book.now pass }
    requires nobody { pass.caller ≡ 0 }
    ensures book { IsOf book.now result.pass }
    ensures goes { GoesFar book.now.opening pass result.pass }
    // In each legal history that goes on from what the pass has seen.
    ensures serves { let tell = told_by N.left N.accepted N.noted N.listened N.faults in
        ServedFrom (C.tells clock.now) book.now.opening result.pass.seen
        (tell admin) (tell result.admin) (tell user) (tell result.user) (was_short result.end) }
    ensures ends { let tell = told_by N.left N.accepted N.noted N.listened N.faults in
        EndsAll result.end (tell admin) (tell result.admin) (tell user) (tell result.user) }
{
    book.opens();
    let mut pass = pass;
    let one = book.join_runner(&mut pass);
    let (first, second) = thread::join(
        rt,
        move || -> Port<N>
            requires { IsSync R.row × IsSend K.row × IsSend I.row × IsSend O.row × IsSend P.row
                × IsSend N.row × IsSync C.row × IsOf book.now one }
            ensures book { IsOf book.entry.now result.pass }
            ensures goes { GoesFar book.entry.now.opening one result.pass }
            ensures serves { let tell = told_by N.left N.accepted N.noted N.listened N.faults in
                ServesPort (C.tells clock.entry.now) book.entry.now.opening principals.Admin
                result.pass.seen (tell admin) (tell result.listener) (was_short result.end) }
            ensures ends { let tell = told_by N.left N.accepted N.noted N.listened N.faults in
                EndsFor result.end (tell admin) (tell result.listener) }
        { serve_port(rt, alloc, book, one, admin, Principal::Admin, clock) },
        move || -> Port<N>
            requires { IsSync R.row × IsSend K.row × IsSend I.row × IsSend O.row × IsSend P.row
                × IsSend N.row × IsSync C.row × IsOf book.now pass }
            ensures book { IsOf book.entry.now result.pass }
            ensures goes { GoesFar book.entry.now.opening pass result.pass }
            ensures serves { let tell = told_by N.left N.accepted N.noted N.listened N.faults in
                ServesPort (C.tells clock.entry.now) book.entry.now.opening principals.User
                result.pass.seen (tell user) (tell result.listener) (was_short result.end) }
            ensures ends { let tell = told_by N.left N.accepted N.noted N.listened N.faults in
                EndsFor result.end (tell user) (tell result.listener) }
        { serve_port(rt, alloc, book, pass, user, Principal::User, clock) },
    );
    book.shut(rt);
    both_of(rt, book, first, second, clock)
}
