// Both listeners, the launcher and the ticker over one book.
ghost use Rattle.std.specs.Prelude.{◌≡◌};
ghost use Rattle.std.specs.Thread.{IsSend, IsSync};
ghost use Rattle.scm_book.specs.Passes.{IsOf};
ghost use Rattle.scm_launcher.specs.Past.{SeesOn};
ghost use Rattle.scm_launcher.specs.Ticks.{TicksOn};
ghost use Rattle.scm_server.specs.All.{EndsAll, GoesFor, ServedFrom, ServedIn, TakesAll};
ghost use Rattle.scm_server.specs.Ports.{GoesFar, told_by, was_short};

use crate::both::{Both, serve_both};
use crate::ending::ServeEnd;
use child_link::{Feed, Link};
use child_runner::BellQuit;
use outside::{Clock, Sink, Source};
use process_runner::Spawner;
use record_journal::Keeper;
use scm_book::{Book, Pass, Spent};
use scm_launcher::{Launched, launch_all, tick_all};
use scm_listener::Listener;
use std::alloc::Global;
use std::sync::Wait;
use std::thread::{self, Threads};
use std::time;

/// Both listeners and the spawner, given back, and how serving ended.
#[derive(Drop)]
pub struct ServedAll<N, S> {
    pub end: ServeEnd,
    pub admin: N,
    pub user: N,
    pub spawner: S,
}

/// What the ticker and the launcher left.
#[derive(Drop)]
struct Ran<S> {
    ticked: Spent,
    launched: Launched<S>,
}

/// Does what is due in a thread of its own, and launches what is wanted.
fn run_services<R, K, S, L, F, C>(
    rt: &R,
    alloc: Global,
    book: &Book<K>,
    ticks: Pass,
    launches: Pass,
    spawner: S,
    clock: &C,
) -> Ran<S>
where
    R: Threads + Wait + time::Clock + Sync,
    K: Keeper + Send,
    L: Link + Send + Drop,
    F: Feed + Send + Drop,
    S: Spawner<Link = L, Feed = F> + Send + Drop,
    C: Clock + Sync,
    requires ticks { IsOf book.now ticks }
    requires ticker { ticks.caller ≡ 0 }
    requires launches { IsOf book.now launches }
    requires launcher { launches.caller ≡ 0 }
    ensures ticked_book { IsOf book.now result.ticked }
    ensures ticks { TicksOn (C.tells clock.now) book.now.opening ticks result.ticked }
    ensures launched_book { IsOf book.now result.launched.spent }
    ensures sees { SeesOn book.now.opening launches result.launched.spent }
{
    let (ticked, launched) = thread::join(
        rt,
        move || -> Spent
            requires { IsSync R.row × IsSend K.row × IsSync C.row
                × IsOf book.now ticks × (ticks.caller ≡ 0) }
            ensures book { IsOf book.entry.now result }
            ensures ticks { TicksOn (C.tells clock.entry.now) book.entry.now.opening ticks result }
        {
            let quit = BellQuit::new(book.bell());
            tick_all(rt, book, ticks, clock, &quit)
        },
        move || -> Launched<S>
            requires { IsSync R.row × IsSend K.row × IsSend L.row × IsSend F.row × IsSend S.row
                × IsSync C.row × IsOf book.now launches × (launches.caller ≡ 0) }
            ensures book { IsOf book.entry.now result.spent }
            ensures sees { SeesOn book.entry.now.opening launches result.spent }
        {
            let quit = BellQuit::new(book.bell());
            launch_all(rt, alloc, book, launches, spawner, clock, &quit)
        },
    );
    Ran { ticked, launched }
}

/// Takes all passes in.
fn take_all<R: Wait, K: Keeper, N, S, C: Clock>(
    rt: &R,
    book: &Book<K>,
    root: &mut Pass,
    ran: Ran<S>,
    both: Both<N>,
    clock: &C,
) -> ServedAll<N, S>
where
    N: Drop,
    S: Drop,
    requires root { IsOf book.now root.old }
    requires ticked { IsOf book.now ran.ticked }
    requires launched { IsOf book.now ran.launched.spent }
    requires both { IsOf book.now both.pass }
    requires nobody { both.pass.caller ≡ 0 }
    ensures book { IsOf book.now root.new }
    ensures takes { TakesAll root.old ran.ticked ran.launched.spent both.pass root.new }
    ensures admin { result.admin ≡ both.admin }
    ensures user { result.user ≡ both.user }
    ensures end { result.end ≡ both.end }
{
    let Ran { ticked, launched } = ran;
    book.leave(root, ticked);
    book.leave(root, launched.spent);
    let spent = book.gone(rt, both.pass, clock.now());
    book.leave(root, spent);
    ServedAll {
        end: both.end,
        admin: both.admin,
        user: both.user,
        spawner: launched.spawner,
    }
}

/// Serves both listeners until each is closed or fails and all connections and children have ended:
/// a thread for each connection and two for each child, beside those of the launcher and the
/// ticker. What is due is done once before the first connection.
pub fn serve_all<R, K, N, I, O, P, S, L, F, C>(
    rt: &R,
    alloc: Global,
    book: &Book<K>,
    root: &mut Pass,
    admin: N,
    user: N,
    spawner: S,
    clock: &C,
) -> ServedAll<N, S>
where
    R: Threads + Wait + time::Clock + Sync,
    K: Keeper + Send,
    I: Source + Send + Drop,
    O: Sink + Send + Drop,
    P: Send + Drop,
    N: Listener<In = I, Out = O, Past = P> + Send + Drop,
    L: Link + Send + Drop,
    F: Feed + Send + Drop,
    S: Spawner<Link = L, Feed = F> + Send + Drop,
    C: Clock + Sync,
    requires { IsOf book.now root.old }
    ensures book { IsOf book.now root.new }
    ensures goes { GoesFor book.now.opening root.old root.new }
    ensures serves { let tell = told_by N.left N.accepted N.noted N.listened N.faults in
        ServedIn (C.tells clock.now) book.now.opening root.new.seen
        (tell admin) (tell result.admin) (tell user) (tell result.user) (was_short result.end) }
    ensures ends { let tell = told_by N.left N.accepted N.noted N.listened N.faults in
        EndsAll result.end (tell admin) (tell result.admin) (tell user) (tell result.user) }
{
    let mut ticks = book.join_runner(root);
    let _how = book.tick(rt, &mut ticks, clock.now());
    let launches = book.join_runner(&mut ticks);
    let serves = book.join_runner(&mut ticks);
    let (ran, both) = thread::join(
        rt,
        move || -> Ran<S>
            requires { IsSync R.row × IsSend K.row × IsSend L.row × IsSend F.row × IsSend S.row
                × IsSync C.row × IsOf book.now ticks × (ticks.caller ≡ 0)
                × IsOf book.now launches × (launches.caller ≡ 0) }
            ensures ticked_book { IsOf book.entry.now result.ticked }
            ensures ticks { TicksOn (C.tells clock.entry.now) book.entry.now.opening ticks
                result.ticked }
            ensures launched_book { IsOf book.entry.now result.launched.spent }
            ensures sees { SeesOn book.entry.now.opening launches result.launched.spent }
        { run_services(rt, alloc, book, ticks, launches, spawner, clock) },
        move || -> Both<N>
            requires { IsSync R.row × IsSend K.row × IsSend I.row × IsSend O.row × IsSend P.row
                × IsSend N.row × IsSync C.row × IsOf book.now serves × (serves.caller ≡ 0) }
            ensures book { IsOf book.entry.now result.pass }
            ensures goes { GoesFar book.entry.now.opening serves result.pass }
            ensures both { let tell = told_by N.left N.accepted N.noted N.listened N.faults in
                ServedFrom (C.tells clock.entry.now) book.entry.now.opening result.pass.seen
                (tell admin) (tell result.admin) (tell user) (tell result.user)
                (was_short result.end) × EndsAll result.end
                (tell admin) (tell result.admin) (tell user) (tell result.user) }
        { serve_both(rt, alloc, book, serves, admin, user, clock) },
    );
    take_all(rt, book, root, ran, both, clock)
}
