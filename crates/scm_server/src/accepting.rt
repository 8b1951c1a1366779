// Connections, accepted one after another, each served in a thread of its own.
ghost use Rattle.std.specs.Prelude.{◌≡◌, ◌≢◌, ◌<◌, ◌∷◌, ◌++◌, [], IfErr, IfOk, OnOk};
ghost use Rattle.std.specs.Prelude.{vec_capacity, vec_len};
ghost use Rattle.scm_book.specs.Passes.{IsOf};
ghost use Rattle.scm_listener.specs.Connections.{PastConnection};
ghost use Rattle.scm_server.specs.Accepts.{EndsBy, ServesNext};
ghost use Rattle.scm_server.specs.Acceptors.{IsAt, stand_of, stand_with, stood_at};
ghost use Rattle.scm_server.specs.Handling.{is_without_memory};
ghost use Rattle.scm_server.specs.Ports.{Told, told_by};
ghost use Rattle.scm_server.specs.Serving.{GoesOn, HasCome, OnlyNotes};
ghost use Rattle.scm_server.specs.Workers.{IsOfBook, out_at};
ghost use Rattle.scm_server.specs.Works.{IsDone, IsUntouched, out_of};

use crate::acceptor::{Acceptor, Host};
use crate::joining::{is_either, take_back};
use crate::worker::{AtWork, Flag, Worker, flags};
use crate::working::{Worked, work};
use outside::{Clock, Sink, Source};
use record_journal::Keeper;
use scm_book::{JoinFault, MakeFault, Pass};
use scm_listener::{Accepted, Listener, Numbered};
use std::alloc::{AllocError, Global};
use std::snapshot::Snapshot;
use std::sync::Wait;
use std::sync::atomic::Ordering::SeqCst;
use std::thread::{Scope, Threads};

/// The outcome of one accept.
#[derive(Clone, Copy, Drop)]
pub enum Next {
    /// A connection came.
    Came,
    /// None comes any more.
    Over { is_failed: bool },
}

/// Whether a join failed because memory ran out.
fn is_without_memory(fault: JoinFault) -> bool
    ensures { result ≡ is_without_memory fault }
{
    match fault {
        JoinFault::Unmade(MakeFault::OutOfMemory) => true,
        _ => false,
    }
}

/// Room for one thread more.
fn room<K: Keeper, N: Listener, C: Clock>(
    alloc: Global,
    workers: &mut Vec<Worker<K, N, C>>,
) -> Result<(Flag, Flag), AllocError>
    ensures items { workers.new.items ≡ workers.old.items }
    ensures room { OnOk result (vec_len workers.new < vec_capacity workers.new) }
{
    workers.reserve(1)?;
    flags(alloc)
}

impl<'s, K, N, I, O, P, C> Acceptor<K, N, C>
where
    K: Keeper + Send + 's,
    I: Source + Send + Drop + 's,
    O: Sink + Send + Drop + 's,
    P: Send + Drop + 's,
    N: Listener<In = I, Out = O, Past = P> + Send + 's,
    C: Clock + Sync + 's,
{
    /// Begins a connection's work in a thread. Where none can be made the work is done here, and
    /// `Err` is what came of it.
    fn begin<E, R: Threads + Wait + Sync + 's>(
        scope: &Scope<'s, E>,
        host: &Host<'s, R, K, C>,
        flag: Flag,
        done: Flag,
        pass: Pass,
        input: Numbered<I>,
        output: Numbered<O>,
    ) -> Result<Worker<K, N, C>, Worked<P>>
        requires book { IsOf host.now.book.now pass }
        requires caller { pass.caller ≢ 0 }
        requires one { input.number ≡ output.number }
        ensures of { IfOk result (λ w. IsOfBook host.now.book.now host.now.clock.now w) }
        ensures out { IfOk result (λ w. out_at I.left O.held I.faults O.faults w
            ≡ (out_of input.number (I.left input.end)
            (O.held output.end) (I.faults input.end) (O.faults output.end) pass)) }
        ensures done { IfErr result (λ w. IsDone (C.tells host.now.clock.now) host.now.book.now
            (out_of input.number (I.left input.end)
            (O.held output.end) (I.faults input.end) (O.faults output.end) pass)
            w.spent (N.tells w.past) w.how) }
    {
        let Host {
            rt,
            alloc,
            book,
            clock,
            principal: _,
        } = *host;
        let promise = AtWork::<K, N, C> {
            book: Snapshot::of(book),
            pass: Snapshot::of(&pass),
            input: Snapshot::of(&input),
            output: Snapshot::of(&output),
            clock: Snapshot::of(clock),
        };
        let worker = move || -> Worked<P>
            requires { IsOf book.now pass × (pass.caller ≢ 0) × (input.number ≡ output.number) }
            ensures { IsDone (C.tells clock.entry.now) book.entry.now (out_of input.number
                (I.left input.end)
                (O.held output.end) (I.faults input.end) (O.faults output.end) pass)
                result.spent (N.tells result.past) result.how }
        {
            let worked = work::<R, K, N, C>(rt, alloc, book, pass, input, output, clock);
            flag.store(1, SeqCst);
            drop(flag);
            worked
        };
        match scope.spawn_with(promise, worker) {
            Ok(handle) => Ok(Worker { handle, done }),
            Err(refused) => Err((refused.value)()),
        }
    }

    /// Begins a connection's work, or does it where no thread can be made.
    fn run<E, R: Threads + Wait + Sync + 's>(
        &mut self,
        scope: &Scope<'s, E>,
        host: &Host<'s, R, K, C>,
        pass: Pass,
        input: Numbered<I>,
        output: Numbered<O>,
    )
        requires at { IsAt host.now.book.now host.now.clock.now self.old }
        requires book { IsOf host.now.book.now pass }
        requires caller { pass.caller ≢ 0 }
        requires one { input.number ≡ output.number }
        ensures at { IsAt host.now.book.now host.now.clock.now self.new }
        ensures only { let tell = told_by N.left N.accepted N.noted N.listened N.faults in
            OnlyNotes (tell self.old.listener) (tell self.new.listener) }
        ensures goes { let out = out_of input.number (I.left input.end) (O.held output.end)
            (I.faults input.end) (O.faults output.end) pass in
            GoesOn (C.tells host.now.clock.now) host.now.book.now.opening host.now.principal
            (stand_with N.left N.accepted N.noted N.listened N.faults
            I.left O.held I.faults O.faults self.old out)
            (stand_of N.left N.accepted N.noted N.listened N.faults
            I.left O.held I.faults O.faults self.new) }
    {
        let Ok((flag, done)) = room(host.alloc, &mut self.workers) else {
            let worked = work::<R, K, N, C>(
                host.rt, host.alloc, host.book, pass, input, output, host.clock,
            );
            take_back(host.book, &mut self.by, &mut self.listener, worked);
            self.is_short = true;
            return;
        };
        match Self::begin(scope, host, flag, done, pass, input, output) {
            Ok(worker) => self.workers.push_reserved(worker),
            Err(worked) => {
                let one = take_back(host.book, &mut self.by, &mut self.listener, worked);
                self.is_short = is_either(self.is_short, one);
            }
        }
    }

    /// Joins a caller for a connection that came, and begins its work. Where nobody can join the
    /// connection ends unread.
    fn admit<E, R: Threads + Wait + Sync + 's>(
        &mut self,
        scope: &Scope<'s, E>,
        host: &Host<'s, R, K, C>,
        input: Numbered<I>,
        output: Numbered<O>,
    )
        requires at { IsAt host.now.book.now host.now.clock.now self.old }
        requires one { input.number ≡ output.number }
        requires new { IsUntouched (I.left input.end) (O.held output.end)
            (I.faults input.end) (O.faults output.end) }
        ensures at { IsAt host.now.book.now host.now.clock.now self.new }
        ensures only { let tell = told_by N.left N.accepted N.noted N.listened N.faults in
            OnlyNotes (tell self.old.listener) (tell self.new.listener) }
        ensures goes { let tell = told_by N.left N.accepted N.noted N.listened N.faults in
            (came : Told) → HasCome came (tell self.old.listener) input.number (I.left input.end)
            → GoesOn (C.tells host.now.clock.now) host.now.book.now.opening host.now.principal
            (stood_at N.left N.accepted N.noted N.listened N.faults
            I.left O.held I.faults O.faults self.old came)
            (stand_of N.left N.accepted N.noted N.listened N.faults
            I.left O.held I.faults O.faults self.new) }
    {
        match host
            .book
            .join(host.rt, &mut self.by, host.clock.now(), host.principal)
        {
            Ok(pass) => self.run(scope, host, pass, input, output),
            Err(fault) => {
                self.listener.note(N::end(input, output));
                self.is_short = is_either(self.is_short, is_without_memory(fault));
            }
        }
    }

    /// Takes back what is past until the next connection comes, and then serves it.
    fn serve_next<E, R: Threads + Wait + Sync + 's>(
        &mut self,
        scope: &Scope<'s, E>,
        host: &Host<'s, R, K, C>,
    ) -> Next
        requires { IsAt host.now.book.now host.now.clock.now self.old }
        ensures at { IsAt host.now.book.now host.now.clock.now self.new }
        ensures next { let stand = stand_of N.left N.accepted N.noted N.listened N.faults
            I.left O.held I.faults O.faults in
            ServesNext (C.tells host.now.clock.now) host.now.book.now.opening host.now.principal
            (stand self.old) (stand self.new) result }
    {
        self.reap_until_next(host.rt, host.book, host.clock);
        match self.listener.accept() {
            Accepted::Conn(input, output) => {
                self.admit(scope, host, input, output);
                Next::Came
            }
            Accepted::Closed => Next::Over { is_failed: false },
            Accepted::Failed => Next::Over { is_failed: true },
        }
    }

    /// Serves the connections that come until none comes any more. Some may then be at work.
    /// Answers whether the listener failed.
    pub fn accept_all<E, R: Threads + Wait + Sync + 's>(
        &mut self,
        scope: &Scope<'s, E>,
        host: &Host<'s, R, K, C>,
    ) -> bool
        requires { IsAt host.now.book.now host.now.clock.now self.old }
        ensures at { IsAt host.now.book.now host.now.clock.now self.new }
        ensures goes { let stand = stand_of N.left N.accepted N.noted N.listened N.faults
            I.left O.held I.faults O.faults in
            GoesOn (C.tells host.now.clock.now) host.now.book.now.opening host.now.principal
            (stand self.old) (stand self.new) }
        ensures ends { let tell = told_by N.left N.accepted N.noted N.listened N.faults in
            EndsBy result (tell self.old.listener) (tell self.new.listener) }
    {
        for _ in host.rt.forever() {
            match self.serve_next(scope, host) {
                Next::Came => {}
                Next::Over { is_failed } => return is_failed,
            }
        }
        unreachable!()
    }
}
