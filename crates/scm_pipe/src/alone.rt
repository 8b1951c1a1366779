// A connection over a book of its own.
ghost use Rattle.std.specs.Prelude.{◌≡◌, ◌≤◌, true};
ghost use Rattle.scm_core.specs.Managed.{AreSmall};
ghost use Rattle.scm_rules.specs.Opening.{IsOpening};
ghost use Rattle.record_journal.specs.Bearing.{Bears, stood_in};
ghost use Rattle.conn_desk.specs.Connection.{IsServedFor};
ghost use Rattle.conn_desk.specs.declared.served.Served.TheVariants as served;
ghost use Rattle.conn_worker.specs.Complete.{FindsRoom, IsComplete};
ghost use Rattle.scm_book.specs.declared.answers.JoinFault.TheVariants as joins;
ghost use Rattle.scm_book.specs.declared.fault.MakeFault.TheVariants as makes;
ghost use Rattle.scm_book.specs.Ghosts.{ghosts_of};
ghost use Rattle.scm_book.specs.Passes.{IsOf};
ghost use Rattle.scm_pipe.specs.Piping.{CanJoin, HasRoomForAll, IsEnd, IsEndAt, IsKept, IsRoot};

use conn_desk::Served;
use conn_worker::{PipeWaiter, serve_connection};
use outside::{Clock, Sink, Source};
use record_journal::{Journal, Keeper};
use scm_book::{Book, Closed, JoinFault, MakeFault, NotJoined, Opened, Spent};
use scm_core::Manager;
use scm_model::Principal;
use std::alloc::Global;
use std::sync::Wait;

/// How a connection ended, and the keeper of its book's journal.
#[derive(Drop)]
pub struct Piped<K: Keeper> {
    pub how: Served,
    pub keeper: K,
}

/// How a connection ends whose caller could not join, although there was a place and room for it.
fn unjoined(fault: JoinFault) -> Served
    requires { fault ≡ joins.Unmade makes.OutOfMemory }
    ensures { result ≡ served.OutOfMemory }
{
    match fault {
        JoinFault::Unmade(MakeFault::OutOfMemory) => Served::OutOfMemory,
        _ => unreachable!(),
    }
}

/// Closes the book, and keeps nothing but its keeper.
fn finished<R: Wait, K: Keeper>(rt: &R, book: Book<K>, last: Spent, how: Served) -> Piped<K>
    requires { IsOf book last }
    ensures how { result.how ≡ how }
    ensures kept { last.alone ≡ true →
        IsKept (ghosts_of K.held K.faults K.settled K.crashes K.are_crashes K.asked)
        book.opening last.seen result.keeper }
{
    let Closed {
        trail,
        recorder,
        keeper,
        services: _,
    } = book.close(rt, last);
    drop(trail);
    drop(recorder);
    Piped { how, keeper }
}

/// Makes the book's one pass a caller's, serves its connection, and closes the book.
fn serve_root<R: Wait, K: Keeper, I: Source, O: Sink, C: Clock>(
    rt: &R,
    alloc: Global,
    opened: Opened<K>,
    principal: Principal,
    input: &mut I,
    output: &mut O,
    clock: &C,
    waiter: &mut PipeWaiter<'_, R>,
) -> Piped<K>
    requires book { IsOf opened.book opened.pass }
    requires root { IsRoot opened.pass }
    requires can { CanJoin opened.book.opening principal }
    ensures ended { IsEndAt
        (ghosts_of K.held K.faults K.settled K.crashes K.are_crashes K.asked)
        (C.tells clock.now) principal opened.book.opening
        (I.left input.old) (I.left input.new) (O.held output.old) (O.held output.new) result }
    ensures input { I.faults input.old ≤ I.faults input.new }
    ensures output { O.faults output.old ≤ O.faults output.new }
    ensures cause { IsServedFor result.how (I.faults input.old) (I.faults input.new)
        (O.faults output.old) (O.faults output.new) }
{
    let Opened { book, pass } = opened;
    match book.join_alone(rt, pass, clock.now(), principal) {
        Ok(pass) => {
            let ended = serve_connection(rt, alloc, &book, pass, input, output, clock, waiter);
            finished(rt, book, ended.spent, ended.how)
        }
        Err(NotJoined { fault, root }) => {
            let spent = book.gone(rt, root, clock.now());
            finished(rt, book, spent, unjoined(fault))
        }
    }
}

/// Serves one connection over a book that opens with this manager and this journal, and that
/// nobody else calls. No process is run: a launch that a start wants fails with
/// ERROR_SERVICE_NO_THREAD. Each item is answered before the next read.
pub fn serve_alone<R: Wait, K: Keeper, I: Source, O: Sink, C: Clock>(
    rt: &R,
    alloc: Global,
    manager: Manager,
    journal: Journal,
    keeper: K,
    principal: Principal,
    input: &mut I,
    output: &mut O,
    clock: &C,
) -> Piped<K>
    requires begins { IsOpening manager.limits manager.flat }
    requires small { AreSmall manager.limits }
    requires steps { manager.steps ≡ 0 }
    requires text { manager.text ≡ 0 }
    requires place { 1 ≤ manager.limits.callers }
    requires room { 2 ≤ manager.limits.steps }
    requires journal { Bears (stood_in journal.form (K.held keeper)) journal (K.held keeper) }
    requires settled { K.settled keeper }
    ensures ended { IsEnd (ghosts_of K.held K.faults K.settled K.crashes K.are_crashes K.asked)
        (C.tells clock.now) principal manager.limits manager.flat
        journal (I.left input.old) (I.left input.new) (O.held output.old) (O.held output.new) keeper
        result }
    ensures input { I.faults input.old ≤ I.faults input.new }
    ensures output { O.faults output.old ≤ O.faults output.new }
    ensures cause { IsServedFor result.how (I.faults input.old) (I.faults input.new)
        (O.faults output.old) (O.faults output.new) }
    // Nothing else ends a connection without faults, but that a request found no room.
    ensures complete { IsComplete (I.left input.old) (I.faults input.old) (I.faults input.new)
        (O.faults output.old) (O.faults output.new) result.how }
    // Where there is room for each request, it isn't full.
    ensures room { FindsRoom (HasRoomForAll principal manager.limits manager.flat)
        (I.left input.old) result.how }
{
    let Ok(mut waiter) = PipeWaiter::new(rt, alloc) else {
        manager.close();
        return Piped {
            how: Served::OutOfMemory,
            keeper,
        };
    };
    match Book::new(alloc, manager, journal, keeper) {
        Ok(opened) => serve_root(
            rt,
            alloc,
            opened,
            principal,
            input,
            output,
            clock,
            &mut waiter,
        ),
        Err(keeper) => Piped {
            how: Served::OutOfMemory,
            keeper,
        },
    }
}
