ghost use Rattle.std.specs.Prelude.{◌≡◌, ◌≢◌, ◌≤◌};
ghost use Rattle.scm_book.specs.Passes.{IsOf};
ghost use Rattle.conn_desk.specs.Connection.{IsServedFor};
ghost use Rattle.conn_worker.specs.Complete.{AnswersAll, FindsRoom, HadRoomThroughout, IsComplete};
ghost use Rattle.conn_worker.specs.Connecting.{Connects};

use crate::desk::BookDesk;
use crate::waiter::Waiter;
use conn_desk::{Served, serve};
use outside::{Clock, Sink, Source};
use record_journal::Keeper;
use scm_book::{Book, Pass, Spent};
use std::alloc::Global;
use std::sync::Wait;

/// How a connection ended, and its spent pass.
#[derive(Drop)]
pub struct Ended {
    pub how: Served,
    pub spent: Spent,
}

/// Serves the connection of the caller whose pass it is until it ends, and lets the caller go.
/// Each item is answered before the next read.
pub fn serve_connection<R: Wait, K: Keeper, I: Source, O: Sink, C: Clock, W: Waiter<K>>(
    rt: &R,
    alloc: Global,
    book: &Book<K>,
    pass: Pass,
    input: &mut I,
    output: &mut O,
    clock: &C,
    waiter: &mut W,
) -> Ended
    requires book { IsOf book.now pass }
    requires caller { pass.caller ≢ 0 }
    ensures book { IsOf book.now result.spent }
    ensures connects { Connects W.silent (C.tells clock.now) book.now.opening pass result.spent
        (I.left input.old) (I.left input.new) (O.held output.old) (O.held output.new) result.how }
    ensures input { I.faults input.old ≤ I.faults input.new }
    ensures output { O.faults output.old ≤ O.faults output.new }
    ensures cause { IsServedFor result.how (I.faults input.old) (I.faults input.new)
        (O.faults output.old) (O.faults output.new) }
    // Nothing else ends a connection without faults, but that a request found no room.
    ensures complete { IsComplete (I.left input.old) (I.faults input.old) (I.faults input.new)
        (O.faults output.old) (O.faults output.new) result.how }
    // Where it ends as its input does, each item of that is answered.
    ensures answers { AnswersAll W.silent (C.tells clock.now) book.now.opening pass
        (I.left input.old) (O.held output.old) (O.held output.new) result.how }
    // Where there was room for each request, whoever else is at the book, it isn't full.
    ensures room { FindsRoom (HadRoomThroughout W.silent (C.tells clock.now) book.now.opening pass
        result.spent) (I.left input.old) result.how }
{
    let mut desk = BookDesk {
        rt,
        book,
        pass,
        clock,
        waiter,
    };
    let how = serve(alloc, &mut desk, input, output);
    let BookDesk {
        rt: _,
        book: _,
        pass,
        clock: _,
        waiter: _,
    } = desk;
    let spent = book.gone(rt, pass, clock.now());
    Ended { how, spent }
}
