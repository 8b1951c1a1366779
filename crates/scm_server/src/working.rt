// One connection, from its caller's join to its end.
ghost use Rattle.std.specs.Prelude.{◌≢◌, ◌≡◌};
ghost use Rattle.scm_book.specs.Passes.{IsOf};
ghost use Rattle.scm_listener.specs.Connections.{PastConnection};
ghost use Rattle.scm_server.specs.Works.{IsDone, out_of};

use crate::waiter::BellWaiter;
use conn_desk::Served;
use conn_worker::{Ended, serve_connection};
use outside::Clock;
use record_journal::Keeper;
use scm_book::{Book, Pass, Spent};
use scm_listener::{Listener, Numbered};
use std::alloc::Global;
use std::sync::Wait;

/// A connection that was served and is past.
#[derive(Drop)]
pub struct Worked<P> {
    pub past: P,
    pub spent: Spent,
    pub how: Served,
}

/// Serves a connection as the caller whose pass it is, and ends it.
pub fn work<R: Wait, K: Keeper, N: Listener, C: Clock>(
    rt: &R,
    alloc: Global,
    book: &Book<K>,
    pass: Pass,
    input: Numbered<N::In>,
    output: Numbered<N::Out>,
    clock: &C,
) -> Worked<N::Past>
    requires book { IsOf book.now pass }
    requires caller { pass.caller ≢ 0 }
    requires one { input.number ≡ output.number }
    ensures done { IsDone (C.tells clock.now) book.now (out_of input.number
        (N.In.left input.end) (N.Out.held output.end)
        (N.In.faults input.end) (N.Out.faults output.end) pass)
        result.spent (N.tells result.past) result.how }
{
    let Numbered {
        number,
        end: mut source,
    } = input;
    let Numbered {
        number: same,
        end: mut sink,
    } = output;
    let mut waiter = BellWaiter { rt };
    let Ended { how, spent } = serve_connection(
        rt,
        alloc,
        book,
        pass,
        &mut source,
        &mut sink,
        clock,
        &mut waiter,
    );
    let past = N::end(
        Numbered {
            number,
            end: source,
        },
        Numbered {
            number: same,
            end: sink,
        },
    );
    Worked { past, spent, how }
}
