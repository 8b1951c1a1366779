// What a connection of the server does while its start waits.
ghost use Rattle.std.specs.Prelude.{◌≡◌, true};
ghost use Rattle.scm_book.specs.Passes.{IsOf};
ghost use Rattle.conn_worker.specs.Waiting.{KeepsPlans, Turns};

use conn_worker::Waiter;
use record_journal::Keeper;
use scm_book::{Book, Pass};
use std::sync::Wait;

/// Sleeps until the book's bell rings or is shut, and makes no step.
#[derive(Drop)]
pub struct BellWaiter<'a, R: Wait> {
    pub rt: &'a R,
}

impl<'a, R: Wait, K: Keeper> Waiter<K> for BellWaiter<'a, R> {
    ghost silent = { true };

    fn turn(&mut self, book: &Book<K>, pass: &mut Pass, moment: u64, seen: u64) -> u64
        requires { IsOf book.now pass.old }
        ensures book { IsOf book.now pass.new }
        ensures turns { Turns true book.now.opening pass.old moment pass.new }
        ensures plans { KeepsPlans book.now.opening pass.old pass.new }
        ensures pass { pass.new ≡ pass.old }
    {
        book.bell().wait(self.rt, seen)
    }
}
