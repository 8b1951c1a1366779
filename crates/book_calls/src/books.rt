// Books over keepers in memory, and those who come to them and go.
ghost use Rattle.std.specs.Prelude.{◌≡◌, ◌≢◌, ◌≤◌, true, IfOk, IfSome};
ghost use Rattle.scm_rules.specs.Opening.{IsOpening};
ghost use Rattle.scm_core.specs.Managed.{AreSmall};
ghost use Rattle.scm_book.specs.Passes.{IsOf};

use record_journal::{Fate, Journal, MemoryKeeper};
use scm_book::{Book, Closed, JoinFault, Opened, Pass, Spent};
use scm_core::Manager;
use scm_model::{Limits, Principal};
use scm_text::{Items, OutOfMemory};
use scm_trail::Trail;
use std::alloc::Global;
use std::sync::Wait;

/// Where a test works: what it waits by, where it takes memory, and the book.
#[derive(Drop)]
pub struct Site<'a, R> {
    pub rt: &'a R,
    pub alloc: Global,
    pub book: &'a Book<MemoryKeeper>,
}

/// The greatest limits, but for how many steps there may be.
pub fn limits(steps: u64) -> Limits
    requires { steps ≤ 16777216 }
    ensures { AreSmall result }
{
    Limits {
        services: 1024,
        handles: 1024,
        registrations: 64,
        callers: 64,
        processes: 128,
        controls: 16,
        steps,
        text: 268_435_456,
    }
}

/// A manager without services and callers.
pub fn new_manager(alloc: Global, limits: Limits) -> Result<Manager, OutOfMemory>
    requires { AreSmall limits }
    ensures begins { IfOk result (λ manager. IsOpening manager.limits manager.flat) }
    ensures small { IfOk result (λ manager. AreSmall manager.limits) }
    ensures steps { IfOk result (λ manager. manager.steps ≡ 0) }
    ensures text { IfOk result (λ manager. manager.text ≡ 0) }
    ensures limits { IfOk result (λ manager. manager.limits ≡ limits) }
{
    Manager::new(alloc, limits, Items::new(alloc), Items::new(alloc), 0)
}

/// A book over a manager that has made no step, and an empty keeper whose calls come to these
/// fates.
fn opened(alloc: Global, manager: Manager, fates: Vec<Fate>) -> Option<Opened<MemoryKeeper>>
    requires begins { IsOpening manager.limits manager.flat }
    requires small { AreSmall manager.limits }
    requires steps { manager.steps ≡ 0 }
    requires text { manager.text ≡ 0 }
    ensures book { IfSome result (λ new. IsOf new.book new.pass) }
    ensures nobody { IfSome result (λ new. new.pass.caller ≡ 0) }
    ensures alone { IfSome result (λ new. new.pass.alone ≡ true) }
{
    let keeper = MemoryKeeper::new(Vec::new(alloc), fates);
    match Book::new(alloc, manager, Journal::empty(), keeper) {
        Ok(opened) => Some(opened),
        Err(keeper) => {
            drop(keeper);
            None
        }
    }
}

/// A book over such a manager, whose keeper's calls come to these fates, the last one first.
pub fn new_book(alloc: Global, limits: Limits, fates: Vec<Fate>) -> Option<Opened<MemoryKeeper>>
    requires { AreSmall limits }
    ensures book { IfSome result (λ new. IsOf new.book new.pass) }
    ensures nobody { IfSome result (λ new. new.pass.caller ≡ 0) }
    ensures alone { IfSome result (λ new. new.pass.alone ≡ true) }
{
    match new_manager(alloc, limits) {
        Ok(manager) => opened(alloc, manager, fates),
        Err(_) => {
            drop(fates);
            None
        }
    }
}

/// Closes a book, and keeps nothing but its history.
pub fn close<R: Wait>(rt: &R, book: Book<MemoryKeeper>, last: Spent) -> Trail
    requires { IsOf book last }
{
    let Closed {
        trail,
        recorder,
        keeper,
        services: _,
    } = book.close(rt, last);
    drop(recorder);
    drop(keeper);
    trail
}

/// Joins an administrator.
pub fn guest<R: Wait>(
    rt: &R,
    book: &Book<MemoryKeeper>,
    by: &mut Pass,
    moment: u64,
) -> Result<Pass, JoinFault>
    requires book { IsOf book.now by.old }
    ensures by { IsOf book.now by.new }
    ensures book { IfOk result (IsOf book.now) }
    ensures caller { IfOk result (λ pass. pass.caller ≢ 0) }
{
    book.join(rt, by, moment, Principal::Admin)
}

/// Makes no step more by a pass. The other goes on.
pub fn leaves<R: Wait>(rt: &R, book: &Book<MemoryKeeper>, by: &mut Pass, pass: Pass, moment: u64)
    requires by { IsOf book.now by.old }
    requires pass { IsOf book.now pass }
    ensures { IsOf book.now by.new }
{
    let spent = book.gone(rt, pass, moment);
    book.leave(by, spent);
}

/// A pass that is nobody's.
pub fn runner(book: &Book<MemoryKeeper>, by: &mut Pass) -> Pass
    requires { IsOf book.now by.old }
    ensures by { IsOf book.now by.new }
    ensures runner { IsOf book.now result }
{
    book.join_runner(by)
}
