// Starts that wait: how they begin, and what they are answered.
ghost use Rattle.std.specs.Prelude.{◌≢◌, IfNone, IfSome};
ghost use Rattle.scm_book.specs.Passes.{HasPlan, IsOf};

use crate::asking::told_by;
use record_journal::MemoryKeeper;
use scm_book::{Book, EndLook, Pass, StartEnd};
use scm_model::Request;
use scm_text::Items;
use std::alloc::Global;
use std::sync::Wait;

/// Begins a start by a handle, and tells its plan if it waits.
pub fn begin_start<R: Wait>(
    rt: &R,
    alloc: Global,
    book: &Book<MemoryKeeper>,
    pass: &mut Pass,
    handle: u64,
) -> Option<u64>
    requires book { IsOf book.now pass.old }
    requires caller { pass.old.caller ≢ 0 }
    ensures book { IsOf book.now pass.new }
    ensures caller { pass.new.caller ≢ 0 }
    ensures plan { IfSome result (HasPlan book.now.opening pass.new) }
{
    let words = Some(Items::new(alloc));
    match book.begin_start(rt, pass, 0, Request::Start { handle, words }) {
        StartEnd::Waiting(plan) => Some(plan),
        StartEnd::Answered(reply) => {
            drop(reply);
            None
        }
        StartEnd::Unmade(_) => None,
    }
}

/// The code that a start that waits is answered with, if it is decided.
pub fn end_start<R: Wait>(
    rt: &R,
    book: &Book<MemoryKeeper>,
    pass: &mut Pass,
    plan: u64,
) -> Option<u32>
    requires book { IsOf book.now pass.old }
    requires plan { HasPlan book.now.opening pass.old plan }
    ensures book { IsOf book.now pass.new }
    ensures caller { pass.new.caller ≢ 0 }
    ensures plan { IfNone result (HasPlan book.now.opening pass.new plan) }
{
    match book.end_start(rt, pass, 0, plan) {
        EndLook::Done(reply) => {
            let told = told_by(&reply);
            drop(reply);
            Some(told.code)
        }
        EndLook::Again => None,
    }
}
