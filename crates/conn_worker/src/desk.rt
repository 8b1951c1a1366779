// A connection's place at the book: its calls and its raises.
ghost use Rattle.std.specs.Prelude.{◌≡◌, ◌≢◌, IfOk, IsErrOf, IsTrue, OnErr, OnOk, true};
ghost use Rattle.scm_model.specs.Ranges.{in_range};
ghost use Rattle.scm_book.specs.Called.{is_start};
ghost use Rattle.scm_book.specs.Passes.{HasPlan, IsOf, Learnt};
ghost use Rattle.conn_desk.specs.declared.asked.DecodedRequest.TheVariants.{Call, Raise};
ghost use Rattle.conn_desk.specs.Desks.{CallAnswered, HasReply};
ghost use Rattle.conn_worker.specs.Connecting.{HasNoRoomFor, unanswered};
ghost use Rattle.conn_worker.specs.Serving.{IsServed};
ghost use Rattle.conn_worker.specs.Waiting.{KeepsPlans, Looks, WaitsAndEnds};
ghost use Rattle.scm_model.specs.declared.calls.Reply.TheVariants.{Code};
ghost use Rattle.scm_model.specs.declared.steps.Answer.TheVariants as answers;
ghost use Rattle.scm_answers.specs.Answering.{IsCode};

use crate::waiter::Waiter;
use conn_desk::{HandlerError, RequestHandler};
use outside::Clock;
use record_journal::Keeper;
use scm_book::{Book, CallEnd, EndLook, MakeFault, Pass, StartEnd};
use scm_model::{Answer, Reply, Request};
use std::sync::Wait;

/// Whether a request is a start.
fn is_start(asked: &Request) -> bool
    ensures { result ≡ is_start asked.now }
{
    match asked {
        Request::Start { .. } => true,
        _ => false,
    }
}

/// Looks at a start once: where it is undecided, the waiter has a turn. `seen` is the count of the
/// book's bell before the look.
fn look<R: Wait, K: Keeper, C: Clock, W: Waiter<K>>(
    rt: &R,
    book: &Book<K>,
    pass: &mut Pass,
    clock: &C,
    waiter: &mut W,
    plan: u64,
    seen: &mut u64,
) -> Option<Reply>
    requires book { IsOf book.now pass.old }
    requires plan { HasPlan book.now.opening pass.old plan }
    ensures book { IsOf book.now pass.new }
    ensures looks { Looks W.silent (C.tells clock.now) book.now.opening plan pass.old pass.new
        result }
{
    match book.end_start(rt, pass, clock.now(), plan) {
        EndLook::Done(reply) => Some(reply),
        EndLook::Again => {
            *seen = waiter.turn(book, pass, clock.now(), *seen);
            None
        }
    }
}

/// Waits until a start is decided, and answers it.
fn wait<R: Wait, K: Keeper, C: Clock, W: Waiter<K>>(
    rt: &R,
    book: &Book<K>,
    pass: &mut Pass,
    clock: &C,
    waiter: &mut W,
    plan: u64,
) -> Reply
    requires book { IsOf book.now pass.old }
    requires plan { HasPlan book.now.opening pass.old plan }
    ensures book { IsOf book.now pass.new }
    ensures ends { WaitsAndEnds W.silent (C.tells clock.now) book.now.opening plan pass.old
        result pass.new }
{
    let mut seen = book.bell().count();
    for _ in rt.forever() {
        match look(rt, book, pass, clock, waiter, plan, &mut seen) {
            Some(reply) => return reply,
            None => {}
        }
    }
    unreachable!()
}

/// Why a request has no answer whose step isn't made.
fn unanswered(fault: MakeFault) -> HandlerError
    ensures { result ≡ unanswered fault }
{
    match fault {
        MakeFault::Full => HandlerError::Full,
        MakeFault::OutOfMemory => HandlerError::OutOfMemory,
    }
}

/// Puts a reply in the place of an answer.
#[inline(always)]
fn put(place: &mut Answer, reply: Reply)
    ensures { place.new ≡ answers.Reply reply }
{
    *place = Answer::Reply(reply);
}

/// Makes a start, and puts its reply into `told` once it is decided. It stands alone, so that no
/// other call's frame is cleared for it.
#[inline(never)]
fn start<R: Wait, K: Keeper, C: Clock, W: Waiter<K>>(
    rt: &R,
    book: &Book<K>,
    pass: &mut Pass,
    clock: &C,
    waiter: &mut W,
    request: Request,
    told: &mut Answer,
) -> Result<(), HandlerError>
    requires book { IsOf book.now pass.old }
    requires caller { pass.old.caller ≢ 0 }
    requires start { is_start request ≡ true }
    requires ranged { IsTrue (in_range request) }
    ensures book { IsOf book.now pass.new }
    ensures caller { pass.new.caller ≡ pass.old.caller }
    ensures answered { OnOk result (HasReply told.new (CallAnswered
        (IsServed W.silent (C.tells clock.now) book.now.opening) pass.old pass.new
        (Call request))) }
    ensures left { OnErr result (Learnt book.now.opening pass.old pass.new) }
    ensures untold { OnErr result (told.new ≡ told.old) }
    ensures full { IsErrOf result HandlerError.Full →
        HasNoRoomFor book.now.opening pass.new (Call request) }
{
    book.opens();
    let moment = clock.now();
    match book.begin_start(rt, pass, moment, request) {
        StartEnd::Answered(reply) => {
            put(told, reply);
            Ok(())
        }
        StartEnd::Waiting(plan) => {
            let reply = wait(rt, book, pass, clock, waiter, plan);
            put(told, reply);
            Ok(())
        }
        StartEnd::Unmade(fault) => Err(unanswered(fault)),
    }
}

/// Makes a call, and puts its reply into `told`. A start that waits is answered once it is decided.
pub fn ask<R: Wait, K: Keeper, C: Clock, W: Waiter<K>>(
    rt: &R,
    book: &Book<K>,
    pass: &mut Pass,
    clock: &C,
    waiter: &mut W,
    request: Request,
    told: &mut Answer,
) -> Result<(), HandlerError>
    requires book { IsOf book.now pass.old }
    requires caller { pass.old.caller ≢ 0 }
    requires ranged { IsTrue (in_range request) }
    ensures book { IsOf book.now pass.new }
    ensures caller { pass.new.caller ≡ pass.old.caller }
    ensures answered { OnOk result (HasReply told.new (CallAnswered
        (IsServed W.silent (C.tells clock.now) book.now.opening) pass.old pass.new
        (Call request))) }
    ensures left { OnErr result (Learnt book.now.opening pass.old pass.new) }
    ensures untold { OnErr result (told.new ≡ told.old) }
    ensures full { IsErrOf result HandlerError.Full →
        HasNoRoomFor book.now.opening pass.new (Call request) }
{
    if is_start(&request) {
        start(rt, book, pass, clock, waiter, request, told)
    } else {
        book.opens();
        let moment = clock.now();
        match book.call_into(rt, pass, moment, request, told) {
            Ok(()) => Ok(()),
            Err(fault) => Err(unanswered(fault)),
        }
    }
}

/// The code of a reply that is one.
fn code_of(told: Reply) -> u32
    requires { IsCode told }
    ensures { told ≡ Code result }
{
    let Reply::Code(code) = told else {
        unreachable!()
    };
    code
}

/// Raises what has a subtype, and answers the code that it was told.
pub fn raise<R: Wait, K: Keeper, C: Clock>(
    rt: &R,
    book: &Book<K>,
    pass: &mut Pass,
    clock: &C,
    subtype: [u8; 16],
) -> Result<u32, HandlerError>
    requires book { IsOf book.now pass.old }
    requires caller { pass.old.caller ≢ 0 }
    ensures book { IsOf book.now pass.new }
    ensures caller { pass.new.caller ≡ pass.old.caller }
    ensures answered { IfOk result (λ code.
        CallAnswered (IsServed true (C.tells clock.now) book.now.opening) pass.old pass.new
        (Raise subtype) (Code code)) }
    ensures left { OnErr result (Learnt book.now.opening pass.old pass.new) }
    ensures full { IsErrOf result HandlerError.Full →
        HasNoRoomFor book.now.opening pass.new (Raise subtype) }
{
    let moment = clock.now();
    match book.raise(rt, pass, moment, subtype) {
        CallEnd::Answered(told) => Ok(code_of(told)),
        CallEnd::Unmade(fault) => Err(unanswered(fault)),
    }
}

/// Answers the requests of the caller whose pass it has, each by a step at the end of the book's
/// history.
#[derive(Drop)]
pub struct BookDesk<'a, R: Wait, K: Keeper, C: Clock, W: Waiter<K>> {
    pub rt: &'a R,
    pub book: &'a Book<K>,
    pub pass: Pass,
    pub clock: &'a C,
    pub waiter: &'a mut W,
}

impl<'a, R: Wait, K: Keeper, C: Clock, W: Waiter<K>> RequestHandler for BookDesk<'a, R, K, C, W> {
    ghost use Rattle.std.specs.Prelude.{◌≡◌, ◌≢◌};
    ghost use Rattle.scm_book.specs.Passes.{IsOf, Learnt};
    ghost use Rattle.conn_worker.specs.Connecting.{HasNoRoomFor};
    ghost use Rattle.conn_worker.specs.Serving.{IsServed};

    ghost ready = { λ d. IsOf d.book.now d.pass × (d.pass.caller ≢ 0) };

    ghost called = { λ d e asked heard. (e.book.now ≡ d.book.now) × (e.clock.now ≡ d.clock.now)
        × IsServed W.silent (C.tells d.clock.now) d.book.now.opening d.pass e.pass asked heard };

    ghost rests = { λ d e. (e.book.now ≡ d.book.now) × (e.clock.now ≡ d.clock.now)
        × Learnt d.book.now.opening d.pass e.pass };

    ghost full = { λ d asked. HasNoRoomFor d.book.now.opening d.pass asked };

    fn call(&mut self, request: Request, told: &mut Answer) -> Result<(), HandlerError> {
        ask(
            self.rt,
            self.book,
            &mut self.pass,
            self.clock,
            self.waiter,
            request,
            told,
        )
    }

    fn raise(&mut self, subtype: [u8; 16]) -> Result<u32, HandlerError> {
        raise(self.rt, self.book, &mut self.pass, self.clock, subtype)
    }
}
