// What all who make steps share, and the steps that are made with the turn held.
ghost use Rattle.std.specs.Prelude.{◌≡◌, IfErr, IfOk, OnErr, Ok};
ghost use Rattle.book_rule.specs.Seats.{Waits};
ghost use Rattle.scm_book.specs.Ghosts.{ghosts_of};
ghost use Rattle.scm_book.specs.Turns.{IsSeated, known, of_badge, AlwaysMay, DidBy, DidSoBy};
ghost use Rattle.scm_book.specs.Turns.{DidStep, HasTurn, LeftIt, MadeBy, MakeCause, MayMakeBy};
ghost use Rattle.scm_book.specs.Turns.{NamesNoOther, StepEndsAt, StepEndsBy, CallEndsBy, DidCall};
ghost use Rattle.scm_book.specs.Turns.{DidNone, call_told};
ghost use Rattle.scm_book.specs.Passes.{Learnt};
ghost use Rattle.scm_book.specs.Steps.{owed_step};
ghost use Rattle.scm_model.specs.declared.steps.Answer.TheVariants as answers;
ghost use Rattle.scm_model.specs.declared.steps.Step.TheVariants as steps;
ghost use Rattle.scm_book.specs.declared.turning.Recorded.TheVariants.{NoMemory};
ghost use Rattle.scm_book.specs.Called.{Begun, CallTold, CallToldInto, IfTold, IsBegun, IsReply};
ghost use Rattle.scm_book.specs.Called.{StartTold, refusal_of};

use crate::answers::{CallEnd, StartEnd};
use crate::bells::{Bells, ring_of};
use crate::fault::{MakeFault, StepFault};
use crate::held::{Held, Owed, PendingEntry};
use atomic_table::Badge;
use book_rule::{Turn, TurnSeat, View};
use record_journal::Keeper;
use scm_model::codes::ERROR_NOT_ENOUGH_MEMORY;
use scm_model::{Answer, Reply, Step, refused};
use std::alloc::Global;
use std::mem;
use std::sync::Wait;
use trail_log::RecordEnd;

/// What all who make steps share: the turn, and the bells that tell of steps.
#[derive(Drop)]
pub struct Shared<K: Keeper> {
    pub turn: Turn<Held<K>>,
    pub bells: Bells,
    pub alloc: Global,
}

impl<K: Keeper> Shared<K> {
    /// The seat of a token, which is blank until the seat goes back into it.
    pub fn sit(&self, badge: &mut Badge<View>) -> TurnSeat<Held<K>>
        requires { IsSeated self.now.turn badge.old }
        ensures waits { Waits self.now.turn result }
        ensures knows { of_badge badge.old ≡ known result }
    {
        mem::replace(badge, Badge::blank()).into_seat()
    }

    /// The token of a seat.
    pub fn stand(&self, seat: TurnSeat<Held<K>>) -> Badge<View>
        requires { Waits self.now.turn seat }
        ensures seated { IsSeated self.now.turn result }
        ensures knows { known seat ≡ of_badge result }
    {
        seat.into_badge()
    }
}

impl<K: Keeper> Shared<K> {
    /// Makes a step that is owed, with the turn held.
    pub fn add_owed<R: Wait>(
        &self,
        rt: &R,
        moment: u64,
        owed: Owed,
        mut held: Box<Held<K>>,
        seat: &mut TurnSeat<Held<K>>,
    ) -> Answer
        requires turn { HasTurn
            (ghosts_of K.held K.faults K.settled K.crashes K.are_crashes K.asked)
            self.now.turn seat.old held.value }
        requires may { MayMakeBy self.now.turn.opening seat.old.me.0 moment (owed_step owed) }
        ensures did { DidBy (ghosts_of K.held K.faults K.settled K.crashes K.are_crashes K.asked)
            self.now.turn seat.old seat.new moment
            (owed_step owed) result }
        ensures waits { Waits self.now.turn seat.new }
    {
        let ring = owed.ring(&held.manager);
        let told = held.add(moment, owed);
        self.turn.commit(rt, seat, held);
        self.bells.ring(rt, ring);
        told
    }

    /// Makes a step that is owed, at the end of the history.
    pub fn owe_by<R: Wait>(
        &self,
        rt: &R,
        moment: u64,
        owed: Owed,
        badge: &mut Badge<View>,
    ) -> Answer
        requires badge { IsSeated self.now.turn badge.old }
        requires may { AlwaysMay self.now.turn.opening (of_badge badge.old) moment
            (owed_step owed) }
        ensures badge { IsSeated self.now.turn badge.new }
        ensures made { MadeBy self.now.turn.opening badge.old moment
            (owed_step owed) result badge.new }
    {
        let mut seat = self.sit(badge);
        let held = self.turn.enter(rt, &mut seat);
        let told = self.add_owed(rt, moment, owed, held, &mut seat);
        *badge = self.stand(seat);
        told
    }

    /// Makes a step that may come and isn't owed, with the turn held.
    pub fn add_new<R: Wait>(
        &self,
        rt: &R,
        moment: u64,
        step: &mut PendingEntry,
        mut held: Box<Held<K>>,
        seat: &mut TurnSeat<Held<K>>,
    ) -> Result<Answer, MakeFault>
        requires turn { HasTurn
            (ghosts_of K.held K.faults K.settled K.crashes K.are_crashes K.asked)
            self.now.turn seat.old held.value }
        requires may { MayMakeBy self.now.turn.opening seat.old.me.0 moment step.old.step }
        ensures ok { IfOk result (DidSoBy
            (ghosts_of K.held K.faults K.settled K.crashes K.are_crashes K.asked)
            self.now.turn seat.old seat.new
            moment step.old.step) }
        ensures err { OnErr result (LeftIt seat.old seat.new) }
        ensures why { IfErr result (MakeCause self.now.turn.opening seat.old.me.0.seen
            step.old.step) }
        ensures waits { Waits self.now.turn seat.new }
    {
        let ring = ring_of(&held.manager, &step.step);
        match held.make_pending(moment, step) {
            Ok(told) => {
                self.turn.commit(rt, seat, held);
                self.bells.ring(rt, ring);
                Ok(told)
            }
            Err(fault) => {
                self.turn.unlock(rt, seat, held);
                Err(fault)
            }
        }
    }

    /// Makes a step that isn't owed where it may come, with the turn held.
    pub fn add_where_it_may<R: Wait>(
        &self,
        rt: &R,
        moment: u64,
        step: &mut PendingEntry,
        held: Box<Held<K>>,
        seat: &mut TurnSeat<Held<K>>,
    ) -> Result<Answer, StepFault>
        requires turn { HasTurn
            (ghosts_of K.held K.faults K.settled K.crashes K.are_crashes K.asked)
            self.now.turn seat.old held.value }
        requires own { NamesNoOther seat.old.me.0.names step.old.step }
        ensures did { DidStep (ghosts_of K.held K.faults K.settled K.crashes K.are_crashes K.asked)
            self.now.turn seat.old seat.new moment
            step.old.step result }
        ensures waits { Waits self.now.turn seat.new }
    {
        if !held.manager.may(moment, &step.step) {
            self.turn.unlock(rt, seat, held);
            return Err(StepFault::NotNow);
        }
        match self.add_new(rt, moment, step, held, seat) {
            Ok(told) => Ok(told),
            Err(fault) => Err(StepFault::Unmade(fault)),
        }
    }

    /// Makes a step that isn't owed where it may come, at the end of the history.
    pub fn make_at<R: Wait>(
        &self,
        rt: &R,
        moment: u64,
        step: &mut PendingEntry,
        seat: &mut TurnSeat<Held<K>>,
    ) -> Result<Answer, StepFault>
        requires seat { Waits self.now.turn seat.old }
        requires own { NamesNoOther seat.old.me.0.names step.old.step }
        ensures seat { Waits self.now.turn seat.new }
        ensures ends { StepEndsAt self.now.turn.opening seat.old moment step.old.step seat.new
            result }
    {
        let held = self.turn.enter(rt, seat);
        self.add_where_it_may(rt, moment, step, held, seat)
    }

    /// The same by a token.
    pub fn make_by<R: Wait>(
        &self,
        rt: &R,
        moment: u64,
        step: &mut PendingEntry,
        badge: &mut Badge<View>,
    ) -> Result<Answer, StepFault>
        requires badge { IsSeated self.now.turn badge.old }
        requires own { NamesNoOther (of_badge badge.old).names step.old.step }
        ensures badge { IsSeated self.now.turn badge.new }
        ensures ends { StepEndsBy self.now.turn.opening badge.old moment step.old.step badge.new
            result }
    {
        let mut seat = self.sit(badge);
        let ended = self.make_at(rt, moment, step, &mut seat);
        *badge = self.stand(seat);
        ended
    }
}

impl<K: Keeper> Shared<K> {
    /// Records a segment of the history, at its end.
    pub fn record_by<R: Wait>(&self, rt: &R, badge: &mut Badge<View>) -> RecordEnd
        requires badge { IsSeated self.now.turn badge.old }
        ensures badge { IsSeated self.now.turn badge.new }
        ensures learnt { Learnt self.now.turn.opening (of_badge badge.old) (of_badge badge.new) }
    {
        let mut seat = self.sit(badge);
        let mut held = self.turn.enter(rt, &mut seat);
        let end = held.record();
        self.turn.unlock(rt, &mut seat, held);
        *badge = self.stand(seat);
        end
    }
}

/// What was recorded for a call.
#[derive(Clone, Copy)]
pub enum Recorded {
    /// The call. Its answer lies where it was to be put.
    Call,
    /// That there was no memory for it.
    NoMemory,
}

impl<K: Keeper> Shared<K> {
    /// Makes a step that tells that there was no memory for a caller's call, with the turn held.
    fn add_no_memory<R: Wait>(
        &self,
        rt: &R,
        moment: u64,
        caller: u64,
        held: Box<Held<K>>,
        seat: &mut TurnSeat<Held<K>>,
    ) -> Result<Recorded, MakeFault>
        requires turn { HasTurn
            (ghosts_of K.held K.faults K.settled K.crashes K.are_crashes K.asked)
            self.now.turn seat.old held.value }
        requires may { MayMakeBy self.now.turn.opening seat.old.me.0 moment
            (steps.NoMemory caller) }
        ensures did { DidNone (ghosts_of K.held K.faults K.settled K.crashes K.are_crashes K.asked)
            self.now.turn seat.old seat.new moment
            caller result }
        ensures waits { Waits self.now.turn seat.new }
    {
        let mut none = PendingEntry::new(self.alloc, Step::NoMemory { caller });
        match self.add_new(rt, moment, &mut none, held, seat) {
            Ok(_) => Ok(Recorded::NoMemory),
            Err(_) => Err(MakeFault::OutOfMemory),
        }
    }

    /// Makes a caller's call, with the turn held, and puts its answer into `answer`. If there is no
    /// memory for it, the entry that says so stands in its place.
    fn add_call<R: Wait>(
        &self,
        rt: &R,
        moment: u64,
        call: &mut PendingEntry,
        answer: &mut Answer,
        by: u64,
        mut held: Box<Held<K>>,
        seat: &mut TurnSeat<Held<K>>,
    ) -> Result<Recorded, MakeFault>
        requires turn { HasTurn
            (ghosts_of K.held K.faults K.settled K.crashes K.are_crashes K.asked)
            self.now.turn seat.old held.value }
        requires may { MayMakeBy self.now.turn.opening seat.old.me.0 moment call.old.step }
        requires none { MayMakeBy self.now.turn.opening seat.old.me.0 moment (steps.NoMemory by) }
        ensures did { DidCall (ghosts_of K.held K.faults K.settled K.crashes K.are_crashes K.asked)
            self.now.turn seat.old seat.new moment by
            call.old.step (call_told result answer.new) }
        ensures waits { Waits self.now.turn seat.new }
        ensures same { result ≡ Ok NoMemory → call.new ≡ call.old }
        ensures untold { OnErr result (answer.new ≡ answer.old) }
    {
        let ring = ring_of(&held.manager, &call.step);
        match held.make_into(moment, call, answer) {
            Ok(()) => {
                self.turn.commit(rt, seat, held);
                self.bells.ring(rt, ring);
                Ok(Recorded::Call)
            }
            Err(MakeFault::Full) => {
                self.turn.unlock(rt, seat, held);
                Err(MakeFault::Full)
            }
            Err(MakeFault::OutOfMemory) => self.add_no_memory(rt, moment, by, held, seat),
        }
    }

    /// Makes a caller's call at the end of the history, and puts its answer into `answer`.
    #[inline(always)]
    pub fn call_by<R: Wait>(
        &self,
        rt: &R,
        moment: u64,
        call: &mut PendingEntry,
        answer: &mut Answer,
        caller: u64,
        badge: &mut Badge<View>,
    ) -> Result<Recorded, MakeFault>
        requires badge { IsSeated self.now.turn badge.old }
        requires may { AlwaysMay self.now.turn.opening (of_badge badge.old) moment call.old.step }
        requires none { AlwaysMay self.now.turn.opening (of_badge badge.old) moment
            (steps.NoMemory caller) }
        ensures badge { IsSeated self.now.turn badge.new }
        ensures ends { CallEndsBy self.now.turn.opening badge.old moment caller call.old.step
            badge.new (call_told result answer.new) }
        ensures same { result ≡ Ok NoMemory → call.new ≡ call.old }
        ensures untold { OnErr result (answer.new ≡ answer.old) }
    {
        let mut seat = self.sit(badge);
        let held = self.turn.enter(rt, &mut seat);
        let ended = self.add_call(rt, moment, call, answer, caller, held, &mut seat);
        *badge = self.stand(seat);
        ended
    }
}

/// The refusal of a call with 8, for where there was no memory for it.
fn refusal_of(alloc: Global, step: &Step) -> Reply
    ensures { result ≡ refusal_of step.now }
{
    match step {
        Step::Call { request, .. } => refused(alloc, request, ERROR_NOT_ENOUGH_MEMORY),
        _ => Reply::Code(ERROR_NOT_ENOUGH_MEMORY),
    }
}

/// The reply in an answer that is one.
pub fn reply_of(told: Answer) -> Reply
    requires { IsReply told }
    ensures { told ≡ answers.Reply result }
{
    let Answer::Reply(reply) = told else {
        unreachable!()
    };
    reply
}

/// What a start is answered: a reply, or the plan under which it waits.
fn begun_of(told: Answer) -> StartEnd
    requires { IsBegun told }
    ensures { Begun told result }
{
    match told {
        Answer::Reply(reply) => StartEnd::Answered(reply),
        Answer::Begun(plan) => StartEnd::Waiting(plan),
        _ => unreachable!(),
    }
}

/// The outcome of a call that is no start. If there was no memory for it, it is refused.
#[inline(always)]
pub fn call_end(
    alloc: Global,
    call: &Step,
    ended: Result<Recorded, MakeFault>,
    told: Answer,
) -> CallEnd
    requires { IfTold IsReply (call_told ended told) }
    ensures { CallTold (call_told ended told) (refusal_of call.now) result }
{
    match ended {
        Ok(Recorded::Call) => CallEnd::Answered(reply_of(told)),
        Ok(Recorded::NoMemory) => {
            drop(told);
            CallEnd::Answered(refusal_of(alloc, call))
        }
        Err(fault) => {
            drop(told);
            CallEnd::Unmade(fault)
        }
    }
}

/// Puts an answer in its place.
#[inline(always)]
fn put(answer: &mut Answer, now: Answer)
    ensures { answer.new ≡ now }
{
    *answer = now;
}

/// The outcome of a call that is no start, whose answer lies in its place. If there was no memory
/// for the call, its refusal is put there.
#[inline(always)]
pub fn call_end_into(
    alloc: Global,
    call: &Step,
    ended: Result<Recorded, MakeFault>,
    answer: &mut Answer,
) -> Result<(), MakeFault>
    ensures { CallToldInto (call_told ended answer.old) (refusal_of call.now) result answer.old
        answer.new }
{
    match ended {
        Ok(Recorded::Call) => Ok(()),
        Ok(Recorded::NoMemory) => {
            put(answer, Answer::Reply(refusal_of(alloc, call)));
            Ok(())
        }
        Err(fault) => Err(fault),
    }
}

/// The outcome of a start. If there was no memory for it, it is refused.
pub fn start_end(
    alloc: Global,
    call: &Step,
    ended: Result<Recorded, MakeFault>,
    told: Answer,
) -> StartEnd
    requires { IfTold IsBegun (call_told ended told) }
    ensures { StartTold (call_told ended told) (refusal_of call.now) result }
{
    match ended {
        Ok(Recorded::Call) => begun_of(told),
        Ok(Recorded::NoMemory) => {
            drop(told);
            StartEnd::Answered(refusal_of(alloc, call))
        }
        Err(fault) => {
            drop(told);
            StartEnd::Unmade(fault)
        }
    }
}
