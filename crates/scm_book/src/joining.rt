// Callers that join, starts that end, and passes that are made and taken in.
ghost use Rattle.std.specs.Prelude.{◌≡◌, ℕ, [], IfOk, IfErr, IfSome, OnErr};
ghost use Rattle.scm_model.specs.declared.steps.Answer.TheVariants as answers;
ghost use Rattle.book_rule.specs.Seats.{Waits};
ghost use Rattle.scm_book.specs.Ghosts.{ghosts_of};
ghost use Rattle.scm_book.specs.Holds.{Opens};
ghost use Rattle.scm_book.specs.Joins.{JoinCause, JoinEndsAt, JoinEndsBy, JoinsBy, TakesIn};
ghost use Rattle.scm_book.specs.Joins.{DidBeside, DidStepBeside, LearntBy, WatchesBy, join_told};
ghost use Rattle.scm_book.specs.Joins.{accompanied, fresh};
ghost use Rattle.scm_book.specs.Passes.{IsOf};
ghost use Rattle.scm_book.specs.Turns.{IsSeated, KeepsAllBy, of_badge, HasTurn, LeftIt, MakeCause};
ghost use Rattle.scm_book.specs.Turns.{MayMake, NamesNoOther};
ghost use Rattle.scm_book.specs.Called.{IsReply};
ghost use Rattle.scm_book.specs.Looks.{EndTold};
ghost use Rattle.scm_book.specs.Starts.{AlwaysThere, DidEnd, IsEndBy, IsThere};

use crate::answers::{EndLook, JoinFault};
use crate::bells::ring_of;
use crate::fault::{MakeFault, StepFault};
use crate::held::{Held, Owed, PendingEntry};
use crate::pass::Pass;
use crate::turning::{Shared, reply_of};
use atomic_table::Badge;
use book_rule::{TurnSeat, View};
use record_journal::Keeper;
use scm_model::{Answer, Principal, Step};
use std::sync::Wait;

/// The number in an answer that is a new caller's.
fn caller_of(told: Answer) -> u64
    requires { (number : ℕ) × (told ≡ answers.Caller number) }
    ensures { told ≡ answers.Caller result }
{
    let Answer::Caller(number) = told else {
        unreachable!()
    };
    number
}

/// Why a caller doesn't join, where the step of its join isn't made.
fn join_fault(fault: StepFault) -> JoinFault
    ensures { result ≡ join_told fault }
{
    match fault {
        StepFault::NotNow => JoinFault::TooMany,
        StepFault::Unmade(fault) => JoinFault::Unmade(fault),
    }
}

/// A new seat, and what the step was told that it made.
#[derive(Drop)]
pub(crate) struct MadeBeside<K: Keeper> {
    pub(crate) seat: TurnSeat<Held<K>>,
    pub(crate) told: Answer,
}

impl<K: Keeper> Shared<K> {
    /// Joins a caller on a seat, at the end of the history, and answers its number.
    fn join_at<R: Wait>(
        &self,
        rt: &R,
        moment: u64,
        principal: Principal,
        seat: &mut TurnSeat<Held<K>>,
    ) -> Result<u64, JoinFault>
        requires seat { Waits self.now.turn seat.old }
        requires opens { Opens self.now.turn.opening }
        ensures seat { Waits self.now.turn seat.new }
        ensures ends { JoinEndsAt self.now.turn.opening seat.old moment principal seat.new result }
    {
        let mut joined = PendingEntry::new(self.alloc, Step::Joined { principal });
        match self.make_at(rt, moment, &mut joined, seat) {
            Ok(told) => Ok(caller_of(told)),
            Err(fault) => Err(join_fault(fault)),
        }
    }

    /// Joins a caller on this very seat.
    pub fn join_by<R: Wait>(
        &self,
        rt: &R,
        moment: u64,
        principal: Principal,
        badge: &mut Badge<View>,
    ) -> Result<u64, JoinFault>
        requires badge { IsSeated self.now.turn badge.old }
        requires opens { Opens self.now.turn.opening }
        ensures badge { IsSeated self.now.turn badge.new }
        ensures ends { JoinEndsBy self.now.turn.opening badge.old moment principal badge.new
            result }
    {
        let mut seat = self.sit(badge);
        let joined = self.join_at(rt, moment, principal, &mut seat);
        *badge = self.stand(seat);
        joined
    }

    /// Makes a step that may come and isn't owed on a new seat, to which `seat` hands the turn
    /// over. If the step can't be made, there is no new seat.
    fn add_new_beside<R: Wait>(
        &self,
        rt: &R,
        moment: u64,
        step: &mut PendingEntry,
        mut held: Box<Held<K>>,
        seat: &mut TurnSeat<Held<K>>,
    ) -> Result<MadeBeside<K>, MakeFault>
        requires turn { HasTurn
            (ghosts_of K.held K.faults K.settled K.crashes K.are_crashes K.asked)
            self.now.turn seat.old held.value }
        requires may { MayMake self.now.turn.opening seat.old.me.0.seen [] moment step.old.step }
        ensures ok { IfOk result (DidBeside
            (ghosts_of K.held K.faults K.settled K.crashes K.are_crashes K.asked)
            self.now.turn seat.old
            seat.new moment step.old.step) }
        ensures err { OnErr result (LeftIt seat.old seat.new) }
        ensures why { IfErr result (MakeCause self.now.turn.opening seat.old.me.0.seen
            step.old.step) }
        ensures waits { Waits self.now.turn seat.new }
        ensures new { IfOk result (λ made. Waits self.now.turn made.seat) }
    {
        let ring = ring_of(&held.manager, &step.step);
        match held.make_pending(moment, step) {
            Ok(told) => {
                let mut new = self.turn.hand_over(seat);
                self.turn.commit(rt, &mut new, held);
                self.bells.ring(rt, ring);
                Ok(MadeBeside { seat: new, told })
            }
            Err(fault) => {
                self.turn.unlock(rt, seat, held);
                Err(fault)
            }
        }
    }

    /// Makes a step that isn't owed where it may come, on a new seat, to which `seat` hands the
    /// turn over.
    fn add_beside<R: Wait>(
        &self,
        rt: &R,
        moment: u64,
        step: &mut PendingEntry,
        held: Box<Held<K>>,
        seat: &mut TurnSeat<Held<K>>,
    ) -> Result<MadeBeside<K>, StepFault>
        requires turn { HasTurn
            (ghosts_of K.held K.faults K.settled K.crashes K.are_crashes K.asked)
            self.now.turn seat.old held.value }
        requires own { NamesNoOther [] step.old.step }
        ensures did { DidStepBeside
            (ghosts_of K.held K.faults K.settled K.crashes K.are_crashes K.asked)
            self.now.turn seat.old seat.new moment
            step.old.step result }
        ensures waits { Waits self.now.turn seat.new }
        ensures new { IfOk result (λ made. Waits self.now.turn made.seat) }
    {
        if !held.manager.may(moment, &step.step) {
            self.turn.unlock(rt, seat, held);
            return Err(StepFault::NotNow);
        }
        match self.add_new_beside(rt, moment, step, held, seat) {
            Ok(made) => Ok(made),
            Err(fault) => Err(StepFault::Unmade(fault)),
        }
    }

    /// Joins a caller on a new seat, which has seen as much as `by`, and lets `by` see what that
    /// seat has then seen. If nobody can join, there is no new seat and no entry.
    pub fn join_beside<R: Wait>(
        &self,
        rt: &R,
        moment: u64,
        principal: Principal,
        by: &mut Badge<View>,
    ) -> Result<Pass, JoinFault>
        requires badge { IsSeated self.now.turn by.old }
        requires opens { Opens self.now.turn.opening }
        ensures badge { IsSeated self.now.turn by.new }
        ensures by { WatchesBy self.now.turn.opening by.old by.new }
        ensures keeps { KeepsAllBy self.now.turn.opening by.old by.new }
        ensures book { IfOk result (IsOf self.now.turn) }
        ensures joins { IfOk result (JoinsBy self.now.turn.opening by.old moment principal by.new) }
        ensures learnt { OnErr result (LearntBy self.now.turn.opening by.old by.new) }
        ensures cause { IfErr result (JoinCause self.now.turn.opening (of_badge by.new) principal) }
    {
        let mut joined = PendingEntry::new(self.alloc, Step::Joined { principal });
        let mut mine = self.sit(by);
        let held = self.turn.enter(rt, &mut mine);
        match self.add_beside(rt, moment, &mut joined, held, &mut mine) {
            Ok(MadeBeside { mut seat, told }) => {
                let witness = self.turn.fork(&mut seat);
                self.turn.merge(&mut mine, witness);
                *by = self.stand(mine);
                let badge = self.stand(seat);
                let caller = caller_of(told);
                Ok(Pass { badge, caller })
            }
            Err(fault) => {
                *by = self.stand(mine);
                Err(join_fault(fault))
            }
        }
    }

    /// A pass that is nobody's, which has seen as much as `by`.
    pub fn accompany(&self, by: &mut Badge<View>) -> Pass
        requires badge { IsSeated self.now.turn by.old }
        ensures badge { IsSeated self.now.turn by.new }
        ensures by { of_badge by.new ≡ accompanied (of_badge by.old) }
        ensures runner { result ≡ fresh (of_badge by.old) }
    {
        let mut mine = self.sit(by);
        let runner = self.turn.fork(&mut mine);
        *by = self.stand(mine);
        let badge = self.stand(runner);
        Pass { badge, caller: 0 }
    }

    /// Takes a token in, which is then spent.
    pub fn take_in(&self, by: &mut Badge<View>, mut spent: Badge<View>)
        requires badge { IsSeated self.now.turn by.old }
        requires spent { IsSeated self.now.turn spent }
        requires opens { Opens self.now.turn.opening }
        ensures badge { IsSeated self.now.turn by.new }
        ensures keeps { KeepsAllBy self.now.turn.opening by.old by.new }
        ensures takes { TakesIn (of_badge by.old) (of_badge spent) (of_badge by.new) }
    {
        let mut mine = self.sit(by);
        let other = self.sit(&mut spent);
        self.turn.merge(&mut mine, other);
        *by = self.stand(mine);
    }
}

impl<K: Keeper> Shared<K> {
    /// Answers a start whose plan is decided, with the turn held; none where it is undecided.
    fn add_end<R: Wait>(
        &self,
        rt: &R,
        moment: u64,
        plan: u64,
        by: u64,
        held: Box<Held<K>>,
        seat: &mut TurnSeat<Held<K>>,
    ) -> Option<Answer>
        requires turn { HasTurn
            (ghosts_of K.held K.faults K.settled K.crashes K.are_crashes K.asked)
            self.now.turn seat.old held.value }
        requires there { IsThere self.now.turn.opening seat.old.me.0.seen seat.old.me.0.names by
            plan }
        ensures did { DidEnd (ghosts_of K.held K.faults K.settled K.crashes K.are_crashes K.asked)
            self.now.turn seat.old seat.new moment by
            plan result }
        ensures waits { Waits self.now.turn seat.new }
    {
        if held.manager.decided(plan).is_none() {
            self.turn.unlock(rt, seat, held);
            return None;
        }
        let owed = Owed::EndStart { caller: by, plan };
        Some(self.add_owed(rt, moment, owed, held, seat))
    }

    /// Answers a start whose plan is decided at the end of the history; none where it is undecided
    /// there.
    pub fn end_by<R: Wait>(
        &self,
        rt: &R,
        moment: u64,
        plan: u64,
        caller: u64,
        badge: &mut Badge<View>,
    ) -> Option<Answer>
        requires badge { IsSeated self.now.turn badge.old }
        requires there { AlwaysThere self.now.turn.opening (of_badge badge.old) caller plan }
        ensures badge { IsSeated self.now.turn badge.new }
        ensures ends { IsEndBy self.now.turn.opening badge.old moment caller plan badge.new result }
    {
        let mut seat = self.sit(badge);
        let held = self.turn.enter(rt, &mut seat);
        let ended = self.add_end(rt, moment, plan, caller, held, &mut seat);
        *badge = self.stand(seat);
        ended
    }
}

/// The outcome of a look at a start that waits.
pub fn end_look(ended: Option<Answer>) -> EndLook
    requires { IfSome ended IsReply }
    ensures { EndTold ended result }
{
    match ended {
        Some(told) => EndLook::Done(reply_of(told)),
        None => EndLook::Again,
    }
}
