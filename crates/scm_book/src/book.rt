// The book, and its calls.
ghost use Rattle.std.specs.Prelude.{◌≡◌, ◌≢◌, false, true, IfErr, IfOk, IsTrue, Ok, OnErr};
ghost use Rattle.scm_model.specs.Ranges.{in_range};
ghost use Rattle.scm_rules.specs.Opening.{IsOpening};
ghost use Rattle.scm_core.specs.Managed.{AreSmall};
ghost use Rattle.record_journal.specs.Bearing.{Bears, stood_in};
ghost use Rattle.scm_book.specs.Ghosts.{ghosts_of};
ghost use Rattle.scm_book.specs.declared.turning.Recorded.TheVariants.{NoMemory};
ghost use Rattle.scm_book.specs.Called.{Calls, CallsInto, LeavesWhose, Raises, StartsAs, is_start};
ghost use Rattle.scm_book.specs.Calls.{BeginsRecorded, BeginsWith, Closes, Goes};
ghost use Rattle.scm_book.specs.Holds.{Opens};
ghost use Rattle.scm_book.specs.Joins.{BecomesCaller, JoinCause, Joins, TakesIn, Watches};
ghost use Rattle.scm_book.specs.Joins.{accompanied, fresh};
ghost use Rattle.scm_book.specs.Passes.{HasPlan, IsOf, KeepsAll, Learnt};
ghost use Rattle.scm_book.specs.Starts.{EndKeeps, EndLooks};
ghost use Rattle.scm_book.specs.Turns.{AlwaysMay, CallEnds, call_told};

use crate::answers::{CallEnd, EndLook, JoinFault, NotJoined, StartEnd};
use crate::bells::{Bell, Bells};
use crate::fault::MakeFault;
use crate::held::{Held, Owed, PendingEntry};
use crate::joining::end_look;
use crate::pass::{Pass, Spent};
use crate::turning::{Recorded, Shared, call_end, call_end_into, reply_of, start_end};
use book_rule::{Begun, Turn};
use history_log::HistoryLog;
use record_journal::{Journal, Keeper};
use scm_core::Manager;
use scm_model::{Answer, Kept, Principal, Request, Step};
use scm_trail::Trail;
use std::alloc::Global;
use std::marker::Model;
use std::sync::Wait;
use trail_log::{Mode, RecordEnd, Recorder};

/// One legal history for all callers. Contracts see which book it is, and how its history opened.
#[derive(Drop)]
pub struct Book<K: Keeper> {
    pub(crate) shared: Shared<K>,
}

/// A new book, and its one pass.
#[derive(Drop)]
pub struct Opened<K: Keeper> {
    pub book: Book<K>,
    pub pass: Pass,
}

/// What a book leaves: the history, of which the log may have the front, the keeper, and how many
/// services there are.
#[derive(Drop)]
pub struct Closed<K: Keeper> {
    pub trail: Trail,
    pub recorder: Recorder<HistoryLog>,
    pub keeper: K,
    pub services: u64,
}

impl<K: Keeper> Model for Book<K> {
    ghost use Rattle.book_rule.specs.Seats.{Identity};
    ghost use Rattle.scm_book.specs.Holds.{Opens};

    ghost Value = { Identity };

    ghost view = { λ b. b.shared.turn };

    ghost invariant = { λ b. Opens b.shared.turn.opening };
}

impl<K: Keeper> Book<K> {
    /// A book whose history is empty, over a manager that has made no step and the journal of its
    /// configurations. Where memory is short the keeper comes back.
    pub fn new(alloc: Global, manager: Manager, journal: Journal, keeper: K) -> Result<Opened<K>, K>
        requires begins { IsOpening manager.limits manager.flat }
        requires small { AreSmall manager.limits }
        requires steps { manager.steps ≡ 0 }
        requires text { manager.text ≡ 0 }
        requires journal { Bears (stood_in journal.form (K.held keeper)) journal (K.held keeper) }
        requires settled { K.settled keeper }
        ensures ok { IfOk result (BeginsWith
            (ghosts_of K.held K.faults K.settled K.crashes K.are_crashes K.asked)
            manager journal keeper) }
        ensures err { IfErr result (λ back. back ≡ keeper) }
    {
        let recorder = Recorder::new(HistoryLog::nowhere(), Mode::Kept);
        Book::recorded(alloc, manager, recorder, journal, keeper)
    }

    /// The same of a book whose entries are recorded. What is recorded is let go.
    pub fn recorded(
        alloc: Global,
        manager: Manager,
        recorder: Recorder<HistoryLog>,
        journal: Journal,
        keeper: K,
    ) -> Result<Opened<K>, K>
        requires begins { IsOpening manager.limits manager.flat }
        requires small { AreSmall manager.limits }
        requires steps { manager.steps ≡ 0 }
        requires text { manager.text ≡ 0 }
        requires at { recorder.at ≡ 0 }
        requires journal { Bears (stood_in journal.form (K.held keeper)) journal (K.held keeper) }
        requires settled { K.settled keeper }
        ensures ok { IfOk result (BeginsRecorded
            (ghosts_of K.held K.faults K.settled K.crashes K.are_crashes K.asked)
            manager recorder journal keeper) }
        ensures err { IfErr result (λ back. back ≡ keeper) }
    {
        let held = Held::new(alloc, manager, recorder, journal, keeper);
        match Turn::new(alloc, held) {
            Ok(Begun { turn, seat }) => {
                let pass = Pass {
                    badge: seat.into_badge(),
                    caller: 0,
                };
                let shared = Shared {
                    turn,
                    bells: Bells::new(),
                    alloc,
                };
                let book = Book { shared };
                Ok(Opened { book, pass })
            }
            Err(held) => Err(held.into_keeper()),
        }
    }

    /// Counts the entries that may decide a plan, or by which a launch may be wanted. Calls that
    /// only read or open a handle aren't among them.
    pub fn bell(&self) -> &Bell {
        &self.shared.bells.common
    }

    /// Counts the entries that may send a process a control, take one of its controls, or end it.
    /// It counts such entries of a few other processes too.
    pub fn child_bell(&self, process: u64) -> &Bell {
        self.shared.bells.child(process)
    }

    /// Shuts all bells, which is the wish to end.
    pub fn shut<R: Wait>(&self, rt: &R) {
        self.shared.bells.shut(rt);
    }

    /// Records a segment of the history, if it is to be recorded, and lets it go. It makes no step,
    /// and the pass has then seen the whole history. A log that fails keeps no step from being
    /// made.
    pub fn record<R: Wait>(&self, rt: &R, pass: &mut Pass) -> RecordEnd
        requires book { IsOf self.now pass.old }
        ensures book { IsOf self.now pass.new }
        ensures learnt { Learnt self.now.opening pass.old pass.new }
        ensures keeps { KeepsAll self.now.opening pass.old pass.new }
    {
        self.shared.record_by(rt, &mut pass.badge)
    }

    /// Ends the book, and hands out the history.
    pub fn close<R: Wait>(self, rt: &R, last: Spent) -> Closed<K>
        requires { IsOf self last }
        ensures { Closes (ghosts_of K.held K.faults K.settled K.crashes K.are_crashes K.asked)
            self.opening last result }
    {
        let Spent { badge } = last;
        let Book { shared } = self;
        let Shared {
            turn,
            bells: _,
            alloc: _,
        } = shared;
        let Held {
            manager,
            trail,
            recorder,
            journal: _,
            keeper,
            alloc: _,
        } = turn.close(rt, badge.into_seat());
        let _entries = trail.entries();
        let services = manager.services();
        manager.close();
        Closed {
            trail,
            recorder,
            keeper,
            services,
        }
    }

    /// Makes the one pass of the book a caller's. It stays the only one. A pass that didn't become
    /// one comes back.
    pub fn join_alone<R: Wait>(
        &self,
        rt: &R,
        root: Pass,
        moment: u64,
        principal: Principal,
    ) -> Result<Pass, NotJoined>
        requires book { IsOf self.now root }
        requires nobody { root.caller ≡ 0 }
        requires alone { root.alone ≡ true }
        ensures book { IfOk result (IsOf self.now) }
        ensures ok { IfOk result (BecomesCaller self.now.opening root moment principal) }
        ensures caller { IfOk result (λ p. p.caller ≢ 0) }
        ensures keeps { IfOk result (KeepsAll self.now.opening root) }
        ensures back { IfErr result (λ e. IsOf self.now e.root) }
        ensures learnt { IfErr result (λ e. Learnt self.now.opening root e.root) }
        ensures keeps_back { IfErr result (λ e. KeepsAll self.now.opening root e.root) }
        ensures cause { IfErr result (λ e. JoinCause self.now.opening e.root principal e.fault) }
    {
        let Pass { mut badge, caller } = root;
        match self.shared.join_by(rt, moment, principal, &mut badge) {
            Ok(caller) => Ok(Pass { badge, caller }),
            Err(fault) => Err(NotJoined {
                fault,
                root: Pass { badge, caller },
            }),
        }
    }

    /// Joins a caller. Its pass has seen all that `by` had seen, and `by` has then seen all that
    /// the new pass has. If nobody can join, no entry is made, and `by` has seen why.
    pub fn join<R: Wait>(
        &self,
        rt: &R,
        by: &mut Pass,
        moment: u64,
        principal: Principal,
    ) -> Result<Pass, JoinFault>
        requires book { IsOf self.now by.old }
        ensures by_book { IsOf self.now by.new }
        ensures by { Watches self.now.opening by.old by.new }
        ensures keeps { KeepsAll self.now.opening by.old by.new }
        ensures book { IfOk result (IsOf self.now) }
        ensures ok { IfOk result (Joins self.now.opening by.old moment principal by.new) }
        ensures caller { IfOk result (λ p. p.caller ≢ 0) }
        ensures learnt { IfErr result (λ e. Learnt self.now.opening by.old by.new) }
        ensures cause { IfErr result (JoinCause self.now.opening by.new principal) }
    {
        self.shared
            .join_beside(rt, moment, principal, &mut by.badge)
    }

    /// A pass that is nobody's, which has seen as much as `by`. It takes no memory and no turn.
    pub fn join_runner(&self, by: &mut Pass) -> Pass
        requires { IsOf self.now by.old }
        ensures by { by.new ≡ accompanied by.old }
        ensures keeps { KeepsAll self.now.opening by.old by.new }
        ensures runner { result ≡ fresh by.old }
    {
        self.shared.accompany(&mut by.badge)
    }

    /// Takes a spent pass in. It takes no turn.
    pub fn leave(&self, by: &mut Pass, spent: Spent)
        requires by { IsOf self.now by.old }
        requires spent { IsOf self.now spent }
        ensures takes { TakesIn by.old spent by.new }
        ensures keeps { KeepsAll self.now.opening by.old by.new }
    {
        let Spent { badge } = spent;
        self.shared.take_in(&mut by.badge, badge);
    }

    /// Makes a caller's call, and puts its answer into `answer`. If there was no memory for it, the
    /// step is as it was.
    #[inline(always)]
    fn ask<R: Wait>(
        &self,
        rt: &R,
        pass: &mut Pass,
        moment: u64,
        call: &mut PendingEntry,
        answer: &mut Answer,
    ) -> Result<Recorded, MakeFault>
        requires book { IsOf self.now pass.old }
        requires caller { pass.old.caller ≢ 0 }
        requires may { AlwaysMay self.now.opening pass.old moment call.old.step }
        requires stays { LeavesWhose call.old.step }
        ensures book { IsOf self.now pass.new }
        ensures opens { Opens self.now.opening }
        ensures asks { CallEnds self.now.opening pass.old moment pass.old.caller call.old.step
            (call_told result answer.new) pass.new }
        ensures same { result ≡ Ok NoMemory → call.new ≡ call.old }
        ensures untold { OnErr result (answer.new ≡ answer.old) }
    {
        let caller = pass.caller;
        self.shared
            .call_by(rt, moment, call, answer, caller, &mut pass.badge)
    }

    /// Makes a call that is no start. It returns the answer of its entry, which stands at the
    /// pass's last own place, whatever others did between.
    pub fn call<R: Wait>(&self, rt: &R, pass: &mut Pass, moment: u64, request: Request) -> CallEnd
        requires book { IsOf self.now pass.old }
        requires caller { pass.old.caller ≢ 0 }
        requires start { is_start request ≡ false }
        requires ranged { IsTrue (in_range request) }
        ensures book { IsOf self.now pass.new }
        ensures calls { Calls self.now.opening pass.old moment request pass.new result }
        ensures keeps { KeepsAll self.now.opening pass.old pass.new }
    {
        let mut answer = Answer::Done;
        match self.call_into(rt, pass, moment, request, &mut answer) {
            Ok(()) => CallEnd::Answered(reply_of(answer)),
            Err(fault) => {
                drop(answer);
                CallEnd::Unmade(fault)
            }
        }
    }

    /// Makes a call that is no start, as `call` does, and puts its reply into `answer`, so that the
    /// functions above it don't move it.
    pub fn call_into<R: Wait>(
        &self,
        rt: &R,
        pass: &mut Pass,
        moment: u64,
        request: Request,
        answer: &mut Answer,
    ) -> Result<(), MakeFault>
        requires book { IsOf self.now pass.old }
        requires caller { pass.old.caller ≢ 0 }
        requires start { is_start request ≡ false }
        requires ranged { IsTrue (in_range request) }
        ensures book { IsOf self.now pass.new }
        ensures calls { CallsInto self.now.opening pass.old moment request pass.new result
            answer.new }
        ensures untold { OnErr result (answer.new ≡ answer.old) }
        ensures keeps { KeepsAll self.now.opening pass.old pass.new }
    {
        let mut call = PendingEntry {
            step: Step::Call {
                caller: pass.caller,
                request,
                kept: Kept::NotAsked,
            },
            note: None,
        };
        call.write(self.shared.alloc);
        let ended = self.ask(rt, pass, moment, &mut call, answer);
        call_end_into(self.shared.alloc, &call.step, ended, answer)
    }

    /// Raises the triggers with a subtype, a UUID as it lies in memory. It returns the code that is
    /// the answer of its entry, as with `call`.
    pub fn raise<R: Wait>(&self, rt: &R, pass: &mut Pass, moment: u64, subtype: [u8; 16]) -> CallEnd
        requires book { IsOf self.now pass.old }
        requires caller { pass.old.caller ≢ 0 }
        ensures book { IsOf self.now pass.new }
        ensures raises { Raises self.now.opening pass.old moment subtype pass.new result }
        ensures keeps { KeepsAll self.now.opening pass.old pass.new }
    {
        let caller = pass.caller;
        let mut raise = PendingEntry::new(self.shared.alloc, Step::Raised { caller, subtype });
        let mut answer = Answer::Done;
        let ended = self.ask(rt, pass, moment, &mut raise, &mut answer);
        call_end(self.shared.alloc, &raise.step, ended, answer)
    }

    /// Begins a start. It returns the answer of its entry, as with `call`.
    pub fn begin_start<R: Wait>(
        &self,
        rt: &R,
        pass: &mut Pass,
        moment: u64,
        request: Request,
    ) -> StartEnd
        requires book { IsOf self.now pass.old }
        requires caller { pass.old.caller ≢ 0 }
        requires start { is_start request ≡ true }
        requires ranged { IsTrue (in_range request) }
        ensures book { IsOf self.now pass.new }
        ensures starts { StartsAs self.now.opening pass.old moment request pass.new result }
        ensures keeps { KeepsAll self.now.opening pass.old pass.new }
    {
        let mut call = PendingEntry {
            step: Step::Call {
                caller: pass.caller,
                request,
                kept: Kept::NotAsked,
            },
            note: None,
        };
        call.write(self.shared.alloc);
        let mut answer = Answer::Done;
        let ended = self.ask(rt, pass, moment, &mut call, &mut answer);
        start_end(self.shared.alloc, &call.step, ended, answer)
    }

    /// Looks whether a start that waits is decided, and answers it if so. It takes no memory.
    pub fn end_start<R: Wait>(&self, rt: &R, pass: &mut Pass, moment: u64, plan: u64) -> EndLook
        requires book { IsOf self.now pass.old }
        requires plan { HasPlan self.now.opening pass.old plan }
        ensures book { IsOf self.now pass.new }
        ensures ends { EndLooks self.now.opening pass.old moment plan pass.new result }
        ensures keeps { EndKeeps self.now.opening plan pass.old pass.new result }
    {
        let caller = pass.caller;
        let ended = self
            .shared
            .end_by(rt, moment, plan, caller, &mut pass.badge);
        end_look(ended)
    }

    /// The caller goes. That always takes place. A pass that is nobody's makes no step.
    pub fn gone<R: Wait>(&self, rt: &R, pass: Pass, moment: u64) -> Spent
        requires { IsOf self.now pass }
        ensures book { IsOf self.now result }
        ensures goes { Goes self.now.opening pass moment result }
    {
        let Pass { mut badge, caller } = pass;
        if caller == 0 {
            return Spent { badge };
        }
        let gone = Owed::Gone { caller };
        let _done = self.shared.owe_by(rt, moment, gone, &mut badge);
        Spent { badge }
    }
}

impl<K: Keeper> Book<K> {
    /// Its history begins in an opening state, under limits that a manager can have. It does
    /// nothing: its clause is what a caller learns.
    pub fn opens(&self)
        ensures { Opens self.now.opening }
    {
        let _alloc = self.shared.alloc;
    }
}
