// The calls of the book on processes, launches, reports and what is due.
ghost use Rattle.std.specs.Prelude.{◌≡◌, ◌≤◌, ◌<◌, ◌+◌, ◌^◌, [], IfOk, IsTrue, ◌≢◌};
ghost use Rattle.scm_rules.specs.Steps.{wants_launch};
ghost use Rattle.book_rule.specs.Seats.{Waits};
ghost use Rattle.scm_book.specs.Ghosts.{ghosts_of};
ghost use Rattle.scm_book.specs.Processes.{DidLaunch, HoldsLaunch, TakesBy, EndedSo, IsEnd};
ghost use Rattle.scm_book.specs.Processes.{KeepsAllBut, LaunchEnds, told_of_end};
ghost use Rattle.scm_book.specs.Turns.{HasTurn, IsSeated, of_badge};
ghost use Rattle.scm_model.specs.declared.flat.Phase.TheVariants as phases;
ghost use Rattle.scm_model.specs.declared.steps.Answer.TheVariants as answers;
ghost use Rattle.scm_model.specs.declared.steps.Step.TheVariants as steps;
ghost use Rattle.scm_book.specs.Passes.{HoldsProcess, IsOf, KeepsAll, Made};
ghost use Rattle.scm_book.specs.Reporting.{IsReport, IsTick, ReportEnds, TickEnds, told_of_report};
ghost use Rattle.scm_book.specs.Reporting.{told_of_tick};

use crate::book::Book;
use crate::fault::{MakeFault, StepFault};
use crate::held::{Held, Owed, PendingEntry};
use crate::pass::Pass;
use crate::turning::Shared;
use atomic_table::Badge;
use book_rule::{TurnSeat, View};
use record_journal::Keeper;
use scm_model::{Answer, Status, Step};
use scm_text::{Items, OutOfMemory, TextRoom, WText};
use std::alloc::Global;
use std::sync::Wait;

/// How many units a path may have.
const PATH_UNITS: u32 = 2048;

/// Where a launch leaves its line. The memory for the path is made before the turn is taken.
pub struct LaunchRoom {
    /// The program's path, in UTF-16 units. It has room for 2,048.
    pub path: TextRoom,
    /// The words that follow it on the command line.
    pub words: Items<WText>,
}

/// A drop of its own: a function that owns one drops it by a call, which is proved once.
impl Drop for LaunchRoom {
    fn drop(self) {
        let LaunchRoom { path, words } = self;
        drop(path);
        drop(words);
    }
}

impl LaunchRoom {
    /// An empty line, with room for a path.
    pub fn new(alloc: Global) -> Result<LaunchRoom, OutOfMemory>
        ensures path { IfOk result (λ room. room.path ≡ record { units = []; room = 2048 }) }
        ensures words { IfOk result (λ room. room.words ≡ []) }
    {
        Ok(LaunchRoom {
            path: TextRoom::new(alloc, PATH_UNITS)?,
            words: Items::new(alloc),
        })
    }
}

/// A process whose launch was taken, and the words of its line.
#[derive(Drop)]
pub struct TakenLaunch {
    pub process: u64,
    pub words: Items<WText>,
}

impl<K: Keeper> Held<K> {
    /// Takes the launch that is wanted first, leaves its path in `path` and hands out its words.
    /// `None` if nothing is wanted; nothing then changes. It takes no memory.
    pub(crate) fn take_launch(&mut self, moment: u64, path: &mut TextRoom) -> Option<TakenLaunch>
        requires path { 2048 ≤ path.old.room }
        requires steps { self.old.manager.steps < 2 ^ 50 }
        requires text { self.old.manager.text < 2 ^ 63 }
        requires room { IsTrue (wants_launch self.old.manager.flat.wanted)
            → 1 ≤ self.old.trail.room }
        ensures { HoldsLaunch self.old self.new moment path.old path.new result }
    {
        match self.manager.take_launch(moment, path) {
            Some((process, words)) => {
                self.trail.push(moment, Owed::LaunchTaken.note());
                Some(TakenLaunch { process, words })
            }
            None => None,
        }
    }
}

impl<K: Keeper> Shared<K> {
    /// Takes the launch that is wanted first, with the turn held.
    fn add_taken<R: Wait>(
        &self,
        rt: &R,
        moment: u64,
        path: &mut TextRoom,
        mut held: Box<Held<K>>,
        seat: &mut TurnSeat<Held<K>>,
    ) -> Option<TakenLaunch>
        requires turn { HasTurn
            (ghosts_of K.held K.faults K.settled K.crashes K.are_crashes K.asked)
            self.now.turn seat.old held.value }
        requires path { 2048 ≤ path.old.room }
        ensures did { DidLaunch
            (ghosts_of K.held K.faults K.settled K.crashes K.are_crashes K.asked)
            self.now.turn seat.old seat.new moment
            path.old path.new result }
        ensures waits { Waits self.now.turn seat.new }
    {
        let ring = Owed::LaunchTaken.ring(&held.manager);
        let Some(taken) = held.take_launch(moment, path) else {
            self.turn.unlock(rt, seat, held);
            return None;
        };
        self.turn.commit(rt, seat, held);
        self.bells.ring(rt, ring);
        Some(taken)
    }

    /// Takes the launch that is wanted first, at the end of the history.
    pub fn take_by<R: Wait>(
        &self,
        rt: &R,
        moment: u64,
        path: &mut TextRoom,
        badge: &mut Badge<View>,
    ) -> Option<TakenLaunch>
        requires badge { IsSeated self.now.turn badge.old }
        requires path { 2048 ≤ path.old.room }
        ensures badge { IsSeated self.now.turn badge.new }
        ensures takes { TakesBy self.now.turn.opening
            (of_badge badge.old) moment path.old path.new result (of_badge badge.new) }
    {
        let mut seat = self.sit(badge);
        let held = self.turn.enter(rt, &mut seat);
        let taken = self.add_taken(rt, moment, path, held, &mut seat);
        *badge = self.stand(seat);
        taken
    }
}

/// What a look for a launch finds.
#[derive(Clone, Copy, Drop, PartialEq, Eq)]
pub enum LaunchLook {
    /// The process whose launch was taken. Its line lies in the room that was passed in.
    Launch(u64),
    /// Nothing is wanted.
    Empty,
}

/// The outcome of the end of a process.
#[derive(Clone, Copy, Drop, PartialEq, Eq)]
pub enum EndedEnd {
    Taken,
    /// The process isn't its service's current one. No service changes.
    Stale,
}

impl<K: Keeper> Book<K> {
    /// Takes the launch that is wanted first, and leaves its line in `room`. It takes no memory.
    pub fn take_launch<R: Wait>(
        &self,
        rt: &R,
        pass: &mut Pass,
        moment: u64,
        room: &mut LaunchRoom,
    ) -> LaunchLook
        requires book { IsOf self.now pass.old }
        requires path { 2048 ≤ room.old.path.room }
        ensures book { IsOf self.now pass.new }
        ensures look { LaunchEnds self.now.opening pass.old moment room.old room.new result
            pass.new }
        ensures path { room.new.path.room ≡ room.old.path.room }
        ensures keeps { KeepsAll self.now.opening pass.old pass.new }
    {
        let Some(taken) = self
            .shared
            .take_by(rt, moment, &mut room.path, &mut pass.badge)
        else {
            return LaunchLook::Empty;
        };
        let TakenLaunch { process, words } = taken;
        room.words = words;
        LaunchLook::Launch(process)
    }

    /// The process whose launch the pass took was launched. The system's number of it is `pid`.
    /// That always takes place.
    pub fn launched<R: Wait>(&self, rt: &R, pass: &mut Pass, moment: u64, process: u64, pid: u32)
        requires book { IsOf self.now pass.old }
        requires process { HoldsProcess self.now.opening pass.old process phases.Taken }
        ensures book { IsOf self.now pass.new }
        ensures made { Made self.now.opening pass.old moment
            (steps.Launched process pid) answers.Done pass.new }
        ensures process { HoldsProcess self.now.opening pass.new process phases.Launched }
        ensures rest { KeepsAllBut self.now.opening process pass.old pass.new }
    {
        let launched = Owed::Launched { process, pid };
        let _done = self.shared.owe_by(rt, moment, launched, &mut pass.badge);
    }

    /// The process whose launch the pass took could not be launched, because of this error of the
    /// system. That always takes place.
    pub fn launch_failed<R: Wait>(
        &self,
        rt: &R,
        pass: &mut Pass,
        moment: u64,
        process: u64,
        code: u32,
    )
        requires book { IsOf self.now pass.old }
        requires process { HoldsProcess self.now.opening pass.old process phases.Taken }
        requires code { code ≢ 0 }
        ensures book { IsOf self.now pass.new }
        ensures made { Made self.now.opening pass.old moment
            (steps.LaunchFailed process code) answers.Done pass.new }
        ensures rest { KeepsAllBut self.now.opening process pass.old pass.new }
    {
        let failed = Owed::LaunchFailed { process, code };
        let _done = self.shared.owe_by(rt, moment, failed, &mut pass.badge);
    }

    /// The process has ended. That always takes place.
    pub fn ended<R: Wait>(&self, rt: &R, pass: &mut Pass, moment: u64, process: u64) -> EndedEnd
        requires book { IsOf self.now pass.old }
        requires process { HoldsProcess self.now.opening pass.old process phases.Launched }
        ensures book { IsOf self.now pass.new }
        ensures ended { EndedSo self.now.opening pass.old moment process result pass.new }
        ensures rest { KeepsAllBut self.now.opening process pass.old pass.new }
    {
        let ended = Owed::Ended { process };
        let told = self.shared.owe_by(rt, moment, ended, &mut pass.badge);
        end_of(told)
    }
}

/// What an end was told.
fn end_of(told: Answer) -> EndedEnd
    requires { IsEnd told }
    ensures { told ≡ told_of_end result }
{
    match told {
        Answer::Done => EndedEnd::Taken,
        Answer::Stale => EndedEnd::Stale,
        _ => unreachable!(),
    }
}

/// The outcome of a report.
#[derive(Clone, Copy, Drop, PartialEq, Eq)]
pub enum ReportEnd {
    Taken,
    /// The service makes no such move: `ERROR_INVALID_DATA` (13). No service changes.
    Refused(u32),
    /// The process isn't the current one of the service that is named, or there is none. No service
    /// changes.
    Stale,
    /// The limits have no room for it, or the history has no memory for an entry.
    Unmade(MakeFault),
}

/// The outcome of a look for what is due.
#[derive(Clone, Copy, Drop, PartialEq, Eq)]
pub enum TickEnd {
    Ticked,
    /// Nothing is due. No step was made.
    Idle,
    /// The limits have no room for it, or the history has no memory for an entry.
    Unmade(MakeFault),
}

impl<K: Keeper> Book<K> {
    /// The process tells how a service stands: the one with this number, or with 0 the one that it
    /// was launched for.
    pub fn report<R: Wait>(
        &self,
        rt: &R,
        pass: &mut Pass,
        moment: u64,
        process: u64,
        service: u64,
        status: &Status,
    ) -> ReportEnd
        requires book { IsOf self.now pass.old }
        requires process { HoldsProcess self.now.opening pass.old process phases.Launched }
        ensures book { IsOf self.now pass.new }
        ensures ends { ReportEnds self.now.opening pass.old moment process service status.now
            result pass.new }
        ensures keeps { KeepsAll self.now.opening pass.old pass.new }
    {
        let status = *status;
        let report = Step::Report {
            process,
            service,
            status,
        };
        let mut step = PendingEntry::new(self.shared.alloc, report);
        let ended = self.shared.make_by(rt, moment, &mut step, &mut pass.badge);
        report_of(ended)
    }

    /// Does what is due at this moment, or was due earlier.
    pub fn tick<R: Wait>(&self, rt: &R, pass: &mut Pass, moment: u64) -> TickEnd
        requires book { IsOf self.now pass.old }
        ensures book { IsOf self.now pass.new }
        ensures ends { TickEnds self.now.opening pass.old moment result pass.new }
        ensures keeps { KeepsAll self.now.opening pass.old pass.new }
    {
        let mut step = PendingEntry::new(self.shared.alloc, Step::Tick);
        let ended = self.shared.make_by(rt, moment, &mut step, &mut pass.badge);
        tick_of(ended)
    }
}

/// What a report was told.
fn report_of(ended: Result<Answer, StepFault>) -> ReportEnd
    requires { IsReport ended }
    ensures { ended ≡ told_of_report result }
{
    match ended {
        Ok(Answer::Done) => ReportEnd::Taken,
        Ok(Answer::Refused(code)) => ReportEnd::Refused(code),
        Ok(Answer::Stale) => ReportEnd::Stale,
        Err(StepFault::Unmade(fault)) => ReportEnd::Unmade(fault),
        _ => unreachable!(),
    }
}

/// What a tick was told.
fn tick_of(ended: Result<Answer, StepFault>) -> TickEnd
    requires { IsTick ended }
    ensures { ended ≡ told_of_tick result }
{
    match ended {
        Ok(Answer::Done) => TickEnd::Ticked,
        Err(StepFault::NotNow) => TickEnd::Idle,
        Err(StepFault::Unmade(fault)) => TickEnd::Unmade(fault),
        _ => unreachable!(),
    }
}
