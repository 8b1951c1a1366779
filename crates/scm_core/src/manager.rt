ghost use Rattle.std.specs.Prelude.{◌≡◌, ◌+◌, ◌<◌, ◌≤◌, ◌==◌, ◌^◌, max, nat_le, IsTrue, OnOk};
ghost use Rattle.std.specs.Prelude.{OnErr, IfOk, IfSome, IsFalse, IsOk, None, Some, length, filter};
ghost use Rattle.std.specs.Prelude.{is_some, option_copied, [], option_map, ◌*◌, ◌-◌, min};
ghost use Rattle.std.specs.List.{list_any};
ghost use Rattle.scm_model.specs.Processes.{is_shared, process_of};
ghost use Rattle.scm_model.specs.Rows.{service_of};
ghost use Rattle.scm_rules.specs.Controls.{next_order, waiting};
ghost use Rattle.scm_rules.specs.Needs.{need_rows};
ghost use Rattle.scm_rules.specs.Opening.{CanOpen, opening};
ghost use Rattle.scm_rules.specs.Due.{is_due};
ghost use Rattle.start_plan.specs.Decided.{code_of, is_any_undecided, plan_caller};
ghost use Rattle.scm_rules.specs.Steps.{wants_launch, may, may_come, step_of};
ghost use Rattle.scm_model.specs.Texts.{text_of};
ghost use Rattle.scm_rules.specs.Verdicts.{change_of};
ghost use Rattle.scm_model.specs.Entries.{unkept};
ghost use Rattle.scm_core.specs.Inside.{promised};
ghost use Rattle.scm_core.specs.Room.{needs_memory};
ghost use Rattle.scm_core.specs.Managed.{AreSmall, TakesLaunch, WasMadeFor, process_held};
ghost use Rattle.scm_model.specs.declared.codes.TheConstants.{SERVICE_RUNNING};
ghost use Rattle.scm_rules.specs.Owed.{owed};
ghost use Rattle.scm_rules.specs.Room.{cost, debt, has_room, is_owed, need, need_of_call};
ghost use Rattle.scm_rules.specs.Room.{need_of_start, need_of_starts, need_with, owed_by_raise};

use super::effect::{act, change_in, change_of, is_told, may_come};
use super::room::{Prepared, Reservation, nothing_made, prepare};
use dependency_index::DependencyIndex;
use scm_arms_process::started_in;
use scm_model::{Answer, Change, Config, Limits, Order, Request, Step};
use scm_tables::Tables;
use scm_text::{Items, OutOfMemory, TextRoom, WText};
use std::alloc::Global;
use std::marker::Model;

/// The service manager. Contracts see its flat state, its limits, how many steps were made and
/// their text, and the step that room was made for.
pub struct Manager {
    pub(crate) tables: Tables,
    pub(crate) steps: u64,
    pub(crate) text: u64,
    room: Option<Reservation>,
    made: Prepared,
    alloc: Global,
}

/// A drop of its own: a function that owns one drops it by a call, which is proved once.
impl Drop for Manager {
    fn drop(self) {
        let Manager {
            tables,
            steps: _steps,
            text: _text,
            room,
            made,
            alloc: _alloc,
        } = self;
        drop(tables);
        drop(room);
        drop(made);
    }
}

impl Model for Manager {
    ghost use Rattle.scm_core.specs.Inside.{promised};
    ghost use Rattle.scm_core.specs.Managed.{Managed};

    ghost Value = { Managed };

    ghost use Rattle.scm_core.specs.Inside.{managed, IsSound};

    ghost view = { managed };

    ghost invariant = { IsSound };
}

/// Lets the room of a step go.
fn forget(room: &mut Option<Reservation>)
    ensures { room.new ≡ None }
{
    *room = None;
}

/// Promises the room of a step.
fn promise(room: &mut Option<Reservation>, step: &Step)
    ensures { promised room.new ≡ Some (unkept step.now) }
{
    *room = Some(Reservation::of(step));
}

impl Manager {
    /// A manager with a service for each configuration, which never ran, and with no callers. Those
    /// start by themselves that are automatic, those of the listed groups first.
    pub fn new(
        alloc: Global,
        limits: Limits,
        groups: Items<WText>,
        configs: Items<Config>,
        moment: u64,
    ) -> Result<Manager, OutOfMemory>
        requires configs { CanOpen limits configs }
        requires limits { AreSmall limits }
        ensures flat { IfOk result (λ manager. manager.flat
            ≡ opening limits groups configs moment) }
        ensures limits { IfOk result (λ manager. manager.limits ≡ limits) }
        ensures fresh { IfOk result (λ manager. (manager.steps ≡ 0) × (manager.text ≡ 0)
            × (manager.room ≡ None)) }
    {
        Ok(Manager {
            tables: Tables::new(alloc, limits, groups.as_slice(), configs, moment)?,
            steps: 0,
            text: 0,
            room: None,
            made: nothing_made(),
            alloc,
        })
    }

    /// Lets the manager go, with all that it holds.
    pub fn close(self) {}

    /// How many services there are.
    pub fn services(&self) -> u64
        ensures { result ≡ length self.now.flat.services }
    {
        self.tables.services() as u64
    }

    /// How many services are RUNNING.
    pub fn running(&self) -> u64
        ensures { result ≡ length (filter (λ row. row.status.state == SERVICE_RUNNING)
            self.now.flat.services) }
    {
        self.tables.running() as u64
    }

    /// Which service needs which. It takes no memory.
    pub fn index(&self) -> &DependencyIndex
        ensures { result.now.rows ≡ need_rows self.now.flat.services }
    {
        self.tables.index()
    }

    /// Whether so many steps more can be counted.
    pub fn has_steps(&self, more: u64) -> bool
        ensures { result ≡ nat_le (self.now.steps + more) (2 ^ 50) }
    {
        self.steps.saturating_add(more) <= (1 << 50)
    }

    /// Whether few enough steps were made, and their text and the step's are small enough.
    pub fn fits(&self, step: &Step) -> bool
        ensures steps { IsTrue result → self.now.steps < 2 ^ 50 }
        ensures text { IsTrue result → self.now.text + text_of step.now < 2 ^ 63 }
        ensures fits { self.now.steps < 2 ^ 50 → self.now.text + text_of step.now < 2 ^ 63
            → IsTrue result }
    {
        self.has_steps(1) && (self.text as u128).saturating_add(step.text()) < (1 << 63)
    }

    /// Whether a step may be done at a moment, whatever it tells of what was kept. It takes no
    /// memory.
    pub fn may(&self, moment: u64, step: &Step) -> bool
        ensures { result ≡ may_come self.now.limits self.now.flat moment step.now }
    {
        may_come(&self.tables, moment, step)
    }

    /// Whether a step that room was made for may be done at a moment, apart from the number and
    /// text of the steps. It takes no memory.
    pub fn admits(&self, moment: u64, step: &Step) -> bool
        requires { WasMadeFor self.now.room step.now }
        ensures { result ≡ may self.now.limits self.now.flat moment step.now }
    {
        self.may(moment, step) && is_told(step, &self.made)
    }

    /// The code of a plan; none where it is undecided or absent. It takes no memory.
    pub fn decided(&self, plan: u64) -> Option<u32>
        ensures { result ≡ code_of self.now.flat.plans plan }
    {
        self.tables.decided(plan)
    }

    /// Whether a plan is undecided. It takes no memory.
    pub fn is_any_undecided(&self) -> bool
        ensures { result ≡ is_any_undecided self.now.flat.plans }
    {
        self.tables.is_any_undecided()
    }

    /// The caller of a plan, or 0 where no caller began it; none where it is absent. It takes no
    /// memory.
    pub fn owner_of(&self, plan: u64) -> Option<u64>
        ensures { result ≡ plan_caller self.now.flat.plans plan }
    {
        self.tables.caller_of_plan(plan)
    }

    /// Whether a launch is wanted. It takes no memory.
    pub fn wanted(&self) -> bool
        ensures { result ≡ wants_launch self.now.flat.wanted }
    {
        self.tables.is_wanted()
    }

    /// How many starts and orders still have to be sent to a process, `None` if it isn't listed.
    /// It takes no memory.
    pub fn waiting(&self, process: u64) -> Option<usize>
        ensures { result ≡ waiting self.now.flat process }
    {
        self.tables.waiting(process)
    }

    /// What is sent to a process next: that a service is to start, with code 0, and else the order
    /// that waits first. It takes no memory.
    pub fn next_order(&self, process: u64) -> Option<Order>
        ensures { result ≡ next_order self.now.flat process }
    {
        self.tables.next_order(process)
    }

    /// Whether other services may live in a process too. It takes no memory.
    pub fn shares(&self, process: u64) -> bool
        ensures { result ≡ is_shared (process_of self.now.flat process) }
    {
        self.tables.shares(process)
    }

    /// Whether a process is listed that other services may live in too. It takes no memory.
    pub fn is_any_shared(&self) -> bool
        ensures { result ≡ list_any (λ row. row.shared) self.now.flat.processes }
    {
        self.tables.is_any_shared()
    }

    /// The name of the service with a number; none where there is no such service. It takes no
    /// memory.
    pub fn name_of(&self, service: u64) -> Option<&WText>
        ensures name { option_map (λ name. name.now) result
            ≡ option_map (λ row. row.config.name) (service_of self.now.flat service) }
        ensures short { IfSome result (λ name. length name.now ≤ 256) }
    {
        self.tables.name_of(service)
    }

    /// The process of the service that a caller's handle is of, or 0 if the service has none;
    /// `None` if the handle is of no service. It takes no memory.
    pub fn process_held(&self, caller: u64, handle: u64) -> Option<u64>
        ensures { result ≡ process_held self.now.flat caller handle }
    {
        let row = self.tables.held_service(caller, handle)?;
        Some(row.process)
    }

    /// Whether something is due at a moment, or at the moment up to which the manager has come. It
    /// takes no memory.
    pub fn due(&self, moment: u64) -> bool
        ensures { result ≡ list_any (is_due (max self.now.flat.moment moment)) self.now.flat.dues }
    {
        self.tables.is_due(self.tables.moment().max(moment))
    }

    /// Whether a step that room was made for changes the configurations, if it is kept. It takes no
    /// memory.
    pub fn makes_change(&self, step: &Step) -> bool
        requires { WasMadeFor self.now.room step.now }
        ensures { result ≡ is_some (change_of self.now.limits self.now.flat step.now) }
    {
        change_in(step, &self.made).is_some()
    }

    /// The change of the configurations that a step that room was made for makes, if it is kept. It
    /// was judged when the room was made, and takes no memory.
    pub fn change_made(&self, step: &Step) -> Option<&Change>
        requires { WasMadeFor self.now.room step.now }
        ensures { option_copied result ≡ change_of self.now.limits self.now.flat step.now }
    {
        change_in(step, &self.made)
    }

    /// The change of the configurations that a step makes if it is kept.
    pub fn change_of(&self, step: &Step) -> Result<Option<Change>, OutOfMemory>
        ensures { IfOk result (λ change. change
            ≡ change_of self.now.limits self.now.flat step.now) }
    {
        change_of(&self.tables, step, self.alloc)
    }

    /// Makes the room that a step uses, in place of that of another step. Where there is no memory,
    /// all stays as it was, and so does the room for the other step. That can't be where the step
    /// adds no row and begins nothing.
    #[inline(always)]
    pub fn reserve_for(&mut self, step: &Step) -> Result<(), OutOfMemory>
        ensures ok { OnOk result (self.new ≡ record self.old { room = Some (unkept step.now) }) }
        ensures err { OnErr result (self.new ≡ self.old) }
        ensures quiet { IsFalse (needs_memory self.old.flat step.now) → IsOk result }
    {
        prepare(&mut self.tables, step, self.alloc, &mut self.made)?;
        promise(&mut self.room, step);
        Ok(())
    }

    /// Does a step, with the room that was made for it where it needs some. It takes no memory.
    pub fn step(&mut self, moment: u64, mut step: Step) -> Answer
        requires may { IsTrue (may self.old.limits self.old.flat moment step) }
        requires room { WasMadeFor self.old.room step }
        requires steps { self.old.steps < 2 ^ 50 }
        requires text { self.old.text + text_of step < 2 ^ 63 }
        ensures answer { result ≡ (step_of self.old.limits self.old.flat moment step).answer }
        ensures flat { self.new.flat ≡ (step_of self.old.limits self.old.flat moment step).flat }
        ensures limits { self.new.limits ≡ self.old.limits }
        ensures steps { self.new.steps ≡ self.old.steps + 1 }
        ensures text { self.new.text ≡ self.old.text + text_of step }
        ensures room { self.new.room ≡ None }
    {
        let mut answer = Answer::Done;
        self.step_at(moment, &mut step, &mut answer);
        drop(step);
        answer
    }

    /// The same of a step where it lies, which is used up: what it is then plays no part.
    pub fn step_at(&mut self, moment: u64, step: &mut Step, answer: &mut Answer)
        requires may { IsTrue (may self.old.limits self.old.flat moment step.old) }
        requires room { WasMadeFor self.old.room step.old }
        requires steps { self.old.steps < 2 ^ 50 }
        requires text { self.old.text + text_of step.old < 2 ^ 63 }
        ensures answer { answer.new
            ≡ (step_of self.old.limits self.old.flat moment step.old).answer }
        ensures flat { self.new.flat
            ≡ (step_of self.old.limits self.old.flat moment step.old).flat }
        ensures limits { self.new.limits ≡ self.old.limits }
        ensures steps { self.new.steps ≡ self.old.steps + 1 }
        ensures text { self.new.text ≡ self.old.text + text_of step.old }
        ensures room { self.new.room ≡ None }
    {
        self.steps += 1;
        self.text += step.text() as u64;
        forget(&mut self.room);
        act(
            &mut self.tables,
            self.alloc,
            moment,
            step,
            &mut self.made,
            answer,
        );
    }

    /// Takes the launch that is wanted first in a step, leaves its path in `path`, and gives the
    /// process and the words. `None` where nothing is wanted; nothing then changes. It takes no
    /// memory.
    pub fn take_launch(&mut self, moment: u64, path: &mut TextRoom) -> Option<(u64, Items<WText>)>
        requires path { 2048 ≤ path.old.room }
        requires steps { self.old.steps < 2 ^ 50 }
        requires text { self.old.text < 2 ^ 63 }
        ensures { TakesLaunch self.old self.new moment path.old path.new result }
    {
        let process = self.tables.first_wanted()?;
        self.tables.write_first_path(path);
        forget(&mut self.room);
        let words = self.tables.take_words();
        let taken = self.step(moment, Step::LaunchTaken);
        drop(taken);
        Some((process, words))
    }
}

/// What a start needs where there are so many services, up to 2^128 - 1.
fn need_of_start(services: u128) -> u128
    ensures { result ≡ min (need_of_start services) (2 ^ 128 - 1) }
{
    services.saturating_mul(3).saturating_add(2)
}

/// What starts of each service need where there are so many services, up to 2^128 - 1.
fn need_of_starts(services: u128) -> u128
    ensures { result ≡ min (need_of_starts services) (2 ^ 128 - 1) }
{
    let each = services.saturating_mul(3).saturating_add(1);
    each.saturating_mul(services).saturating_add(1)
}

/// What a call needs where there are so many services, up to 2^128 - 1.
fn need_of_call(services: u128, request: &Request) -> u128
    ensures { result ≡ min (need_of_call services request.now) (2 ^ 128 - 1) }
{
    match request {
        Request::Start { .. } => need_of_start(services),
        _ => 1,
    }
}

/// What a step needs where there are so many services, up to 2^128 - 1.
fn need_with(services: u128, step: &Step) -> u128
    ensures { result ≡ min (need_with services step.now) (2 ^ 128 - 1) }
{
    match step {
        Step::Joined { .. } => 2,
        Step::Call { request, .. } => need_of_call(services, request),
        Step::Tick | Step::Raised { .. } => need_of_starts(services),
        _ => 1,
    }
}

/// Whether a step was counted when it came to be owed.
pub fn is_owed(step: &Step) -> bool
    ensures { result ≡ is_owed step.now }
{
    match step {
        Step::EndStart { .. }
        | Step::LaunchTaken
        | Step::Launched { .. }
        | Step::LaunchFailed { .. }
        | Step::Ended { .. }
        | Step::Gone { .. } => true,
        Step::Joined { .. }
        | Step::Call { .. }
        | Step::Report { .. }
        | Step::ControlTaken { .. }
        | Step::Tick
        | Step::Raised { .. }
        | Step::NoMemory { .. } => false,
    }
}

impl Manager {
    /// How many steps are owed: they will take place without being asked for. 2^64 - 1 where they
    /// are more. It takes no memory.
    pub fn owed(&self) -> u64
        ensures { result ≡ min (owed self.now.flat) (2 ^ 64 - 1) }
    {
        self.tables.owed()
    }

    /// How many steps a step needs: itself, and those that it may make owed. 2^64 - 1 where they
    /// are more. It takes no memory.
    pub fn need(&self, step: &Step) -> u64
        ensures { result ≡ min (need self.now.flat step.now) (2 ^ 64 - 1) }
    {
        self.need_of(step).min(u64::MAX as u128) as u64
    }

    /// The same up to 2^128 - 1.
    fn need_of(&self, step: &Step) -> u128
        ensures { result ≡ min (need self.now.flat step.now) (2 ^ 128 - 1) }
    {
        need_with(self.services() as u128, step)
    }

    /// How many entries a step may add and leave owed: of a tick and a raise no more than what they
    /// begin. 2^64 - 1 where they are more. It takes no memory.
    #[inline(always)]
    pub fn debt(&self, step: &Step) -> u64
        ensures { result ≡ min (debt self.now.flat step.now) (2 ^ 64 - 1) }
    {
        match step {
            Step::Tick => self.tables.owed_by_dues().saturating_add(1),
            Step::Raised { caller: _, subtype } => self.owed_by_raise(subtype).saturating_add(1),
            _ => self.cost(step),
        }
    }

    /// What a raise may make owed, up to 2^64 - 1.
    fn owed_by_raise(&self, subtype: &[u8; 16]) -> u64
        ensures { result ≡ min (owed_by_raise self.now.flat subtype.now) (2 ^ 64 - 1) }
    {
        let started = started_in(&self.tables, subtype) as u64;
        self.services().saturating_mul(3).saturating_mul(started)
    }

    /// What a step costs beyond what was owed, up to 2^64 - 1.
    fn cost(&self, step: &Step) -> u64
        ensures { result ≡ min (cost self.now.flat step.now) (2 ^ 64 - 1) }
    {
        if is_owed(step) { 0 } else { self.need(step) }
    }

    /// Whether the limits have room for a step, with all that is owed and that it may make owed,
    /// and for its text. It takes no memory.
    pub fn room(&self, step: &Step) -> bool
        ensures { result ≡ has_room self.now.limits self.now.flat self.now.steps self.now.text
            step.now }
    {
        self.room_beside(self.owed(), step)
    }

    /// The same where it was asked before how many steps are owed.
    #[inline(always)]
    pub fn room_beside(&self, owing: u64, step: &Step) -> bool
        requires { owing ≡ min (owed self.now.flat) (2 ^ 64 - 1) }
        ensures { result ≡ has_room self.now.limits self.now.flat self.now.steps self.now.text
            step.now }
    {
        self.has_steps_for(owing, step) && self.has_text_for(step)
    }

    /// Whether the limit of steps has room.
    fn has_steps_for(&self, owing: u64, step: &Step) -> bool
        requires { owing ≡ min (owed self.now.flat) (2 ^ 64 - 1) }
        ensures { result ≡ nat_le (self.now.steps + owed self.now.flat
            + need self.now.flat step.now) self.now.limits.steps }
    {
        let before = self.steps as u128 + owing as u128;
        before.saturating_add(self.need_of(step)) <= self.most_steps() as u128
    }

    /// The limit of steps.
    fn most_steps(&self) -> u64
        ensures { result ≡ self.now.limits.steps }
    {
        self.tables.limits().steps
    }

    /// Whether the limit of text has room.
    fn has_text_for(&self, step: &Step) -> bool
        ensures { result ≡ nat_le (self.now.text + text_of step.now) self.now.limits.text }
    {
        let all = (self.text as u128).saturating_add(step.text());
        all <= self.tables.limits().text as u128
    }
}
