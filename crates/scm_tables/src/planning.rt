ghost use Rattle.std.specs.Prelude.{◌≡◌, ◌≤◌, ◌<◌, ◌+◌, ◌-◌, ◌^◌, IsTrue, List, None, [], length};
ghost use Rattle.std.specs.Prelude.{map, min};
ghost use Rattle.std.specs.Prelude.{option_and_then, option_copied, vec_capacity, vec_len, OnOk};
ghost use Rattle.std.specs.List.{AllByRecursion, list_any};
ghost use Rattle.scm_rules.specs.Launches.{first_wanted, is_taken, line_of, path_in, process_of};
ghost use Rattle.scm_rules.specs.Launches.{service_of_process, with_decided_for, with_launched};
ghost use Rattle.scm_rules.specs.Launches.{with_taken, without_process};
ghost use Rattle.scm_rules.specs.Owed.{owed};
ghost use Rattle.scm_rules.specs.Room.{owed_by_due, owed_by_kind};
ghost use Rattle.start_plan.specs.Owed.{total};
ghost use Rattle.scm_rules.specs.Due.{is_due};
ghost use Rattle.scm_rules.specs.Start.{can_end, ended, with_plan};
ghost use Rattle.scm_rules.specs.Steps.{wants_launch, without_plans};
ghost use Rattle.scm_model.specs.Rows.{service_of};
ghost use Rattle.number_pairs.specs.declared.pairs.Pair.{Pair};
ghost use Rattle.start_plan.specs.Asleep.{ArePending};
ghost use Rattle.start_plan.specs.Decided.{aims_among, code_of, decided_in};
ghost use Rattle.start_plan.specs.Decided.{is_any_undecided, is_target, plan_caller};
ghost use Rattle.start_plan.specs.Settle.{stays};
ghost use Rattle.scm_model.specs.declared.flat.Service.{Service};
ghost use Rattle.scm_tables.specs.Lines.{first_line};
ghost use Rattle.scm_tables.specs.Listed.{wanted_of, without_words};
ghost use Rattle.scm_tables.specs.Promised.{KeepsRooms};

use super::process_rows::ProcessRow;
use super::tables::Tables;
use number_pairs::Pair;
use scm_model::{DueKind, Plan, Service};
use scm_text::{Items, OutOfMemory, TextRoom, WText};
use start_plan::Plans;
use std::mem::replace;

/// After how many milliseconds a plan is given up.
const PATIENCE: u64 = 120_000;

/// Decides the undecided plans that aim at one of some services.
fn decide_each(plans: &mut Plans, targets: &[Pair], code: u32)
    requires { AllByRecursion (λ plan. IsTrue (stays plan)) plans.old.plans }
    ensures plans { plans.new.plans ≡ decided_in
        (aims_among (map (λ (pair : Pair). pair.number) targets.now)) code plans.old.plans }
    ensures awaited { (rows : List Service) → ArePending rows plans.old.awaited
        → ArePending rows plans.new.awaited }
    ensures spare { plans.old.spare ≤ plans.new.spare }
{
    for target in targets {
        plans.failed(target.number, code);
    }
}

impl Tables {
    /// The process that is to be launched first.
    pub fn first_wanted(&self) -> Option<u64>
        ensures { result ≡ first_wanted self.now.flat.wanted }
    {
        self.processes.first_wanted()
    }

    /// Whether a launch is wanted.
    pub fn is_wanted(&self) -> bool
        ensures { result ≡ wants_launch self.now.flat.wanted }
    {
        self.processes.is_any_wanted()
    }

    /// Whether a process is shared.
    pub fn is_any_shared(&self) -> bool
        ensures { result ≡ list_any (λ row. row.shared) self.now.flat.processes }
    {
        self.processes.is_any_shared()
    }

    /// Whether a plan is undecided.
    pub fn is_any_undecided(&self) -> bool
        ensures { result ≡ is_any_undecided self.now.flat.plans }
    {
        self.plans.is_any_undecided()
    }

    /// Whether the launch of a process is taken.
    pub fn is_taken(&self, process: u64) -> bool
        ensures { result ≡ is_taken (process_of self.now.flat process) }
    {
        self.processes.is_taken(process)
    }

    /// The service that a process is of, which is 0 for a command.
    pub fn service_of_process(&self, process: u64) -> Option<u64>
        ensures { result ≡ service_of_process self.now.flat process }
    {
        self.processes.service_of(process)
    }

    /// The launch of a process is taken.
    pub fn take_launch(&mut self, process: u64)
        ensures flat { self.new.flat ≡ with_taken self.old.flat process }
        ensures limits { self.new.limits ≡ self.old.limits }
    {
        self.processes.take(process);
    }

    /// Takes the words of the launch that is wanted first.
    pub fn take_words(&mut self) -> Items<WText>
        ensures words { result ≡ (first_line self.old.flat self.old.flat.wanted).1 }
        ensures flat { self.new.flat ≡ record self.old.flat {
          wanted =
              without_words self.old.flat.wanted;
        } }
        ensures limits { self.new.limits ≡ self.old.limits }
        ensures spare { self.new.spare ≡ self.old.spare }
    {
        self.processes.take_words(self.alloc)
    }

    /// Writes the path of the launch that is wanted first, or the empty one where none is. It takes
    /// no memory.
    pub fn write_first_path(&self, path: &mut TextRoom)
        requires { 2048 ≤ path.old.room }
        ensures { path.new ≡ record {
          units = (first_line self.now.flat self.now.flat.wanted).0;
          room = path.old.room;
        } }
    {
        match self.processes.wanted_first() {
            Some(row) => self.write_line(row, path),
            None => path.set(&WText::new(self.alloc)),
        }
    }

    /// Writes the path of a launch: the text of a command, or the path of a service.
    fn write_line(&self, row: &ProcessRow, path: &mut TextRoom)
        requires { 2048 ≤ path.old.room }
        ensures { path.new ≡ record {
          units = (line_of self.now.flat (wanted_of row.now)).0;
          room = path.old.room;
        } }
    {
        if row.line.is_command() {
            row.line.write_command(self.alloc, path);
        } else {
            self.write_path(self.service_of_process(row.number), path);
        }
    }

    /// Writes the path of a service, or the empty one where there is none. It takes no memory.
    fn write_path(&self, service: Option<u64>, path: &mut TextRoom)
        requires { 2048 ≤ path.old.room }
        ensures { path.new ≡ record {
          units = path_in
              (option_and_then (service_of self.now.flat) service);
          room = path.old.room;
        } }
    {
        match self.service_with(service) {
            Some(row) => path.set(&row.config.path),
            None => path.set(&WText::new(self.alloc)),
        }
    }

    /// The service with a number that was found.
    fn service_with(&self, number: Option<u64>) -> Option<&Service>
        ensures { option_copied result ≡ option_and_then (service_of self.now.flat) number }
    {
        match number {
            Some(number) => self.service(number),
            None => None,
        }
    }

    /// A process is launched.
    pub fn launch(&mut self, process: u64, pid: u32)
        ensures flat { self.new.flat ≡ with_launched self.old.flat process pid }
        ensures limits { self.new.limits ≡ self.old.limits }
    {
        self.processes.launch(process, pid);
    }

    /// Takes a process away.
    pub fn remove_process(&mut self, process: u64)
        ensures flat { self.new.flat ≡ without_process self.old.flat process }
        ensures limits { self.new.limits ≡ self.old.limits }
        ensures spare { self.new.spare ≡ self.old.spare }
        ensures absent { process_of self.old.flat process ≡ None → self.new ≡ self.old }
    {
        self.processes.remove(process);
    }

    /// Decides the undecided plans that aim at a service whose current process this is.
    pub fn decide_for(&mut self, process: u64, code: u32)
        ensures flat { self.new.flat ≡ with_decided_for self.old.flat process code }
        ensures limits { self.new.limits ≡ self.old.limits }
    {
        decide_each(&mut self.plans, self.services.of_process(process), code);
    }

    /// The code of a plan; none where it is undecided or absent.
    pub fn decided(&self, plan: u64) -> Option<u32>
        ensures { result ≡ code_of self.now.flat.plans plan }
    {
        self.plans.decided(plan)
    }

    /// Whether a plan is the caller's and decided.
    pub fn can_end(&self, caller: u64, plan: u64) -> bool
        ensures { result ≡ can_end self.now.flat caller plan }
    {
        self.plans.caller_of(plan) == Some(caller) && self.plans.decided(plan).is_some()
    }

    /// The caller of a plan, or 0 where no caller began it; none where it is absent.
    pub fn caller_of_plan(&self, plan: u64) -> Option<u64>
        ensures { result ≡ plan_caller self.now.flat.plans plan }
    {
        self.plans.caller_of(plan)
    }

    /// Whether an undecided plan has this target.
    pub fn is_target(&self, service: u64) -> bool
        ensures { result ≡ is_target self.now.flat.plans service }
    {
        self.plans.is_target(service)
    }

    /// Takes a plan away.
    pub fn remove_plan(&mut self, plan: u64)
        ensures flat { self.new.flat ≡ ended self.old.flat plan }
        ensures limits { self.new.limits ≡ self.old.limits }
    {
        let _plan = self.plans.take(plan);
    }

    /// Takes the plans of a caller away.
    pub fn remove_plans_of(&mut self, caller: u64)
        ensures flat { self.new.flat ≡ without_plans self.old.flat caller }
        ensures limits { self.new.limits ≡ self.old.limits }
    {
        self.plans.gone(caller);
    }

    /// Makes room for so many rows more that become due, beside a place for each service.
    pub(crate) fn reserve_dues(&mut self, more: u32) -> Result<(), OutOfMemory>
        ensures flat { self.new.flat ≡ self.old.flat }
        ensures limits { self.new.limits ≡ self.old.limits }
        ensures room { OnOk result (more ≤ self.new.spare.dues) }
        ensures spare { self.new.spare ≡ record self.old.spare {
          services = self.new.spare.services;
          dues = self.new.spare.dues;
        } }
        ensures more { self.old.spare.dues ≤ self.new.spare.dues }
        ensures keeps { KeepsRooms self.old self.new }
    {
        self.dues.reserve(self.services.len() + more as usize)
    }

    /// Makes room for a plan more that tries so many services, and for its deadline.
    pub fn reserve_plan(&mut self, entries: usize) -> Result<(), OutOfMemory>
        ensures flat { self.new.flat ≡ self.old.flat }
        ensures limits { self.new.limits ≡ self.old.limits }
        ensures plans { OnOk result (1 ≤ self.new.spare.plans) }
        ensures dues { OnOk result (1 ≤ self.new.spare.dues) }
        ensures tried { OnOk result (entries ≤ self.new.spare.tried) }
        ensures keeps { KeepsRooms self.old self.new }
        ensures needs { self.new.spare.needs ≡ self.old.spare.needs }
    {
        self.plans.reserve(1)?;
        self.reserve_dues(1)?;
        match self.tried.reserve(entries) {
            Ok(()) => Ok(()),
            Err(_) => Err(OutOfMemory),
        }
    }

    /// The number of the next plan.
    pub fn next_plan(&self) -> u64
        ensures { result ≡ self.now.flat.next.plan }
    {
        self.next.plan
    }

    /// Begins a plan that has the next number, and its deadline. It takes no memory.
    pub fn begin_plan(&mut self, plan: Plan)
        requires plans { 1 ≤ self.old.spare.plans }
        requires dues { 1 ≤ self.old.spare.dues }
        requires tried { length plan.entries ≤ self.old.spare.tried }
        requires number { plan.number ≡ self.old.flat.next.plan }
        requires undecided { plan.code ≡ None }
        requires fresh { plan.tried ≡ [] }
        requires next_plan { self.old.flat.next.plan < 2 ^ 63 }
        requires next_due { self.old.flat.next.due < 2 ^ 63 }
        ensures flat { self.new.flat ≡ with_plan self.old.flat plan }
        ensures limits { self.new.limits ≡ self.old.limits }
    {
        let tried = replace(&mut self.tried, Vec::new(self.alloc));
        self.put_plan(plan, tried);
    }

    /// Begins a plan that has the next number, and its deadline. The list is the room for what the
    /// plan will have tried.
    pub(crate) fn put_plan(&mut self, plan: Plan, tried: Vec<u64>)
        requires plans { 1 ≤ self.old.spare.plans }
        requires dues { 1 ≤ self.old.spare.dues }
        requires empty { tried.items ≡ [] }
        requires tried { length plan.entries ≤ vec_capacity tried - vec_len tried }
        requires number { plan.number ≡ self.old.flat.next.plan }
        requires undecided { plan.code ≡ None }
        requires fresh { plan.tried ≡ [] }
        requires next_plan { self.old.flat.next.plan < 2 ^ 63 }
        requires next_due { self.old.flat.next.due < 2 ^ 63 }
        ensures flat { self.new.flat ≡ with_plan self.old.flat plan }
        ensures limits { self.new.limits ≡ self.old.limits }
        ensures plans { self.new.spare.plans + 1 ≡ self.old.spare.plans }
        ensures dues { self.new.spare.dues + 1 ≡ self.old.spare.dues }
        ensures starts { self.new.spare.starts ≡ self.old.spare.starts }
        ensures entries { self.new.spare.entries ≡ self.old.spare.entries }
        ensures commands { self.new.spare.commands ≡ self.old.spare.commands }
    {
        self.plans.begin(plan, tried);
        let deadline = DueKind::Deadline(self.next.plan);
        let _number = self
            .dues
            .push(self.moment.saturating_add(PATIENCE), deadline);
        self.next.plan += 1;
    }

    /// Whether a row is due at a moment.
    pub fn is_due(&self, moment: u64) -> bool
        ensures { result ≡ list_any (is_due moment) self.now.flat.dues }
    {
        self.dues.is_due(moment)
    }

    /// How many steps are owed, up to 2^64 - 1.
    pub fn owed(&self) -> u64
        ensures { result ≡ min (owed self.now.flat) (2 ^ 64 - 1) }
    {
        (self.callers() as u64)
            .saturating_add(self.processes.owed())
            .saturating_add(self.plans.owed())
    }

    /// How many steps a row may make owed once it is due, up to 2^64 - 1.
    fn owed_by_kind(&self, kind: DueKind) -> u64
        ensures { result ≡ min (owed_by_kind self.now.flat kind) (2 ^ 64 - 1) }
    {
        match kind {
            DueKind::Start(service) => {
                if self.service(service).is_some() {
                    (self.services() as u64).saturating_mul(3)
                } else {
                    0
                }
            }
            DueKind::Command(service) => {
                if self.service(service).is_some() {
                    3
                } else {
                    0
                }
            }
            DueKind::Deadline(_) | DueKind::Reboot(_) => 0,
        }
    }

    /// How many steps the rows may make owed once they are due, up to 2^64 - 1.
    pub fn owed_by_dues(&self) -> u64
        ensures { result ≡ min (total (owed_by_due self.now.flat) self.now.flat.dues) (2 ^ 64 - 1) }
    {
        let mut owed = 0u64;
        for row in self.dues.as_slice() {
            owed = owed.saturating_add(self.owed_by_kind(row.kind));
        }
        owed
    }
}
