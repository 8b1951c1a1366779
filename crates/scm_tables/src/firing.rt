ghost use Rattle.std.specs.Prelude.{ℕ, ◌≡◌, ◌≤◌, ◌+◌, All, IfSome, IsOk, IsSome, OnOk, is_some};
ghost use Rattle.std.specs.Prelude.{length, option_and_then, option_copied, slice_get};
ghost use Rattle.scm_model.specs.Found.{if_found};
ghost use Rattle.scm_model.specs.Rows.{service_of};
ghost use Rattle.scm_rules.specs.Due.{next_due};
ghost use Rattle.scm_rules.specs.Ticks.{can_start, fire, first_run, ticked, with_command};
ghost use Rattle.scm_rules.specs.Ticks.{with_restart};
ghost use Rattle.scm_tables.specs.Firing.{CanFire, CanFireOne, HasFires, HasPlanNumbers, HasStarts};
ghost use Rattle.scm_tables.specs.Firing.{commands_in, runs, startable, starts_in, with_begun};
ghost use Rattle.scm_tables.specs.Firing.{without_fired};
ghost use Rattle.scm_tables.specs.Promised.{KeepsRooms};
ghost use Rattle.start_plan.specs.Entered.{HasNumbers};
ghost use Rattle.scm_tables.specs.Rooms.{IsCommandRoom, IsStartRoom};

use super::due_rows::{commands_in, starts_in};
use super::lines::Line;
use super::rooms::{CommandRoom, StartRoom, fill_commands, fill_starts};
use super::tables::Tables;
use scm_model::codes::{SERVICE_DISABLED, SERVICE_STOPPED};
use scm_model::{Due, DueKind, Plan, Service};
use scm_text::{Items, OutOfMemory};

/// Takes the room of a plan without a caller.
fn take_start_room(rooms: &mut Vec<StartRoom>, services: usize) -> StartRoom
    requires one { 1 ≤ length rooms.old.items }
    requires rooms { All (IsStartRoom services) rooms.old.items }
    ensures room { IsStartRoom services result }
    ensures rooms { All (IsStartRoom services) rooms.new.items }
    ensures count { length rooms.new.items + 1 ≡ length rooms.old.items }
{
    rooms.pop().unwrap()
}

/// Takes the room of a command.
fn take_command_room(rooms: &mut Vec<CommandRoom>) -> CommandRoom
    requires one { 1 ≤ length rooms.old.items }
    requires rooms { All IsCommandRoom rooms.old.items }
    ensures room { IsCommandRoom result }
    ensures rooms { All IsCommandRoom rooms.new.items }
    ensures count { length rooms.new.items + 1 ≡ length rooms.old.items }
{
    rooms.pop().unwrap()
}

impl Tables {
    /// How many starts are due or will be.
    pub fn starts_due(&self) -> usize
        ensures { result ≡ starts_in self.now.flat.dues }
    {
        starts_in(self.dues.as_slice())
    }

    /// How many commands are due or will be.
    pub fn commands_due(&self) -> usize
        ensures { result ≡ commands_in self.now.flat.dues }
    {
        commands_in(self.dues.as_slice())
    }

    /// Lets rooms of plans go that are too small for the services.
    fn widen_starts(&mut self)
        ensures flat { self.new.flat ≡ self.old.flat }
        ensures limits { self.new.limits ≡ self.old.limits }
        ensures entries { length self.new.flat.services ≤ self.new.spare.entries }
        ensures commands { self.new.spare.commands ≡ self.old.spare.commands }
        ensures keeps { KeepsRooms self.old self.new }
        ensures needs { self.new.spare.needs ≡ self.old.spare.needs }
    {
        if self.start_room < self.services.len() {
            self.starts.clear();
            self.start_room = self.services.len();
        }
    }

    /// Makes the rooms of so many plans without a caller. What is there stays, as long as it is
    /// large enough.
    fn fill_starts(&mut self, count: usize) -> Result<(), OutOfMemory>
        ensures flat { self.new.flat ≡ self.old.flat }
        ensures limits { self.new.limits ≡ self.old.limits }
        ensures count { OnOk result (count ≤ self.new.spare.starts) }
        ensures entries { self.new.spare.entries ≡ self.old.spare.entries }
        ensures commands { self.new.spare.commands ≡ self.old.spare.commands }
        ensures keeps { KeepsRooms self.old self.new }
        ensures needs { self.new.spare.needs ≡ self.old.spare.needs }
    {
        fill_starts(&mut self.starts, count, self.start_room, self.alloc)
    }

    /// Makes room for so many plans without a caller. What a step leaves unused stays for the next
    /// one. For no plan it takes no memory.
    pub fn reserve_starts(&mut self, count: usize) -> Result<(), OutOfMemory>
        ensures flat { self.new.flat ≡ self.old.flat }
        ensures limits { self.new.limits ≡ self.old.limits }
        ensures room { OnOk result (HasStarts count self.new) }
        ensures quiet { count ≡ 0 → IsOk result }
        ensures commands { self.new.spare.commands ≡ self.old.spare.commands }
        ensures keeps { KeepsRooms self.old self.new }
        ensures needs { self.new.spare.needs ≡ self.old.spare.needs }
    {
        self.widen_starts();
        if count == 0 {
            return Ok(());
        }
        let Ok(plans) = u32::try_from(count) else {
            return Err(OutOfMemory);
        };
        self.fill_starts(count)?;
        self.reserve_dues(plans)?;
        self.plans.reserve(plans)
    }

    /// Makes room for so many commands.
    fn reserve_commands(&mut self, count: usize) -> Result<(), OutOfMemory>
        ensures flat { self.new.flat ≡ self.old.flat }
        ensures limits { self.new.limits ≡ self.old.limits }
        ensures room { OnOk result (count ≤ self.new.spare.commands) }
        ensures enough { count ≤ self.old.spare.commands → IsOk result }
        ensures keeps { KeepsRooms self.old self.new }
        ensures needs { self.new.spare.needs ≡ self.old.spare.needs }
    {
        fill_commands(&mut self.commands, count, self.alloc)
    }

    /// Makes room for all that is due or will be. Where that is no start and no command, it takes
    /// no memory.
    pub fn reserve_tick(&mut self) -> Result<(), OutOfMemory>
        ensures flat { self.new.flat ≡ self.old.flat }
        ensures limits { self.new.limits ≡ self.old.limits }
        ensures room { OnOk result (HasFires self.new) }
        ensures quiet { starts_in self.old.flat.dues ≡ 0
            → commands_in self.old.flat.dues ≡ 0 → IsOk result }
        ensures keeps { KeepsRooms self.old self.new }
        ensures needs { self.new.spare.needs ≡ self.old.spare.needs }
    {
        self.reserve_commands(self.commands_due())?;
        self.reserve_starts(self.starts_due())
    }

    /// Whether a service can be started without being asked for: it is unmarked, STOPPED and not
    /// disabled, and no undecided plan has it as its target.
    fn can_start(&self, row: &Service) -> bool
        ensures { result ≡ can_start self.now.flat row.now }
    {
        !row.marked
            && row.status.state == SERVICE_STOPPED
            && row.config.start != SERVICE_DISABLED
            && !self.plans.is_target(row.number)
    }

    /// The number of a service that is there and can be started without being asked for.
    fn startable(&self, service: Option<&Service>) -> Option<u64>
        ensures { result ≡ option_and_then (startable self.now.flat) (option_copied service.entry) }
    {
        match service {
            Some(row) => {
                if self.can_start(row) {
                    Some(row.number)
                } else {
                    None
                }
            }
            None => None,
        }
    }

    /// Takes the room of a plan without a caller.
    fn take_start_room(&mut self) -> StartRoom
        requires { HasStarts 1 self.old }
        ensures room { IsStartRoom self.old.spare.entries result }
        ensures flat { self.new.flat ≡ self.old.flat }
        ensures limits { self.new.limits ≡ self.old.limits }
        ensures starts { self.new.spare.starts + 1 ≡ self.old.spare.starts }
        ensures others { self.new.spare ≡ record self.old.spare { starts = self.new.spare.starts } }
    {
        take_start_room(&mut self.starts, self.start_room)
    }

    /// A plan without a caller begins, to start a service after what it needs.
    fn begin_start(&mut self, target: u64)
        requires listed { IsSome (service_of self.old.flat target) }
        requires room { HasStarts 1 self.old }
        requires numbers { HasPlanNumbers 1 self.old.flat }
        ensures flat { self.new.flat ≡ with_begun target self.old.flat }
        ensures limits { self.new.limits ≡ self.old.limits }
        ensures left { (count : ℕ) → HasStarts (count + 1) self.old → HasStarts count self.new }
        ensures commands { self.new.spare.commands ≡ self.old.spare.commands }
    {
        let StartRoom { mut entries, tried } = self.take_start_room();
        self.write_start_order(target, &mut entries);
        let plan = Plan {
            number: self.next.plan,
            caller: 0,
            target,
            entries: Items::from_vec(entries.into_vec()),
            tried: Items::new(self.alloc),
            words: Items::new(self.alloc),
            code: None,
        };
        self.put_plan(plan, tried.into_vec());
    }

    /// The same, where there is a service to start.
    fn begin_any(&mut self, target: Option<u64>)
        requires listed { IfSome target (λ number. IsSome (service_of self.old.flat number)) }
        requires room { HasStarts 1 self.old }
        requires numbers { HasPlanNumbers 1 self.old.flat }
        ensures flat { self.new.flat ≡ if_found with_begun target self.old.flat }
        ensures limits { self.new.limits ≡ self.old.limits }
        ensures left { (count : ℕ) → HasStarts (count + 1) self.old → HasStarts count self.new }
        ensures commands { self.new.spare.commands ≡ self.old.spare.commands }
    {
        match target {
            Some(number) => self.begin_start(number),
            None => {}
        }
    }

    /// A plan without a caller begins, where the service at a place can be started. It takes no
    /// memory.
    pub fn restart_at(&mut self, place: usize)
        requires room { HasStarts 1 self.old }
        requires numbers { HasPlanNumbers 1 self.old.flat }
        ensures flat { self.new.flat ≡ if_found with_restart
            (slice_get self.old.flat.services place) self.old.flat }
        ensures limits { self.new.limits ≡ self.old.limits }
        ensures left { (count : ℕ) → HasStarts (count + 1) self.old → HasStarts count self.new }
    {
        let target = self.startable(self.row_at(place));
        self.begin_any(target);
    }

    /// A plan without a caller begins, where a service is there and can be started.
    fn restart(&mut self, service: u64)
        requires room { HasStarts 1 self.old }
        requires numbers { HasPlanNumbers 1 self.old.flat }
        ensures flat { self.new.flat ≡ if_found with_restart
            (service_of self.old.flat service) self.old.flat }
        ensures limits { self.new.limits ≡ self.old.limits }
        ensures left { (count : ℕ) → HasStarts (count + 1) self.old → HasStarts count self.new }
        ensures commands { self.new.spare.commands ≡ self.old.spare.commands }
    {
        let target = self.startable(self.service(service));
        self.begin_any(target);
    }

    /// Whether a service is there and has a command, and a process more may be listed.
    fn can_run(&self, service: Option<&Service>) -> bool
        ensures { result ≡ runs self.now.limits self.now.flat (option_copied service.entry) }
    {
        match service {
            Some(row) => {
                !row.config.command.units().is_empty()
                    && !self.processes.is_full(self.limits.processes)
            }
            None => false,
        }
    }

    /// The command of a service is to be launched, if the service is there and has one, and a
    /// process more may be listed.
    fn run_command(&mut self, service: u64)
        requires room { 1 ≤ self.old.spare.commands }
        requires numbers { HasNumbers self.old.limits self.old.flat }
        ensures flat { self.new.flat ≡ if_found (with_command self.old.limits)
            (service_of self.old.flat service) self.old.flat }
        ensures limits { self.new.limits ≡ self.old.limits }
        ensures spare { self.new.spare ≡ record self.old.spare {
          commands =
              self.new.spare.commands;
        } }
        ensures commands { self.old.spare.commands ≤ self.new.spare.commands + 1 }
    {
        if !self.can_run(self.service(service)) {
            return;
        }
        let Some(row) = self.services.get(service) else {
            return;
        };
        let line = Line::of_command(take_command_room(&mut self.commands), &row.config.command);
        self.processes.list(0, false, line);
    }

    /// The row that is due first leaves, if one is due.
    fn take_due(&mut self) -> Option<Due>
        ensures row { result ≡ next_due self.old.flat }
        ensures flat { self.new.flat ≡ if_found without_fired result self.old.flat }
        ensures limits { self.new.limits ≡ self.old.limits }
        ensures spare { self.new.spare ≡ record self.old.spare {
          services = self.new.spare.services;
          dues = self.new.spare.dues;
        } }
        ensures dues { self.old.spare.dues ≤ self.new.spare.dues }
    {
        self.dues.take_due(self.moment)
    }

    /// What a row does once it is due.
    fn fire(&mut self, kind: DueKind)
        requires { CanFireOne kind self.old }
        ensures flat { self.new.flat ≡ fire self.old.limits kind self.old.flat }
        ensures limits { self.new.limits ≡ self.old.limits }
        ensures left { CanFire self.new }
    {
        match kind {
            DueKind::Deadline(plan) => self.plans.expire(plan),
            DueKind::Start(service) => self.restart(service),
            DueKind::Command(service) => self.run_command(service),
            DueKind::Reboot(_) => self.reboots = self.reboots.saturating_add(1),
        }
    }

    /// The row that is due first leaves and takes place, if one is due.
    fn fire_first(&mut self) -> bool
        requires { CanFire self.old }
        ensures any { result ≡ is_some (next_due self.old.flat) }
        ensures flat { self.new.flat ≡ first_run self.old.limits self.old.flat }
        ensures limits { self.new.limits ≡ self.old.limits }
        ensures left { CanFire self.new }
    {
        let Some(row) = self.take_due() else {
            return false;
        };
        self.fire(row.kind);
        true
    }

    /// The rows that are due take place, in the order in which they became due, and leave. It takes
    /// no memory.
    pub fn tick(&mut self)
        requires { CanFire self.old }
        ensures flat { self.new.flat ≡ ticked self.old.limits self.old.flat }
        ensures limits { self.new.limits ≡ self.old.limits }
    {
        let mut left = self.dues.len() + self.dues.len();
        while left > 0 {
            if !self.fire_first() {
                return;
            }
            left -= 1;
        }
    }
}
