//! Services in memory as a field.
ghost use Rattle.std.specs.Prelude.{ℕ, ◌≡◌, ◌==◌, ◌&&◌, ◌<◌, List, None, Some, false, find, filter};
ghost use Rattle.std.specs.Prelude.{is_some};
ghost use Rattle.std.specs.Prelude.{length, map};
ghost use Rattle.std.specs.Cmp.Lexicographic.{pointwise};
ghost use Rattle.std.specs.Option.{option_copied};
ghost use Rattle.std.specs.List.{list_any};
ghost use Rattle.scm_model.specs.Refused.{zero_status};
ghost use Rattle.scm_model.specs.Processes.{is_launched, is_shared, process_of};
ghost use Rattle.scm_model.specs.Rows.{named, service_of};
ghost use Rattle.scm_text.specs.Fold.{same_text};
ghost use Rattle.start_plan.specs.Asleep.{ArePending};
ghost use Rattle.start_plan.specs.Entered.{HasNumbers, entered_at, is_shared_by, started_if};
ghost use Rattle.start_plan.specs.Hosts.{host, host_at, is_sharing};
ghost use Rattle.start_plan.specs.Moves.{cause_at, entering_at};
ghost use Rattle.scm_model.specs.Ready.{is_fulfilled, is_ready, is_running, is_up};

use scm_model::{LockRow, Need, Phase, Process, Service, Status, Wanted, zero_status};
use scm_text::{Items, OutOfMemory, WText, same};
use start_plan::{Entering, Field, Plans};
use std::alloc::Global;
use std::marker::Model;

const STOPPED: u32 = 1;

const START_PENDING: u32 = 2;

const RUNNING: u32 = 4;

const DISABLED: u32 = 4;

const SHARE_PROCESS: u32 = 0x20;

/// Services, their processes and the lock.
#[derive(Drop)]
pub struct Bench {
    services: Vec<Service>,
    processes: Vec<Process>,
    wanted: Vec<Wanted>,
    lock: Option<LockRow>,
    next: u64,
    limit: u32,
    alloc: Global,
}

impl Model for Bench {
    ghost use Rattle.std.specs.Prelude.{◌≤◌, ◌+◌, ◌^◌, [], vec_len, vec_capacity};
    ghost use Rattle.scm_model.specs.declared.flat.Flat.{Flat};
    ghost use Rattle.scm_model.specs.declared.flat.Limits.{Limits};

    ghost Value = { Flat × Limits };

    ghost view = { λ b. (
      record {
        services = b.services.items;
        handles = [];
        processes = b.processes.items;
        wanted = b.wanted.items;
        plans = [];
        registrations = [];
        dues = [];
        callers = [];
        lock = b.lock;
        moment = 0;
        next = record {
          service = 0;
          handle = 0;
          process = b.next;
          plan = 0;
          registration = 0;
          due = 0;
          caller = 0;
        };
        reboots = 0;
      },
      record {
        services = 0;
        handles = 0;
        registrations = 0;
        callers = 0;
        processes = b.limit;
        controls = 0;
        steps = 0;
        text = 0;
      },
    ) };

    ghost invariant = { λ b. record {
      processes : b.limit ≤ vec_capacity b.processes;
      wanted : b.limit ≤ vec_capacity b.wanted;
      each : vec_len b.wanted ≤ vec_len b.processes;
      numbers : b.next + b.limit ≤ 2 ^ 63 + vec_len b.processes;
    } };
}

/// The service with a number.
fn row_with(rows: &[Service], number: u64) -> Option<&Service>
    ensures { option_copied result ≡ find (λ row. row.number == number) rows.now }
{
    rows.iter().find(|row| row.number == number)
}

/// The service with the same name.
fn named<'a>(rows: &'a [Service], name: &WText) -> Option<&'a Service>
    ensures { option_copied result ≡ find (λ row. same_text row.config.name name.now) rows.now }
{
    rows.iter().find(|row| same(&row.config.name, name))
}

/// Whether a service is there, unmarked and RUNNING.
fn is_up(service: Option<&Service>) -> bool
    ensures { result ≡ is_up (option_copied service.entry) }
{
    match service {
        Some(row) => !row.marked && row.status.state == RUNNING,
        None => false,
    }
}

/// The process with a number.
fn process_with(rows: &[Process], number: u64) -> Option<&Process>
    ensures { option_copied result ≡ find (λ row. row.number == number) rows.now }
{
    rows.iter().find(|row| row.number == number)
}

/// Whether a process is there and shared.
fn is_shared(process: Option<&Process>) -> bool
    ensures { result ≡ is_shared (option_copied process.entry) }
{
    match process {
        Some(row) => row.shared,
        None => false,
    }
}

/// Whether a process is there and was launched.
fn is_launched(process: Option<&Process>) -> bool
    ensures { result ≡ is_launched (option_copied process.entry) }
{
    match process {
        Some(row) => matches!(row.phase, Phase::Launched),
        None => false,
    }
}

/// Whether a service lives in a process that other services of this path may enter.
fn offers(processes: &[Process], path: &WText, row: &Service) -> bool
    ensures { result ≡ (is_sharing row.now && pointwise ◌==◌ row.now.config.path path.now
        && is_shared (find (λ process. process.number == row.now.process) processes.now)) }
{
    row.config.kind == SHARE_PROCESS
        && row.config.path.units() == path.units()
        && is_shared(process_with(processes, row.process))
}

/// The first service that offers its process to those of a path.
fn first_offering<'a>(
    services: &'a [Service],
    processes: &[Process],
    path: &WText,
) -> Option<&'a Service>
    ensures { option_copied result ≡ find (λ row. is_sharing row
        && pointwise ◌==◌ row.config.path path.now
        && is_shared (find (λ process. process.number == row.process) processes.now)) services.now }
{
    services.iter().find(|row| offers(processes, path, row))
}

/// Whether a group has a RUNNING member.
fn has_running(rows: &[Service], group: &WText) -> bool
    ensures { result ≡ list_any is_running (filter (λ row. same_text row.config.group group.now)
        rows.now) }
{
    rows.iter()
        .filter(|row| same(&row.config.group, group))
        .any(|row| row.status.state == RUNNING)
}

/// The service with this number is started where it is STOPPED, by this process.
fn start_row(row: &mut Service, number: u64, process: u64)
    ensures { row.new ≡ started_if number process row.old }
{
    if row.number == number && row.status.state == STOPPED {
        row.status = status(row.status.kind, START_PENDING);
        row.process = process;
        row.asked = row.config.kind == SHARE_PROCESS;
    }
}

/// Whether the process of a service, if it is there, is sent which service to start.
fn is_sharing(service: Option<&Service>) -> bool
    ensures { result ≡ is_shared_by (option_copied service.entry) }
{
    match service {
        Some(row) => row.config.kind == SHARE_PROCESS,
        None => false,
    }
}

fn start_in(rows: &mut Vec<Service>, number: u64, process: u64)
    ensures { rows.new.items ≡ map (started_if number process) rows.old.items }
{
    for row in rows.iter_mut() {
        start_row(row, number, process);
    }
}

/// A status of this type in a state.
pub fn status(kind: u32, state: u32) -> Status
    ensures { result ≡ record zero_status { kind = kind; state = state } }
{
    Status {
        kind,
        state,
        ..zero_status()
    }
}

impl Bench {
    /// These services, with no process yet and the lock free.
    pub fn new(alloc: Global, services: Vec<Service>, limit: u32) -> Result<Bench, OutOfMemory> {
        match (
            Vec::with_capacity(alloc, limit as usize),
            Vec::with_capacity(alloc, limit as usize),
        ) {
            (Ok(processes), Ok(wanted)) => Ok(Bench {
                services,
                processes,
                wanted,
                lock: None,
                next: 1,
                limit,
                alloc,
            }),
            _ => Err(OutOfMemory),
        }
    }

    /// There are numbers for all processes that may be listed.
    pub fn has_numbers(&self)
        ensures { HasNumbers self.now.1 self.now.0 }
    {
        let _ = &self.next;
    }

    /// Puts the service at a place into a new process, which is shared and was launched.
    pub fn launch_shared(&mut self, place: usize) {
        if place < self.services.len() && self.processes.len() < self.limit as usize {
            let number = self.next;
            let row = &mut self.services[place];
            let service = row.number;
            row.process = number;
            self.processes.push_reserved(Process {
                number,
                service,
                shared: true,
                phase: Phase::Launched,
                pid: 100,
                controls: Items::new(self.alloc),
            });
            self.next += 1;
        }
    }

    pub fn set_lock(&mut self, lock: Option<LockRow>)
        ensures { self.new.0.services ≡ self.old.0.services }
    {
        self.lock = lock;
    }

    /// Puts a service into a state, and wakes the plans that sleep for it.
    pub fn put(&mut self, plans: &mut Plans, place: usize, state: u32)
        requires { ArePending self.old.0.services plans.old.awaited }
        ensures { ArePending self.new.0.services plans.new.awaited }
    {
        if place < self.services.len() {
            let row = &mut self.services[place];
            plans.wake(row.number);
            row.status = status(row.status.kind, state);
        }
    }

    /// The states of services 1 and 2.
    pub fn states(&self) -> [u32; 2] {
        [self.state_of(1), self.state_of(2)]
    }

    pub fn wanted(&self) -> &[Wanted] {
        self.wanted.as_slice()
    }

    /// Whether the service with the same name is up.
    fn is_named_up(&self, name: &WText) -> bool
        ensures { result ≡ is_up (named self.now.0 name.now) }
    {
        is_up(named(self.services.as_slice(), name))
    }

    fn is_fulfilled(&self, need: &Need) -> bool
        ensures { result ≡ is_fulfilled self.now.0 need.now }
    {
        match need {
            Need::Service(name) => self.is_named_up(name),
            Need::Group(group) => has_running(self.services.as_slice(), group),
        }
    }

    fn is_ready(&self, row: &Service) -> bool
        ensures { result ≡ is_ready self.now.0 row.now }
    {
        row.config
            .needs
            .as_slice()
            .iter()
            .all(|need| self.is_fulfilled(need))
    }

    /// The process of the first service that offers one to this service.
    fn host_of(&self, row: &Service) -> Option<u64>
        ensures { result ≡ host_at self.now.0 (Some row.now) }
    {
        if row.config.kind != SHARE_PROCESS {
            return None;
        }
        let processes = self.processes.as_slice();
        match first_offering(self.services.as_slice(), processes, &row.config.path) {
            Some(other) => Some(other.process),
            None => None,
        }
    }

    fn host(&self, service: u64) -> Option<u64>
        ensures { result ≡ host self.now.0 service }
    {
        match row_with(self.services.as_slice(), service) {
            Some(row) => self.host_of(row),
            None => None,
        }
    }

    /// The service with a number.
    fn service(&self, number: u64) -> Option<&Service>
        ensures { option_copied result ≡ service_of self.now.0 number }
    {
        row_with(self.services.as_slice(), number)
    }

    /// Enters a service whose host this is, and returns whether the host was launched.
    fn enter_host(&mut self, service: u64, host: u64) -> bool
        ensures launched { result ≡ is_launched (process_of self.old.0 host) }
        ensures flat { (words : List (List ℕ)) → self.new.0 ≡ entered_at self.old.0 service words
            (Some host) }
        ensures limits { self.new.1 ≡ self.old.1 }
    {
        let launched = is_launched(process_with(self.processes.as_slice(), host));
        start_in(&mut self.services, service, host);
        launched
    }

    /// Enters a service by a new process, which is to be launched with these words.
    fn enter_new(&mut self, service: u64, words: Items<WText>)
        requires room { length self.old.0.processes < self.old.1.processes }
        requires numbers { HasNumbers self.old.1 self.old.0 }
        ensures flat { self.new.0 ≡ entered_at self.old.0 service words None }
        ensures limits { self.new.1 ≡ self.old.1 }
    {
        let number = self.next;
        let shared = is_sharing(row_with(self.services.as_slice(), service));
        start_in(&mut self.services, service, number);
        self.processes.push_reserved(Process {
            number,
            service,
            shared,
            phase: Phase::Wanted,
            pid: 0,
            controls: Items::new(self.alloc),
        });
        self.wanted.push_reserved(Wanted {
            process: number,
            command: false,
            words,
        });
        self.next += 1;
    }

    fn entering(&self, row: &Service) -> Entering
        ensures { result ≡ entering_at (cause_at self.now.1 self.now.0 false (Some row.now))
            (is_some self.now.0.lock) }
    {
        if row.marked {
            return Entering::No(1072);
        }
        if row.config.start == DISABLED {
            return Entering::No(1058);
        }
        if !self.is_ready(row) || row.status.state != STOPPED {
            return Entering::No(1068);
        }
        if self.limit as usize <= self.processes.len() && self.host_of(row).is_none() {
            return Entering::No(1054);
        }
        match self.lock {
            Some(_) => Entering::Locked,
            None => Entering::Yes,
        }
    }
}

impl Field for Bench {
    ghost flat = { λ b. b.0 };

    ghost limits = { λ b. b.1 };

    fn state_of(&self, service: u64) -> u32 {
        match row_with(self.services.as_slice(), service) {
            Some(row) => row.status.state,
            None => 0,
        }
    }

    fn may_enter(&self, service: u64) -> Entering {
        match self.service(service) {
            Some(row) => self.entering(row),
            None => Entering::No(1072),
        }
    }

    fn enter(&mut self, service: u64, words: Items<WText>) -> bool {
        match self.host(service) {
            Some(process) => {
                drop(words);
                self.enter_host(service, process)
            }
            None => {
                self.enter_new(service, words);
                false
            }
        }
    }
}
