ghost use Rattle.std.specs.Prelude.{ℕ, ◌≡◌, ◌+◌, ◌&&◌, List, None, Some, false, find, is_none, is_some};
ghost use Rattle.std.specs.Prelude.{map, option_copied};
ghost use Rattle.std.specs.List.{list_any};
ghost use Rattle.scm_model.specs.Processes.{is_launched, process_of};
ghost use Rattle.scm_model.specs.Rows.{members, named, service_of};
ghost use Rattle.start_plan.specs.Entered.{entered_at, HasNumbers, is_shared_by};
ghost use Rattle.start_plan.specs.Entered.{notified_of_start, started_if};
ghost use Rattle.start_plan.specs.Hosts.{host_at};
ghost use Rattle.start_plan.specs.Moves.{cause_at, entering_at, is_full};
ghost use Rattle.scm_model.specs.Ready.{is_fulfilled, is_ready, is_running, is_up, state_of};
ghost use Rattle.start_plan.specs.Settle.{settled};

use super::due_rows::keep_due;
use super::hosting::is_sharing;
use super::lines::Line;
use super::noticing::note_start;
use super::service_rows::start_in;
use super::tables::Tables;
use dependency_index::{StateLook, StateOf, Steps};
use scm_model::codes::{
    ERROR_SERVICE_DEPENDENCY_FAIL, ERROR_SERVICE_DISABLED, ERROR_SERVICE_MARKED_FOR_DELETE,
    ERROR_SERVICE_NO_THREAD, SERVICE_DISABLED, SERVICE_RUNNING, SERVICE_STOPPED,
};
use scm_model::{Need, Service};
use scm_text::{Items, WText};
use start_plan::{Entering, Field, Plans};
use std::mem::replace;
use std::sync::ledger::Ledger;

/// Whether a service is there, unmarked and SERVICE_RUNNING.
fn is_up(service: Option<&Service>) -> bool
    ensures { result ≡ is_up (option_copied service.entry) }
{
    match service {
        Some(row) => !row.marked && row.status.state == SERVICE_RUNNING,
        None => false,
    }
}

/// Whether a service's process is shared.
fn is_shared_by(service: Option<&Service>) -> bool
    ensures { result ≡ is_shared_by (option_copied service.entry) }
{
    match service {
        Some(row) => is_sharing(row),
        None => false,
    }
}

impl Tables {
    /// Whether a need is there.
    fn is_fulfilled(&self, need: &Need) -> bool
        ensures { result ≡ is_fulfilled self.now.flat need.now }
    {
        match need {
            Need::Service(name) => is_up(self.named(name)),
            Need::Group(group) => self.is_any_running(self.services.members(group)),
        }
    }

    /// Whether all that a service needs is there.
    fn is_ready(&self, row: &Service) -> bool
        ensures { result ≡ is_ready self.now.flat row.now }
    {
        row.config
            .needs
            .as_slice()
            .iter()
            .all(|need| self.is_fulfilled(need))
    }

    /// Whether a service needs a new process, and no more may be listed.
    fn lacks_process(&self, row: &Service) -> bool
        ensures { result ≡ (is_full self.now.limits self.now.flat
            && is_none (host_at self.now.flat (Some row.now))) }
    {
        self.processes.is_full(self.limits.processes) && self.host_of(row).is_none()
    }

    /// What is in the way of a service.
    fn entering(&self, row: &Service) -> Entering
        ensures { result ≡ entering_at (cause_at self.now.limits self.now.flat false (Some row.now))
            (is_some self.now.flat.lock) }
    {
        if row.marked {
            return Entering::No(ERROR_SERVICE_MARKED_FOR_DELETE);
        }
        if row.config.start == SERVICE_DISABLED {
            return Entering::No(ERROR_SERVICE_DISABLED);
        }
        if !self.is_ready(row) || row.status.state != SERVICE_STOPPED {
            return Entering::No(ERROR_SERVICE_DEPENDENCY_FAIL);
        }
        if self.lacks_process(row) {
            return Entering::No(ERROR_SERVICE_NO_THREAD);
        }
        match self.lock() {
            Some(_) => Entering::Locked,
            None => Entering::Yes,
        }
    }

    /// The state of a service, or 0 where there is none.
    pub fn state_of(&self, service: u64) -> u32
        ensures { result ≡ state_of self.now.flat service }
    {
        match self.service(service) {
            Some(row) => row.status.state,
            None => 0,
        }
    }

    /// The service with this number is START_PENDING where it was STOPPED, by a process that has
    /// the system's number `pid`.
    fn start_by(&mut self, service: u64, process: u64, pid: u32)
        ensures flat { self.new.flat ≡ record self.old.flat {
          services = map (started_if service process) self.old.flat.services;
          registrations = notified_of_start service process pid
              (service_of self.old.flat service) self.old.flat.registrations;
        } }
        ensures limits { self.new.limits ≡ self.old.limits }
    {
        note_start(
            &mut self.registrations,
            self.services.get(service),
            service,
            pid,
        );
        start_in(&mut self.services, service, process);
    }

    /// Enters a service whose host this is, and returns whether the host was launched.
    fn enter_host(&mut self, service: u64, host: u64) -> bool
        ensures launched { result ≡ is_launched (process_of self.old.flat host) }
        ensures flat { (words : List (List ℕ)) → self.new.flat ≡ entered_at self.old.flat service
            words (Some host) }
        ensures limits { self.new.limits ≡ self.old.limits }
    {
        let pid = self.processes.pid_of(host);
        let launched = self.processes.is_launched(host);
        self.start_by(service, host, pid);
        launched
    }

    /// Enters a service that has no host, by a new process.
    fn enter_new(&mut self, service: u64, words: Items<WText>)
        requires room { is_full self.old.limits self.old.flat ≡ false }
        requires numbers { HasNumbers self.old.limits self.old.flat }
        ensures flat { self.new.flat ≡ entered_at self.old.flat service words None }
        ensures limits { self.new.limits ≡ self.old.limits }
    {
        let process = self.processes.next();
        let shared = is_shared_by(self.services.get(service));
        self.processes
            .list(service, shared, Line::of_service(words));
        self.start_by(service, process, 0);
    }

    /// Settles the plans. It takes no memory.
    pub fn settle(&mut self)
        requires { HasNumbers self.old.limits self.old.flat }
        ensures flat { self.new.flat ≡ settled self.old.limits self.old.flat }
        ensures limits { self.new.limits ≡ self.old.limits }
    {
        let mut plans = replace(&mut self.plans, Plans::none(self.alloc));
        plans.settle(self);
        keep_due(&mut self.dues, &plans);
        self.plans = plans;
    }
}

impl StateOf for Tables {
    ghost state_of = { λ self service. state_of self.flat service };

    fn state_of(&self, service: u64) -> u32 {
        match self.service(service) {
            Some(row) => row.status.state,
            None => 0,
        }
    }
}

impl StateLook for Tables {
    ghost state_of = { λ self service. state_of self.flat service };

    fn state_of<L: Ledger>(&self, service: u64, steps: &mut Steps<L>) -> u32 {
        steps.tick();
        match self.service(service) {
            Some(row) => row.status.state,
            None => 0,
        }
    }
}

impl Field for Tables {
    ghost flat = { λ self. self.flat };

    ghost limits = { λ self. self.limits };

    fn state_of(&self, service: u64) -> u32 {
        match self.service(service) {
            Some(row) => row.status.state,
            None => 0,
        }
    }

    fn may_enter(&self, service: u64) -> Entering {
        match self.service(service) {
            Some(row) => self.entering(row),
            None => Entering::No(ERROR_SERVICE_MARKED_FOR_DELETE),
        }
    }

    fn enter(&mut self, service: u64, words: Items<WText>) -> bool {
        match self.host(service) {
            Some(host) => {
                drop(words);
                self.enter_host(service, host)
            }
            None => {
                self.enter_new(service, words);
                false
            }
        }
    }
}
