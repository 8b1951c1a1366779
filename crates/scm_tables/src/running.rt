ghost use Rattle.std.specs.Prelude.{◌≡◌, ◌≤◌, ◌+◌, find, length, option_copied, option_map, None};
ghost use Rattle.scm_model.specs.Processes.{is_by, is_shared};
ghost use Rattle.scm_model.specs.Rows.{service_of};
ghost use Rattle.scm_rules.specs.Controls.{active_among, next_order, waiting, with_control};
ghost use Rattle.scm_rules.specs.Controls.{with_control_taken};
ghost use Rattle.scm_rules.specs.Query.{status_in};
ghost use Rattle.scm_rules.specs.Launches.{is_launched, process_of};
ghost use Rattle.scm_rules.specs.Reports.{reporter, reporting};
ghost use Rattle.scm_tables.specs.Needing.{naming_among};

use super::service_rows::{count_asked_in, current_in, current_with, first_asked_in, unask_in};
use super::tables::Tables;
use dependency_index::Steps;
use scm_model::{Order, Service, Status, zero_status};
use std::sync::ledger::Ledger;

/// The status of a service, or zeros where there is none.
pub fn status_in(service: Option<&Service>) -> Status
    ensures { result ≡ status_in (option_copied service.entry) }
{
    match service {
        Some(row) => row.status,
        None => zero_status(),
    }
}

impl Tables {
    /// Whether a process is listed and was launched.
    pub fn is_running(&self, process: u64) -> bool
        ensures { result ≡ is_launched (process_of self.now.flat process) }
    {
        self.processes.is_launched(process)
    }

    /// The first service whose current process this is.
    pub fn current(&self, process: u64) -> Option<&Service>
        ensures { option_copied result ≡ find (is_by process) self.now.flat.services }
    {
        current_in(&self.services, process)
    }

    /// The number of the service that a report of a process names, which may be the one that the
    /// process was launched for.
    pub(crate) fn reporter(&self, process: u64, service: u64) -> u64
        ensures { result ≡ reporter self.now.flat process service }
    {
        if service == 0 {
            self.processes.service_of(process).unwrap_or(0)
        } else {
            service
        }
    }

    /// The service that a report of a process names, if this is its current process.
    pub fn reporting(&self, process: u64, service: u64) -> Option<&Service>
        ensures { option_copied result ≡ reporting self.now.flat process service }
    {
        current_with(&self.services, self.reporter(process, service), process)
    }

    /// How many services name a service as a need and aren't STOPPED, in 32 bits. The states of
    /// those services alone are looked at.
    pub fn active_needing<L: Ledger>(&self, service: u64, steps: &mut Steps<L>) -> u32
        ensures active { result ≡ active_among self.now.flat.services
            (service_of self.now.flat service) }
        ensures looks { steps.new ≡ steps.old + naming_among self.now.flat.services
            (service_of self.now.flat service) }
    {
        self.index.active_dependents(service, self, steps)
    }

    /// Whether other services may live in a process too.
    pub fn shares(&self, process: u64) -> bool
        ensures { result ≡ is_shared (process_of self.now.flat process) }
    {
        self.processes.is_shared(process)
    }

    /// How many orders wait for a process; none where it isn't listed.
    pub fn orders(&self, process: u64) -> Option<u32>
        ensures { result ≡ option_map (λ row. length row.controls)
            (process_of self.now.flat process) }
    {
        self.processes.waiting(process)
    }

    /// How many services and orders a process is still to be told of; none where it isn't listed.
    pub fn waiting(&self, process: u64) -> Option<usize>
        ensures { result ≡ waiting self.now.flat process }
    {
        match self.processes.waiting(process) {
            Some(orders) => Some(orders as usize + count_asked_in(&self.services, process)),
            None => None,
        }
    }

    /// What is sent to a process next: that a service is to start, with code 0, and else the order
    /// that waits first.
    pub fn next_order(&self, process: u64) -> Option<Order>
        ensures { result ≡ next_order self.now.flat process }
    {
        match first_asked_in(&self.services, process) {
            Some(row) => Some(Order {
                service: row.number,
                code: 0,
            }),
            None => self.processes.first_control(process),
        }
    }

    /// An order more waits for a process, as long as fewer do than may. It takes no memory.
    pub fn control(&mut self, process: u64, order: Order)
        requires { self.old.limits.controls ≤ 16 }
        ensures flat { self.new.flat ≡ with_control self.old.limits self.old.flat process order }
        ensures limits { self.new.limits ≡ self.old.limits }
        ensures spare { self.new.spare ≡ self.old.spare }
    {
        self.processes.control(self.limits.controls, process, order);
    }

    /// What is sent to a process next is taken.
    pub fn take_control(&mut self, process: u64)
        ensures flat { self.new.flat ≡ with_control_taken self.old.flat process }
        ensures limits { self.new.limits ≡ self.old.limits }
        ensures none { next_order self.old.flat process ≡ None → self.new ≡ self.old }
    {
        match first_asked_in(&self.services, process) {
            Some(row) => {
                let number = row.number;
                unask_in(&mut self.services, number);
            }
            None => self.processes.dequeue_control(process),
        }
    }
}
