ghost use Rattle.std.specs.Prelude.{◌≡◌, ◌≢◌, ◌≤◌, ◌<◌, ◌+◌, ◌^◌, ◌==◌, AllPairs, IfSome, IsTrue};
ghost use Rattle.std.specs.Prelude.{[], find, length, map, option_and_then, option_copied};
ghost use Rattle.std.specs.Prelude.{option_map, slice_get};
ghost use Rattle.std.specs.List.{list_any};
ghost use Rattle.scm_model.specs.Found.{if_found};
ghost use Rattle.scm_model.specs.Processes.{currents, is_by};
ghost use Rattle.scm_model.specs.Rows.{service_of};
ghost use Rattle.scm_model.specs.declared.steps.Answer.TheVariants as answer;
ghost use Rattle.scm_rules.specs.Due.{is_due_of};
ghost use Rattle.scm_rules.specs.Ends.{with_end};
ghost use Rattle.scm_rules.specs.Failures.{all_failed, counted_if, failed_by, is_failure};
ghost use Rattle.scm_rules.specs.Failures.{with_action, with_due_after, with_failure};
ghost use Rattle.scm_rules.specs.Reports.{is_stopped_by, released_by, report_told, reporting};
ghost use Rattle.scm_rules.specs.Reports.{with_report_of};
ghost use Rattle.scm_rules.specs.Launches.{with_fallen};
ghost use Rattle.scm_tables.specs.Failed.{failed_at, is_taken_by, taken_by_service, with_failed};
ghost use Rattle.scm_tables.specs.Failed.{with_one_fallen};
ghost use Rattle.status_machine.specs.Moves.{takes};

use super::noticing::{note_fall, note_report};
use super::processes::Processes;
use super::service_rows::{count_in, current_with, fall_in, report_in};
use super::tables::Tables;
use failure_actions::{due_action, on_failure};
use scm_model::codes::{ERROR_PROCESS_ABORTED, SERVICE_STOPPED};
use scm_model::{Action, DueKind, Service, Status};
use status_machine::take_report;

/// A service that failed, and what is to be done.
#[derive(Clone, Copy, Debug, PartialEq, Eq)]
pub struct Failed {
    pub number: u64,
    pub action: Option<Action>,
}

/// What a failure of a service results in, if it is there.
fn failure_of(service: Option<&Service>, moment: u64) -> Option<Failed>
    ensures { result ≡ option_map (failed_at moment) (option_copied service.entry) }
{
    match service {
        Some(row) => Some(Failed {
            number: row.number,
            action: on_failure(&row.config, row.failures, row.last_failure, moment).action,
        }),
        None => None,
    }
}

/// Whether a service takes a report.
fn takes(row: &Service, report: &Status) -> bool
    ensures { result ≡ takes row.now.status report.now }
{
    take_report(&row.status, report).is_ok()
}

/// Whether a report that is taken is a failure of the service.
fn is_failure(row: &Service, report: &Status) -> bool
    ensures { result ≡ is_failure report.now row.now }
{
    row.config.on_exit && takes(row, report) && report.state == SERVICE_STOPPED && report.win32 != 0
}

/// Whether a service takes a report that stops it.
fn is_stopped_by(row: &Service, report: &Status) -> bool
    ensures { result ≡ is_stopped_by report.now row.now }
{
    takes(row, report) && report.state == SERVICE_STOPPED
}

/// The service, where the report is a failure of it.
fn failed_by<'a>(service: Option<&'a Service>, report: &Status) -> Option<&'a Service>
    ensures { option_copied result ≡ failed_by report.now (option_copied service.entry) }
{
    match service {
        Some(row) => {
            if is_failure(row, report) {
                Some(row)
            } else {
                None
            }
        }
        None => None,
    }
}

/// The orders of a service leave its process where a report stops it, if the process is shared.
fn release_stopped(processes: &mut Processes, row: &Service, report: &Status)
    ensures { processes.new ≡ record processes.old {
      processes =
          released_by report.now row.now processes.old.processes;
    } }
{
    if is_stopped_by(row, report) {
        processes.release(row.process, row.number);
    }
}

impl Tables {
    /// A row of a service becomes due so many milliseconds from now. An earlier one of the service
    /// leaves.
    fn put_due(&mut self, millis: u32, kind: DueKind)
        requires service { IsTrue (list_any (λ row. is_due_of row.number kind)
            self.old.flat.services) }
        requires next { self.old.flat.next.due < 2 ^ 63 }
        ensures flat { self.new.flat ≡ with_due_after millis kind self.old.flat }
        ensures limits { self.new.limits ≡ self.old.limits }
    {
        let _number = self
            .dues
            .add(self.moment.saturating_add(millis as u64), kind);
    }

    /// An action of a service becomes due after its delay.
    fn put_action(&mut self, service: u64, action: &Action)
        requires service { IsTrue (list_any (λ row. service == row.number) self.old.flat.services) }
        requires next { self.old.flat.next.due < 2 ^ 63 }
        ensures flat { self.new.flat ≡ with_action service action.now self.old.flat }
        ensures limits { self.new.limits ≡ self.old.limits }
    {
        match due_action(service, action) {
            Some(kind) => self.put_due(action.delay, kind),
            None => {}
        }
    }

    /// A failure is counted with its service.
    fn count_failure(&mut self, number: u64)
        ensures flat { self.new.flat ≡ record self.old.flat {
          services =
              map (counted_if number self.old.flat.moment) self.old.flat.services;
        } }
        ensures limits { self.new.limits ≡ self.old.limits }
    {
        count_in(&mut self.services, number, self.moment);
    }

    /// A failure of a service is counted, and what is to be done becomes due. It takes no memory.
    fn fail(&mut self, failed: Option<Failed>)
        requires service { IfSome failed (λ failed. IsTrue
            (list_any (λ row. failed.number == row.number) self.old.flat.services)) }
        requires next { self.old.flat.next.due < 2 ^ 63 }
        ensures flat { self.new.flat ≡ if_found with_failed failed self.old.flat }
        ensures limits { self.new.limits ≡ self.old.limits }
    {
        let Some(failed) = failed else {
            return;
        };
        self.count_failure(failed.number);
        match failed.action {
            Some(action) => self.put_action(failed.number, &action),
            None => {}
        }
    }

    /// The failure of the service at a place among those whose current process this is is counted,
    /// and what is to be done becomes due. It takes no memory.
    fn fail_at(&mut self, process: u64, place: usize)
        requires { self.old.flat.next.due < 2 ^ 63 }
        ensures flat { self.new.flat ≡ if_found with_failure
            (slice_get (currents process self.old.flat.services) place) self.old.flat }
        ensures limits { self.new.limits ≡ self.old.limits }
    {
        let Some(pair) = self.services.of_process(process).get(place) else {
            return;
        };
        let failed = failure_of(self.services.get(pair.number), self.moment);
        self.fail(failed);
    }

    /// Each service fails whose current process this is. It takes no memory.
    fn fail_each(&mut self, process: u64)
        requires { self.old.flat.next.due + length self.old.flat.services ≤ 2 ^ 63 }
        ensures flat { self.new.flat
            ≡ all_failed (currents process self.old.flat.services) self.old.flat }
        ensures limits { self.new.limits ≡ self.old.limits }
    {
        for place in 0..self.services.of_process(process).len() {
            self.fail_at(process, place);
        }
    }

    /// The service with a number falls, if it is there; its registrations are notified.
    fn fall_one(&mut self, number: u64, code: u32)
        ensures flat { self.new.flat ≡ if_found (λ row f. with_one_fallen f code row)
            (service_of self.old.flat number) self.old.flat }
        ensures limits { self.new.limits ≡ self.old.limits }
    {
        let Some(row) = self.services.get(number) else {
            return;
        };
        note_fall(&mut self.registrations, row, code);
        self.plans.wake(number);
        fall_in(&mut self.services, number, code);
    }

    /// The number of the first service whose current process this is.
    fn first_current(&self, process: u64) -> Option<u64>
        ensures number { result ≡ option_map (λ row. row.number)
            (find (is_by process) self.now.flat.services) }
        ensures rising { AllPairs (λ a b. a.number < b.number) self.now.flat.services }
    {
        self.services.first_of_process(process)
    }

    /// Each service falls whose current process this is; its registrations are notified.
    pub fn fall(&mut self, process: u64, code: u32)
        ensures flat { self.new.flat ≡ with_fallen self.old.flat process code }
        ensures limits { self.new.limits ≡ self.old.limits }
    {
        while let Some(number) = self.first_current(process) {
            self.fall_one(number, code);
        }
    }

    /// Each service falls whose current process this is, with `ERROR_PROCESS_ABORTED` (1067), which
    /// is a failure of it. It takes no memory.
    pub fn process_exited(&mut self, process: u64)
        requires { self.old.flat.next.due + length self.old.flat.services ≤ 2 ^ 63 }
        ensures flat { self.new.flat ≡ with_end self.old.flat process }
        ensures limits { self.new.limits ≡ self.old.limits }
        ensures stale { currents process self.old.flat.services ≡ [] → self.new ≡ self.old }
    {
        if self.first_current(process).is_none() {
            return;
        }
        self.fail_each(process);
        self.fall(process, ERROR_PROCESS_ABORTED);
    }

    /// A service takes a report of its current process, if it is there; its registrations are
    /// notified of another state, and its orders leave a shared process where it stops.
    fn take_report_of(&mut self, service: u64, report: &Status)
        ensures flat { self.new.flat ≡ taken_by_service self.old.flat
            (service_of self.old.flat service) report.now }
        ensures limits { self.new.limits ≡ self.old.limits }
    {
        let Some(row) = self.services.get(service) else {
            return;
        };
        note_report(&mut self.registrations, Some(row), report, &self.processes);
        release_stopped(&mut self.processes, row, report);
        self.plans.wake(service);
        report_in(&mut self.services, service, report);
    }

    /// Whether a service is there and takes a report.
    fn is_taken_by(&self, service: u64, report: &Status) -> bool
        ensures taken { result ≡ is_taken_by report.now (service_of self.now.flat service) }
        ensures rising { AllPairs (λ a b. a.number < b.number) self.now.flat.services }
    {
        match self.services.get(service) {
            Some(row) => takes(row, report),
            None => false,
        }
    }

    /// A service takes a report of its current process, if it is there, which may be a failure of
    /// it; its registrations are notified of another state. It takes no memory.
    pub fn report_of(&mut self, service: u64, report: &Status)
        requires { self.old.flat.next.due < 2 ^ 63 }
        ensures flat { self.new.flat ≡ with_report_of self.old.flat
            (service_of self.old.flat service) report.now }
        ensures limits { self.new.limits ≡ self.old.limits }
        ensures untaken { report_told (service_of self.old.flat service) report.now ≢ answer.Done
            → self.new ≡ self.old }
    {
        if !self.is_taken_by(service, report) {
            return;
        }
        let failed = failure_of(failed_by(self.service(service), report), self.moment);
        self.take_report_of(service, report);
        self.fail(failed);
    }

    /// The number of the service that a report of a process names, if this is its current process.
    fn reporting_number(&self, process: u64, service: u64) -> Option<u64>
        ensures { option_and_then (service_of self.now.flat) result
            ≡ reporting self.now.flat process service }
    {
        match current_with(&self.services, self.reporter(process, service), process) {
            Some(row) => Some(row.number),
            None => None,
        }
    }

    /// The service that a report of a process names takes it, if this is its current process, which
    /// may be a failure of it; its registrations are notified of another state. It takes no memory.
    pub fn report(&mut self, process: u64, service: u64, report: &Status)
        requires { self.old.flat.next.due < 2 ^ 63 }
        ensures flat { self.new.flat ≡ with_report_of self.old.flat
            (reporting self.old.flat process service) report.now }
        ensures limits { self.new.limits ≡ self.old.limits }
        ensures untaken { report_told (reporting self.old.flat process service) report.now
            ≢ answer.Done → self.new ≡ self.old }
    {
        match self.reporting_number(process, service) {
            Some(number) => self.report_of(number, report),
            None => {}
        }
    }
}
