ghost use Rattle.std.specs.Prelude.{ℕ, ◌≡◌, ◌==◌, ◌≤◌, find, if◌then◌else◌, IfSome, option_copied};
ghost use Rattle.scm_model.specs.Found.{if_found};
ghost use Rattle.scm_model.specs.Notices.{
  event_of_leaving,
  event_of_state,
  new_registration,
  noted,
};
ghost use Rattle.scm_model.specs.Notices.{
  notified,
  notified_of_move,
  pid_in,
  pid_of,
  put_in,
  state_mask,
  with_pid,
};
ghost use Rattle.scm_rules.specs.Delete.{told_of_mark};
ghost use Rattle.scm_rules.specs.Launches.{fallen};
ghost use Rattle.scm_rules.specs.Reports.{process_in_state, notified_of_report};
ghost use Rattle.start_plan.specs.Entered.{notified_of_start};
ghost use Rattle.scm_tables.specs.Tabled.{HasShort};

use super::processes::Processes;
use super::turning::bare_status;
use notify_queue::NotifyQueue;
use scm_model::codes::{
    SERVICE_CONTINUE_PENDING, SERVICE_NOTIFY_CONTINUE_PENDING, SERVICE_NOTIFY_DELETE_PENDING,
    SERVICE_NOTIFY_DELETED, SERVICE_NOTIFY_PAUSE_PENDING, SERVICE_NOTIFY_PAUSED,
    SERVICE_NOTIFY_RUNNING, SERVICE_NOTIFY_START_PENDING, SERVICE_NOTIFY_STOP_PENDING,
    SERVICE_NOTIFY_STOPPED, SERVICE_PAUSE_PENDING, SERVICE_PAUSED, SERVICE_RUNNING,
    SERVICE_START_PENDING, SERVICE_STOP_PENDING, SERVICE_STOPPED,
};
use scm_model::{ProcessStatus, Service, Status};
use status_machine::{take_end, take_report};

/// The event that a state is.
pub fn state_mask(state: u32) -> u32
    ensures { result ≡ state_mask state }
{
    match state {
        SERVICE_STOPPED => SERVICE_NOTIFY_STOPPED,
        SERVICE_START_PENDING => SERVICE_NOTIFY_START_PENDING,
        SERVICE_STOP_PENDING => SERVICE_NOTIFY_STOP_PENDING,
        SERVICE_RUNNING => SERVICE_NOTIFY_RUNNING,
        SERVICE_CONTINUE_PENDING => SERVICE_NOTIFY_CONTINUE_PENDING,
        SERVICE_PAUSE_PENDING => SERVICE_NOTIFY_PAUSE_PENDING,
        SERVICE_PAUSED => SERVICE_NOTIFY_PAUSED,
        _ => 0,
    }
}

/// A status with the system's number of the process.
pub fn with_pid(status: Status, pid: u32) -> ProcessStatus
    ensures { result ≡ with_pid status pid }
{
    ProcessStatus {
        status,
        pid,
        flags: 0,
    }
}

/// The system's number of a process, or 0.
pub fn pid_with(processes: &Processes, number: u64) -> u32
    ensures { result ≡ if number == 0 then 0 else pid_in
        (find (λ process. process.number == number) processes.now.processes) }
{
    if number == 0 {
        0
    } else {
        processes.pid_of(number)
    }
}

/// Tells of a service's change to another state.
fn note_move(queue: &mut NotifyQueue, row: &Service, status: Status, pid: u32)
    requires { HasShort row.now }
    ensures rows { queue.new.rows ≡ if row.now.status.state == status.state then queue.old.rows
        else noted (record {
          service = row.now.number;
          bit = state_mask status.state;
          status = with_pid status pid;
          name = row.now.config.name;
        }) queue.old.rows }
    ensures spare { queue.new.spare ≡ queue.old.spare }
{
    if row.status.state != status.state {
        queue.note(
            row.number,
            state_mask(status.state),
            with_pid(status, pid),
            &row.config.name,
        );
    }
}

/// Tells that a service is being started by a process that has this number of the system, if the
/// service is the one with this number and was STOPPED.
pub fn note_start(queue: &mut NotifyQueue, service: Option<&Service>, number: u64, pid: u32)
    requires { IfSome (option_copied service) HasShort }
    ensures rows { (process : ℕ) → queue.new.rows ≡ notified_of_start number process pid
        (option_copied service.entry) queue.old.rows }
    ensures spare { queue.new.spare ≡ queue.old.spare }
{
    if let Some(row) = service {
        if row.number == number && row.status.state == SERVICE_STOPPED {
            let status = bare_status(row.status.kind, SERVICE_START_PENDING, 0);
            note_move(queue, row, status, pid);
        }
    }
}

/// Tells that a service falls.
pub fn note_fall(queue: &mut NotifyQueue, row: &Service, code: u32)
    requires { HasShort row.now }
    ensures rows { queue.new.rows ≡ notified_of_move 0 row.now (fallen code row.now)
        queue.old.rows }
    ensures spare { queue.new.spare ≡ queue.old.spare }
{
    note_move(queue, row, take_end(&row.status, code), 0);
}

/// The process that a service has in a state, if it is there now.
fn process_in_state(state: u32, process: u64) -> u64
    ensures { result ≡ process_in_state state process }
{
    if state == SERVICE_STOPPED { 0 } else { process }
}

/// Tells of the state that a report brings a service to.
pub fn note_report(
    queue: &mut NotifyQueue,
    service: Option<&Service>,
    report: &Status,
    processes: &Processes,
)
    requires { IfSome (option_copied service) HasShort }
    ensures rows { queue.new.rows ≡ notified_of_report processes.now.processes report.now
        (option_copied service.entry) queue.old.rows }
    ensures spare { queue.new.spare ≡ queue.old.spare }
{
    if let Some(row) = service {
        if take_report(&row.status, report).is_ok() {
            let process = process_in_state(report.state, row.process);
            note_move(queue, row, *report, pid_with(processes, process));
        }
    }
}

/// Tells that a service is marked.
pub fn note_mark(queue: &mut NotifyQueue, service: Option<&Service>, processes: &Processes)
    requires { IfSome (option_copied service) HasShort }
    ensures rows { queue.new.rows ≡ told_of_mark processes.now.processes
        (option_copied service.entry) queue.old.rows }
    ensures spare { queue.new.spare ≡ queue.old.spare }
{
    if let Some(row) = service {
        queue.note(
            row.number,
            SERVICE_NOTIFY_DELETE_PENDING,
            with_pid(row.status, pid_with(processes, row.process)),
            &row.config.name,
        );
    }
}

/// Tells the manager's registrations that a service leaves.
pub fn note_leaving(queue: &mut NotifyQueue, service: Option<&Service>)
    requires { IfSome (option_copied service) HasShort }
    ensures rows { queue.new.rows ≡ if_found (λ row. noted (event_of_leaving row))
        (option_copied service.entry) queue.old.rows }
    ensures spare { queue.new.spare ≡ queue.old.spare }
{
    if let Some(row) = service {
        queue.note(
            0,
            SERVICE_NOTIFY_DELETED,
            with_pid(row.status, 0),
            &row.config.name,
        );
    }
}

/// Adds a registration, and notifies it of the state of the service if its mask has that.
pub fn register_in(
    queue: &mut NotifyQueue,
    present: Option<&Service>,
    processes: &Processes,
    number: u64,
    caller: u64,
    service: u64,
    mask: u32,
)
    requires room { 1 ≤ queue.old.spare }
    requires short { IfSome (option_copied present) HasShort }
    ensures { queue.new.rows ≡ put_in (if_found (λ row. notified
        (event_of_state (pid_of processes.now.processes row) row)) (option_copied present.entry)
        (new_registration number caller service mask)) queue.old.rows }
{
    match present {
        Some(row) => queue.register_told(
            number,
            caller,
            service,
            mask,
            row.number,
            state_mask(row.status.state),
            with_pid(row.status, pid_with(processes, row.process)),
            &row.config.name,
        ),
        None => queue.register(number, caller, service, mask),
    }
}
