ghost use Rattle.std.specs.Prelude.{◌≡◌, ◌≢◌, ◌≤◌, ◌<◌, ◌+◌, ◌^◌, ◌&&◌, None, length};
ghost use Rattle.std.specs.Prelude.{option_copied};
ghost use Rattle.scm_model.specs.Processes.{currents};
ghost use Rattle.scm_model.specs.declared.calls.Request.TheVariants as request;
ghost use Rattle.scm_model.specs.declared.steps.Answer.TheVariants as answer;
ghost use Rattle.scm_model.specs.Refused.{outcome};
ghost use Rattle.scm_rules.specs.Reports.{may_report, report_answer, report_told, reported};
ghost use Rattle.scm_rules.specs.Reports.{set_status_done, set_status_verdict, set_status_outcome};
ghost use Rattle.scm_rules.specs.Ends.{end_told, process_ended};
ghost use Rattle.scm_rules.specs.Launches.{process_of, without_process};
ghost use Rattle.status_machine.specs.Moves.{takes};

use scm_model::codes::{
    ERROR_ACCESS_DENIED, ERROR_INVALID_DATA, ERROR_INVALID_HANDLE, SERVICE_SET_STATUS,
};
use scm_model::{Answer, Reply, Service, Status};
use scm_tables::{Tables, mask_lacks};
use status_machine::take_report;

/// How a report of a service's current process is answered.
fn report_answer(taken: Result<Status, u32>) -> Answer
    ensures { result ≡ report_answer taken }
{
    match taken {
        Ok(_) => Answer::Done,
        Err(code) => Answer::Refused(code),
    }
}

/// How a report of a service's current process is answered, if it names such a service.
fn report_told(service: Option<&Service>, report: &Status) -> Answer
    ensures { result ≡ report_told (option_copied service.entry) report.now }
{
    match service {
        Some(row) => report_answer(take_report(&row.status, report)),
        None => Answer::Stale,
    }
}

/// The service that a report names, which is the one that the process was launched for where the
/// number is 0, takes the report of its current process, if it is one that it may make. It is a
/// failure where the service stops with an error. It takes no memory.
pub fn report(tables: &mut Tables, process: u64, service: u64, report: &Status) -> Answer
    requires { tables.old.flat.next.due < 2 ^ 63 }
    ensures answer { result ≡ (reported tables.old.flat process service report.now).answer }
    ensures flat { tables.new.flat ≡ (reported tables.old.flat process service report.now).flat }
    ensures limits { tables.new.limits ≡ tables.old.limits }
    ensures untaken { result ≢ answer.Done → tables.new ≡ tables.old }
{
    let answer = report_told(tables.reporting(process, service), report);
    tables.report(process, service, report);
    answer
}

/// How the end of a process is answered.
fn end_told(tables: &Tables, process: u64) -> Answer
    ensures { result ≡ end_told (currents process tables.now.flat.services) }
{
    match tables.current(process) {
        Some(_) => Answer::Done,
        None => Answer::Stale,
    }
}

/// A process leaves, and each service falls whose current one it is, which is a failure of each. It
/// takes no memory.
pub fn end(tables: &mut Tables, process: u64) -> Answer
    requires { tables.old.flat.next.due + length tables.old.flat.services ≤ 2 ^ 63 }
    ensures answer { result ≡ (process_ended tables.old.flat process).answer }
    ensures flat { tables.new.flat ≡ (process_ended tables.old.flat process).flat }
    ensures limits { tables.new.limits ≡ tables.old.limits }
    ensures stale { result ≡ answer.Stale → tables.new ≡ record tables.old {
      flat = without_process tables.old.flat process;
    } }
    ensures absent { result ≡ answer.Stale → process_of tables.old.flat process ≡ None
        → tables.new ≡ tables.old }
{
    let answer = end_told(tables, process);
    tables.process_exited(process);
    tables.remove_process(process);
    answer
}

/// Whether a report is one that may be made after a status.
fn takes(now: &Status, report: &Status) -> bool
    ensures { result ≡ takes now.now report.now }
{
    take_report(now, report).is_ok()
}

/// Whether a service's current process runs and may report so.
fn may_report(tables: &Tables, service: Option<&Service>, report: &Status) -> bool
    ensures { result ≡ may_report tables.now.flat (option_copied service.entry) report.now }
{
    match service {
        Some(row) => tables.is_running(row.process) && takes(&row.status, report),
        None => false,
    }
}

/// What `RSetServiceStatus` is refused with, or 0: `ERROR_INVALID_HANDLE` (6),
/// `ERROR_ACCESS_DENIED` (5) or `ERROR_INVALID_DATA` (13), which is also for a service none of
/// whose processes runs.
pub fn set_status_verdict(tables: &Tables, caller: u64, handle: u64, report: &Status) -> u32
    ensures { result ≡ set_status_verdict tables.now.flat caller handle report.now }
{
    let Some(opened) = tables.opened(caller, handle) else {
        return ERROR_INVALID_HANDLE;
    };
    if mask_lacks(opened.granted, SERVICE_SET_STATUS) {
        return ERROR_ACCESS_DENIED;
    }
    if !may_report(tables, tables.service(opened.service), report) {
        return ERROR_INVALID_DATA;
    }
    0
}

/// A service takes a report as if its current process had made it. It takes no memory.
pub fn set_status(tables: &mut Tables, caller: u64, handle: u64, report: &Status) -> Reply
    requires { tables.old.flat.next.due < 2 ^ 63 }
    ensures reply { result ≡ (set_status_outcome tables.old.flat caller handle report.now).reply }
    ensures flat { tables.new.flat ≡ (set_status_outcome tables.old.flat caller handle
        report.now).flat }
    ensures limits { tables.new.limits ≡ tables.old.limits }
    ensures refused { set_status_verdict tables.old.flat caller handle report.now ≢ 0
        → tables.new ≡ tables.old }
{
    let code = set_status_verdict(tables, caller, handle, report);
    if code != 0 {
        return Reply::Code(code);
    }
    if let Some(opened) = tables.opened(caller, handle) {
        tables.report_of(opened.service, report);
    }
    Reply::Code(0)
}
