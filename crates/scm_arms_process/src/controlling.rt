ghost use Rattle.std.specs.Prelude.{◌≡◌, ◌≢◌, ◌≤◌, option_and_then, option_copied};
ghost use Rattle.scm_model.specs.Refused.{answered};
ghost use Rattle.scm_model.specs.Rows.{service_of};
ghost use Rattle.scm_model.specs.declared.steps.Answer.TheVariants as answer;
ghost use Rattle.scm_rules.specs.Controls.{active_among, control_done, control_taken, control_told};
ghost use Rattle.scm_rules.specs.Controls.{control_verdict, granted_in, status_told, tells_status};
ghost use Rattle.scm_rules.specs.Controls.{waiting_for};

use control_dispatch::judge;
use dependency_index::Steps;
use scm_model::codes::{
    ERROR_INVALID_SERVICE_CONTROL, ERROR_SERVICE_CANNOT_ACCEPT_CTRL, ERROR_SERVICE_NOT_ACTIVE,
};
use scm_model::{Answer, Opened, Order, Reply, Service, Status, zero_status};
use scm_tables::{Tables, status_in};
use std::marker::Brand;
use std::sync::ledger::{Blank, Ledger};

/// The rights of a handle, where it is one of a service.
fn granted_in(handle: Option<Opened>) -> Option<u32>
    ensures { result ≡ granted_in handle }
{
    match handle {
        Some(opened) => Some(opened.granted),
        None => None,
    }
}

/// How many orders wait for a service's process.
pub fn waiting_for(tables: &Tables, service: Option<&Service>) -> u32
    ensures { result ≡ waiting_for tables.now.flat (option_copied service.entry) }
{
    match service {
        Some(row) => tables.orders(row.process).unwrap_or(0),
        None => 0,
    }
}

/// How many services name a service as a need and aren't STOPPED, by a counter of its own.
fn active_counted<L: Ledger>(tables: &Tables, service: u64, blank: Blank) -> u32
    requires name { blank.name ≡ L.name }
    requires parts { blank.parts ≡ L.parts }
    requires one { blank.parts ≡ 1 }
    ensures { result ≡ active_among tables.now.flat.services
        (service_of tables.now.flat service) }
{
    let mut steps = Steps::<L>::open(blank);
    let active = tables.active_needing(service, &mut steps);
    drop(steps);
    active
}

/// How many services name a service as a need and aren't STOPPED. The states of those services
/// alone are looked at: the counter shows it, and takes no bytes.
pub fn active_needing(tables: &Tables, service: u64) -> u32
    ensures { result ≡ active_among tables.now.flat.services
        (service_of tables.now.flat service) }
{
    active_counted::<Brand>(tables, service, Blank::new(1))
}

/// The same of the service that a handle is of, or 0 where it is of none.
fn active_held(tables: &Tables, handle: Option<Opened>) -> u32
    ensures { result ≡ active_among tables.now.flat.services
        (option_and_then (λ of. service_of tables.now.flat of.service) handle) }
{
    match handle {
        Some(opened) => active_needing(tables, opened.service),
        None => 0,
    }
}

/// What `RControlService` is refused with, or 0: `ERROR_INVALID_HANDLE` (6),
/// `ERROR_INVALID_PARAMETER` (87), `ERROR_ACCESS_DENIED` (5),
/// `ERROR_SERVICE_NOT_ACTIVE` (1062), `ERROR_SERVICE_CANNOT_ACCEPT_CTRL` (1061),
/// `ERROR_INVALID_SERVICE_CONTROL` (1052) or
/// `ERROR_DEPENDENT_SERVICES_RUNNING` (1051).
pub fn control_verdict(tables: &Tables, caller: u64, handle: u64, control: u32) -> u32
    ensures { result ≡ control_verdict tables.now.limits tables.now.flat caller handle control }
{
    let service = tables.held_service(caller, handle);
    judge(
        granted_in(tables.opened(caller, handle)),
        control,
        &status_in(service),
        active_held(tables, tables.opened(caller, handle)),
        waiting_for(tables, service),
        tables.limits().controls,
    )
}

/// Whether the service's status is returned with a code that refuses a control.
fn tells_status(code: u32) -> bool
    ensures { result ≡ tells_status code }
{
    code == ERROR_INVALID_SERVICE_CONTROL
        || code == ERROR_SERVICE_CANNOT_ACCEPT_CTRL
        || code == ERROR_SERVICE_NOT_ACTIVE
}

/// The status of a service that is returned with a code that refuses a control.
fn status_told(code: u32, service: Option<&Service>) -> Status
    ensures { result ≡ status_told code (option_copied service.entry) }
{
    if tells_status(code) {
        status_in(service)
    } else {
        zero_status()
    }
}

/// Queues a control for a service's process, and returns its status. It takes no memory.
pub fn control(tables: &mut Tables, caller: u64, handle: u64, control: u32) -> Reply
    requires { tables.old.limits.controls ≤ 16 }
    ensures reply { result ≡ (answered (control_verdict tables.old.limits tables.old.flat caller
        handle control) (control_told tables.old.flat caller handle
        (control_verdict tables.old.limits tables.old.flat caller handle control)) tables.old.flat
        (control_done tables.old.limits tables.old.flat caller handle control)).reply }
    ensures flat { tables.new.flat ≡ (answered (control_verdict tables.old.limits tables.old.flat
        caller handle control) (control_told tables.old.flat caller handle
        (control_verdict tables.old.limits tables.old.flat caller handle control)) tables.old.flat
        (control_done tables.old.limits tables.old.flat caller handle control)).flat }
    ensures limits { tables.new.limits ≡ tables.old.limits }
    ensures refused { control_verdict tables.old.limits tables.old.flat caller handle control ≢ 0
        → tables.new ≡ tables.old }
{
    let code = control_verdict(tables, caller, handle, control);
    let service = tables.held_service(caller, handle);
    if code != 0 {
        return Reply::State {
            status: status_told(code, service),
            code,
        };
    }
    let status = status_in(service);
    if let Some(row) = service {
        let process = row.process;
        let order = Order {
            service: row.number,
            code: control,
        };
        tables.control(process, order);
    }
    Reply::State { status, code: 0 }
}

/// What is sent to a process next is taken: that a service is to start, with code 0, and else the
/// order that waits first. It takes no memory.
pub fn take_control(tables: &mut Tables, process: u64) -> Answer
    ensures answer { result ≡ (control_taken tables.old.flat process).answer }
    ensures flat { tables.new.flat ≡ (control_taken tables.old.flat process).flat }
    ensures limits { tables.new.limits ≡ tables.old.limits }
    ensures none { result ≡ answer.Done → tables.new ≡ tables.old }
{
    let order = tables.next_order(process);
    tables.take_control(process);
    match order {
        Some(order) => Answer::Control(order),
        None => Answer::Done,
    }
}
