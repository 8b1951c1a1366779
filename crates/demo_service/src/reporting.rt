ghost use Rattle.std.specs.Prelude.{◌≡◌, ◌≤◌, IfErr, IfOk, OnOk};
ghost use Rattle.std.specs.Io.KnownBytes.{Appends};
ghost use Rattle.demo_service.specs.Doing.{IsOfOutput, accepted_in, naming_line, report_of};
ghost use Rattle.demo_service.specs.Doing.{shared_accepted_in, shared_report_of, status_as};

use super::fault::DemoFault;
use child_link::report_line;
use outside::{Sink, write_all};
use scm_model::Status;
use scm_model::codes::{
    SERVICE_ACCEPT_PAUSE_CONTINUE, SERVICE_ACCEPT_STOP, SERVICE_PAUSED, SERVICE_RUNNING,
    SERVICE_WIN32_OWN_PROCESS, SERVICE_WIN32_SHARE_PROCESS,
};
use scm_text::{Items, OutOfMemory};
use std::alloc::Global;

/// The controls that are taken in a state.
fn accepted_in(state: u32) -> u32
    ensures { result ≡ accepted_in state }
{
    if state == SERVICE_RUNNING || state == SERVICE_PAUSED {
        SERVICE_ACCEPT_STOP | SERVICE_ACCEPT_PAUSE_CONTINUE
    } else {
        0
    }
}

/// The controls that a service of a shared process takes in a state.
fn shared_accepted_in(state: u32) -> u32
    ensures { result ≡ shared_accepted_in state }
{
    if state == SERVICE_RUNNING {
        SERVICE_ACCEPT_STOP
    } else {
        0
    }
}

/// The status of a type in a state.
fn status_as(kind: u32, state: u32, accepted: u32) -> Status
    ensures { result ≡ status_as kind state accepted }
{
    Status {
        kind,
        state,
        accepted,
        win32: 0,
        specific: 0,
        checkpoint: 0,
        hint: 0,
    }
}

/// The line that reports a status of the service with this number: that of the status alone, with
/// the service's number after its first word.
#[tactic(auto, using(crate::proofs::Naming::naming_is, crate::proofs::Naming::is_long))]
fn naming_line(alloc: Global, service: u64, status: &Status) -> Result<Items<u8>, OutOfMemory>
    ensures { IfOk result (λ line. line ≡ naming_line service status.now) }
{
    let own = report_line(alloc, status)?;
    let mut line = Items::new(alloc);
    line.append_pair(b"STATUS ", itoa::Buffer::new().format(service).as_bytes())?;
    line.append(&own.as_slice()[6..])?;
    Ok(line)
}

/// Writes a line, and passes it on at once.
fn write_line<O: Sink>(line: &[u8], output: &mut O) -> Result<(), DemoFault>
    ensures done { OnOk result (Appends (O.held output.old) (O.held output.new) line.now) }
    ensures cause { IfErr result (IsOfOutput (O.faults output.old) (O.faults output.new)) }
    ensures output { O.faults output.old ≤ O.faults output.new }
{
    if write_all(output, line).is_err() || output.flush().is_err() {
        return Err(DemoFault::Write);
    }
    Ok(())
}

/// Reports a state, and passes the line on at once.
pub fn report<O: Sink>(alloc: Global, state: u32, output: &mut O) -> Result<(), DemoFault>
    ensures done { OnOk result (Appends (O.held output.old) (O.held output.new) (report_of state)) }
    ensures cause { IfErr result (IsOfOutput (O.faults output.old) (O.faults output.new)) }
    ensures output { O.faults output.old ≤ O.faults output.new }
{
    let status = status_as(SERVICE_WIN32_OWN_PROCESS, state, accepted_in(state));
    let Ok(line) = report_line(alloc, &status) else {
        return Err(DemoFault::OutOfMemory);
    };
    write_line(line.as_slice(), output)
}

/// Reports a state of a service of a shared process, and passes the line on at once.
pub fn report_service<O: Sink>(
    alloc: Global,
    service: u64,
    state: u32,
    output: &mut O,
) -> Result<(), DemoFault>
    ensures done { OnOk result
        (Appends (O.held output.old) (O.held output.new) (shared_report_of service state)) }
    ensures cause { IfErr result (IsOfOutput (O.faults output.old) (O.faults output.new)) }
    ensures output { O.faults output.old ≤ O.faults output.new }
{
    let status = status_as(
        SERVICE_WIN32_SHARE_PROCESS,
        state,
        shared_accepted_in(state),
    );
    let Ok(line) = naming_line(alloc, service, &status) else {
        return Err(DemoFault::OutOfMemory);
    };
    write_line(line.as_slice(), output)
}
