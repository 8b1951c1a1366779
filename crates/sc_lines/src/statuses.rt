ghost use Rattle.std.specs.Prelude.{◌≡◌, ◌≤◌, ◌^◌, ◌++◌, OnOk};
ghost use Rattle.sc_lines.specs.Lines.{lines};
ghost use Rattle.sc_lines.specs.Statuses.{process_text, state_name, status_at, status_fields};
ghost use Rattle.sc_lines.specs.Statuses.{status_text};

use super::lines::{Appended, Line, add_lines};
use super::reading::number_at;
use scm_model::Status;
use scm_model::codes::{
    SERVICE_CONTINUE_PENDING, SERVICE_PAUSE_PENDING, SERVICE_PAUSED, SERVICE_RUNNING,
    SERVICE_START_PENDING, SERVICE_STOP_PENDING, SERVICE_STOPPED,
};
use scm_text::Items;
use std::alloc::Global;

/// The name of a state.
fn state_name(state: u32) -> &'static str
    ensures { result.now ≡ state_name state }
{
    match state {
        SERVICE_STOPPED => "STOPPED",
        SERVICE_START_PENDING => "START_PENDING",
        SERVICE_STOP_PENDING => "STOP_PENDING",
        SERVICE_RUNNING => "RUNNING",
        SERVICE_CONTINUE_PENDING => "CONTINUE_PENDING",
        SERVICE_PAUSE_PENDING => "PAUSE_PENDING",
        SERVICE_PAUSED => "PAUSED",
        _ => "UNKNOWN",
    }
}

/// Appends a status.
pub fn add_numbers(text: &mut Items<u8>, alloc: Global, status: &Status) -> Appended
    ensures { OnOk result (text.new ≡ text.old ++ lines (status_fields status.now)) }
{
    let fields = [
        Line::Number("TYPE: ", status.kind),
        Line::Named("STATE: ", status.state, state_name(status.state)),
        Line::Number("ACCEPTED: ", status.accepted),
        Line::Number("WIN32_EXIT_CODE: ", status.win32),
        Line::Number("SERVICE_EXIT_CODE: ", status.specific),
        Line::Number("CHECKPOINT: ", status.checkpoint),
        Line::Number("WAIT_HINT: ", status.hint),
    ];
    add_lines(text, alloc, &fields)
}

/// Appends a status under a service's name.
pub fn add_status(text: &mut Items<u8>, alloc: Global, name: &[u16], status: &Status) -> Appended
    ensures { OnOk result (text.new ≡ text.old ++ status_text name.now status.now) }
{
    add_lines(text, alloc, &[Line::Text("SERVICE_NAME: ", name)])?;
    add_numbers(text, alloc, status)
}

/// The status that begins at a place.
pub fn status_at(bytes: &[u8], at: usize) -> Status
    requires { at ≤ 2 ^ 60 }
    ensures { result ≡ status_at bytes.now at }
{
    Status {
        kind: number_at(bytes, at),
        state: number_at(bytes, at + 4),
        accepted: number_at(bytes, at + 8),
        win32: number_at(bytes, at + 12),
        specific: number_at(bytes, at + 16),
        checkpoint: number_at(bytes, at + 20),
        hint: number_at(bytes, at + 24),
    }
}

/// Appends what bytes hold of a service's status and its process, in the nine numbers of
/// `SERVICE_STATUS_PROCESS` (MS-SCMR 2.2.49).
pub fn add_process(text: &mut Items<u8>, alloc: Global, name: &[u16], bytes: &[u8]) -> Appended
    ensures { OnOk result (text.new ≡ text.old ++ process_text name.now bytes.now) }
{
    add_status(text, alloc, name, &status_at(bytes, 0))?;
    let fields = [
        Line::Number("PID: ", number_at(bytes, 28)),
        Line::Number("FLAGS: ", number_at(bytes, 32)),
    ];
    add_lines(text, alloc, &fields)
}
