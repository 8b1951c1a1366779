//! How the status of a service moves, by what its process reports with `SetServiceStatus` and by
//! the process's end.
#![tactic(auto)]

ghost use Rattle.std.specs.Prelude.{◌≡◌, ◌==◌, ◌&&◌, nat_le, bit_and};
ghost use Rattle.status_machine.specs.Moves.{is_move, is_well_formed, take_end, take_report};

use scm_model::Status;
use scm_model::codes::{
    ERROR_INVALID_DATA, SERVICE_ACCEPT_ANY, SERVICE_CONTINUE_PENDING, SERVICE_PAUSE_PENDING,
    SERVICE_PAUSED, SERVICE_RUNNING, SERVICE_START_PENDING, SERVICE_STOP_PENDING, SERVICE_STOPPED,
};

/// Whether a state may be reported after another.
fn is_move(from: u32, to: u32) -> bool
    ensures { result ≡ is_move from to }
{
    match from {
        SERVICE_START_PENDING => matches!(
            to,
            SERVICE_START_PENDING | SERVICE_RUNNING | SERVICE_STOP_PENDING | SERVICE_STOPPED
        ),
        SERVICE_RUNNING => matches!(
            to,
            SERVICE_RUNNING
                | SERVICE_PAUSE_PENDING
                | SERVICE_PAUSED
                | SERVICE_STOP_PENDING
                | SERVICE_STOPPED
        ),
        SERVICE_PAUSE_PENDING => matches!(
            to,
            SERVICE_PAUSE_PENDING
                | SERVICE_PAUSED
                | SERVICE_RUNNING
                | SERVICE_STOP_PENDING
                | SERVICE_STOPPED
        ),
        SERVICE_PAUSED => matches!(
            to,
            SERVICE_PAUSED
                | SERVICE_CONTINUE_PENDING
                | SERVICE_RUNNING
                | SERVICE_STOP_PENDING
                | SERVICE_STOPPED
        ),
        SERVICE_CONTINUE_PENDING => matches!(
            to,
            SERVICE_CONTINUE_PENDING
                | SERVICE_RUNNING
                | SERVICE_PAUSED
                | SERVICE_STOP_PENDING
                | SERVICE_STOPPED
        ),
        SERVICE_STOP_PENDING => matches!(to, SERVICE_STOP_PENDING | SERVICE_STOPPED),
        _ => false,
    }
}

fn is_well_formed(now: &Status, report: &Status) -> bool
    ensures { result ≡ is_well_formed now.now report.now }
{
    report.kind == now.kind
        && SERVICE_STOPPED <= report.state
        && report.state <= SERVICE_PAUSED
        && report.accepted & SERVICE_ACCEPT_ANY == report.accepted
}

/// The status after a report, which takes the place of the status. `ERROR_INVALID_DATA` (13) is for
/// a report whose type isn't the service's, whose state there isn't or whose accepted controls
/// there aren't, and for a move that no service makes. It takes no memory.
pub fn take_report(now: &Status, report: &Status) -> Result<Status, u32>
    ensures { result ≡ take_report now.now report.now }
{
    if is_well_formed(now, report) && is_move(now.state, report.state) {
        Ok(*report)
    } else {
        Err(ERROR_INVALID_DATA)
    }
}

/// The status after the process has ended or wasn't launched: STOPPED, with this Win32 exit code.
/// It takes no memory.
pub fn take_end(now: &Status, code: u32) -> Status
    ensures { result ≡ take_end now.now code }
{
    Status {
        kind: now.kind,
        state: SERVICE_STOPPED,
        accepted: 0,
        win32: code,
        specific: 0,
        checkpoint: 0,
        hint: 0,
    }
}
