use scm_model::Status;
use status_machine::{take_end, take_report};

// From winsvc.h.
const SERVICE_STOPPED: u32 = 1;

const SERVICE_START_PENDING: u32 = 2;

const SERVICE_STOP_PENDING: u32 = 3;

const SERVICE_RUNNING: u32 = 4;

const SERVICE_CONTINUE_PENDING: u32 = 5;

const SERVICE_PAUSE_PENDING: u32 = 6;

const SERVICE_PAUSED: u32 = 7;

/// A status of a process of its own, which accepts STOP and PARAMCHANGE.
fn in_state(state: u32) -> Status {
    Status {
        kind: 0x10,
        state,
        accepted: 9,
        win32: 0,
        specific: 0,
        checkpoint: 1,
        hint: 2000,
    }
}

#[test]
fn reports_are_taken_or_refused(rt: HostRuntime) {
    let rows = [
        // A service that starts, pauses, goes on and stops.
        (SERVICE_START_PENDING, SERVICE_RUNNING, true),
        (SERVICE_RUNNING, SERVICE_PAUSE_PENDING, true),
        (SERVICE_PAUSE_PENDING, SERVICE_PAUSED, true),
        (SERVICE_PAUSED, SERVICE_CONTINUE_PENDING, true),
        (SERVICE_CONTINUE_PENDING, SERVICE_RUNNING, true),
        (SERVICE_RUNNING, SERVICE_STOP_PENDING, true),
        (SERVICE_STOP_PENDING, SERVICE_STOPPED, true),
        // A stopped one reports nothing, and a running one isn't started again.
        (SERVICE_STOPPED, SERVICE_STOPPED, false),
        (SERVICE_STOPPED, SERVICE_START_PENDING, false),
        (SERVICE_STOPPED, SERVICE_RUNNING, false),
        (SERVICE_RUNNING, SERVICE_START_PENDING, false),
        (SERVICE_RUNNING, SERVICE_CONTINUE_PENDING, false),
        // There are no such states.
        (SERVICE_RUNNING, 0, false),
        (SERVICE_RUNNING, 8, false),
    ];
    for (from, to, is_taken) in rows {
        let report = in_state(to);
        let want = if is_taken { Ok(report) } else { Err(13) };
        assert_eq!(rt; take_report(&in_state(from), &report), want, "{from} {to}");
    }
}

#[test]
fn malformed_reports_are_refused(rt: HostRuntime) {
    let running = in_state(SERVICE_RUNNING);
    // The type and the accepted controls.
    let rows = [(0x10, 9, true), (0x20, 9, false), (0x10, 0x800, false)];
    for (kind, accepted, is_taken) in rows {
        let mut report = running;
        report.kind = kind;
        report.accepted = accepted;
        assert_eq!(rt; take_report(&running, &report).is_ok(), is_taken);
    }
}

#[test]
fn an_end_leaves_the_type_and_the_exit_code(rt: HostRuntime) {
    let want = Status {
        kind: 0x10,
        state: SERVICE_STOPPED,
        accepted: 0,
        win32: 1067,
        specific: 0,
        checkpoint: 0,
        hint: 0,
    };
    assert_eq!(rt; take_end(&in_state(SERVICE_RUNNING), 1067), want);
}
