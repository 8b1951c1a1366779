use control_dispatch::judge;
use scm_model::{Status, zero_status};

// From winsvc.h.
const STOP: u32 = 1;

const PAUSE: u32 = 2;

const INTERROGATE: u32 = 4;

const PARAMCHANGE: u32 = 6;

const SERVICE_STOP: u32 = 0x20;

const SERVICE_PAUSE_CONTINUE: u32 = 0x40;

const SERVICE_INTERROGATE: u32 = 0x80;

const SERVICE_USER_DEFINED_CONTROL: u32 = 0x100;

const SERVICE_ALL_ACCESS: u32 = 0xF_01FF;

const SERVICE_ACCEPT_STOP: u32 = 1;

const SERVICE_ACCEPT_PARAMCHANGE: u32 = 8;

const STOPPED: u32 = 1;

const START_PENDING: u32 = 2;

const STOP_PENDING: u32 = 3;

const RUNNING: u32 = 4;

fn status(state: u32, accepted: u32) -> Status {
    Status {
        kind: 0x10,
        state,
        accepted,
        ..zero_status()
    }
}

#[test]
fn controls_are_let_through_or_refused(rt: HostRuntime) {
    let all = Some(SERVICE_ALL_ACCESS);
    let looks = Some(SERVICE_INTERROGATE);
    let its_own = Some(SERVICE_USER_DEFINED_CONTROL);
    let pauses = Some(SERVICE_PAUSE_CONTINUE);
    let stops = SERVICE_ACCEPT_STOP;
    let changes = SERVICE_ACCEPT_PARAMCHANGE;
    // The rights of the handle, the control, the state and what is accepted; how many active
    // services need it and
    // how many controls wait, of 16 that may; the answer.
    let rows = [
        (Some(SERVICE_STOP), STOP, RUNNING, stops, 0, 0, 0),
        (looks, INTERROGATE, RUNNING, stops, 0, 0, 0),
        (its_own, 255, RUNNING, stops, 0, 0, 0),
        (pauses, PARAMCHANGE, RUNNING, changes, 0, 0, 0),
        (pauses, PARAMCHANGE, RUNNING, stops, 0, 0, 1052),
        (all, STOP, RUNNING, changes, 0, 0, 1052),
        (None, STOP, RUNNING, stops, 0, 0, 6),
        (pauses, STOP, RUNNING, stops, 0, 0, 5),
        (all, 5, RUNNING, stops, 0, 0, 87),
        (all, 127, RUNNING, stops, 0, 0, 87),
        (all, 256, RUNNING, stops, 0, 0, 87),
        (all, STOP, RUNNING, stops, 1, 0, 1051),
        (all, INTERROGATE, RUNNING, stops, 1, 0, 0),
        (all, STOP, STOPPED, stops, 0, 0, 1062),
        (all, STOP, START_PENDING, stops, 0, 0, 1061),
        (all, PAUSE, STOP_PENDING, stops, 0, 0, 1061),
        (all, STOP, RUNNING, stops, 0, 15, 0),
        (all, STOP, RUNNING, stops, 0, 16, 1061),
    ];
    for (rights, control, state, accepted, active, waiting, want) in rows {
        let status = status(state, accepted);
        assert_eq!(rt; judge(rights, control, &status, active, waiting, 16), want);
    }
}
