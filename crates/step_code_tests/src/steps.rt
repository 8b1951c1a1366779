use crate::values::{has_code, has_unkept, is_no_code};
use scm_model::{Principal, Request, Status, Step};
use std::test::*;

/// RUNNING of a service that shares its process and accepts STOP.
const RUNNING: Status = Status {
    kind: 0x20,
    state: 4,
    accepted: 1,
    win32: 0x102,
    specific: 3,
    checkpoint: 5,
    hint: 0x0102_0304,
};

const SUBTYPE: [u8; 16] = [0xF, 0xE, 0xD, 0xC, 0xB, 0xA, 9, 8, 7, 6, 5, 4, 3, 2, 1, 0];

#[test]
fn steps_of_a_number_have_codes(rt: HostRuntime) {
    let (process, caller) = (1, 1);
    assert!(rt;
        has_code(
            rt.alloc(),
            0x0102_0304_0506_0708,
            Step::Ended { process },
            &[8, 7, 6, 5, 4, 3, 2, 1, 7, 1, 0, 0, 0, 0, 0, 0, 0]
        )
    );
    assert!(rt;
        has_code(
            rt.alloc(),
            5,
            Step::ControlTaken { process },
            &[5, 0, 0, 0, 0, 0, 0, 0, 8, 1, 0, 0, 0, 0, 0, 0, 0]
        )
    );
    assert!(rt;
        has_code(
            rt.alloc(),
            5,
            Step::Gone { caller },
            &[5, 0, 0, 0, 0, 0, 0, 0, 11, 1, 0, 0, 0, 0, 0, 0, 0]
        )
    );
    assert!(rt;
        has_code(
            rt.alloc(),
            5,
            Step::NoMemory { caller },
            &[5, 0, 0, 0, 0, 0, 0, 0, 12, 1, 0, 0, 0, 0, 0, 0, 0]
        )
    );
}

#[test]
fn short_steps_have_codes(rt: HostRuntime) {
    let (admin, user) = (Principal::Admin, Principal::User);
    assert!(rt;
        has_code(
            rt.alloc(),
            0,
            Step::Joined { principal: admin },
            &[0, 0, 0, 0, 0, 0, 0, 0, 0, 0]
        )
    );
    assert!(rt;
        has_code(
            rt.alloc(),
            0,
            Step::Joined { principal: user },
            &[0, 0, 0, 0, 0, 0, 0, 0, 0, 1]
        )
    );
    assert!(rt;
        has_code(
            rt.alloc(),
            5,
            Step::LaunchTaken,
            &[5, 0, 0, 0, 0, 0, 0, 0, 3]
        )
    );
    assert!(rt; has_code(rt.alloc(), 5, Step::Tick, &[5, 0, 0, 0, 0, 0, 0, 0, 9]));
    assert!(rt;
        has_code(
            rt.alloc(),
            5,
            Step::EndStart { caller: 1, plan: 2 },
            &[
                5, 0, 0, 0, 0, 0, 0, 0, 2, 1, 0, 0, 0, 0, 0, 0, 0, 2, 0, 0, 0, 0, 0, 0, 0
            ]
        )
    );
    assert!(rt;
        has_code(
            rt.alloc(),
            5,
            Step::Launched {
                process: 1,
                pid: 0x1234
            },
            &[
                5, 0, 0, 0, 0, 0, 0, 0, 4, 1, 0, 0, 0, 0, 0, 0, 0, 0x34, 0x12, 0, 0
            ]
        )
    );
    assert!(rt;
        has_code(
            rt.alloc(),
            5,
            Step::LaunchFailed {
                process: 1,
                code: 2
            },
            &[
                5, 0, 0, 0, 0, 0, 0, 0, 5, 1, 0, 0, 0, 0, 0, 0, 0, 2, 0, 0, 0
            ]
        )
    );
}

#[test]
fn reports_and_raises_have_codes(rt: HostRuntime) {
    let report = Step::Report {
        process: 1,
        service: 2,
        status: RUNNING,
    };
    assert!(rt; has_code(rt.alloc(), 5, report, &[
        5, 0, 0, 0, 0, 0, 0, 0, // moment
        6, 1, 0, 0, 0, 0, 0, 0, 0, // a report of a process
        2, 0, 0, 0, 0, 0, 0, 0, // service
        0x20, 0, 0, 0, 4, 0, 0, 0, 1, 0, 0, 0, // type, state, accepted controls
        2, 1, 0, 0, 3, 0, 0, 0, 5, 0, 0, 0, 4, 3, 2, 1, // exits, checkpoint, hint
    ]));
    assert!(rt; has_code(rt.alloc(), 5, Step::Raised { caller: 1, subtype: SUBTYPE }, &[
        5, 0, 0, 0, 0, 0, 0, 0, // moment
        10, 1, 0, 0, 0, 0, 0, 0, 0, // a raise of a caller
        0xF, 0xE, 0xD, 0xC, 0xB, 0xA, 9, 8, 7, 6, 5, 4, 3, 2, 1, 0, // subtype
    ]));
    let asked = Request::SetStatus {
        handle: 3,
        status: RUNNING,
    };
    assert!(rt; has_unkept(rt.alloc(), asked, &[
        7, 0, 3, 0, 0, 0, 0, 0, 0, 0, // opnum, handle
        0x20, 0, 0, 0, 4, 0, 0, 0, 1, 0, 0, 0, // type, state, accepted controls
        2, 1, 0, 0, 3, 0, 0, 0, 5, 0, 0, 0, 4, 3, 2, 1, // exits, checkpoint, hint
        0,
    ]));
}

#[test]
fn other_bytes_are_no_code(rt: HostRuntime) {
    // No bytes, a moment alone, a step that there isn't, another principal.
    assert!(rt; is_no_code(rt.alloc(), &[]));
    assert!(rt; is_no_code(rt.alloc(), &[5, 0, 0, 0, 0, 0, 0, 0]));
    assert!(rt;
        is_no_code(
            rt.alloc(),
            &[5, 0, 0, 0, 0, 0, 0, 0, 13, 1, 0, 0, 0, 0, 0, 0, 0]
        )
    );
    assert!(rt; is_no_code(rt.alloc(), &[5, 0, 0, 0, 0, 0, 0, 0, 0, 2]));
    // A number that is cut, and a call of opnum 9.
    assert!(rt;
        is_no_code(
            rt.alloc(),
            &[5, 0, 0, 0, 0, 0, 0, 0, 11, 1, 0, 0, 0, 0, 0, 0]
        )
    );
    assert!(rt; is_no_code(rt.alloc(), &[
        5, 0, 0, 0, 0, 0, 0, 0, 1, 2, 0, 0, 0, 0, 0, 0, 0, // a call
        9, 0, 3, 0, 0, 0, 0, 0, 0, 0, 0,
    ]));
}

#[test]
fn other_fields_are_no_code(rt: HostRuntime) {
    // A close whose change was neither kept nor failed nor none.
    assert!(rt; is_no_code(rt.alloc(), &[
        5, 0, 0, 0, 0, 0, 0, 0, 1, 2, 0, 0, 0, 0, 0, 0, 0, // a call
        0, 0, 3, 0, 0, 0, 0, 0, 0, 0, 3,
    ]));
    // An opening whose database is neither present nor absent, and one of a text with a unit 0.
    assert!(rt; is_no_code(rt.alloc(), &[
        5, 0, 0, 0, 0, 0, 0, 0, 1, 2, 0, 0, 0, 0, 0, 0, 0, // a call
        15, 0, 2, 1, 0, 0, 0, 0x78, 0, 1, 0, 0, 0, 0,
    ]));
    assert!(rt; is_no_code(rt.alloc(), &[
        5, 0, 0, 0, 0, 0, 0, 0, 1, 2, 0, 0, 0, 0, 0, 0, 0, // a call
        15, 0, 1, 1, 0, 0, 0, 0, 0, 1, 0, 0, 0, 0,
    ]));
    // A text of more units than there are, and a level that there isn't.
    assert!(rt; is_no_code(rt.alloc(), &[
        5, 0, 0, 0, 0, 0, 0, 0, 1, 2, 0, 0, 0, 0, 0, 0, 0, // a call
        15, 0, 1, 0xFF, 0xFF, 0xFF, 0xFF, 0x78, 0, 1, 0, 0, 0, 0,
    ]));
    assert!(rt; is_no_code(rt.alloc(), &[
        5, 0, 0, 0, 0, 0, 0, 0, 1, 2, 0, 0, 0, 0, 0, 0, 0, // a call
        0x25, 0, 3, 0, 0, 0, 0, 0, 0, 0, 7, 1, 0, 0, 0, 1,
    ]));
}
