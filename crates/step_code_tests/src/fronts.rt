use std::alloc::Global;
use std::test::*;
use step_code::{Front, read_front};

/// What comes after each code.
const AFTER: &[u8] = &[0xEE, 0xEF];

fn is_same(one: Front, other: Front) -> bool {
    match (one, other) {
        (Front::Joined, Front::Joined) | (Front::Neither, Front::Neither) => true,
        (Front::Called { caller: one }, Front::Called { caller: other }) => one == other,
        _ => false,
    }
}

/// Whether the bytes begin with a code that has this front, and go on with the two bytes.
fn has_front(alloc: Global, front: Front, bytes: &[u8]) -> bool {
    match read_front(alloc, bytes) {
        Ok(Some(read)) => is_same(read.front, front) && read.rest == AFTER,
        _ => false,
    }
}

/// Whether no code begins the bytes.
fn has_none(alloc: Global, bytes: &[u8]) -> bool {
    match read_front(alloc, bytes) {
        Ok(None) => true,
        _ => false,
    }
}

#[test]
fn short_steps_are_neither(rt: HostRuntime) {
    let (alloc, neither) = (rt.alloc(), Front::Neither);
    // A launch that is taken, a tick, and the end of a start of caller 1 by plan 2.
    assert!(rt; has_front(alloc, neither, &[5, 0, 0, 0, 0, 0, 0, 0, 3, 0xEE, 0xEF]));
    assert!(rt; has_front(alloc, neither, &[5, 0, 0, 0, 0, 0, 0, 0, 9, 0xEE, 0xEF]));
    assert!(rt; has_front(alloc, neither, &[
        5, 0, 0, 0, 0, 0, 0, 0, // moment
        2, 1, 0, 0, 0, 0, 0, 0, 0, 2, 0, 0, 0, 0, 0, 0, 0, 0xEE, 0xEF,
    ]));
    // An end and a control of process 1, and caller 1 gone.
    assert!(rt; has_front(alloc, neither, &[
        5, 0, 0, 0, 0, 0, 0, 0, // moment
        7, 1, 0, 0, 0, 0, 0, 0, 0, 0xEE, 0xEF,
    ]));
    assert!(rt; has_front(alloc, neither, &[
        5, 0, 0, 0, 0, 0, 0, 0, // moment
        8, 1, 0, 0, 0, 0, 0, 0, 0, 0xEE, 0xEF,
    ]));
    assert!(rt; has_front(alloc, neither, &[
        5, 0, 0, 0, 0, 0, 0, 0, // moment
        11, 1, 0, 0, 0, 0, 0, 0, 0, 0xEE, 0xEF,
    ]));
}

#[test]
fn launches_and_reports_are_neither(rt: HostRuntime) {
    let (alloc, neither) = (rt.alloc(), Front::Neither);
    assert!(rt; has_front(alloc, neither, &[
        5, 0, 0, 0, 0, 0, 0, 0, // moment
        4, 1, 0, 0, 0, 0, 0, 0, 0, 0x34, 0x12, 0, 0, 0xEE, 0xEF,
    ]));
    assert!(rt; has_front(alloc, neither, &[
        5, 0, 0, 0, 0, 0, 0, 0, // moment
        5, 1, 0, 0, 0, 0, 0, 0, 0, 2, 0, 0, 0, 0xEE, 0xEF,
    ]));
    assert!(rt; has_front(alloc, neither, &[
        5, 0, 0, 0, 0, 0, 0, 0, // moment
        6, 1, 0, 0, 0, 0, 0, 0, 0, // a report of a process
        2, 0, 0, 0, 0, 0, 0, 0, // service
        0x20, 0, 0, 0, 4, 0, 0, 0, 1, 0, 0, 0, // type, state, accepted controls
        2, 1, 0, 0, 3, 0, 0, 0, 5, 0, 0, 0, 4, 3, 2, 1, // exits, checkpoint, hint
        0xEE, 0xEF,
    ]));
}

#[test]
fn callers_join_raise_and_find_no_memory(rt: HostRuntime) {
    let (alloc, called) = (rt.alloc(), Front::Called { caller: 0x0102 });
    assert!(rt;
        has_front(
            alloc,
            Front::Joined,
            &[0, 0, 0, 0, 0, 0, 0, 0, 0, 0, 0xEE, 0xEF]
        )
    );
    assert!(rt;
        has_front(
            alloc,
            Front::Joined,
            &[0, 0, 0, 0, 0, 0, 0, 0, 0, 1, 0xEE, 0xEF]
        )
    );
    assert!(rt; has_front(alloc, called, &[
        5, 0, 0, 0, 0, 0, 0, 0, // moment
        10, 2, 1, 0, 0, 0, 0, 0, 0, // a raise of a caller
        0xF, 0xE, 0xD, 0xC, 0xB, 0xA, 9, 8, 7, 6, 5, 4, 3, 2, 1, 0, // subtype
        0xEE, 0xEF,
    ]));
    assert!(rt; has_front(alloc, called, &[
        5, 0, 0, 0, 0, 0, 0, 0, // moment
        12, 2, 1, 0, 0, 0, 0, 0, 0, 0xEE, 0xEF,
    ]));
}

#[test]
fn callers_call(rt: HostRuntime) {
    let (alloc, called) = (rt.alloc(), Front::Called { caller: 2 });
    // A status query, a control, a security query and an opening of a manager.
    assert!(rt; has_front(alloc, called, &[
        5, 0, 0, 0, 0, 0, 0, 0, 1, 2, 0, 0, 0, 0, 0, 0, 0, // a call
        6, 0, 3, 0, 0, 0, 0, 0, 0, 0, 0, 0xEE, 0xEF,
    ]));
    assert!(rt; has_front(alloc, called, &[
        5, 0, 0, 0, 0, 0, 0, 0, 1, 2, 0, 0, 0, 0, 0, 0, 0, // a call
        1, 0, 3, 0, 0, 0, 0, 0, 0, 0, 1, 0, 0, 0, 1, 0xEE, 0xEF,
    ]));
    assert!(rt; has_front(alloc, called, &[
        5, 0, 0, 0, 0, 0, 0, 0, 1, 2, 0, 0, 0, 0, 0, 0, 0, // a call
        4, 0, 3, 0, 0, 0, 0, 0, 0, 0, 4, 0, 0, 0, 0, 1, 0, 0, 2, 0xEE, 0xEF,
    ]));
    assert!(rt; has_front(alloc, called, &[
        5, 0, 0, 0, 0, 0, 0, 0, 1, 2, 0, 0, 0, 0, 0, 0, 0, // a call
        15, 0, 1, 1, 0, 0, 0, 0x78, 0, 1, 0, 0, 0, 0, 0xEE, 0xEF,
    ]));
}

#[test]
fn other_bytes_have_no_front(rt: HostRuntime) {
    let alloc = rt.alloc();
    // No bytes, a step that there isn't, and a status query that is cut.
    assert!(rt; has_none(alloc, &[]));
    assert!(rt; has_none(alloc, &[5, 0, 0, 0, 0, 0, 0, 0, 13, 1, 0, 0, 0, 0, 0, 0, 0]));
    assert!(rt; has_none(alloc, &[
        5, 0, 0, 0, 0, 0, 0, 0, 1, 2, 0, 0, 0, 0, 0, 0, 0, // a call
        6, 0, 3, 0, 0, 0, 0, 0, 0, 0,
    ]));
    // A status query whose change was neither kept nor failed nor none, and opnum 9.
    assert!(rt; has_none(alloc, &[
        5, 0, 0, 0, 0, 0, 0, 0, 1, 2, 0, 0, 0, 0, 0, 0, 0, // a call
        6, 0, 3, 0, 0, 0, 0, 0, 0, 0, 3,
    ]));
    assert!(rt; has_none(alloc, &[
        5, 0, 0, 0, 0, 0, 0, 0, 1, 2, 0, 0, 0, 0, 0, 0, 0, // a call
        9, 0, 3, 0, 0, 0, 0, 0, 0, 0, 0,
    ]));
}
