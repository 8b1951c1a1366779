// Connections, each alone at a book of its own, whose limits have room for them or not.
use scm_pipe::Served;
use std::test::Fail;
use test_books::{SESSION, TEXTS, Talk, WHOLE, comes_to};

/// A bind, and a manager that is opened by the name of its database, ServicesActive.
const NAMED: [u8; 152] = [
    5, 0, 0xb, 3, 0x10, 0, 0, 0, 0x48, 0, 0, 0, 1, 0, 0, 0, //
    0xd0, 0x16, 0xd0, 0x16, 0, 0, 0, 0, 1, 0, 0, 0, 0, 0, 1, 0, //
    0x81, 0xbb, 0x7a, 0x36, 0x44, 0x98, 0xf1, 0x35, 0xad, 0x32, 0x98, 0xf0, 0x38, 0, 0x10, 3, //
    2, 0, 0, 0, 4, 0x5d, 0x88, 0x8a, 0xeb, 0x1c, 0xc9, 0x11, 0x9f, 0xe8, 8, 0, //
    0x2b, 0x10, 0x48, 0x60, 2, 0, 0, 0, // the bind
    5, 0, 0, 3, 0x10, 0, 0, 0, 0x50, 0, 0, 0, 2, 0, 0, 0, //
    0x38, 0, 0, 0, 0, 0, 0xf, 0, 0, 0, 0, 0, 1, 0, 0, 0, //
    0xf, 0, 0, 0, 0, 0, 0, 0, 0xf, 0, 0, 0, 0x53, 0, 0x65, 0, //
    0x72, 0, 0x76, 0, 0x69, 0, 0x63, 0, 0x65, 0, 0x73, 0, 0x41, 0, 0x63, 0, //
    0x74, 0, 0x69, 0, 0x76, 0, 0x65, 0, 0, 0, 0, 0, 0, 0, 0, 0, // the opening
];

/// A bind to svcctl as context 0 and to the trigger interface as context 1, and a raise.
const RAISE: [u8; 156] = [
    5, 0, 0xb, 3, 0x10, 0, 0, 0, 0x74, 0, 0, 0, 1, 0, 0, 0, //
    0, 0, 0, 0, 7, 0, 0, 0, 2, 0, 0, 0, 0, 0, 1, 0, //
    0x81, 0xbb, 0x7a, 0x36, 0x44, 0x98, 0xf1, 0x35, 0xad, 0x32, 0x98, 0xf0, 0x38, 0, 0x10, 3, //
    2, 0, 0, 0, 4, 0x5d, 0x88, 0x8a, 0xeb, 0x1c, 0xc9, 0x11, 0x9f, 0xe8, 8, 0, //
    0x2b, 0x10, 0x48, 0x60, 2, 0, 0, 0, 1, 0, 1, 0, 0x10, 0xa, 0x3f, 0x5c, //
    0x4b, 0x2e, 0x61, 0x4d, 0x9a, 0x77, 0xd, 0x5b, 0x1e, 0x6f, 0x2c, 1, 1, 0, 0, 0, //
    4, 0x5d, 0x88, 0x8a, 0xeb, 0x1c, 0xc9, 0x11, 0x9f, 0xe8, 8, 0, 0x2b, 0x10, 0x48, 0x60, //
    2, 0, 0, 0, // the bind
    5, 0, 0, 3, 0x10, 0, 0, 0, 0x28, 0, 0, 0, 3, 0, 0, 0, //
    0x10, 0, 0, 0, 1, 0, 0, 0, 0, 1, 2, 3, 4, 5, 6, 7, //
    8, 9, 0xa, 0xb, 0xc, 0xd, 0xe, 0xf, // the raise
];

/// What each is answered: nobody has the trigger, and the caller may raise it.
const RAISE_TEXTS: [u8; 108] = [
    5, 0, 0xc, 3, 0x10, 0, 0, 0, 0x50, 0, 0, 0, 1, 0, 0, 0, //
    0x98, 5, 0x98, 5, 7, 0, 0, 0, 1, 0, 0, 0, 2, 0, 0, 0, //
    0, 0, 0, 0, 4, 0x5d, 0x88, 0x8a, 0xeb, 0x1c, 0xc9, 0x11, 0x9f, 0xe8, 8, 0, //
    0x2b, 0x10, 0x48, 0x60, 2, 0, 0, 0, 0, 0, 0, 0, 4, 0x5d, 0x88, 0x8a, //
    0xeb, 0x1c, 0xc9, 0x11, 0x9f, 0xe8, 8, 0, 0x2b, 0x10, 0x48, 0x60, 2, 0, 0, 0, // to the bind
    5, 0, 2, 3, 0x10, 0, 0, 0, 0x1c, 0, 0, 0, 3, 0, 0, 0, //
    4, 0, 0, 0, 1, 0, 0, 0, 0, 0, 0, 0, // code 0
];

const SESSIONS: [Talk; 5] = [
    Talk {
        session: &SESSION,
        texts: &TEXTS,
        calls: 0,
        text: 0,
        end: Served::Full,
        answered: 56,
    },
    Talk {
        session: &SESSION,
        texts: &TEXTS,
        calls: 1,
        text: 0,
        end: Served::Full,
        answered: 104,
    },
    WHOLE,
    // The name has 14 units of two bytes each.
    Talk {
        session: &NAMED,
        texts: &TEXTS,
        calls: 1,
        text: 27,
        end: Served::Full,
        answered: 56,
    },
    Talk {
        session: &NAMED,
        texts: &TEXTS,
        calls: 1,
        text: 28,
        end: Served::Ended,
        answered: 104,
    },
];

const RAISES: [Talk; 2] = [
    Talk {
        session: &RAISE,
        texts: &RAISE_TEXTS,
        calls: 0,
        text: 0,
        end: Served::Full,
        answered: 80,
    },
    Talk {
        session: &RAISE,
        texts: &RAISE_TEXTS,
        calls: 1,
        text: 0,
        end: Served::Ended,
        answered: 108,
    },
];

#[test]
fn a_session_is_answered_until_the_limits_have_no_room(rt: HostRuntime) -> Result<(), Fail> {
    for row in &SESSIONS {
        assert!(rt; comes_to(&rt, rt.alloc(), row));
    }
    Ok(())
}

#[test]
fn a_raise_is_answered_where_the_limits_have_room(rt: HostRuntime) -> Result<(), Fail> {
    for row in &RAISES {
        assert!(rt; comes_to(&rt, rt.alloc(), row));
    }
    Ok(())
}
