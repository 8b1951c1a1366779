//! Servers in memory, to which an administrator and a user come at once.
use crate::runs::{PIPE, Port, Run};
use record_journal::Fate;

/// What the server writes once it has served both.
const SUMMARY: &str = "|| steps 8; caller 1 calls 2; caller 2 calls 2; services 0";

/// What a server exports that served an administrator alone.
const EXPORTED: &str = "|| limits 1024 1024 64 64 128 16 16777216 268435456; moment 7
|| 7 join admin; = caller 1
|| 7 call 1 15 000000000000000000000000
|| = reply 000000000100000000000000000000000000000000000000
|| 7 call 1 0 0000000001000000000000000000000000000000
|| = reply 000000000000000000000000000000000000000000000000
|| 7 gone 1; = done
|| steps 4; caller 1 calls 2; services 0
";

const SERVED: Port = Port::Comes {
    come: 1,
    served: 1,
    fails: &[],
};

const NOT_SERVED: Port = Port::Comes {
    come: 1,
    served: 0,
    fails: &[],
};

/// A server whose port fails at its second call, which accepts.
const FAILS_TO_ACCEPT: Port = Port::Comes {
    come: 1,
    served: 0,
    fails: &[true, false],
};

/// One whose third call fails, which accepts: the connection that came before is served to its end.
const FAILS_TO_ACCEPT_ANOTHER: Port = Port::Comes {
    come: 2,
    served: 1,
    fails: &[true, false, false],
};

/// One whose summary is never written.
const SERVER: Run = Run {
    words: "serve --admin 135 --user 139",
    admin: SERVED,
    user: SERVED,
    ..PIPE
};

/// One that is to export its history.
const EXPORTER: Run = Run {
    words: "serve --admin 135 --user 139 --export",
    asked: EXPORTED,
    user: Port::Idle,
    ..SERVER
};

pub const SERVERS: &[Run] = &[
    Run {
        asked: SUMMARY,
        told: SUMMARY,
        ..SERVER
    },
    Run {
        admin: FAILS_TO_ACCEPT,
        status: 10,
        ..SERVER
    },
    Run {
        user: FAILS_TO_ACCEPT,
        status: 10,
        ..SERVER
    },
    Run {
        admin: FAILS_TO_ACCEPT_ANOTHER,
        status: 10,
        ..SERVER
    },
    Run {
        user: FAILS_TO_ACCEPT_ANOTHER,
        status: 10,
        ..SERVER
    },
    // It doesn't listen at the second port.
    Run {
        admin: NOT_SERVED,
        user: Port::Comes {
            come: 1,
            served: 0,
            fails: &[true],
        },
        status: 10,
        ..SERVER
    },
    Run {
        writes: &[true],
        status: 2,
        ..SERVER
    },
    Run {
        told: EXPORTED,
        ..EXPORTER
    },
    // The history is written and the summary isn't, or neither is.
    Run {
        writes: &[true, false],
        status: 2,
        ..EXPORTER
    },
    Run {
        writes: &[true],
        status: 2,
        ..EXPORTER
    },
    // The journal isn't opened.
    Run {
        keeps: &[Fate::Fails { done: 0 }],
        admin: NOT_SERVED,
        user: NOT_SERVED,
        status: 3,
        ..SERVER
    },
];
