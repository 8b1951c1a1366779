//! What stands before a run and what fails outside, how the run then ends, and what it wrote and
//! kept.
use crate::rows::{GROUPS, SMALLEST};
use crate::runs::{PIPE, Run, holds};
use record_journal::Fate;
use std::test::*;
use svcctl_words::Sheet;

/// A run that opens the manager.
const KEEPS_NOTHING: Run = Run {
    asked: "bind\nmanager",
    told: "bind\nmanager",
    kept: Some(""),
    ..PIPE
};

const ROWS: &[Run] = &[
    // The smallest session, and the same a byte at a time.
    Run {
        asked: SMALLEST,
        told: SMALLEST,
        ..PIPE
    },
    Run {
        asked: SMALLEST,
        piece: 1,
        told: SMALLEST,
        ..PIPE
    },
    Run {
        reads: &[true, false],
        status: 1,
        ..KEEPS_NOTHING
    },
    Run {
        writes: &[true, false],
        status: 2,
        told: "bind",
        ..KEEPS_NOTHING
    },
    // In the smallest session the close is answered by the third write.
    Run {
        asked: "bind\n| manager - - 0 | h1 0\n| close h1 | h0 0",
        writes: &[true, false, false],
        status: 2,
        told: "bind\n| manager - - 0 | h1 0",
        ..KEEPS_NOTHING
    },
    // The first call opens the journal.
    Run {
        keeps: &[Fate::Fails { done: 0 }],
        status: 3,
        told: "",
        ..KEEPS_NOTHING
    },
    // A part of the second append stands; it is cut before the third.
    Run {
        asked: SECOND_APPEND,
        keeps: &[Fate::Fails { done: 5 }, Fate::Succeeds, Fate::Succeeds],
        told: SECOND_APPEND,
        kept: Some(A_AND_B),
        ..KEEPS_NOTHING
    },
    // Of these calls the creation, the deletion or the second creation can't be kept.
    Run {
        asked: UNMADE,
        keeps: &[Fate::Fails { done: 5 }, Fate::Succeeds],
        told: UNMADE,
        kept: None,
        ..KEEPS_NOTHING
    },
    Run {
        asked: UNMARKED,
        keeps: &[Fate::Fails { done: 5 }, Fate::Succeeds, Fate::Succeeds],
        told: UNMARKED,
        kept: None,
        ..KEEPS_NOTHING
    },
    Run {
        asked: UNMADE_AGAIN,
        keeps: &[
            Fate::Fails { done: 5 },
            Fate::Succeeds,
            Fate::Succeeds,
            Fate::Succeeds,
        ],
        told: UNMADE_AGAIN,
        kept: None,
        ..KEEPS_NOTHING
    },
    // What a run keeps under a path is there in the next one; without a path it isn't.
    Run {
        words: "pipe --db journal",
        asked: MAKES_BOTH,
        told: MAKES_BOTH,
        kept: Some(A_AND_B),
        ..KEEPS_NOTHING
    },
    Run {
        words: "pipe --as=admin --db=journal",
        stands: A_AND_B,
        asked: FINDS_BOTH,
        told: FINDS_BOTH,
        kept: Some(A_AND_B),
        ..KEEPS_NOTHING
    },
    Run {
        stands: A_AND_B,
        asked: FINDS_NONE,
        told: FINDS_NONE,
        ..KEEPS_NOTHING
    },
    Run {
        words: "serve --admin 135 --user 139 --db journal --export",
        stands: A_AND_B,
        asked: EXPORTS_BOTH,
        told: EXPORTS_BOTH,
        kept: Some(A_AND_B),
        ..KEEPS_NOTHING
    },
    // What starts by itself is due at the opening, and where nothing is ticked it doesn't start.
    Run {
        words: "replay --db journal",
        stands: AUTOMATIC,
        asked: STARTS_BY_TAGS,
        told: STARTS_BY_TAGS,
        kept: Some(AUTOMATIC),
        ..KEEPS_NOTHING
    },
    Run {
        words: "pipe --db journal",
        stands: AUTOMATIC,
        asked: STARTS_NONE,
        told: STARTS_NONE,
        kept: Some(AUTOMATIC),
        ..KEEPS_NOTHING
    },
    // A wrong header is damage, and stays.
    Run {
        words: "pipe --db journal",
        stands: "53434d4b01000000",
        status: 4,
        told: "",
        kept: Some("53434d4b01000000"),
        ..KEEPS_NOTHING
    },
    // A whole entry that can't be replayed is damage; a part of one is cut.
    Run {
        words: "pipe --db journal",
        stands: "53434d4a010000000308000000020000004400620000",
        status: 4,
        told: "",
        kept: Some("53434d4a010000000308000000020000004400620000"),
        ..KEEPS_NOTHING
    },
    Run {
        words: "pipe --db journal",
        stands: "53434d4a01000000030800000002000000440062",
        asked: FINDS_NONE,
        told: FINDS_NONE,
        kept: Some("53434d4a01000000"),
        ..KEEPS_NOTHING
    },
    // A journal of form 1 is opened as it is. Its first change ends form 1, and is there in the
    // next run; what was cut off before the change is read as before.
    Run {
        words: "pipe --db journal",
        stands: OLD_A,
        asked: FINDS_PROMPT,
        told: FINDS_PROMPT,
        kept: Some(OLD_A),
        ..KEEPS_NOTHING
    },
    Run {
        words: "pipe --db journal",
        stands: OLD_A,
        asked: DELAYS,
        told: DELAYS,
        kept: Some(DELAYED_A),
        ..KEEPS_NOTHING
    },
    Run {
        words: "pipe --db journal",
        stands: DELAYED_A,
        asked: FINDS_DELAYED,
        told: FINDS_DELAYED,
        kept: Some(DELAYED_A),
        ..KEEPS_NOTHING
    },
    Run {
        words: "pipe --db journal",
        stands: ENDED_A,
        asked: FINDS_PROMPT,
        told: FINDS_PROMPT,
        kept: Some(ENDED_A),
        ..KEEPS_NOTHING
    },
    Run {
        words: "pipe --db journal",
        stands: A_AND_B,
        keeps: &[Fate::Fails { done: 0 }],
        status: 3,
        told: "",
        kept: Some(A_AND_B),
        ..KEEPS_NOTHING
    },
];

const MAKES_BOTH: &str = "bind
manager
| create h1 'A' - own '/a' plain | - h2 0
| create h1 'B' - own '/a' plain | - h3 0
";

const FINDS_BOTH: &str = "bind
manager
                     | open h1 'B' 4 | h2 0
stopped, never began | status h2     | 16 1 0 1077 0 0 0 0
                     | open h1 'A' 4 | h3 0
";

const EXPORTS_BOTH: &str = "|| limits 1024 1024 64 64 128 16 16777216 268435456; moment 7
|| config 010000004100010000004100100000000300000001000000020000002f00610000000000\
000000000000000000000000000000000000000000000000000000000000
|| config 010000004200010000004200100000000300000001000000020000002f00610000000000\
000000000000000000000000000000000000000000000000000000000000
|| steps 0; services 2
";

const FINDS_NONE: &str = "bind
manager
| open h1 'A' 4 | h0 1060
";

const STARTS_BY_TAGS: &str = "administrator
one tick starts all   | tick; take; launched 1 101; take      | done; launch 1; done; launch 2
                      | launched 2 102; take; launched 3 103  | done; launch 3; done
                      | take; launched 4 104; take            | launch 4; done; launch 5
                      | launched 5 105; take; tick            | done; empty; idle
the first tag         | call 1 open h1 'Z' 4                  | reply h2 0
                      | call 1 process h2 0 36                | reply 36 16 2 0 0 0 0 0 101 0 0 0
of another group      | call 1 open h1 'V' 4                  | reply h3 0
                      | call 1 process h3 0 36                | reply 36 16 2 0 0 0 0 0 102 0 0 0
the second tag        | call 1 open h1 'Y' 4                  | reply h4 0
                      | call 1 process h4 0 36                | reply 36 16 2 0 0 0 0 0 103 0 0 0
no tag                | call 1 open h1 'W' 4                  | reply h5 0
                      | call 1 process h5 0 36                | reply 36 16 2 0 0 0 0 0 104 0 0 0
no group              | call 1 open h1 'X' 4                  | reply h6 0
                      | call 1 process h6 0 36                | reply 36 16 2 0 0 0 0 0 105 0 0 0
not the one on demand | call 1 open h1 'O' 4                  | reply h7 0
                      | call 1 process h7 0 36                | reply 36 16 1 0 1077 0 0 0 0 0 0 0
";

const STARTS_NONE: &str = "bind
manager
                     | open h1 'X' 4 | h2 0
stopped, never began | status h2     | 16 1 0 1077 0 0 0 0
";

const FINDS_PROMPT: &str = "bind
manager
                    | open h1 'A' 1  | h2 0
isn't delayed       | leveled h2 3 4 | 4 0 0 0
and has no triggers | leveled h2 8 4 | 4 0 0 0
";

const DELAYS: &str = "bind
manager
                    | open h1 'A' 2    | h2 0
is delayed          | level h2 3 3 * 1 | 0
";

const FINDS_DELAYED: &str = "bind
manager
                    | open h1 'A' 1  | h2 0
is delayed          | leveled h2 3 4 | 4 1 0 0
and has no triggers | leveled h2 8 4 | 4 0 0 0
";

const SECOND_APPEND: &str = "bind
manager
is kept           | create h1 'A' - own '/a' plain | - h2 0
can't be kept     | create h1 'B' - own '/a' plain | - h0 1013
and isn't there   | open h1 'B' 4                  | h0 1060
is kept this time | create h1 'B' - own '/a' plain | - h3 0
and is there      | open h1 'B' 4                  | h4 0
";

const UNMADE: &str = "bind
manager
can't be kept          | create h1 'Spooler' - own '/bin/true' plain | - h0 1013
so the name is free    | create h1 'SPOOLER' - own '/bin/true' plain | - h2 0
it is marked           | delete h2                                   | 0
its last handle closes | close h2                                    | h0 0
and the name is free   | create h1 'SPOOLER' - own '/bin/true' plain | - h3 0
";

const UNMARKED: &str = "bind
manager
                       | create h1 'Spooler' - own '/bin/true' plain | - h2 0
can't be kept          | delete h2                                   | 1013
so it isn't marked     | create h1 'SPOOLER' - own '/bin/true' plain | - h0 1073
it is marked           | delete h2                                   | 0
it is marked already   | delete h2                                   | 1072
its last handle closes | close h2                                    | h0 0
and the name is free   | create h1 'SPOOLER' - own '/bin/true' plain | - h3 0
";

const UNMADE_AGAIN: &str = "bind
manager
                       | create h1 'Spooler' - own '/bin/true' plain | - h2 0
it is marked           | delete h2                                   | 0
its last handle closes | close h2                                    | h0 0
can't be kept          | create h1 'SPOOLER' - own '/bin/true' plain | - h0 1013
is kept this time      | create h1 'SPOOLER' - own '/bin/true' plain | - h3 0
";

/// A journal in which the services A and B were created.
const A_AND_B: &str = "53434d4a02000000\
    0142000000010000004100010000004100100000000300000001000000020000002f00610000000000\
    000000000000000000000000000000000000000000000000000000000000\
    0142000000010000004200010000004200100000000300000001000000020000002f00610000000000\
    000000000000000000000000000000000000000000000000000000000000";

/// A journal of form 1 in which services were created: some that start by themselves, X without a
/// group, W without a tag in G3, Y with the second tag of G1, Z with its first and V with the first
/// of G2, and O on demand.
const AUTOMATIC: &str = "53434d4a01000000\
    013d000000010000005800010000005800100000000200000001000000020000002f00780000000000\
    00000000000000000000000000000000000000000000000000\
    0141000000010000005700010000005700100000000200000001000000020000002f00770002000000\
    4700330000000000000000000000000000000000000000000000000000\
    0141000000010000005900010000005900100000000200000001000000020000002f00790002000000\
    4700310002000000000000000000000000000000000000000000000000\
    0141000000010000005a00010000005a00100000000200000001000000020000002f007a0002000000\
    4700310001000000000000000000000000000000000000000000000000\
    0141000000010000005600010000005600100000000200000001000000020000002f00760002000000\
    4700320001000000000000000000000000000000000000000000000000\
    013d000000010000004f00010000004f00100000000300000001000000020000002f006f0000000000\
    00000000000000000000000000000000000000000000000000";

/// A journal of form 1 in which A was created, which starts by itself.
const OLD_A: &str = "53434d4a01000000\
    013d000000010000004100010000004100100000000200000001000000020000002f00610000000000\
    00000000000000000000000000000000000000000000000000";

/// The same, and what ends form 1.
const ENDED_A: &str = "53434d4a01000000\
    013d000000010000004100010000004100100000000200000001000000020000002f00610000000000\
    00000000000000000000000000000000000000000000000000\
    0400000000";

/// The same, and the change by which its start is delayed.
const DELAYED_A: &str = "53434d4a01000000\
    013d000000010000004100010000004100100000000200000001000000020000002f00610000000000\
    00000000000000000000000000000000000000000000000000\
    0400000000\
    0242000000010000004100010000004100100000000200000001000000020000002f00610000000000\
    000000000000000000000000000000000000000000000000000100000000";

#[test]
fn each_fault_has_its_status_and_leaves_what_was_whole(rt: HostRuntime) {
    let mut sheet = Sheet::new(rt.alloc(), GROUPS);
    for run in ROWS {
        holds(&rt, &mut sheet, run);
    }
    drop(sheet);
}
