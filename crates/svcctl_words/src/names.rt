//! The names that words have.

/// Texts under names.
pub type Table = &'static [(&'static str, &'static str)];

/// The text under a name.
pub fn named(table: Table, name: &str) -> Option<&'static str> {
    for (it, text) in table {
        if *it == name {
            return Some(*text);
        }
    }
    None
}

/// Calls, with their numbers.
pub const CALLS: Table = &[
    ("close", "0"),
    ("control", "1"),
    ("delete", "2"),
    ("lock", "3"),
    ("secured", "4"),
    ("secure", "5"),
    ("status", "6"),
    ("set", "7"),
    ("unlock", "8"),
    ("change", "11"),
    ("create", "12"),
    ("dependents", "13"),
    ("services", "14"),
    ("manager", "15"),
    ("open", "16"),
    ("config", "17"),
    ("locked", "18"),
    ("start", "19"),
    ("display", "20"),
    ("key", "21"),
    ("level", "37"),
    ("leveled", "39"),
    ("process", "40"),
    ("watch", "47"),
    ("event", "48"),
    ("unwatch", "49"),
];

/// Bytes, in hexadecimal.
pub const NAMED: Table = &[
    // Interfaces and transfer syntaxes, each with its version.
    ("svcctl", "81bb7a364498f135ad3298f03800100302000000"),
    ("triggers", "100a3f5c4b2e614d9a770d5b1e6f2c0101000000"),
    ("ndr", "045d888aeb1cc9119fe808002b10486002000000"),
    ("ndr64", "33057171babe37498319b5dbef9ccc3601000000"),
    ("nosyntax", "0000000000000000000000000000000000000000"),
    // A number of a change that leaves what stands; type, start and error so.
    ("keep", "ffffffff"),
    ("kept", "ffffffffffffffffffffffff"),
    // A change of neither path, group, tag, needs, account nor password.
    (
        "nothing",
        "0000000000000000000000000000000000000000000000000000000000000000",
    ),
    // All rights; a process of its own, started on demand, with errors logged.
    ("own", "ff010f00100000000300000001000000"),
    // No group, tag, needs, account and password.
    (
        "plain",
        "00000000000000000000000000000000000000000000000000000000",
    ),
];
