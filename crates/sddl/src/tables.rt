//! The pairs of letters of MS-DTYP, 2.5.1.1.

/// Two letters, and the bit that they stand for.
#[derive(Clone, Copy)]
pub struct Letters {
    pub pair: [u8; 2],
    pub bit: u32,
}

/// Flags of an entry, the lowest bit first.
pub static ACE_FLAGS: [Letters; 7] = [
    Letters {
        pair: [b'O', b'I'],
        bit: 0x01,
    },
    Letters {
        pair: [b'C', b'I'],
        bit: 0x02,
    },
    Letters {
        pair: [b'N', b'P'],
        bit: 0x04,
    },
    Letters {
        pair: [b'I', b'O'],
        bit: 0x08,
    },
    Letters {
        pair: [b'I', b'D'],
        bit: 0x10,
    },
    Letters {
        pair: [b'S', b'A'],
        bit: 0x40,
    },
    Letters {
        pair: [b'F', b'A'],
        bit: 0x80,
    },
];

/// Rights, the lowest bit first: nine of the object's own, four standard and four generic ones.
pub static ACCESS_RIGHTS: [Letters; 17] = [
    Letters {
        pair: [b'C', b'C'],
        bit: 0x0001,
    },
    Letters {
        pair: [b'D', b'C'],
        bit: 0x0002,
    },
    Letters {
        pair: [b'L', b'C'],
        bit: 0x0004,
    },
    Letters {
        pair: [b'S', b'W'],
        bit: 0x0008,
    },
    Letters {
        pair: [b'R', b'P'],
        bit: 0x0010,
    },
    Letters {
        pair: [b'W', b'P'],
        bit: 0x0020,
    },
    Letters {
        pair: [b'D', b'T'],
        bit: 0x0040,
    },
    Letters {
        pair: [b'L', b'O'],
        bit: 0x0080,
    },
    Letters {
        pair: [b'C', b'R'],
        bit: 0x0100,
    },
    Letters {
        pair: [b'S', b'D'],
        bit: 0x1_0000,
    },
    Letters {
        pair: [b'R', b'C'],
        bit: 0x2_0000,
    },
    Letters {
        pair: [b'W', b'D'],
        bit: 0x4_0000,
    },
    Letters {
        pair: [b'W', b'O'],
        bit: 0x8_0000,
    },
    Letters {
        pair: [b'G', b'A'],
        bit: 0x1000_0000,
    },
    Letters {
        pair: [b'G', b'X'],
        bit: 0x2000_0000,
    },
    Letters {
        pair: [b'G', b'W'],
        bit: 0x4000_0000,
    },
    Letters {
        pair: [b'G', b'R'],
        bit: 0x8000_0000,
    },
];

/// Every right that has letters.
pub const ALL_RIGHTS: u32 = 0xF00F_01FF;

/// Two letters, and the identity that they stand for: `S-1-AUTHORITY-FIRST-SECOND`.
#[derive(Clone, Copy)]
pub struct KnownSid {
    pub letters: [u8; 2],
    /// The last byte of the authority.
    pub authority: u8,
    pub first: u32,
    pub second: Option<u32>,
}

/// Identities that are the same on each machine, in the order of their letters.
pub static KNOWN_SIDS: [KnownSid; 33] = [
    KnownSid {
        letters: [b'A', b'N'],
        authority: 5,
        first: 7,
        second: None,
    },
    KnownSid {
        letters: [b'A', b'O'],
        authority: 5,
        first: 32,
        second: Some(548),
    },
    KnownSid {
        letters: [b'A', b'U'],
        authority: 5,
        first: 11,
        second: None,
    },
    KnownSid {
        letters: [b'B', b'A'],
        authority: 5,
        first: 32,
        second: Some(544),
    },
    KnownSid {
        letters: [b'B', b'G'],
        authority: 5,
        first: 32,
        second: Some(546),
    },
    KnownSid {
        letters: [b'B', b'O'],
        authority: 5,
        first: 32,
        second: Some(551),
    },
    KnownSid {
        letters: [b'B', b'U'],
        authority: 5,
        first: 32,
        second: Some(545),
    },
    KnownSid {
        letters: [b'C', b'G'],
        authority: 3,
        first: 1,
        second: None,
    },
    KnownSid {
        letters: [b'C', b'O'],
        authority: 3,
        first: 0,
        second: None,
    },
    KnownSid {
        letters: [b'C', b'Y'],
        authority: 5,
        first: 32,
        second: Some(569),
    },
    KnownSid {
        letters: [b'E', b'D'],
        authority: 5,
        first: 9,
        second: None,
    },
    KnownSid {
        letters: [b'E', b'R'],
        authority: 5,
        first: 32,
        second: Some(573),
    },
    KnownSid {
        letters: [b'I', b'S'],
        authority: 5,
        first: 32,
        second: Some(568),
    },
    KnownSid {
        letters: [b'I', b'U'],
        authority: 5,
        first: 4,
        second: None,
    },
    KnownSid {
        letters: [b'L', b'S'],
        authority: 5,
        first: 19,
        second: None,
    },
    KnownSid {
        letters: [b'L', b'U'],
        authority: 5,
        first: 32,
        second: Some(559),
    },
    KnownSid {
        letters: [b'M', b'U'],
        authority: 5,
        first: 32,
        second: Some(558),
    },
    KnownSid {
        letters: [b'N', b'O'],
        authority: 5,
        first: 32,
        second: Some(556),
    },
    KnownSid {
        letters: [b'N', b'S'],
        authority: 5,
        first: 20,
        second: None,
    },
    KnownSid {
        letters: [b'N', b'U'],
        authority: 5,
        first: 2,
        second: None,
    },
    KnownSid {
        letters: [b'O', b'W'],
        authority: 3,
        first: 4,
        second: None,
    },
    KnownSid {
        letters: [b'P', b'O'],
        authority: 5,
        first: 32,
        second: Some(550),
    },
    KnownSid {
        letters: [b'P', b'S'],
        authority: 5,
        first: 10,
        second: None,
    },
    KnownSid {
        letters: [b'P', b'U'],
        authority: 5,
        first: 32,
        second: Some(547),
    },
    KnownSid {
        letters: [b'R', b'C'],
        authority: 5,
        first: 12,
        second: None,
    },
    KnownSid {
        letters: [b'R', b'D'],
        authority: 5,
        first: 32,
        second: Some(555),
    },
    KnownSid {
        letters: [b'R', b'E'],
        authority: 5,
        first: 32,
        second: Some(552),
    },
    KnownSid {
        letters: [b'R', b'U'],
        authority: 5,
        first: 32,
        second: Some(554),
    },
    KnownSid {
        letters: [b'S', b'O'],
        authority: 5,
        first: 32,
        second: Some(549),
    },
    KnownSid {
        letters: [b'S', b'U'],
        authority: 5,
        first: 6,
        second: None,
    },
    KnownSid {
        letters: [b'S', b'Y'],
        authority: 5,
        first: 18,
        second: None,
    },
    KnownSid {
        letters: [b'W', b'D'],
        authority: 1,
        first: 0,
        second: None,
    },
    KnownSid {
        letters: [b'W', b'R'],
        authority: 5,
        first: 33,
        second: None,
    },
];
