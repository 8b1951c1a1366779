//! Parts of journals.

/// What a journal begins with.
pub const HEADER: &[u8] = &[0x53, 0x43, 0x4D, 0x4A, 2, 0, 0, 0];

/// The creation of `A`.
pub const CREATED_A: &[u8] = &[
    1, 0x42, 0, 0, 0, // a creation, and how many bytes follow
    1, 0, 0, 0, 0x41, 0, // name
    1, 0, 0, 0, 0x41, 0, // display name
    0x10, 0, 0, 0, 3, 0, 0, 0, 1, 0, 0, 0, // type, start and error control
    2, 0, 0, 0, 0x2F, 0, 0x61, 0, // path
    0, 0, 0, 0, 0, 0, 0, 0, // group and tag
    0, 0, 0, 0, // needs
    0, 0, 0, 0, 0, 0, 0, 0, 0, 0, 0, 0, 0, 0, 0, 0, 0, // description, failures
    0, 0, 0, 0, 0, // a delayed start, triggers
];

/// The creation of `B`.
pub const CREATED_B: &[u8] = &[
    1, 0x42, 0, 0, 0, // a creation, and how many bytes follow
    1, 0, 0, 0, 0x42, 0, // name
    1, 0, 0, 0, 0x42, 0, // display name
    0x10, 0, 0, 0, 3, 0, 0, 0, 1, 0, 0, 0, // type, start and error control
    2, 0, 0, 0, 0x2F, 0, 0x62, 0, // path
    0, 0, 0, 0, 0, 0, 0, 0, // group and tag
    0, 0, 0, 0, // needs
    0, 0, 0, 0, 0, 0, 0, 0, 0, 0, 0, 0, 0, 0, 0, 0, 0, // description, failures
    0, 0, 0, 0, 0, // a delayed start, triggers
];

/// The removal of `A`.
pub const REMOVED_A: &[u8] = &[3, 6, 0, 0, 0, 1, 0, 0, 0, 0x41, 0];

/// The removal of `B`.
pub const REMOVED_B: &[u8] = &[3, 6, 0, 0, 0, 1, 0, 0, 0, 0x42, 0];

/// What a journal of `A` and `B`, of which `A` is removed, is made of.
pub const LONG: &[&[u8]] = &[HEADER, CREATED_A, CREATED_B, REMOVED_A];

/// What the shortest journal of `B` is made of.
pub const SHORT: &[&[u8]] = &[HEADER, CREATED_B];
