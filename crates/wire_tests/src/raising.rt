use ndr_body::BodyFault;
use scm_calls::{RAISE_REPLY_BYTES, read_raise, read_raise_reply, write_raise, write_raise_reply};
use scm_text::Buffer;
use std::alloc::Global;
use std::test::*;

/// Bytes whose first sixteen are a subtype.
const BYTES: [u8; 20] = [
    0x10, 0x0a, 0x3f, 0x5c, 0x4b, 0x2e, 0x61, 0x4d, 0x9a, 0x77, 0x0d, 0x5b, 0x1e, 0x6f, 0x2c, 0x01,
    0, 0, 0, 0,
];

/// Whether the bytes are read as a subtype whose raise is written so.
fn is_raise(alloc: Global, bytes: &[u8]) -> bool {
    let Ok(subtype) = read_raise(bytes) else {
        return false;
    };
    match write_raise(alloc, &subtype) {
        Ok(written) => written.as_slice() == bytes,
        Err(_) => false,
    }
}

fn is_refused(bytes: &[u8], fault: BodyFault) -> bool {
    match read_raise(bytes) {
        Ok(_) => false,
        Err(found) => found == fault,
    }
}

/// Whether the reply with this code is written as the bytes.
fn is_reply(alloc: Global, code: u32, bytes: &[u8]) -> bool {
    let Ok(out) = Buffer::with_room(alloc, RAISE_REPLY_BYTES) else {
        return false;
    };
    match write_raise_reply(code, out) {
        Ok(written) => written.as_slice() == bytes,
        Err(_) => false,
    }
}

/// Whether the bytes are read as the reply with this code.
fn tells(alloc: Global, bytes: &[u8], code: u32) -> bool {
    match read_raise_reply(alloc, bytes) {
        Ok(told) => told == code,
        Err(_) => false,
    }
}

#[test]
fn a_raise_is_the_bytes_of_a_subtype(rt: HostRuntime) {
    assert!(rt; is_raise(rt.alloc(), &BYTES[..16]));
    assert!(rt; is_refused(&BYTES[..0], BodyFault::Short(0)));
    assert!(rt; is_refused(&BYTES[..15], BodyFault::Short(0)));
    assert!(rt; is_refused(&BYTES[..17], BodyFault::Trailing(16)));
    assert!(rt; is_refused(&BYTES, BodyFault::Trailing(16)));
}

#[test]
fn a_reply_to_a_raise_is_a_code(rt: HostRuntime) {
    assert!(rt; is_reply(rt.alloc(), 0x0102_0304, &[4, 3, 2, 1]));
    assert!(rt; tells(rt.alloc(), &[4, 3, 2, 1], 0x0102_0304));
    assert!(rt; !tells(rt.alloc(), &[4, 3, 2], 0));
}
