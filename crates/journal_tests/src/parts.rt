//! Journals of which a byte has changed.
use crate::bytes::{CREATED, HEADER};
use crate::opening::{Answer, opens};
use std::alloc::AllocError;
use std::test::*;

/// The names of ten services.
const NAMES: &str = "ABCDEFGHIJ";

/// Appends the header and the creation of each, of 71 bytes.
fn append_services(bytes: &mut Vec<u8>) -> Result<(), AllocError> {
    bytes.extend_from_slice(HEADER)?;
    for letter in NAMES.as_bytes() {
        bytes.extend_from_slice(&CREATED[..9])?;
        bytes.push(*letter)?;
        bytes.extend_from_slice(&CREATED[10..15])?;
        bytes.push(*letter)?;
        bytes.extend_from_slice(&CREATED[16..])?;
    }
    Ok(())
}

/// Where the fourth service's entry begins.
const FOURTH: usize = 221;

/// Changes a bit of the length of the fourth entry.
fn flip(bytes: &mut [u8], bit: usize) {
    let place = FOURTH + 1 + bit / 8;
    if place < bytes.len() {
        bytes[place] ^= 1 << (bit % 8);
    }
}

#[test]
fn a_changed_length_is_damage(rt: HostRuntime) -> Result<(), Fail> {
    let mut bytes = Vec::new(rt.alloc());
    append_services(&mut bytes)?;
    assert!(rt; opens(rt.alloc(), &bytes, &[], Answer::Opens(NAMES, 718), 718)?);
    for bit in 0..32 {
        flip(&mut bytes, bit);
        let answer = Answer::DamagedAt(FOURTH as u64);
        assert!(rt; opens(rt.alloc(), &bytes, &[], answer, 718)?, "bit {bit}");
        flip(&mut bytes, bit);
    }
    Ok(())
}
