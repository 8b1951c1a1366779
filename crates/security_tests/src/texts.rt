use crate::bytes::bytes_of;
use crate::text_rows::{BAD, Bad, OTHER, SAME};
use scm_text::{Items, OutOfMemory};
use sddl::{SddlFault, read_sddl, write_sddl};
use sec_desc::{read_descriptor, write_descriptor};
use std::alloc::Global;
use std::test::*;

/// The bytes of the descriptor that a text is.
fn packed(alloc: Global, text: &str) -> Result<Items<u8>, SddlFault> {
    let read = read_sddl(alloc, text)?;
    let written = write_descriptor(alloc, &read, 7);
    drop(read);
    match written {
        Ok(written) => Ok(written),
        Err(_) => Err(SddlFault::OutOfMemory),
    }
}

/// The text of the descriptor that bytes are.
fn shown(alloc: Global, bytes: &[u8]) -> Result<Items<u8>, OutOfMemory> {
    let Ok(read) = read_descriptor(alloc, bytes) else {
        return Err(OutOfMemory);
    };
    let written = write_sddl(alloc, &read);
    drop(read);
    written
}

fn is_packed(alloc: Global, text: &str, bytes: &[u8]) -> bool {
    match packed(alloc, text) {
        Ok(written) => written.as_slice() == bytes,
        Err(_) => false,
    }
}

fn is_shown(alloc: Global, text: &str, bytes: &[u8]) -> bool {
    match shown(alloc, bytes) {
        Ok(written) => written.as_slice() == text.as_bytes(),
        Err(_) => false,
    }
}

/// Whether a text is these bytes, which are written as another text.
fn is_both(alloc: Global, text: &str, hex: &str, other: &str) -> bool {
    match bytes_of(alloc, hex) {
        Ok(bytes) => {
            is_packed(alloc, text, bytes.as_slice()) && is_shown(alloc, other, bytes.as_slice())
        }
        Err(_) => false,
    }
}

fn is_bad(alloc: Global, row: Bad) -> bool {
    let (text, place) = row;
    match packed(alloc, text) {
        Ok(_) => false,
        Err(fault) => fault == SddlFault::Bad(place),
    }
}

#[test]
fn texts_are_read_and_written(rt: HostRuntime) -> Result<(), Fail> {
    for (text, hex) in SAME {
        if !is_both(rt.alloc(), text, hex, text) {
            return Err(text.into());
        }
    }
    Ok(())
}

#[test]
fn other_texts_are_read(rt: HostRuntime) -> Result<(), Fail> {
    for (text, hex, other) in OTHER {
        if !is_both(rt.alloc(), text, hex, other) {
            return Err(text.into());
        }
    }
    Ok(())
}

#[test]
fn other_texts_are_refused_where_they_fail(rt: HostRuntime) -> Result<(), Fail> {
    for row in BAD {
        if !is_bad(rt.alloc(), row) {
            return Err(row.0.into());
        }
    }
    Ok(())
}
