ghost use Rattle.std.specs.Prelude.{IfOk};
ghost use Rattle.sec_desc.specs.Writing.{IsWritten};

use crate::bytes::bytes_of;
use crate::descriptor_rows::{ALLOWED, Allowed, BAD, Bad, READ, Read};
use scm_text::Items;
use sec_check::allowed;
use sec_desc::{DescFault, read_descriptor, write_descriptor};
use std::alloc::Global;
use std::test::*;

/// The written form of some parts of what is read of the bytes.
fn written_of(alloc: Global, bytes: &[u8], parts: u32) -> Result<Items<u8>, DescFault>
    ensures { IfOk result IsWritten }
{
    let read = read_descriptor(alloc, bytes)?;
    let written = write_descriptor(alloc, &read, parts);
    drop(read);
    match written {
        Ok(written) => Ok(written),
        Err(_) => Err(DescFault::OutOfMemory),
    }
}

fn is_read(alloc: Global, row: Read) -> bool {
    let (hex, parts, form) = row;
    match (bytes_of(alloc, hex), bytes_of(alloc, form)) {
        (Ok(bytes), Ok(form)) => match written_of(alloc, bytes.as_slice(), parts) {
            Ok(written) => written.as_slice() == form.as_slice(),
            Err(_) => false,
        },
        _ => false,
    }
}

fn is_bad(alloc: Global, row: Bad) -> bool {
    let (hex, place) = row;
    match bytes_of(alloc, hex) {
        Ok(bytes) => match written_of(alloc, bytes.as_slice(), 7) {
            Ok(_) => false,
            Err(fault) => fault == DescFault::Bad(place),
        },
        Err(_) => false,
    }
}

/// The bytes that are kept: none of none, else the written form of what is read.
fn kept_of(alloc: Global, bytes: &[u8]) -> Result<Items<u8>, DescFault>
    ensures { IfOk result IsWritten }
{
    if bytes.is_empty() {
        Ok(Items::new(alloc))
    } else {
        written_of(alloc, bytes, 7)
    }
}

fn is_allowed(alloc: Global, row: Allowed) -> bool {
    let (hex, principal, desired, answer) = row;
    match bytes_of(alloc, hex) {
        Ok(bytes) => match kept_of(alloc, bytes.as_slice()) {
            Ok(kept) => allowed(kept.as_slice(), principal, desired) == answer,
            Err(_) => false,
        },
        Err(_) => false,
    }
}

#[test]
fn descriptors_are_read_and_written(rt: HostRuntime) -> Result<(), Fail> {
    for row in READ {
        if !is_read(rt.alloc(), row) {
            return Err(row.0.into());
        }
    }
    Ok(())
}

#[test]
fn other_bytes_are_refused_where_they_fail(rt: HostRuntime) -> Result<(), Fail> {
    for row in BAD {
        if !is_bad(rt.alloc(), row) {
            return Err(row.0.into());
        }
    }
    Ok(())
}

#[test]
fn the_first_entry_decides(rt: HostRuntime) -> Result<(), Fail> {
    for row in ALLOWED {
        if !is_allowed(rt.alloc(), row) {
            return Err(row.0.into());
        }
    }
    Ok(())
}
