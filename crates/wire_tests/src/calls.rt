use crate::body_rows::{Asked, NO_REPLIES, NO_REQUESTS, OTHER_FORMS, REPLIES, REQUESTS, Told};
use crate::body_words::{reply, request};
use ndr_body::BodyFault;
use scm_bodies::{
    Call, call_at, read_reply, read_request, reply_bound, write_reply, write_request,
};
use scm_model::codes::{R_CHANGE_SERVICE_CONFIG2_W, R_SET_SERVICE_OBJECT_SECURITY};
use scm_model::{Reply, Request};
use scm_text::Buffer;
use std::alloc::{AllocError, Global};
use std::test::*;

/// The bytes of groups of four hex digits.
fn bytes_of(alloc: Global, hex: &str) -> Result<Vec<u8>, AllocError> {
    let mut bytes = Vec::new(alloc);
    for group in hex.split(' ') {
        let [_, _, first, second] = u32::from_str_radix(group, 16).unwrap_or(0).to_be_bytes();
        bytes.extend_from_slice(&[first, second])?;
    }
    Ok(bytes)
}

fn words_of(alloc: Global, words: &'static str) -> Result<Vec<&'static str>, AllocError> {
    words.split(' ').collect(alloc)
}

/// Whether the request is written as these bytes.
fn is_written(alloc: Global, request: &Request, bytes: &[u8]) -> bool {
    match write_request(alloc, request) {
        Ok(written) => written.as_slice() == bytes,
        Err(_) => false,
    }
}

/// Whether the bytes are read as a request that is written so, and whose replies have this bound.
fn is_read(alloc: Global, call: Call, bytes: &[u8], bound: u32) -> bool {
    match read_request(alloc, call, bytes) {
        Ok(read) => reply_bound(&read) == bound && is_written(alloc, &read, bytes),
        Err(_) => false,
    }
}

/// Whether the words are written as these bytes.
fn asks(alloc: Global, opnum: u16, words: &[&'static str], bytes: &[u8]) -> bool {
    let asked = request(alloc, opnum, words);
    is_written(alloc, &asked, bytes)
}

/// Whether a row's body and its words are the same request, both ways.
fn is_asked(alloc: Global, row: Asked) -> bool {
    let (opnum, hex, words, bound) = row;
    match (call_at(opnum), bytes_of(alloc, hex), words_of(alloc, words)) {
        (Some(call), Ok(bytes), Ok(words)) => {
            is_read(alloc, call, bytes.as_slice(), bound)
                && asks(alloc, opnum, words.as_slice(), bytes.as_slice())
        }
        _ => false,
    }
}

#[test]
fn bodies_of_requests(rt: HostRuntime) -> Result<(), Fail> {
    for row in REQUESTS {
        if !is_asked(rt.alloc(), row) {
            return Err(row.1.into());
        }
    }
    Ok(())
}

/// Whether a body is read as a request that is written in this form.
fn is_read_as(alloc: Global, opnum: u16, hex: &str, form: &str) -> bool {
    match (call_at(opnum), bytes_of(alloc, hex), bytes_of(alloc, form)) {
        (Some(call), Ok(bytes), Ok(form)) => {
            let read = read_request(alloc, call, bytes.as_slice());
            read.is_ok_and(|read| is_written(alloc, &read, form.as_slice()))
        }
        _ => false,
    }
}

#[test]
fn bodies_in_other_forms(rt: HostRuntime) -> Result<(), Fail> {
    for (hex, form) in OTHER_FORMS {
        if !is_read_as(rt.alloc(), R_CHANGE_SERVICE_CONFIG2_W, hex, form) {
            return Err(hex.into());
        }
    }
    Ok(())
}

/// Whether the reply is written as these bytes, with room for just them.
fn is_told_as(alloc: Global, reply: &Reply, bytes: &[u8]) -> bool {
    let Ok(room) = Buffer::with_room(alloc, bytes.len()) else {
        return false;
    };
    match write_reply(reply, room) {
        Ok(written) => written.as_slice() == bytes,
        Err(_) => false,
    }
}

/// Whether the bytes are read as a reply that is written so.
fn is_told_again(alloc: Global, call: Call, bytes: &[u8]) -> bool {
    match read_reply(alloc, call, bytes) {
        Ok(read) => is_told_as(alloc, &read, bytes),
        Err(_) => false,
    }
}

/// Whether the words are written as these bytes.
fn tells(alloc: Global, opnum: u16, words: &[&'static str], bytes: &[u8]) -> bool {
    let told = reply(alloc, opnum, words);
    is_told_as(alloc, &told, bytes)
}

/// Whether a row's body and its words are the same reply, both ways.
fn is_told(alloc: Global, row: Told) -> bool {
    let (opnum, hex, words) = row;
    match (call_at(opnum), bytes_of(alloc, hex), words_of(alloc, words)) {
        (Some(call), Ok(bytes), Ok(words)) => {
            is_told_again(alloc, call, bytes.as_slice())
                && tells(alloc, opnum, words.as_slice(), bytes.as_slice())
        }
        _ => false,
    }
}

#[test]
fn bodies_of_replies(rt: HostRuntime) -> Result<(), Fail> {
    for row in REPLIES {
        if !is_told(rt.alloc(), row) {
            return Err(row.1.into());
        }
    }
    Ok(())
}

/// Why a body isn't a request of the call.
fn fault_of_request(alloc: Global, opnum: u16, hex: &str) -> Option<BodyFault> {
    match (call_at(opnum), bytes_of(alloc, hex)) {
        (Some(call), Ok(bytes)) => read_request(alloc, call, bytes.as_slice()).err(),
        _ => None,
    }
}

/// Why a body isn't a reply of the call.
fn fault_of_reply(alloc: Global, opnum: u16, hex: &str) -> Option<BodyFault> {
    match (call_at(opnum), bytes_of(alloc, hex)) {
        (Some(call), Ok(bytes)) => read_reply(alloc, call, bytes.as_slice()).err(),
        _ => None,
    }
}

#[test]
fn bodies_that_are_none(rt: HostRuntime) -> Result<(), Fail> {
    for (opnum, hex, fault) in NO_REQUESTS {
        if fault_of_request(rt.alloc(), opnum, hex) != Some(fault) {
            return Err(hex.into());
        }
    }
    for (opnum, hex, fault) in NO_REPLIES {
        if fault_of_reply(rt.alloc(), opnum, hex) != Some(fault) {
            return Err(hex.into());
        }
    }
    Ok(())
}

/// A body that sets a service's owner by so many bytes of 0, with their padding.
fn setting(alloc: Global, size: u32) -> Result<Vec<u8>, AllocError> {
    let mut body = bytes_of(
        alloc,
        "0000 0000 0100 0000 0000 0000 0000 0000 0000 0000 0100 0000",
    )?;
    body.extend_from_slice(&size.to_le_bytes())?;
    let length = 28 + size as usize;
    body.resize((length + 3) / 4 * 4, 0)?;
    body.extend_from_slice(&size.to_le_bytes())?;
    Ok(body)
}

/// Why so many bytes can't be set.
fn fault_of_setting(alloc: Global, size: u32) -> Option<BodyFault> {
    match (call_at(R_SET_SERVICE_OBJECT_SECURITY), setting(alloc, size)) {
        (Some(call), Ok(body)) => read_request(alloc, call, body.as_slice()).err(),
        _ => Some(BodyFault::OutOfMemory),
    }
}

#[test]
fn the_most_bytes_that_can_be_set(rt: HostRuntime) -> Result<(), Fail> {
    if fault_of_setting(rt.alloc(), 262_144).is_some() {
        return Err("262,144 bytes".into());
    }
    if fault_of_setting(rt.alloc(), 262_145) != Some(BodyFault::BadCount(262_176)) {
        return Err("262,145 bytes".into());
    }
    Ok(())
}
