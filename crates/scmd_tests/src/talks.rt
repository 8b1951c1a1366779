//! Whole talks with the program: the requests stand beside their answers, in the tables of `rows`.
use crate::rows::*;
use crate::runs::{PIPE, Run, holds};
use std::alloc::Global;
use std::process::Abort;
use std::sync::Wait;
use std::test::*;
use std::thread::Threads;
use std::time;
use svcctl_words::{Body, Sheet, Side, first_word, put_hex_lines};

/// Whether these bytes are those of hex in lines.
fn are(alloc: Global, bytes: &[u8], hex: &str) -> bool {
    let mut stated = Vec::new(alloc);
    put_hex_lines(&mut stated, hex).is_some() && stated.as_slice() == bytes
}

fn is_body(alloc: Global, body: &mut Body, words: &str, hex: &str) -> bool {
    body.make(words).is_some() && are(alloc, body.bytes(), hex)
}

fn is_smallest(alloc: Global, sheet: &mut Sheet, side: Side, hex: &str) -> bool {
    sheet.put("pipe", SMALLEST, side).is_some() && are(alloc, sheet.bytes(), hex)
}

#[test]
fn bodies_of_words_are_the_formats(rt: HostRuntime) {
    let alloc = rt.alloc();
    let mut body = Body::new(alloc);
    for (words, hex) in BODIES {
        assert!(rt; is_body(alloc, &mut body, words, hex), "the body {words}");
    }
    drop(body);
    let mut sheet = Sheet::new(alloc, GROUPS);
    let is_asked = is_smallest(alloc, &mut sheet, Side::Asks, SMALLEST_ASKED);
    let is_told = is_smallest(alloc, &mut sheet, Side::Tells, SMALLEST_TOLD);
    drop(sheet);
    assert!(rt; is_asked && is_told, "the smallest session");
}

/// A run of a table: what stands after `=` is its status, its words and its rows.
fn run_of(text: &str) -> Option<Run<'_>> {
    let (head, rows) = text.split_once('\n').unwrap_or((text, ""));
    let (status, rest) = first_word(head);
    let words = rest.split_once(':').unwrap_or((rest, "")).0;
    Some(Run {
        words,
        asked: rows,
        status: status.parse().ok()?,
        told: rows,
        ..PIPE
    })
}

/// Fails unless all runs of a table end as they are to.
fn all_hold<R>(rt: &R, sheet: &mut Sheet, table: &str)
where
    R: Abort + Threads + Wait + time::Clock + Sync + AllocGlobal,
{
    for text in table.split("\n= ").skip(1) {
        match run_of(text) {
            Some(run) => holds(rt, sheet, &run),
            None => panic!(rt; "no status: {text}"),
        }
    }
}

#[test]
fn connections_replays_and_jobs(rt: HostRuntime) {
    let mut sheet = Sheet::new(rt.alloc(), GROUPS);
    for table in [PIPES, REPLAYS, JOBS] {
        all_hold(&rt, &mut sheet, table);
    }
    drop(sheet);
}

/// Puts as many handles as there may be, and one that is refused.
fn put_handles(alloc: Global, rows: &mut String) -> Option<()> {
    rows.push_str("bind\n").ok()?;
    for handle in 1..1025 {
        let row = format!(in alloc; "| manager - - #F003F | h{handle} 0\n").ok()?;
        rows.push_str(row.as_str()).ok()?;
    }
    rows.push_str("| manager - - #F003F | h0 1816\n").ok()
}

/// Puts the creation of a service, and the close of its handle.
fn put_service(alloc: Global, rows: &mut String, handle: u32) -> Option<()> {
    let creation = format!(in alloc; "| create h1 'S{handle}' - own '/a' plain | - h{handle} 0\n");
    let creation = creation.ok()?;
    rows.push_str(creation.as_str()).ok()?;
    drop(creation);
    let close = format!(in alloc; "| close h{handle} | h0 0\n").ok()?;
    rows.push_str(close.as_str()).ok()
}

/// Puts as many services as there may be, each with its handle closed, and one that is refused.
fn put_services(alloc: Global, rows: &mut String) -> Option<()> {
    rows.push_str("bind\n| manager - - #F003F | h1 0\n").ok()?;
    for handle in 2..1026 {
        put_service(alloc, rows, handle)?;
    }
    rows.push_str("| create h1 'T' - own '/a' plain | - h0 1816\n")
        .ok()
}

/// Puts a request of a megabyte that doesn't end.
fn put_megabyte(rows: &mut String) -> Option<()> {
    rows.push_str("bind\n").ok()?;
    rows.push_str(FIRST_KILOBYTE).ok()?;
    for _ in 0..1023 {
        rows.push_str(KILOBYTE).ok()?;
    }
    Some(())
}

/// Fails unless a connection that asks these rows ends so.
fn pipe_holds<R>(rt: &R, sheet: &mut Sheet, rows: &str, status: u8)
where
    R: Abort + Threads + Wait + time::Clock + Sync + AllocGlobal,
{
    let run = Run {
        asked: rows,
        told: rows,
        status,
        ..PIPE
    };
    holds(rt, sheet, &run);
}

#[test]
fn too_many_handles(rt: HostRuntime) {
    let alloc = rt.alloc();
    let mut sheet = Sheet::new(alloc, GROUPS);
    let mut rows = String::new(alloc);
    assert!(rt; put_handles(alloc, &mut rows).is_some());
    pipe_holds(&rt, &mut sheet, rows.as_str(), 0);
    drop(rows);
    drop(sheet);
}

#[test]
fn too_many_services(rt: HostRuntime) {
    let alloc = rt.alloc();
    let mut sheet = Sheet::new(alloc, GROUPS);
    let mut rows = String::new(alloc);
    assert!(rt; put_services(alloc, &mut rows).is_some());
    pipe_holds(&rt, &mut sheet, rows.as_str(), 0);
    drop(rows);
    drop(sheet);
}

#[test]
fn a_request_of_a_megabyte_and_a_byte(rt: HostRuntime) {
    let alloc = rt.alloc();
    let mut sheet = Sheet::new(alloc, GROUPS);
    let mut rows = String::new(alloc);
    assert!(rt; put_megabyte(&mut rows).is_some());
    pipe_holds(&rt, &mut sheet, rows.as_str(), 6);
    assert!(rt; rows.push_str(ONE_BYTE).is_ok());
    pipe_holds(&rt, &mut sheet, rows.as_str(), 7);
    drop(rows);
    drop(sheet);
}
