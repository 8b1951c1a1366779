//! What is asked of a server by `sc`, one connection after another.
use crate::running::put_words;
use crate::sc_rows::{ROWS, Row};
use outside::MemorySink;
use sc_dial::{Connection, Dialer};
use sc_top::sc_main;
use scm_text::Items;
use std::alloc::Global;
use std::time::Duration;
use std::{thread, time};

/// How many connections the server takes.
pub const TAKE: usize = 120;

/// Milliseconds between two questions.
const PAUSE: u64 = 10;

/// Whether `sc` prints what the row says.
fn prints<D: Dialer>(alloc: Global, dialer: &mut D, address: &str, row: &Row) -> bool {
    let mut words = Vec::new(alloc);
    let is_put = put_words(alloc, &mut words, address, '|').is_some()
        && put_words(alloc, &mut words, row.words, '|').is_some();
    let words = Items::from_vec(words);
    let mut output = MemorySink::new(alloc, Vec::new(alloc));
    let mut errors = MemorySink::new(alloc, Vec::new(alloc));
    let status = sc_main(alloc, &words, dialer, &mut output, &mut errors);
    drop(errors);
    let is_so = is_put && status == row.status && output.bytes() == row.text.as_bytes();
    drop(output);
    drop(words);
    is_so
}

/// The same, asked again where the row says so. `left` is how many connections are left.
fn holds<R: time::Clock, D: Dialer>(
    rt: &R,
    alloc: Global,
    dialer: &mut D,
    address: &str,
    row: &Row,
    left: &mut usize,
) -> bool {
    for _ in 0..TAKE {
        let Some(fewer) = left.checked_sub(row.dials()) else {
            return false;
        };
        *left = fewer;
        if prints(alloc, dialer, address, row) {
            return true;
        }
        if !row.again {
            return false;
        }
        thread::sleep(rt, Duration::from_millis(PAUSE));
    }
    false
}

/// Whether a connection could be made, which is ended.
fn knocks<D: Dialer>(dialer: &mut D, address: &str) -> bool {
    match dialer.dial(address) {
        Ok(Connection { input, output }) => {
            dialer.close(input, output);
            true
        }
        Err(_) => false,
    }
}

/// Waits until the server listens. That takes a connection.
fn waits<R: time::Clock, D: Dialer>(rt: &R, dialer: &mut D, address: &str) -> bool {
    for _ in 0..1000 {
        if knocks(dialer, address) {
            return true;
        }
        thread::sleep(rt, Duration::from_millis(PAUSE));
    }
    false
}

/// Goes through the rows up to the first that doesn't hold.
fn go_through<R: time::Clock, D: Dialer>(
    rt: &R,
    alloc: Global,
    dialer: &mut D,
    address: &str,
    left: &mut usize,
) -> bool {
    for row in ROWS {
        if !holds(rt, alloc, dialer, address, row, left) {
            return false;
        }
    }
    true
}

/// Whether each row holds. All connections are then used up.
pub fn session<R: time::Clock, D: Dialer>(
    rt: &R,
    alloc: Global,
    dialer: &mut D,
    address: &str,
) -> bool {
    if !waits(rt, dialer, address) {
        return false;
    }
    let mut left = TAKE - 1;
    let held = go_through(rt, alloc, dialer, address, &mut left);
    for _ in 0..left {
        knocks(dialer, address);
    }
    held
}
