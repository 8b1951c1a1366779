//! A journal of form 1, and the first change that is appended to it.
use crate::bytes::{HEADER_1, SWITCH};
use crate::values::{append, keeper, plain};
use record_journal::{MemoryKeeper, open_journal};
use scm_model::{Change, Form};
use scm_text::OutOfMemory;
use std::alloc::{AllocError, Global};
use std::test::*;

/// The creation of `A` in form 1, which starts by itself.
const OLD_A: &[u8] = &[
    1, 0x3D, 0, 0, 0, // a creation
    1, 0, 0, 0, 0x41, 0, // name
    1, 0, 0, 0, 0x41, 0, // display name
    0x10, 0, 0, 0, 2, 0, 0, 0, 1, 0, 0, 0, // type, start and error control
    2, 0, 0, 0, 0x2F, 0, 0x61, 0, // path
    0, 0, 0, 0, 0, 0, 0, 0, // group and tag
    0, 0, 0, 0, // needs
    0, 0, 0, 0, 0, 0, 0, 0, 0, 0, 0, 0, 0, 0, 0, 0, 0, // description, failures
];

/// Its start is delayed.
const DELAYED: &[u8] = &[
    2, 0x42, 0, 0, 0, // a change
    1, 0, 0, 0, 0x41, 0, // name
    1, 0, 0, 0, 0x41, 0, // display name
    0x10, 0, 0, 0, 2, 0, 0, 0, 1, 0, 0, 0, // type, start and error control
    2, 0, 0, 0, 0x2F, 0, 0x61, 0, // path
    0, 0, 0, 0, 0, 0, 0, 0, // group and tag
    0, 0, 0, 0, // needs
    0, 0, 0, 0, 0, 0, 0, 0, 0, 0, 0, 0, 0, 0, 0, 0, 0, // description, failures
    1, 0, 0, 0, 0, // a delayed start, triggers
];

/// How many bytes the journal has, and how many with what ends form 1.
const OLD: usize = 74;

const ENDED: usize = 79;

fn delayed(alloc: Global) -> Result<Change, OutOfMemory> {
    let mut config = plain(alloc)?;
    config.start = 2;
    config.delayed = true;
    Ok(Change::Changed(config))
}

/// Whether the start of the one service of a journal is delayed, and the form in which it ends.
fn read(alloc: Global, keeper: &mut MemoryKeeper) -> Option<(bool, Form)> {
    match open_journal(alloc, keeper, Some("journal")) {
        Ok(opened) => {
            let told = match opened.configs.as_slice() {
                [config] => Some((config.delayed, opened.journal.form)),
                _ => None,
            };
            drop(opened);
            told
        }
        Err(_) => None,
    }
}

/// Opens a journal and appends a change to it.
fn change(alloc: Global, keeper: &mut MemoryKeeper) -> Result<bool, OutOfMemory> {
    let change = delayed(alloc)?;
    match open_journal(alloc, keeper, Some("journal")) {
        Ok(mut opened) => {
            let is_kept = append(alloc, &mut opened.journal, keeper, change).is_ok();
            drop(opened);
            Ok(is_kept)
        }
        Err(_) => {
            drop(change);
            Ok(false)
        }
    }
}

fn journal(alloc: Global, parts: &[&[u8]]) -> Result<Vec<u8>, AllocError> {
    let mut bytes = Vec::new(alloc);
    for part in parts {
        bytes.extend_from_slice(part)?;
    }
    Ok(bytes)
}

#[test]
fn the_first_change_ends_form_1_in_one_piece(rt: HostRuntime) -> Result<(), Fail> {
    let alloc = rt.alloc();
    let old = journal(alloc, &[HEADER_1, OLD_A])?;
    let whole = journal(alloc, &[HEADER_1, OLD_A, SWITCH, DELAYED])?;
    let mut keeper = keeper(alloc, &old, 0, &[])?;
    assert!(rt; read(alloc, &mut keeper) == Some((false, Form::First)));
    assert!(rt; keeper.bytes() == old.as_slice());
    assert!(rt; change(alloc, &mut keeper)?);
    assert!(rt; keeper.bytes() == whole.as_slice());
    assert!(rt; read(alloc, &mut keeper) == Some((true, Form::Second)));
    Ok(())
}

#[test]
fn a_journal_that_is_cut_where_form_1_ends_is_read_as_before(rt: HostRuntime) -> Result<(), Fail> {
    let alloc = rt.alloc();
    let whole = journal(alloc, &[HEADER_1, OLD_A, SWITCH, DELAYED])?;
    for size in OLD..whole.len() {
        let mut cut = keeper(alloc, &whole[..size], 0, &[])?;
        let form = if size < ENDED {
            Form::First
        } else {
            Form::Second
        };
        assert!(rt; read(alloc, &mut cut) == Some((false, form)), "{size}");
    }
    Ok(())
}
