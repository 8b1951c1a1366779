use crate::stores::{has_one_of, image_opens_to, store_that_fails};
use journal_disk::{DiskCall, DiskFate, MemoryDisk, TakenCall, Tear};
use journal_store::{Compactor, JournalStore};
use record_journal::Keeper;
use std::alloc::{AllocError, Global};
use std::mem;
use std::test::*;

/// A call of a store.
enum Step {
    Append(&'static [u8]),
    Cut(u64),
    Replace(&'static [u8]),
}

/// Twenty appends and two compactions, and a cut.
const RUN: [Step; 23] = [
    Step::Append(b"a"),
    Step::Append(b""),
    Step::Append(b"bcd"),
    Step::Append(b"e"),
    Step::Append(b"fg"),
    Step::Append(b"h"),
    Step::Append(b"ijk"),
    Step::Replace(b"ABCDE"),
    Step::Append(b"l"),
    Step::Append(b"mnop"),
    Step::Append(b"q"),
    Step::Append(b"rs"),
    Step::Cut(7),
    Step::Append(b"t"),
    Step::Append(b"uvw"),
    Step::Append(b"x"),
    Step::Append(b"yz"),
    Step::Replace(b""),
    Step::Append(b"0"),
    Step::Append(b"12"),
    Step::Append(b"3"),
    Step::Append(b"456"),
    Step::Append(b"7"),
];

/// What a tear leaves after the bytes that it keeps: a byte, and how often. Nothing, zeros to the
/// end of the write, one byte that is another open gate, and such bytes to the end.
const BYTES: [(u8, u64); 4] = [(0, 0), (0, 64), (9, 1), (9, 64)];

/// No write of the run has so many bytes, and so many lengths of what a tear keeps are tried.
const LENGTHS: u64 = 10;

/// No call of a store leaves more writes than these without a sync.
const OPEN: usize = 4;

/// The tears that are the same for all open writes, and all that are tried.
const ALIKE: u64 = 4 * LENGTHS;

const ALL: u64 = 9 * ALIKE;

const LOST: Tear = Tear {
    kept: 0,
    byte: 0,
    longer: 0,
};

const WHOLE: Tear = Tear {
    kept: 64,
    byte: 0,
    longer: 0,
};

/// The tears of the open writes in a trial: one tear for all, or for one write, while the others
/// are whole or lost.
fn tears_of(trial: u64) -> [Tear; OPEN] {
    let (byte, longer) = BYTES[(trial / LENGTHS % 4) as usize];
    let tear = Tear {
        kept: trial % LENGTHS,
        byte,
        longer,
    };
    let shape = (trial / ALIKE) as usize;
    if shape == 0 {
        return [tear; OPEN];
    }
    let mut tears = if shape <= OPEN {
        [WHOLE; OPEN]
    } else {
        [LOST; OPEN]
    };
    tears[(shape - 1) % OPEN] = tear;
    tears
}

/// Makes a call, and says whether it answered Ok.
fn call(store: &mut JournalStore<MemoryDisk>, step: &Step) -> bool {
    match step {
        Step::Append(bytes) => store.append(bytes).is_ok(),
        Step::Cut(length) => store.cut(*length).is_ok(),
        Step::Replace(bytes) => store.replace(bytes).is_ok(),
    }
}

/// What a call makes of a content.
fn change(next: &mut Vec<u8>, content: &[u8], step: &Step) -> Result<(), AllocError> {
    next.clear();
    match step {
        Step::Append(bytes) => {
            next.extend_from_slice(content)?;
            next.extend_from_slice(bytes)
        }
        Step::Cut(length) => {
            let (front, _) = content.split_at(content.len().min(*length as usize));
            next.extend_from_slice(front)
        }
        Step::Replace(bytes) => next.extend_from_slice(bytes),
    }
}

/// How many trials tell apart the images after so many calls: none if the last call changed
/// nothing, and one if it left no write open.
fn trials_at(calls: &[TakenCall], moment: usize, trials: u64) -> u64 {
    let Some(last) = moment.checked_sub(1) else {
        return trials.min(1);
    };
    let Some(taken) = calls.get(last) else {
        return 0;
    };
    match (&taken.call, taken.fate) {
        (DiskCall::Size { .. }, _) | (DiskCall::Read { .. }, _) => 0,
        (DiskCall::Sync, DiskFate::Succeeds) => trials.min(1),
        _ => trials,
    }
}

/// Says whether each image after so many calls opens to one of some contents.
fn images_open(
    alloc: Global,
    disk: &MemoryDisk,
    moment: usize,
    trials: u64,
    contents: &[&[u8]],
) -> bool {
    if moment > disk.calls().len() {
        return false;
    }
    for trial in 0..trials {
        let tears = tears_of(trial);
        if image_opens_to(alloc, disk, moment, &tears, contents).is_none() {
            return false;
        }
    }
    true
}

/// Says whether at each of some moments, up to now, each image opens to one of some contents.
fn images_open_since(
    alloc: Global,
    disk: &MemoryDisk,
    first: usize,
    trials: u64,
    contents: &[&[u8]],
) -> bool {
    for moment in first..disk.calls().len() {
        let trials = trials_at(disk.calls(), moment + 1, trials);
        if !images_open(alloc, disk, moment + 1, trials, contents) {
            return false;
        }
    }
    true
}

/// How many trials the images get of each moment of a call that answered Ok, and of one that
/// failed.
#[derive(Clone, Copy)]
struct Trials {
    ok: u64,
    failed: u64,
}

/// Makes a call. Says which of two contents the store then has, the one of before or the one that
/// the call makes; nothing if an image opens to another one, or at the end to the other one.
fn found_after(
    alloc: Global,
    store: &mut JournalStore<MemoryDisk>,
    step: &Step,
    trials: Trials,
    contents: [&[u8]; 2],
) -> Option<usize> {
    let first = store.disk().calls().len();
    let (found, trials) = if call(store, step) {
        (Some(1), trials.ok)
    } else {
        (has_one_of(store, &contents), trials.failed)
    };
    let content = match found {
        Some(0) => contents[0],
        Some(_) => contents[1],
        None => return None,
    };
    let last = store.disk().calls().len();
    let are_allowed = images_open_since(alloc, store.disk(), first, trials, &contents)
        && images_open(alloc, store.disk(), last, 1, &[content]);
    if are_allowed { found } else { None }
}

/// The content of a store, and the one that the next call makes of it.
#[derive(Drop)]
struct Contents {
    now: Vec<u8>,
    next: Vec<u8>,
}

/// Makes the calls of the run, and says whether each image opens to a content that it may.
fn runs(
    alloc: Global,
    store: &mut JournalStore<MemoryDisk>,
    contents: &mut Contents,
    trials: Trials,
) -> Result<bool, AllocError> {
    for step in &RUN {
        change(&mut contents.next, &contents.now, step)?;
        match found_after(alloc, store, step, trials, [&contents.now, &contents.next]) {
            Some(0) => {}
            Some(_) => mem::swap(&mut contents.now, &mut contents.next),
            None => return Ok(false),
        }
    }
    Ok(true)
}

/// The run on a disk whose call `at` fails, if it is given. Returns how many calls the disk took,
/// or nothing if an image opened to a content that it may not.
fn calls_of(
    alloc: Global,
    at: Option<usize>,
    done: u64,
    trials: Trials,
) -> Result<Option<usize>, AllocError> {
    let mut store = store_that_fails(alloc, at, done)?;
    let mut contents = Contents {
        now: Vec::new(alloc),
        next: Vec::new(alloc),
    };
    let is_right = runs(alloc, &mut store, &mut contents, trials);
    let calls = store.disk().calls().len();
    drop(contents);
    drop(store);
    Ok(is_right?.then_some(calls))
}

/// Says whether the run is right on each disk of which one call fails.
fn each_fails_once(alloc: Global, calls: usize) -> Result<bool, AllocError> {
    let trials = Trials {
        ok: 0,
        failed: ALIKE,
    };
    for at in 0..calls {
        if calls_of(alloc, Some(at), 3, trials)?.is_none() {
            return Ok(false);
        }
    }
    Ok(true)
}

#[test]
fn each_image_opens_to_a_content_of_its_moment(rt: HostRuntime) -> Result<(), Fail> {
    let alloc = rt.alloc();
    let trials = Trials { ok: ALL, failed: 0 };
    let calls = calls_of(alloc, None, 0, trials)?;
    assert!(rt; calls.is_some());
    let is_right = each_fails_once(alloc, calls.unwrap_or(0))?;
    assert!(rt; is_right);
    Ok(())
}
