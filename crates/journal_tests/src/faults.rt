use crate::bytes::HEADER;
use crate::values::{append, keeper};
use record_journal::{Fate, Journal, KeepFault, MemoryKeeper};
use scm_model::Change;
use scm_text::WText;
use std::alloc::{AllocError, Global};
use std::test::*;

/// The names of the services that are removed, of one letter each.
const NAMES: &str = "abcdefghijklmnopqrst";

/// Appends the removal of a service, and says whether it is kept.
fn keeps(
    alloc: Global,
    journal: &mut Journal,
    keeper: &mut MemoryKeeper,
    name: u8,
) -> Result<bool, Fail> {
    let name = WText::from_units(alloc, &[u16::from(name)])?;
    match append(alloc, journal, keeper, Change::Removed(name)) {
        Ok(()) => Ok(true),
        Err(KeepFault::Failed) => Ok(false),
        Err(KeepFault::OutOfMemory) => Err("memory".into()),
    }
}

/// Appends the removals of some services to an empty journal, and lists the names of those that are
/// kept.
fn keep(
    alloc: Global,
    keeper: &mut MemoryKeeper,
    names: &str,
    kept: &mut Vec<u8>,
) -> Result<(), Fail> {
    let mut journal = Journal::empty();
    for name in names.as_bytes() {
        if keeps(alloc, &mut journal, keeper, *name)? {
            kept.push(*name)?;
        }
    }
    Ok(())
}

/// The twenty names but those from one place on that are refused.
fn list_others(names: &mut Vec<u8>, place: usize, refused: usize) -> Result<(), AllocError> {
    for (i, name) in NAMES.as_bytes().iter().enumerate() {
        if i < place || place.saturating_add(refused) <= i {
            names.push(*name)?;
        }
    }
    Ok(())
}

/// Appends the stated entries of these removals.
fn state(bytes: &mut Vec<u8>, names: &[u8]) -> Result<(), AllocError> {
    for name in names {
        bytes.extend_from_slice(&[3, 6, 0, 0, 0, 1, 0, 0, 0, *name, 0])?;
    }
    Ok(())
}

/// A call fails when it has done so much.
const FAILS_AT_0: Fate = Fate::Fails { done: 0 };

const FAILS_AT_1: Fate = Fate::Fails { done: 1 };

const FAILS_AT_3: Fate = Fate::Fails { done: 3 };

const FAILS_AT_5: Fate = Fate::Fails { done: 5 };

const FAILS_AT_18: Fate = Fate::Fails { done: 18 };

const FAILS_AT_99: Fate = Fate::Fails { done: 99 };

/// What becomes of three calls, and how many removals are refused by them.
const FATES: [([Fate; 3], usize); 9] = [
    ([FAILS_AT_0, Fate::Succeeds, Fate::Succeeds], 1),
    ([FAILS_AT_5, Fate::Succeeds, Fate::Succeeds], 1),
    ([FAILS_AT_99, Fate::Succeeds, Fate::Succeeds], 1),
    // the cut before the next append fails too
    ([FAILS_AT_0, FAILS_AT_0, Fate::Succeeds], 2),
    ([FAILS_AT_5, FAILS_AT_0, Fate::Succeeds], 2),
    ([FAILS_AT_5, FAILS_AT_1, Fate::Succeeds], 2),
    ([FAILS_AT_99, FAILS_AT_0, Fate::Succeeds], 2),
    ([FAILS_AT_99, FAILS_AT_1, Fate::Succeeds], 2),
    // the append after the cut fails
    ([FAILS_AT_99, Fate::Succeeds, FAILS_AT_5], 2),
];

/// Whether these names are listed, and a keeper holds the stated journal of their removals.
fn are_kept(alloc: Global, kept: &[u8], bytes: &[u8], names: &[u8]) -> Result<bool, AllocError> {
    let mut stated = Vec::from_slice(alloc, HEADER)?;
    state(&mut stated, names)?;
    Ok(kept == names && bytes == stated.as_slice())
}

/// Whether the removals of the twenty services are kept, but for those that are refused from one
/// place on.
fn keeps_others(
    alloc: Global,
    keeper: &mut MemoryKeeper,
    place: usize,
    refused: usize,
) -> Result<bool, Fail> {
    let mut kept = Vec::new(alloc);
    let mut names = Vec::new(alloc);
    list_others(&mut names, place, refused)?;
    keep(alloc, keeper, NAMES, &mut kept)?;
    Ok(are_kept(alloc, &kept, keeper.bytes(), &names)?)
}

/// Whether faults from one call on refuse so many removals alone.
fn are_refused(alloc: Global, call: usize, fates: &[Fate], refused: usize) -> Result<bool, Fail> {
    let mut keeper = keeper(alloc, &[], call, fates)?;
    let are_refused = keeps_others(alloc, &mut keeper, call, refused);
    drop(keeper);
    are_refused
}

#[test]
fn a_fault_at_any_call_refuses_its_change_alone(rt: HostRuntime) -> Result<(), Fail> {
    for call in 0..18 {
        for (fates, refused) in &FATES {
            assert!(rt; are_refused(rt.alloc(), call, fates, *refused)?);
        }
    }
    Ok(())
}

/// Whether a keeper holds these bytes after the removals of services.
fn leaves(
    alloc: Global,
    keeper: &mut MemoryKeeper,
    names: &str,
    want: &[u8],
) -> Result<bool, Fail> {
    let mut kept = Vec::new(alloc);
    keep(alloc, keeper, names, &mut kept)?;
    Ok(keeper.bytes() == want)
}

/// The same of a new keeper whose calls come to these fates.
fn is_left(alloc: Global, names: &str, fates: &[Fate], want: &[u8]) -> Result<bool, Fail> {
    let mut keeper = keeper(alloc, &[], 0, fates)?;
    let is_left = leaves(alloc, &mut keeper, names, want);
    drop(keeper);
    is_left
}

/// The names of the services, what becomes of the calls, and what is left.
const ROWS: [(&str, [Fate; 2], &[u8]); 9] = [
    ("a", [FAILS_AT_0, Fate::Succeeds], &[]),
    (
        "a",
        [FAILS_AT_5, Fate::Succeeds],
        &[0x53, 0x43, 0x4D, 0x4A, 2],
    ),
    (
        "a",
        [FAILS_AT_99, Fate::Succeeds],
        &[
            0x53, 0x43, 0x4D, 0x4A, 2, 0, 0, 0, 3, 6, 0, 0, 0, 1, 0, 0, 0, 0x61, 0,
        ],
    ),
    ("ab", [FAILS_AT_5, FAILS_AT_0], &[0x53, 0x43, 0x4D, 0x4A, 2]),
    ("ab", [FAILS_AT_5, FAILS_AT_1], &[]),
    // both appends fail, and a part of the piece of the first change stands
    (
        "ab",
        [FAILS_AT_18, FAILS_AT_0],
        &[
            0x53, 0x43, 0x4D, 0x4A, 2, 0, 0, 0, 3, 6, 0, 0, 0, 1, 0, 0, 0, 0x61,
        ],
    ),
    (
        "ab",
        [FAILS_AT_5, Fate::Succeeds],
        &[
            0x53, 0x43, 0x4D, 0x4A, 2, 0, 0, 0, 3, 6, 0, 0, 0, 1, 0, 0, 0, 0x62, 0,
        ],
    ),
    (
        "ab",
        [Fate::Succeeds, FAILS_AT_3],
        &[
            0x53, 0x43, 0x4D, 0x4A, 2, 0, 0, 0, 3, 6, 0, 0, 0, 1, 0, 0, 0, 0x61, 0, 3, 6, 0,
        ],
    ),
    (
        "abc",
        [Fate::Succeeds, FAILS_AT_3],
        &[
            0x53, 0x43, 0x4D, 0x4A, 2, 0, 0, 0, 3, 6, 0, 0, 0, 1, 0, 0, 0, 0x61, 0, 3, 6, 0, 0, 0,
            1, 0, 0, 0, 0x63, 0,
        ],
    ),
];

#[test]
fn a_fault_leaves_a_front_of_its_piece(rt: HostRuntime) -> Result<(), Fail> {
    for (place, (names, fates, want)) in ROWS.iter().enumerate() {
        assert!(rt; is_left(rt.alloc(), names, fates, want)?, "row {place}");
    }
    Ok(())
}
