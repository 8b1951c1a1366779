use crate::bytes::{HEADER, LONG, SHORT};
use crate::stores::{appends, has, joined, store_that_fails};
use journal_disk::MemoryDisk;
use journal_store::JournalStore;
use record_journal::{JournalFault, MemoryKeeper};
use scm_compacted::{MoveFault, move_journal};
use std::alloc::{AllocError, Global};
use std::test::*;

/// What a journal and a store are made of, what the move answers, and what the store then has.
struct Row {
    from: &'static [&'static [u8]],
    to: &'static [&'static [u8]],
    want: Result<(), MoveFault>,
    left: &'static [&'static [u8]],
}

const ROWS: [Row; 4] = [
    Row {
        from: LONG,
        to: &[],
        want: Ok(()),
        left: SHORT,
    },
    Row {
        from: &[],
        to: &[],
        want: Ok(()),
        left: &[HEADER],
    },
    Row {
        from: LONG,
        to: &[HEADER],
        want: Err(MoveFault::NotEmpty),
        left: &[HEADER],
    },
    Row {
        from: &[&[0x53, 0x43, 9]],
        to: &[],
        want: Err(MoveFault::Journal(JournalFault::Damaged(0))),
        left: &[],
    },
];

/// Says whether a move answers so, and what it leaves.
fn moves(
    alloc: Global,
    keeper: &mut MemoryKeeper,
    store: &mut JournalStore<MemoryDisk>,
    row: &Row,
    left: &[u8],
) -> bool {
    appends(store, row.to)
        && move_journal(alloc, keeper, "journal", store, "store") == row.want
        && has(store, left)
}

/// Says whether a row holds.
fn holds(alloc: Global, row: &Row) -> Result<bool, AllocError> {
    let left = joined(alloc, row.left)?;
    let mut keeper = MemoryKeeper::new(joined(alloc, row.from)?, Vec::new(alloc));
    let mut store = store_that_fails(alloc, None, 0)?;
    let is_so = moves(alloc, &mut keeper, &mut store, row, left.as_slice());
    drop(store);
    drop(keeper);
    Ok(is_so)
}

#[test]
fn a_journal_is_moved_to_an_empty_store(rt: HostRuntime) -> Result<(), Fail> {
    for (place, row) in ROWS.iter().enumerate() {
        assert!(rt; holds(rt.alloc(), row)?, "{place}");
    }
    Ok(())
}
