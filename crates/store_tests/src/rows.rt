use crate::stores::{image_opens_to, store_that_fails};
use journal_disk::{MemoryDisk, Tear};
use journal_store::JournalStore;
use record_journal::Keeper;
use std::alloc::Global;
use std::test::*;

/// The first log after two appends, of `ab` and of `cd`: each record is an open gate, its length
/// and its bytes, and a closed gate ends the log.
pub const LOG: [u8; 23] = [
    1, 2, 0, 0, 0, 0, 0, 0, 0, 0x61, 0x62, 1, 2, 0, 0, 0, 0, 0, 0, 0, 0x63, 0x64, 0,
];

/// The byte that a crash in the write of the last gate leaves there, and the content then.
const CRASHES: [(u8, &[u8]); 2] = [(9, b"abcd"), (0, b"ab")];

/// Appends twice, and says whether both are kept.
fn appends_twice(store: &mut JournalStore<MemoryDisk>) -> bool {
    store.append(b"ab").is_ok() && store.append(b"cd").is_ok()
}

/// Says whether the last write, which was torn to a byte, leaves a content.
fn leaves(alloc: Global, disk: &MemoryDisk, byte: u8, content: &[u8]) -> bool {
    let calls = disk.calls().len();
    if calls == 0 {
        return false;
    }
    let tear = Tear {
        kept: 0,
        byte,
        longer: 1,
    };
    image_opens_to(alloc, disk, calls - 1, &[tear], &[content]) == Some(0)
}

#[test]
fn appends_are_records(rt: HostRuntime) -> Result<(), Fail> {
    let alloc = rt.alloc();
    let mut store = store_that_fails(alloc, None, 0)?;
    let is_kept = appends_twice(&mut store);
    let is_log = store.disk().bytes(1) == LOG.as_slice();
    let first = leaves(alloc, store.disk(), CRASHES[0].0, CRASHES[0].1);
    let second = leaves(alloc, store.disk(), CRASHES[1].0, CRASHES[1].1);
    drop(store);
    assert!(rt; is_kept);
    assert!(rt; is_log);
    assert!(rt; first);
    assert!(rt; second);
    Ok(())
}
