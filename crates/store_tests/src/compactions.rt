use crate::bytes::{LONG, SHORT};
use crate::stores::{appends, has, joined, store_that_fails};
use journal_disk::MemoryDisk;
use journal_store::JournalStore;
use scm_compacted::compact;
use std::alloc::Global;
use std::test::*;

/// How many calls of the disk fail in turn.
const CALLS: usize = 48;

/// Compacts a store of two services of which one is removed, and says whether what is left is as it
/// has to be: the short journal after success, and after a fault that or the long one.
fn is_left(
    alloc: Global,
    store: &mut JournalStore<MemoryDisk>,
    long: &[u8],
    short: &[u8],
) -> Option<bool> {
    if !appends(store, LONG) {
        return None;
    }
    let is_done = compact(alloc, store, "store").is_ok();
    let is_short = has(store, short);
    Some(is_short || (!is_done && has(store, long)))
}

#[test]
fn a_store_keeps_the_services_that_stand(rt: HostRuntime) -> Result<(), Fail> {
    let alloc = rt.alloc();
    let short = joined(alloc, SHORT)?;
    let mut store = store_that_fails(alloc, None, 0)?;
    let is_kept = appends(&mut store, LONG);
    let is_done = compact(alloc, &mut store, "store").is_ok();
    let is_short = has(&mut store, short.as_slice());
    drop(store);
    assert!(rt; is_kept);
    assert!(rt; is_done);
    assert!(rt; is_short);
    Ok(())
}

#[test]
fn a_fault_leaves_the_old_journal_or_the_new_one(rt: HostRuntime) -> Result<(), Fail> {
    let alloc = rt.alloc();
    let long = joined(alloc, LONG)?;
    let short = joined(alloc, SHORT)?;
    for at in 0..CALLS {
        let mut store = store_that_fails(alloc, Some(at), 3)?;
        let left = is_left(alloc, &mut store, long.as_slice(), short.as_slice());
        drop(store);
        assert!(rt; left != Some(false), "{at}");
    }
    Ok(())
}
