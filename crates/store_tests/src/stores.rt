ghost use Rattle.std.specs.Prelude.{◌≤◌, length};

use journal_disk::{DiskFate, MemoryDisk, Tear};
use journal_store::JournalStore;
use record_journal::Keeper;
use std::alloc::{AllocError, Global};

/// An empty store on a disk in memory whose call `at` fails, if it is given: of a write so many
/// bytes reach the file all the same.
pub fn store_that_fails(
    alloc: Global,
    at: Option<usize>,
    done: u64,
) -> Result<JournalStore<MemoryDisk>, AllocError> {
    let mut fates = Vec::new(alloc);
    if let Some(at) = at {
        put_fates(&mut fates, at, done)?;
    }
    Ok(JournalStore::new(alloc, MemoryDisk::new(alloc, fates)))
}

/// Puts a fault and so many successes before it.
fn put_fates(fates: &mut Vec<DiskFate>, at: usize, done: u64) -> Result<(), AllocError> {
    fates.push(DiskFate::Fails { done })?;
    for _ in 0..at {
        fates.push(DiskFate::Succeeds)?;
    }
    Ok(())
}

/// Which of some contents a store has once it is opened, if it has one of them.
pub fn opens_to(alloc: Global, image: MemoryDisk, contents: &[&[u8]]) -> Option<usize> {
    let mut store = JournalStore::new(alloc, image);
    let is_open = store.open_at(Some("store")).is_ok();
    let found = has_one_of(&mut store, contents);
    drop(store);
    if is_open { found } else { None }
}

/// Which of some contents a store has, if it has one of them.
pub fn has_one_of(store: &mut JournalStore<MemoryDisk>, contents: &[&[u8]]) -> Option<usize> {
    match store.read_all() {
        Ok(all) => {
            let found = contents
                .iter()
                .position(|content| *content == all.as_slice());
            drop(all);
            found
        }
        Err(_) => None,
    }
}

/// What an image opens to that a crash after so many calls may have left.
pub fn image_opens_to(
    alloc: Global,
    disk: &MemoryDisk,
    moment: usize,
    tears: &[Tear],
    contents: &[&[u8]],
) -> Option<usize>
    requires { moment ≤ length disk.now.past }
{
    match disk.offer(alloc, moment, tears) {
        Ok(image) => opens_to(alloc, image, contents),
        Err(_) => None,
    }
}

/// The bytes of parts.
pub fn joined(alloc: Global, parts: &[&[u8]]) -> Result<Vec<u8>, AllocError> {
    let mut bytes = Vec::new(alloc);
    for part in parts {
        bytes.extend_from_slice(part)?;
    }
    Ok(bytes)
}

/// Appends parts, and says whether all are kept.
pub fn appends(store: &mut JournalStore<MemoryDisk>, parts: &[&[u8]]) -> bool {
    for part in parts {
        if store.append(part).is_err() {
            return false;
        }
    }
    true
}

/// Says whether a store has this content.
pub fn has(store: &mut JournalStore<MemoryDisk>, content: &[u8]) -> bool {
    match store.read_all() {
        Ok(all) => {
            let is_so = all.as_slice() == content;
            drop(all);
            is_so
        }
        Err(_) => false,
    }
}
