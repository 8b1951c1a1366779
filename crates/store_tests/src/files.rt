use crate::rows::LOG;
use journal_disk::FileDisk;
use journal_store::{Compactor, JournalStore};
use record_journal::Keeper;
use std::alloc::Global;
use std::fs;
use std::fs::File;
use std::os::unix::fs::PermissionsExt;
use std::rt::Files;
use std::test::*;

/// Opens a store under a path, and says whether it holds a content.
fn opens<R: Files<File = File> + Drop>(
    store: &mut JournalStore<FileDisk<R>>,
    path: Option<&str>,
    content: &[u8],
) -> bool {
    store.open_at(path).is_ok() && holds(store, content)
}

/// Says whether a store holds a content.
fn holds<R: Files<File = File> + Drop>(
    store: &mut JournalStore<FileDisk<R>>,
    content: &[u8],
) -> bool {
    match store.read_all() {
        Ok(all) => {
            let is_held = all.as_slice() == content;
            drop(all);
            is_held
        }
        Err(_) => false,
    }
}

/// Says whether a store of its own finds a content under a path.
fn finds(alloc: Global, rt: HostRuntime, path: &str, content: &[u8]) -> bool {
    let mut store = JournalStore::new(alloc, FileDisk::new(alloc, rt));
    let is_found = opens(&mut store, Some(path), content);
    drop(store);
    is_found
}

/// Says whether a file has these bytes.
fn has(rt: HostRuntime, path: &str, wanted: &[u8]) -> bool {
    match fs::read(&rt, path) {
        Ok(bytes) => {
            let is_same = bytes.as_slice() == wanted;
            drop(bytes);
            is_same
        }
        Err(_) => false,
    }
}

/// Says whether nobody but its owner may read and write a file.
fn is_private(rt: HostRuntime, path: &str) -> bool {
    match fs::metadata(&rt, path) {
        Ok(metadata) => metadata.permissions().mode() & 0o777 == 0o600,
        Err(_) => false,
    }
}

const PATH: &str = "jadehem_store_tests";

const FILES: [&str; 3] = [
    "jadehem_store_tests.s",
    "jadehem_store_tests.1",
    "jadehem_store_tests.2",
];

fn remove(rt: HostRuntime) {
    for file in FILES {
        let _ = fs::remove_file(&rt, file);
    }
}

#[test]
fn files_keep_a_content(rt: HostRuntime) -> Result<(), Fail> {
    let alloc = rt.alloc();
    remove(rt);
    let mut store = JournalStore::new(alloc, FileDisk::new(alloc, rt));
    let is_empty = opens(&mut store, Some(PATH), b"");
    let is_kept = store.append(b"ab").is_ok() && store.append(b"cd").is_ok();
    let is_log = has(rt, FILES[1], LOG.as_slice());
    let are_private = is_private(rt, FILES[0])
        && is_private(rt, FILES[1])
        && is_private(rt, FILES[2]);
    let is_held_alone = !finds(alloc, rt, PATH, b"abcd");
    drop(store);
    let mut store = JournalStore::new(alloc, FileDisk::new(alloc, rt));
    let is_left = opens(&mut store, Some(PATH), b"abcd");
    let is_replaced = store.replace(b"e").is_ok();
    drop(store);
    let is_other = finds(alloc, rt, PATH, b"e") && has(rt, FILES[0], &[1]);
    remove(rt);
    assert!(rt; is_empty && is_kept);
    assert!(rt; is_log);
    assert!(rt; are_private);
    assert!(rt; is_held_alone);
    assert!(rt; is_left && is_replaced && is_other);
    Ok(())
}

#[test]
fn memory_keeps_a_content(rt: HostRuntime) -> Result<(), Fail> {
    let alloc = rt.alloc();
    let mut store = JournalStore::new(alloc, FileDisk::new(alloc, rt));
    let is_empty = opens(&mut store, None, b"");
    let is_kept = store.append(b"ab").is_ok() && store.append(b"cd").is_ok();
    let is_held = holds(&mut store, b"abcd");
    let is_cut = store.cut(3).is_ok() && holds(&mut store, b"abc");
    let is_emptied = opens(&mut store, None, b"");
    drop(store);
    assert!(rt; is_empty && is_kept);
    assert!(rt; is_held);
    assert!(rt; is_cut);
    assert!(rt; is_emptied);
    Ok(())
}
