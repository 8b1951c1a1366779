use crate::values::{append, plain};
use record_journal::{FileKeeper, Journal, Keeper, open_journal};
use scm_model::Change;
use std::alloc::Global;
use std::fs::File;
use std::rt::Files;
use std::test::*;
use std::{env, fs};

/// How many services the journal in a file has, and how many of its bytes are kept.
fn opened<R: Files<File = File> + Drop>(
    alloc: Global,
    keeper: &mut FileKeeper<R>,
    path: &str,
) -> Option<(usize, u64)> {
    match open_journal(alloc, keeper, Some(path)) {
        Ok(opened) => {
            let told = (opened.configs.len(), opened.journal.good);
            drop(opened);
            Some(told)
        }
        Err(_) => None,
    }
}

/// Appends the creation of a service to an empty journal, and says whether it is kept.
fn creates<R: Files<File = File> + Drop>(alloc: Global, keeper: &mut FileKeeper<R>) -> bool {
    let Ok(config) = plain(alloc) else {
        return false;
    };
    append(
        alloc,
        &mut Journal::empty(),
        keeper,
        Change::Created(config),
    )
    .is_ok()
}

/// What is appended to a file, what an opening then finds, and how long the file is then.
type Row = (&'static [u8], Option<(usize, u64)>, usize);

const ROWS: [Row; 3] = [
    (&[], Some((1, 79)), 79),
    (&[3, 6, 0, 0], Some((1, 79)), 79),
    (&[7, 0, 0, 0, 0], None, 84),
];

/// Appends to a file, which no other keeper can open meanwhile, and says whether another then finds
/// what it should.
fn is_found<R: Files<File = File> + Drop>(
    alloc: Global,
    mut keeper: FileKeeper<R>,
    mut other: FileKeeper<R>,
    path: &str,
    row: &Row,
) -> bool {
    let is_opened = keeper.open_at(Some(path)).is_ok();
    let is_held = other.open_at(Some(path)).is_err();
    let is_appended = keeper.append(row.0).is_ok();
    drop(keeper);
    let found = opened(alloc, &mut other, path);
    drop(other);
    is_opened && is_held && is_appended && found == row.1
}

#[test]
fn a_file_keeps_a_journal(rt: HostRuntime) -> Result<(), Fail> {
    let alloc = rt.alloc();
    let path = env::temp_dir(&rt)?.join(alloc, "jadehem_journal_tests")?;
    let path = path.as_str();
    let _ = fs::remove_file(&rt, path);
    let mut keeper = FileKeeper::new(alloc, rt);
    assert!(rt; opened(alloc, &mut keeper, path) == Some((0, 0)));
    assert!(rt; creates(alloc, &mut keeper));
    drop(keeper);
    for row in &ROWS {
        let keeper = FileKeeper::new(alloc, rt);
        let other = FileKeeper::new(alloc, rt);
        assert!(rt; is_found(alloc, keeper, other, path, row));
        let length = match fs::read(&rt, path) {
            Ok(bytes) => bytes.len(),
            Err(_) => 0,
        };
        assert!(rt; length == row.2);
    }
    fs::remove_file(&rt, path)?;
    Ok(())
}
