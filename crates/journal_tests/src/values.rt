//! What the tests build their values with.
use record_journal::{Fate, Journal, KeepFault, Keeper, MemoryKeeper};
use scm_model::{Change, Config};
use scm_text::OutOfMemory;
use std::alloc::{AllocError, Global};
use test_values::{append_ascii, unnamed};

/// Names a configuration, with the same display name, and gives it a path.
pub fn name(config: &mut Config, name: &str, path: &str) -> Result<(), OutOfMemory> {
    append_ascii(&mut config.name, name)?;
    append_ascii(&mut config.display, name)?;
    append_ascii(&mut config.path, path)
}

/// A service `A` with the path `/a`.
pub fn plain(alloc: Global) -> Result<Config, OutOfMemory> {
    let mut config = unnamed(alloc);
    match name(&mut config, "A", "/a") {
        Ok(()) => Ok(config),
        Err(why) => {
            drop(config);
            Err(why)
        }
    }
}

/// Fates in the order in which a keeper takes them from their end, after so many calls that
/// succeed.
fn taken(alloc: Global, before: usize, fates: &[Fate]) -> Result<Vec<Fate>, AllocError> {
    let mut all = Vec::from_slice(alloc, fates)?;
    all.reverse();
    for _ in 0..before {
        all.push(Fate::Succeeds)?;
    }
    Ok(all)
}

/// A keeper that holds these bytes. Its calls come to these fates, in their order, after so many
/// that succeed.
pub fn keeper(
    alloc: Global,
    bytes: &[u8],
    before: usize,
    fates: &[Fate],
) -> Result<MemoryKeeper, AllocError> {
    match (Vec::from_slice(alloc, bytes), taken(alloc, before, fates)) {
        (Ok(bytes), Ok(fates)) => Ok(MemoryKeeper::new(bytes, fates)),
        _ => Err(AllocError),
    }
}

/// Appends a change, and lets it go.
pub fn append<K: Keeper>(
    alloc: Global,
    journal: &mut Journal,
    keeper: &mut K,
    change: Change,
) -> Result<(), KeepFault> {
    let kept = journal.append(alloc, keeper, &change);
    drop(change);
    kept
}
