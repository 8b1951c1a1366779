// What becomes of the starts of a spawner in memory, the last one first.
use child_link::MemoryLink;
use outside::{MemorySink, MemorySource};
use process_runner::{SpawnFault, Spawned};
use std::alloc::Global;

pub type Fate = Result<Spawned<MemoryLink, MemorySink>, SpawnFault>;

pub type Fates = Vec<Fate>;

fn add(fates: &mut Fates, fate: Fate) -> bool {
    let pushed = fates.push(fate);
    let is_added = pushed.is_ok();
    drop(pushed);
    is_added
}

/// Adds a start that fails. Whether there is memory for it.
pub fn add_fault(fates: &mut Fates, fault: SpawnFault) -> bool {
    add(fates, Err(fault))
}

/// Adds a child whose waits fail so, the last of them first.
pub fn add_source(
    alloc: Global,
    fates: &mut Fates,
    pid: u32,
    output: MemorySource,
    waits: Vec<bool>,
) -> bool {
    let link = MemoryLink::new(pid, output, waits);
    let feed = MemorySink::new(alloc, Vec::new(alloc));
    add(fates, Ok(Spawned { link, feed }))
}

/// Adds a child of this number that writes this.
pub fn add_child(alloc: Global, fates: &mut Fates, pid: u32, output: &[u8]) -> bool {
    match Vec::from_slice(alloc, output) {
        Ok(bytes) => {
            let output = MemorySource::new(bytes, Vec::new(alloc));
            add_source(alloc, fates, pid, output, Vec::new(alloc))
        }
        Err(_) => false,
    }
}
