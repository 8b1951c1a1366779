//! The program in memory.
use journal_disk::{DiskFate, MemoryDisk};
use journal_store::JournalStore;
use outside::{FixedClock, MemorySink, MemorySource};
use process_runner::MemorySpawner;
use record_journal::{Fate, MemoryKeeper};
use scm_listener::{MemoryListener, MemoryPeer};
use scm_text::{Items, Text};
use scmd_top::{World, scmd_main};
use std::alloc::Global;
use std::collections::VecDeque;
use std::sync::Wait;
use std::thread::Threads;
use std::time;

/// Puts words, between which such a letter stands. `None` where there is no memory.
pub fn put_words(alloc: Global, all: &mut Vec<Text>, words: &str, between: char) -> Option<()> {
    for word in words.split(between) {
        all.push(Text::from_str(alloc, word).ok()?).ok()?;
    }
    Some(())
}

/// The peers that connect to a listener, and which of its calls fail, the last one first.
#[derive(Drop)]
pub struct Coming {
    pub peers: VecDeque<MemoryPeer>,
    pub fails: Vec<bool>,
}

impl Coming {
    fn nobody(alloc: Global) -> Self {
        Coming {
            peers: VecDeque::new(alloc),
            fails: Vec::new(alloc),
        }
    }

    fn listener(self, alloc: Global) -> MemoryListener {
        let Coming { peers, fails } = self;
        MemoryListener::new(alloc, peers, fails)
    }
}

/// What a run meets: its words; its input, of which each read gives so many bytes at most; what its
/// keeper has before it; what becomes of calls, the last one of each list first: each `true` is a
/// read or a write that fails, and `disk` is for the disk of its store; and who comes.
#[derive(Drop)]
pub struct Outside {
    pub words: Vec<Text>,
    pub input: Vec<u8>,
    pub piece: usize,
    pub reads: Vec<bool>,
    pub writes: Vec<bool>,
    pub stands: Vec<u8>,
    pub keeps: Vec<Fate>,
    pub disk: Vec<DiskFate>,
    pub admin: Coming,
    pub user: Coming,
}

impl Outside {
    /// Nothing at all, for a run without words.
    pub fn new(alloc: Global) -> Self {
        Outside {
            words: Vec::new(alloc),
            input: Vec::new(alloc),
            piece: 0,
            reads: Vec::new(alloc),
            writes: Vec::new(alloc),
            stands: Vec::new(alloc),
            keeps: Vec::new(alloc),
            disk: Vec::new(alloc),
            admin: Coming::nobody(alloc),
            user: Coming::nobody(alloc),
        }
    }
}

/// What a run in memory has met.
pub type Memory = World<
    MemorySource,
    MemorySink,
    MemoryKeeper,
    JournalStore<MemoryDisk>,
    MemoryListener,
    MemorySpawner,
    FixedClock,
>;

/// The words of a run, and the world that it meets.
pub fn world_of(alloc: Global, outside: Outside) -> (Vec<Text>, Memory) {
    let Outside {
        words,
        input,
        piece,
        reads,
        writes,
        stands,
        keeps,
        disk,
        admin,
        user,
    } = outside;
    let world = World {
        input: MemorySource::in_pieces(input, piece, reads),
        output: MemorySink::new(alloc, writes),
        keeper: MemoryKeeper::new(stands, keeps),
        store: JournalStore::new(alloc, MemoryDisk::new(alloc, disk)),
        admin: admin.listener(alloc),
        user: user.listener(alloc),
        spawner: MemorySpawner::new(alloc, Vec::new(alloc)),
        clock: FixedClock { moment: 7 },
    };
    (words, world)
}

/// The status of `scmd` where it meets this, and what it leaves.
pub fn run<R>(rt: &R, alloc: Global, outside: Outside) -> (u8, Memory)
where
    R: Threads + Wait + time::Clock + Sync,
{
    let (words, world) = world_of(alloc, outside);
    let words = Items::from_vec(words);
    let ended = scmd_main(rt, alloc, &words, world);
    drop(words);
    ended
}
