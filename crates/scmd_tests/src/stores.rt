//! Runs one after another over one keeper and one store: a journal is moved to the store, looked at
//! and served from there, changed, and replaced by its compact text.
use crate::rows::GROUPS;
use crate::running::{Memory, Outside, put_words, world_of};
use journal_disk::MemoryDisk;
use journal_store::JournalStore;
use outside::{MemorySink, MemorySource};
use record_journal::Keeper;
use scm_text::{Items, Text};
use scmd_top::scmd_main;
use std::alloc::Global;
use std::mem::replace;
use std::sync::Wait;
use std::test::*;
use std::thread::Threads;
use std::time;
use svcctl_words::{Sheet, Side, put_hex};

/// A run over what the runs before it left, and how it ends.
#[derive(Clone, Copy)]
struct Next<'a> {
    words: &'a str,
    asked: &'a str,
    /// The rows whose text is written.
    told: &'a str,
    status: u8,
    /// What the store has at the end, in hexadecimal, where that is looked at.
    stored: Option<&'a str>,
}

/// A run that asks nothing, and is told nothing.
const QUIET: Next<'static> = Next {
    words: "",
    asked: "",
    told: "",
    status: 0,
    stored: None,
};

const NEXT: &[Next] = &[
    // There is nothing yet that a compaction could make shorter.
    Next {
        words: "compact --store new",
        stored: Some("53434d4a02000000"),
        ..QUIET
    },
];

/// A journal of form 1 in which A was created, which starts on demand.
const OLD_A: &str = "53434d4a01000000\
    013d000000010000004100010000004100100000000300000001000000020000002f00610000000000\
    00000000000000000000000000000000000000000000000000";

/// The same in form 2.
const NEW_A: &str = "53434d4a02000000\
    0142000000010000004100010000004100100000000300000001000000020000002f00610000000000\
    000000000000000000000000000000000000000000000000000000000000";

/// A journal in which B alone was created, which starts on demand.
const NEW_B: &str = "53434d4a02000000\
    0142000000010000004200010000004200100000000300000001000000020000002f00610000000000\
    000000000000000000000000000000000000000000000000000000000000";

const FINDS_A: &str = "administrator
| call 1 open h1 'A' 4 | reply h2 0
";

const A_BECOMES_B: &str = "bind
manager
| open h1 'A' #10000             | h2 0
| delete h2                      | 0
| close h2                       | h0 0
| create h1 'B' - own '/a' plain | - h3 0
";

const ONE_SERVED: &str = "|| steps 0; services 1
";

/// Runs over a file that has a journal and a store that has none.
const MOVES: &[Next] = &[
    Next {
        words: "move --db old --store new",
        stored: Some(NEW_A),
        ..QUIET
    },
    // What has bytes is never moved to.
    Next {
        words: "move --db old --store new",
        status: 13,
        stored: Some(NEW_A),
        ..QUIET
    },
    // A replay is over a file alone.
    Next {
        words: "replay --store new",
        asked: FINDS_A,
        status: 5,
        stored: Some(NEW_A),
        ..QUIET
    },
    Next {
        words: "serve --admin 135 --user 139 --store new",
        told: ONE_SERVED,
        stored: Some(NEW_A),
        ..QUIET
    },
    Next {
        words: "pipe --store new",
        asked: A_BECOMES_B,
        told: A_BECOMES_B,
        ..QUIET
    },
    Next {
        words: "compact --store new",
        stored: Some(NEW_B),
        ..QUIET
    },
    // The file has what it had.
    Next {
        words: "replay --db old",
        asked: FINDS_A,
        told: FINDS_A,
        stored: Some(NEW_B),
        ..QUIET
    },
    // No mode has both but a move, and none of these has one alone.
    Next {
        words: "pipe --db old --store new",
        status: 5,
        ..QUIET
    },
    Next {
        words: "serve --admin 135 --user 139 --store new --db old",
        status: 5,
        ..QUIET
    },
    Next {
        words: "compact --db old",
        status: 5,
        ..QUIET
    },
    Next {
        words: "compact --db old --store new",
        status: 5,
        ..QUIET
    },
    Next {
        words: "move --store new",
        status: 5,
        stored: Some(NEW_B),
        ..QUIET
    },
];

/// Puts the words and the input of a run. `None` where they can't be read, or where there is no
/// memory.
fn prepare(
    alloc: Global,
    sheet: &mut Sheet,
    next: &Next,
    words: &mut Vec<Text>,
    input: &mut Vec<u8>,
) -> Option<()> {
    put_words(alloc, words, next.words, ' ')?;
    sheet.put(next.words, next.asked, Side::Asks)?;
    input.extend_from_slice(sheet.bytes()).ok()
}

/// The status of `scmd` over what stands, and what it leaves.
fn go_on<R>(rt: &R, alloc: Global, words: Vec<Text>, input: Vec<u8>, world: Memory) -> (u8, Memory)
where
    R: Threads + Wait + time::Clock + Sync,
{
    let mut world = world;
    let input = MemorySource::in_pieces(input, 4096, Vec::new(alloc));
    drop(replace(&mut world.input, input));
    drop(replace(&mut world.output, MemorySink::new(alloc, Vec::new(alloc))));
    let words = Items::from_vec(words);
    let ended = scmd_main(rt, alloc, &words, world);
    drop(words);
    ended
}

/// Whether a store has what is stated, if anything is.
fn is_stored(alloc: Global, store: &mut JournalStore<MemoryDisk>, stored: Option<&str>) -> bool {
    let Some(hex) = stored else {
        return true;
    };
    let mut stated = Vec::new(alloc);
    let is_put = put_hex(&mut stated, hex).is_some();
    let is_so = match store.read_all() {
        Ok(all) => {
            let is_so = all.as_slice() == stated.as_slice();
            drop(all);
            is_so
        }
        Err(_) => false,
    };
    drop(stated);
    is_put && is_so
}

/// Whether a run ended as it is to.
fn is_as_stated(
    alloc: Global,
    sheet: &mut Sheet,
    next: &Next,
    status: u8,
    world: &mut Memory,
) -> bool {
    let is_told = sheet.put(next.words, next.told, Side::Tells).is_some()
        && sheet.bytes() == world.output.bytes();
    is_told && status == next.status && is_stored(alloc, &mut world.store, next.stored)
}

/// Makes a run over what stands. Whether it ends as it is to, and what it leaves.
fn follows<R>(
    rt: &R,
    alloc: Global,
    sheet: &mut Sheet,
    next: &Next,
    world: Memory,
) -> (bool, Memory)
where
    R: Threads + Wait + time::Clock + Sync,
{
    let mut words = Vec::new(alloc);
    let mut input = Vec::new(alloc);
    let is_ready = prepare(alloc, sheet, next, &mut words, &mut input).is_some();
    let (status, mut world) = go_on(rt, alloc, words, input, world);
    let is_so = is_as_stated(alloc, sheet, next, status, &mut world);
    (is_ready && is_so, world)
}

/// Where a file has this journal and a store has none, in hexadecimal.
fn begin(alloc: Global, hex: &str) -> (bool, Memory) {
    let mut outside = Outside::new(alloc);
    let is_put = put_hex(&mut outside.stands, hex).is_some();
    let (words, world) = world_of(alloc, outside);
    drop(words);
    (is_put, world)
}

/// The first of some runs one after another that doesn't end as it is to.
fn first_otherwise<R>(
    rt: &R,
    alloc: Global,
    sheet: &mut Sheet,
    hex: &str,
    runs: &[Next<'static>],
) -> Option<&'static str>
where
    R: Threads + Wait + time::Clock + Sync,
{
    let (is_put, mut world) = begin(alloc, hex);
    let mut first = if is_put { None } else { Some("a journal") };
    for next in runs {
        let (is_so, left) = follows(rt, alloc, sheet, next, world);
        world = left;
        if !is_so && first.is_none() {
            first = Some(next.words);
        }
    }
    drop(world);
    first
}

#[test]
fn a_journal_is_moved_and_compacted(rt: HostRuntime) {
    let mut sheet = Sheet::new(rt.alloc(), GROUPS);
    let moves = first_otherwise(&rt, rt.alloc(), &mut sheet, OLD_A, MOVES);
    let compacts = first_otherwise(&rt, rt.alloc(), &mut sheet, "", NEXT);
    drop(sheet);
    assert_eq!(rt; moves, None);
    assert_eq!(rt; compacts, None);
}
