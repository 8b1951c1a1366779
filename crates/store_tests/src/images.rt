//! What the images open to that a crash may leave in a run of appends and compactions.
ghost use Rattle.std.specs.Prelude.{◌≤◌, length};

use crate::bytes::{CREATED_A, CREATED_B, HEADER, REMOVED_A, REMOVED_B};
use crate::stores::{joined, store_that_fails};
use journal_disk::{DiskCall, DiskFate, MemoryDisk, TakenCall, Tear};
use journal_store::JournalStore;
use record_journal::{Keeper, Restored, open_journal};
use scm_compacted::compact;
use scm_text::WText;
use std::alloc::{AllocError, Global};
use std::test::*;

/// A call of the run.
#[derive(Clone, Copy)]
enum Step {
    /// Appends these parts as one.
    Append(&'static [&'static [u8]]),
    Compact,
}

/// A call, and the names of the services after it, of one letter each.
type Row = (Step, &'static str);

/// Twenty appends and two compactions.
const RUN: &[Row] = &[
    (Step::Append(&[HEADER, CREATED_A]), "A"),
    (Step::Append(&[CREATED_B]), "AB"),
    (Step::Append(&[REMOVED_A]), "B"),
    (Step::Append(&[CREATED_A]), "BA"),
    (Step::Append(&[REMOVED_B]), "A"),
    (Step::Append(&[CREATED_B]), "AB"),
    (Step::Append(&[REMOVED_A]), "B"),
    (Step::Compact, "B"),
    (Step::Append(&[CREATED_A]), "BA"),
    (Step::Append(&[REMOVED_B]), "A"),
    (Step::Append(&[REMOVED_A]), ""),
    (Step::Append(&[CREATED_B]), "B"),
    (Step::Append(&[CREATED_A]), "BA"),
    (Step::Append(&[REMOVED_B]), "A"),
    (Step::Compact, "A"),
    (Step::Append(&[CREATED_B]), "AB"),
    (Step::Append(&[REMOVED_A]), "B"),
    (Step::Append(&[REMOVED_B]), ""),
    (Step::Append(&[CREATED_A]), "A"),
    (Step::Append(&[CREATED_B]), "AB"),
    (Step::Append(&[REMOVED_B]), "A"),
    (Step::Append(&[CREATED_B]), "AB"),
];

/// How many lengths a tear has of what a compaction writes: a header and one service.
const COMPACTED: u64 = 80;

/// How many bytes parts have.
fn size_of(parts: &[&[u8]]) -> usize {
    let mut size = 0usize;
    for part in parts {
        size = size.saturating_add(part.len());
    }
    size
}

/// How many lengths a tear has of the longest write of a call.
fn lengths_of(step: Step) -> u64 {
    match step {
        Step::Append(parts) => (size_of(parts) as u64).saturating_add(1),
        Step::Compact => COMPACTED,
    }
}

/// No call of a store leaves more writes than these without a sync.
const OPEN: usize = 4;

/// The kinds of tears: after the bytes that are left of a write stand open gates, or what stood
/// there before.
const KINDS: usize = 2;

/// The tears of the open writes, which are alike, by their kind and by how many bytes they keep.
fn tears_of(kind: usize, kept: u64) -> [Tear; OPEN] {
    let longer = if kind == 0 { 64 } else { 0 };
    [Tear {
        kept,
        byte: 9,
        longer,
    }; OPEN]
}

/// Whether a name is this letter.
fn is_letter(name: &WText, letter: u8) -> bool {
    name.units() == [u16::from(letter)].as_slice()
}

/// Whether services of these names alone were read, in order.
fn has_names(opened: &Restored, names: &str) -> bool {
    let letters = names.as_bytes();
    let configs = opened.configs.as_slice();
    for (config, letter) in configs.iter().zip(letters) {
        if !is_letter(&config.name, *letter) {
            return false;
        }
    }
    configs.len() == letters.len()
}

/// The names of the services before a call and after it.
#[derive(Clone, Copy)]
struct Names {
    before: &'static str,
    after: &'static str,
}

/// Which names the services have that a store opens to.
#[derive(Clone, Copy, PartialEq, Eq)]
enum Found {
    Before,
    After,
    Neither,
}

/// Which names a journal's services have. Names that are both are those of before.
fn found_in(opened: &Restored, names: Names) -> Found {
    if has_names(opened, names.before) {
        Found::Before
    } else if has_names(opened, names.after) {
        Found::After
    } else {
        Found::Neither
    }
}

/// Opens the journal of a store, and says which names its services have.
fn opened_to(alloc: Global, store: &mut JournalStore<MemoryDisk>, names: Names) -> Found {
    match open_journal(alloc, store, Some("store")) {
        Ok(opened) => {
            let found = found_in(&opened, names);
            drop(opened);
            found
        }
        Err(_) => Found::Neither,
    }
}

/// Says whether an image opens to services of before or of after.
fn image_opens(
    alloc: Global,
    disk: &MemoryDisk,
    moment: usize,
    tears: &[Tear],
    names: Names,
) -> bool
    requires { moment ≤ length disk.now.past }
{
    match disk.offer(alloc, moment, tears) {
        Ok(image) => {
            let mut store = JournalStore::new(alloc, image);
            let found = opened_to(alloc, &mut store, names);
            drop(store);
            found != Found::Neither
        }
        Err(_) => false,
    }
}

/// The same of each image after so many calls, with tears of one kind of so many lengths.
fn lengths_open(
    alloc: Global,
    disk: &MemoryDisk,
    moment: usize,
    kind: usize,
    lengths: u64,
    names: Names,
) -> bool {
    if moment > disk.calls().len() {
        return false;
    }
    for kept in 0..lengths {
        let tears = tears_of(kind, kept);
        if !image_opens(alloc, disk, moment, &tears, names) {
            return false;
        }
    }
    true
}

/// How many kinds of tears tell apart the images after a call: none if it changed nothing, and one
/// if it left no write open.
fn kinds_after(taken: &TakenCall, kinds: usize) -> usize {
    match (&taken.call, taken.fate) {
        (DiskCall::Size { .. }, _) | (DiskCall::Read { .. }, _) => 0,
        (DiskCall::Sync, DiskFate::Succeeds) => kinds.min(1),
        _ => kinds,
    }
}

/// The same of each image after the call of a place, with tears of these kinds.
fn kinds_open(
    alloc: Global,
    disk: &MemoryDisk,
    place: usize,
    kinds: usize,
    lengths: u64,
    names: Names,
) -> bool {
    let Some(taken) = disk.calls().get(place) else {
        return false;
    };
    for kind in 0..kinds_after(taken, kinds) {
        if !lengths_open(alloc, disk, place.saturating_add(1), kind, lengths, names) {
            return false;
        }
    }
    true
}

/// The same of each image since a call.
fn images_open_since(
    alloc: Global,
    disk: &MemoryDisk,
    first: usize,
    kinds: usize,
    lengths: u64,
    names: Names,
) -> bool {
    for place in first..disk.calls().len() {
        if !kinds_open(alloc, disk, place, kinds, lengths, names) {
            return false;
        }
    }
    true
}

/// Appends parts as one, and says whether the store answered Ok.
fn append(alloc: Global, store: &mut JournalStore<MemoryDisk>, parts: &[&[u8]]) -> bool {
    match joined(alloc, parts) {
        Ok(bytes) => {
            let is_ok = store.append(bytes.as_slice()).is_ok();
            drop(bytes);
            is_ok
        }
        Err(_) => false,
    }
}

/// Makes a call, and says whether it answered Ok.
fn call(alloc: Global, store: &mut JournalStore<MemoryDisk>, step: Step) -> bool {
    match step {
        Step::Append(parts) => append(alloc, store, parts),
        Step::Compact => compact(alloc, store, "store").is_ok(),
    }
}

/// Makes a call that failed once more if the services are still those of before. Says whether they
/// are those of after then.
fn is_made_up(
    alloc: Global,
    store: &mut JournalStore<MemoryDisk>,
    step: Step,
    names: Names,
) -> bool {
    match opened_to(alloc, store, names) {
        Found::Before => call(alloc, store, step),
        Found::After => true,
        Found::Neither => false,
    }
}

/// How many kinds of tears are tried at each moment of a call that answered Ok, and of one that
/// failed, and since which call of the disk.
#[derive(Clone, Copy)]
struct Trials {
    ok: usize,
    failed: usize,
    since: usize,
}

/// Makes a call, and says whether each image that is tried on the way opens to the services of
/// before or of after, and at the end to those of after.
fn is_made(
    alloc: Global,
    store: &mut JournalStore<MemoryDisk>,
    step: Step,
    names: Names,
    trials: Trials,
) -> bool {
    let first = store.disk().calls().len().max(trials.since);
    let is_ok = call(alloc, store, step);
    let kinds = if is_ok { trials.ok } else { trials.failed };
    let lengths = lengths_of(step);
    let are_allowed = images_open_since(alloc, store.disk(), first, kinds, lengths, names);
    let is_made = is_ok || is_made_up(alloc, store, step, names);
    let after = Names {
        before: names.after,
        after: names.after,
    };
    let last = store.disk().calls().len();
    let is_settled = kinds == 0 || lengths_open(alloc, store.disk(), last, 0, 1, after);
    are_allowed && is_made && is_settled
}

/// Makes the calls of the run, and says whether each image opens to services that it may.
fn runs(alloc: Global, store: &mut JournalStore<MemoryDisk>, trials: Trials) -> bool {
    let mut before = "";
    for (step, after) in RUN {
        let names = Names {
            before,
            after: *after,
        };
        if !is_made(alloc, store, *step, names, trials) {
            return false;
        }
        before = *after;
    }
    true
}

/// The run on a disk whose call `at` fails, if it is given. Returns how many calls the disk took,
/// or nothing if an image opened to services that it may not.
fn calls_of(alloc: Global, at: Option<usize>, trials: Trials) -> Result<Option<usize>, AllocError> {
    let mut store = store_that_fails(alloc, at, 3)?;
    let is_right = runs(alloc, &mut store, trials);
    let calls = store.disk().calls().len();
    drop(store);
    Ok(is_right.then_some(calls))
}

/// Says whether the run is right on each disk of which one call fails.
fn each_fails_once(alloc: Global, calls: usize) -> Result<bool, AllocError> {
    for at in 0..calls {
        let trials = Trials {
            ok: 0,
            failed: 1,
            since: at,
        };
        if calls_of(alloc, Some(at), trials)?.is_none() {
            return Ok(false);
        }
    }
    Ok(true)
}

#[test]
fn each_image_opens_to_the_services_of_its_moment(rt: HostRuntime) -> Result<(), Fail> {
    let alloc = rt.alloc();
    let trials = Trials {
        ok: KINDS,
        failed: 0,
        since: 0,
    };
    let calls = calls_of(alloc, None, trials)?;
    assert!(rt; calls.is_some());
    let is_right = each_fails_once(alloc, calls.unwrap_or(0))?;
    assert!(rt; is_right);
    Ok(())
}
