//! `scmd compact` and `scmd move`.
ghost use Rattle.std.specs.Prelude.{◌≡◌, ◌≢◌, ◌⊎◌, Some};
ghost use Rattle.journal_store.specs.Compacting.{IsOnly};
ghost use Rattle.record_journal.specs.Crashes.{Crashing, Same};
ghost use Rattle.record_journal.specs.Keepers.{SettledSince};
ghost use Rattle.record_journal.specs.Opening.{IsOpened};
ghost use Rattle.scm_compacted.specs.Compacted.{IsCompactOf};
ghost use Rattle.scmd_top.specs.Files.{OpensFile, OpensLast};
ghost use Rattle.scmd_top.specs.Sides.{side};
ghost use Rattle.scmd_top.specs.Stores.{HasBeenCompacted, HasBeenMoved, status_of_compact};
ghost use Rattle.scmd_top.specs.Stores.{status_of_move};

use crate::opening::status_of_fault;
use journal_store::Compactor;
use record_journal::{JournalFault, KeepFault, Keeper};
use scm_compacted::{MoveFault, compact, move_journal};
use std::alloc::Global;

/// The status of a program that replaced a journal by its compact text, or not.
fn status_of_compact(how: Result<(), JournalFault>) -> u8
    ensures { result ≡ status_of_compact how }
{
    match how {
        Ok(()) => 0,
        Err(fault) => status_of_fault(fault),
    }
}

/// The status of a program that moved a journal, or not.
fn status_of_move(how: Result<(), MoveFault>) -> u8
    ensures { result ≡ status_of_move how }
{
    match how {
        Ok(()) => 0,
        Err(MoveFault::Journal(fault)) => status_of_fault(fault),
        Err(MoveFault::Store(KeepFault::Failed)) => 3,
        Err(MoveFault::Store(KeepFault::OutOfMemory)) => 8,
        Err(MoveFault::NotEmpty) => 13,
    }
}

/// Replaces the journal in a store by its compact text, and gives the status of the program.
pub fn compact_store<Q: Compactor>(alloc: Global, store: &mut Q, path: &str) -> u8
    ensures ran { result ≢ 5 }
    ensures compacted { HasBeenCompacted (side Q.held Q.faults store.old store.new) result }
    ensures only { result ≡ 0 → IsOnly (Q.held store.new) (Q.crashes store.new).leaves }
    ensures settled { result ≢ 0 →
        SettledSince (Q.faults store.old) (Q.faults store.new) (Q.settled store.new) }
    // A crash on the way leaves what was there, what is read as it, or its compact text.
    ensures moments { Crashing (λ x y. IsOpened x y ⊎ IsCompactOf (Some x) y)
        (Q.held store.old) (Q.crashes store.old) (Q.crashes store.new) }
    ensures file { OpensFile (Some path.now) (Q.asked store.old) (Q.asked store.new) result }
{
    status_of_compact(compact(alloc, store, path))
}

/// Moves the journal of a keeper to a store, and gives the status of the program.
pub fn move_to_store<K: Keeper, Q: Compactor>(
    alloc: Global,
    keeper: &mut K,
    from: &str,
    store: &mut Q,
    to: &str,
) -> u8
    ensures ran { result ≢ 5 }
    ensures moved { HasBeenMoved (side K.held K.faults keeper.old keeper.new)
        (side Q.held Q.faults store.old store.new) result }
    ensures keeper_settled { SettledSince (K.faults keeper.old) (K.faults keeper.new)
        (K.settled keeper.new) }
    ensures only { result ≡ 0 → IsOnly (Q.held store.new) (Q.crashes store.new).leaves }
    ensures settled { result ≢ 0 → Q.settled store.old →
        SettledSince (Q.faults store.old) (Q.faults store.new) (Q.settled store.new) }
    // A crash on the way leaves the journal, or what is read as it; and of the store what was
    // there, or the compact text of the journal.
    ensures keeper_moments { Crashing IsOpened
        (K.held keeper.old) (K.crashes keeper.old) (K.crashes keeper.new) }
    ensures moments { Crashing (λ x y. Same x y ⊎ IsCompactOf (K.held keeper.old) y)
        (Q.held store.old) (Q.crashes store.old) (Q.crashes store.new) }
    ensures file { OpensFile (Some from.now) (K.asked keeper.old) (K.asked keeper.new) result }
    ensures store_file { OpensLast (Some to.now) (Q.asked store.old) (Q.asked store.new) result }
{
    status_of_move(move_journal(alloc, keeper, from, store, to))
}
