ghost use Rattle.std.specs.Prelude.{◌≡◌, ◌⊎◌, ◌==◌, IfOk, IfSome, Some, length};
ghost use Rattle.std.specs.Io.KnownBytes.{Keeps};
ghost use Rattle.record_journal.specs.Crashes.{Crashing, Same};
ghost use Rattle.record_journal.specs.Keepers.{Settles};
ghost use Rattle.record_journal.specs.Opening.{AsksAt, IsOpened};
ghost use Rattle.journal_store.specs.Compacting.{HasKeepCause, IsOnly};
ghost use Rattle.scm_compacted.specs.Compacted.{HasJournalCause, IsCompactOf};
ghost use Rattle.scm_compacted.specs.Moved.{AsksLast, AsksStore};
ghost use Rattle.scm_compacted.specs.Moved.{FillsOnly, HasFilled, HasMovedFrom, HasMovedInto};
ghost use Rattle.scm_compacted.specs.Moved.{IsAskedLast, MovesOnly, journal_part, store_part};

use crate::compacting::compact_text_at;
use journal_store::Compactor;
use outside::Failed;
use record_journal::{JournalFault, KeepFault, Keeper};
use std::alloc::Global;

/// Why a journal isn't moved.
#[derive(Clone, Copy, PartialEq, Eq)]
pub enum MoveFault {
    /// The journal isn't read.
    Journal(JournalFault),
    /// The store isn't opened, read or filled.
    Store(KeepFault),
    /// The store has bytes already.
    NotEmpty,
}

/// Opens what a store has under a path, and returns whether it is nothing.
fn opens_empty<Q: Compactor>(store: &mut Q, path: &str) -> Result<bool, KeepFault>
    ensures empty { IfOk result (λ empty.
        IfSome (Q.held store.old) (λ bytes. empty ≡ (length bytes == 0))) }
    ensures same { Keeps (Q.held store.old) (Q.held store.new) }
    ensures cause { HasKeepCause (Q.faults store.old) (Q.faults store.new) result }
    ensures settled { Settles (Q.faults store.old) (Q.faults store.new) result
        (Q.settled store.new) }
    ensures moments { Crashing Same
        (Q.held store.old) (Q.crashes store.old) (Q.crashes store.new) }
    ensures asked { AsksStore (Some path.now) (Q.asked store.old) (Q.asked store.new) result }
{
    let Ok(()) = store.open_at(Some(path)) else {
        return Err(KeepFault::Failed);
    };
    let all = store.read_all()?;
    let empty = all.len() == 0;
    drop(all);
    Ok(empty)
}

/// Puts bytes into a store that has nothing under a path, and returns whether it had nothing.
fn fill<Q: Compactor>(store: &mut Q, path: &str, bytes: &[u8]) -> Result<bool, KeepFault>
    ensures filled { HasFilled bytes.now (Q.held store.old) (Q.held store.new) result }
    ensures cause { HasKeepCause (Q.faults store.old) (Q.faults store.new) result }
    ensures only { FillsOnly (Q.faults store.old) (Q.faults store.new) result
        (IsOnly (Q.held store.new) (Q.crashes store.new).leaves) (Q.settled store.new) }
    ensures moments { Crashing (λ x y. Same x y ⊎ Same bytes.now y)
        (Q.held store.old) (Q.crashes store.old) (Q.crashes store.new) }
    ensures asked { AsksStore (Some path.now) (Q.asked store.old) (Q.asked store.new) result }
{
    if !opens_empty(store, path)? {
        return Ok(false);
    }
    match store.replace(bytes) {
        Ok(()) => Ok(true),
        Err(Failed) => Err(KeepFault::Failed),
    }
}

/// Moves the journal that a keeper has under a path to a store that has nothing under another path:
/// there it is its compact text. The journal is opened and read before the store is opened, and
/// stays where it is; only an unfinished entry at its end is cut.
pub fn move_journal<K: Keeper, Q: Compactor>(
    alloc: Global,
    keeper: &mut K,
    from: &str,
    store: &mut Q,
    to: &str,
) -> Result<(), MoveFault>
    ensures journal { HasMovedFrom (K.held keeper.old) (K.held keeper.new) result }
    ensures moved { HasMovedInto (K.held keeper.old) (Q.held store.old) (Q.held store.new) result }
    ensures order { IsAskedLast store.old store.new result }
    ensures keeper_cause { HasJournalCause (K.faults keeper.old) (K.faults keeper.new)
        (journal_part result) }
    ensures store_cause { HasKeepCause (Q.faults store.old) (Q.faults store.new)
        (store_part result) }
    ensures keeper_settled { Settles (K.faults keeper.old) (K.faults keeper.new)
        (journal_part result) (K.settled keeper.new) }
    // A crash after it leaves what the store holds, unless the store failed or wasn't asked.
    ensures only { MovesOnly (Q.faults store.old) (Q.faults store.new) result
        (IsOnly (Q.held store.new) (Q.crashes store.new).leaves) (Q.settled store.new) }
    // A crash on the way leaves the journal, or what is read as it; and of the store what was
    // there, or the compact text of the journal.
    ensures keeper_moments { Crashing IsOpened
        (K.held keeper.old) (K.crashes keeper.old) (K.crashes keeper.new) }
    ensures moments { Crashing (λ x y. Same x y ⊎ IsCompactOf (K.held keeper.old) y)
        (Q.held store.old) (Q.crashes store.old) (Q.crashes store.new) }
    ensures keeper_asked { AsksAt (Some from.now)
        (K.asked keeper.old) (K.asked keeper.new) (journal_part result) }
    ensures asked { AsksLast (Some to.now) (Q.asked store.old) (Q.asked store.new) result }
{
    match compact_text_at(alloc, keeper, from) {
        Ok(text) => {
            let how = fill(store, to, text.as_slice());
            drop(text);
            match how {
                Ok(true) => Ok(()),
                Ok(false) => Err(MoveFault::NotEmpty),
                Err(fault) => Err(MoveFault::Store(fault)),
            }
        }
        Err(fault) => Err(MoveFault::Journal(fault)),
    }
}
