ghost use Rattle.std.specs.Prelude.{◌⊎◌, IfOk, Some};
ghost use Rattle.record_journal.specs.Crashes.{Crashing};
ghost use Rattle.record_journal.specs.Keepers.{Settles};
ghost use Rattle.record_journal.specs.Opening.{AsksAt, IsOpened};
ghost use Rattle.journal_store.specs.Compacting.{IsOnly};
ghost use Rattle.scm_compacted.specs.Compacted.{HasCompacted, HasJournalCause, IfHeld};
ghost use Rattle.scm_compacted.specs.Compacted.{IsCompactOf, LeavesOnly, ReadsJournal};

use journal_compact::compact_text;
use journal_store::Compactor;
use outside::Failed;
use record_journal::{JournalFault, Keeper, Restored, open_journal};
use scm_text::{Items, OutOfMemory};
use std::alloc::Global;

/// Opens the journal under a path, and makes its compact text. Of the journal only an unfinished
/// entry at its end is cut.
pub fn compact_text_at<K: Keeper>(
    alloc: Global,
    keeper: &mut K,
    path: &str,
) -> Result<Items<u8>, JournalFault>
    ensures text { IfOk result (λ text. IsCompactOf (K.held keeper.old) text) }
    ensures journal { IfHeld (λ old now. ReadsJournal old now result)
        (K.held keeper.old) (K.held keeper.new) }
    ensures cause { HasJournalCause (K.faults keeper.old) (K.faults keeper.new) result }
    ensures settled { Settles (K.faults keeper.old) (K.faults keeper.new) result
        (K.settled keeper.new) }
    ensures moments { Crashing IsOpened
        (K.held keeper.old) (K.crashes keeper.old) (K.crashes keeper.new) }
    ensures asked { AsksAt (Some path.now) (K.asked keeper.old) (K.asked keeper.new) result }
{
    let Restored {
        journal: _,
        configs,
    } = open_journal(alloc, keeper, Some(path))?;
    let text = compact_text(alloc, &configs);
    drop(configs);
    match text {
        Ok(text) => Ok(text),
        Err(OutOfMemory) => Err(JournalFault::OutOfMemory),
    }
}

/// Replaces the journal that a store has under a path by its compact text.
pub fn compact<Q: Compactor>(alloc: Global, store: &mut Q, path: &str) -> Result<(), JournalFault>
    ensures compacted { HasCompacted (Q.held store.old) (Q.held store.new) result }
    ensures cause { HasJournalCause (Q.faults store.old) (Q.faults store.new) result }
    // A crash after it leaves what the store holds, unless the store failed.
    ensures only { LeavesOnly (Q.faults store.old) (Q.faults store.new) result
        (IsOnly (Q.held store.new) (Q.crashes store.new).leaves) (Q.settled store.new) }
    // A crash on the way leaves what was there, what is read as it, or its compact text.
    ensures moments { Crashing (λ x y. IsOpened x y ⊎ IsCompactOf (Some x) y)
        (Q.held store.old) (Q.crashes store.old) (Q.crashes store.new) }
    ensures asked { AsksAt (Some path.now) (Q.asked store.old) (Q.asked store.new) result }
{
    let text = compact_text_at(alloc, store, path)?;
    let how = store.replace(text.as_slice());
    drop(text);
    match how {
        Ok(()) => Ok(()),
        Err(Failed) => Err(JournalFault::Failed),
    }
}
