ghost use Rattle.journal_store.specs.Compacting.{IsOnly};

use journal_disk::Disk;
use journal_store::JournalStore;
use record_journal::Keeper;

/// Of a settled store a crash leaves what it holds, and nothing else.
pub fn a_settled_store_leaves_its_content<D: Disk>(store: &JournalStore<D>)
    ensures { ⟦<JournalStore<D> as Keeper>⟧.settled store.now →
        IsOnly (⟦<JournalStore<D> as Keeper>⟧.held store.now)
        (⟦<JournalStore<D> as Keeper>⟧.crashes store.now).leaves }
{}
