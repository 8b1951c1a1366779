//! The opening of a journal.
ghost use Rattle.std.specs.Prelude.{◌≡◌, ◌≤◌, length, IfOk, IfSome, IsErrOf, OnOk, is_some, take};
ghost use Rattle.outside.specs.Asked.{text_of};
ghost use Rattle.outside.specs.Causes.{HasCause, Rose};
ghost use Rattle.record_journal.specs.Bearing.{Bears, StandsIn, stood_in};
ghost use Rattle.record_journal.specs.Crashes.{Crashing, Same};
ghost use Rattle.record_journal.specs.Keepers.{Cuts, IsUntold, Settles, opened_at};
ghost use Rattle.record_journal.specs.Opening.{Restores, CanBegin, LeavesAt, LeavesAll};
ghost use Rattle.record_journal.specs.Opening.{AsksAt, IsOpened, content_under};

use crate::journal::Journal;
use crate::keeper::{KeepFault, Keeper};
use crate::replaying::{Replay, read_journal};
use outside::Failed;
use scm_model::Config;
use scm_text::Items;
use std::alloc::Global;

/// A journal that was read.
#[derive(Drop)]
pub struct Restored {
    /// Where it ends.
    pub journal: Journal,
    /// What its entries come to: the configurations of its services, in order.
    pub configs: Items<Config>,
}

/// Why a journal isn't read.
#[derive(Clone, Copy, PartialEq, Eq)]
pub enum JournalFault {
    /// The keeper failed, and its count of faults rose.
    Failed,
    OutOfMemory,
    /// Here the header or the first entry that is damaged begins: a whole one, or less than one
    /// that can't become an entry.
    Damaged(u64),
}

/// Cuts what stands after the kept bytes of a journal.
fn cut_behind<K: Keeper>(keeper: &mut K, size: usize, kept: u64) -> Result<(), Failed>
    requires size { IfSome (K.held keeper.old) (λ bytes. length bytes ≡ size) }
    ensures bytes { Cuts kept (K.held keeper.old) (K.held keeper.new) result }
    ensures untold { IsUntold (K.held keeper.old) (K.held keeper.new) }
    ensures cause { HasCause (K.faults keeper.old) (K.faults keeper.new) result }
    ensures settled { K.settled keeper.old → OnOk result (K.settled keeper.new) }
    ensures moments { Crashing (λ x. Same (take kept x))
        (K.held keeper.old) (K.crashes keeper.old) (K.crashes keeper.new) }
    ensures asked { K.asked keeper.new ≡ K.asked keeper.old }
{
    if size as u64 <= kept {
        return Ok(());
    }
    keeper.cut(kept)
}

/// Reads bytes that a keeper holds, and cuts what stands after those that are kept.
fn restore<K: Keeper>(alloc: Global, keeper: &mut K, bytes: &[u8]) -> Result<Restored, JournalFault>
    requires held { IfSome (K.held keeper.old) (λ held. bytes.now ≡ held) }
    ensures answer { IfSome (K.held keeper.old) (λ held. Restores held result) }
    ensures leaves { LeavesAll (K.held keeper.old) (K.held keeper.new) result }
    ensures untold { IsUntold (K.held keeper.old) (K.held keeper.new) }
    ensures bears { IfOk result (λ opened.
        Bears (stood_in opened.journal.form (K.held keeper.new)) opened.journal
        (K.held keeper.new)) }
    ensures begins { IfOk result (λ opened. CanBegin opened.configs) }
    ensures grows { K.faults keeper.old ≤ K.faults keeper.new }
    ensures cause { IsErrOf result JournalFault.Failed →
        Rose (K.faults keeper.old) (K.faults keeper.new) }
    ensures kept { OnOk result (K.faults keeper.new ≡ K.faults keeper.old) }
    ensures settled { K.settled keeper.old →
        Settles (K.faults keeper.old) (K.faults keeper.new) result (K.settled keeper.new) }
    ensures moments { Crashing IsOpened
        (K.held keeper.old) (K.crashes keeper.old) (K.crashes keeper.new) }
    ensures asked { K.asked keeper.new ≡ K.asked keeper.old }
{
    let Replay {
        configs,
        kept,
        form,
    } = read_journal(alloc, bytes)?;
    match cut_behind(keeper, bytes.len(), kept) {
        Ok(()) => Ok(Restored {
            journal: Journal {
                good: kept,
                dirty: false,
                form,
            },
            configs,
        }),
        Err(Failed) => Err(JournalFault::Failed),
    }
}

/// Opens a keeper, and reads the journal that stands under the path; without a path it is empty. A
/// part of an entry at the end, as an append that was cut off leaves, is cut, and so is a part of a
/// header. It is no part if its kind is none, or if its body has a whole configuration or name. A
/// journal that is damaged is never written to. A journal of form 1 is opened as it is, without a
/// delayed start and without triggers.
pub fn open_journal<K: Keeper>(
    alloc: Global,
    keeper: &mut K,
    path: Option<&str>,
) -> Result<Restored, JournalFault>
    ensures answer { IfSome (content_under (is_some path.entry) (K.held keeper.old))
        (λ bytes. Restores bytes result) }
    ensures leaves { LeavesAt (is_some path.entry) (K.held keeper.old) (K.held keeper.new) result }
    ensures bears { IfOk result (λ opened.
        Bears (stood_in opened.journal.form (K.held keeper.new)) opened.journal
        (K.held keeper.new)) }
    // What a manager can begin with.
    ensures begins { IfOk result (λ opened. CanBegin opened.configs) }
    ensures grows { K.faults keeper.old ≤ K.faults keeper.new }
    ensures cause { IsErrOf result JournalFault.Failed →
        Rose (K.faults keeper.old) (K.faults keeper.new) }
    ensures kept { OnOk result (K.faults keeper.new ≡ K.faults keeper.old) }
    // What was opened is settled, damaged or not.
    ensures settled { Settles (K.faults keeper.old) (K.faults keeper.new) result
        (K.settled keeper.new) }
    // A crash on the way leaves what was there, or what is read as it.
    ensures moments { Crashing (λ x. IsOpened (opened_at (is_some path.entry) x))
        (K.held keeper.old) (K.crashes keeper.old) (K.crashes keeper.new) }
    // A crash after it leaves what is held.
    ensures stands { IfOk result (λ opened.
        StandsIn (stood_in opened.journal.form (K.held keeper.new)) (K.crashes keeper.new)) }
    ensures asked { AsksAt (text_of path.entry)
        (K.asked keeper.old) (K.asked keeper.new) result }
{
    let Ok(()) = keeper.open_at(path) else {
        return Err(JournalFault::Failed);
    };
    match keeper.read_all() {
        Ok(all) => restore(alloc, keeper, all.as_slice()),
        Err(KeepFault::Failed) => Err(JournalFault::Failed),
        Err(KeepFault::OutOfMemory) => Err(JournalFault::OutOfMemory),
    }
}
