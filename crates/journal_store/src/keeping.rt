//! A store as a keeper of bytes.
ghost use Rattle.std.specs.Prelude.{◌≡◌, ◌≤◌, ◌++◌, IfOk, IfSome, IsErrOf, OnOk, take};
ghost use Rattle.std.specs.Prelude.{is_some};
ghost use Rattle.std.specs.Io.KnownBytes.{Keeps};
ghost use Rattle.outside.specs.Asked.{Asks, text_of};
ghost use Rattle.outside.specs.Causes.{HasCause, Rose};
ghost use Rattle.outside.specs.Written.{Writes};
ghost use Rattle.record_journal.specs.Crashes.{Crashing, HasAdded, Same};
ghost use Rattle.record_journal.specs.Keepers.{Cuts, IsUntold, Opens, opened_at};
ghost use Rattle.journal_store.specs.Compacting.{IsOnly, Replaces};
ghost use Rattle.journal_store.specs.Content.{content_of};
ghost use Rattle.journal_store.specs.Kept.{AtEachMoment, CanLeave, Changes, IsDiskSettled};
ghost use Rattle.journal_store.specs.Kept.{crashes_of, if_path};

use crate::store::JournalStore;
use journal_disk::Disk;
use outside::Failed;
use record_journal::{KeepFault, Keeper};
use scm_text::Items;

/// A keeper that can put other bytes in the place of its own: whatever the moment, a crash leaves
/// the ones or the others.
pub trait Compactor: Keeper {
    /// Keeps these bytes alone. After a fault these are left, or those of before.
    fn replace(&mut self, bytes: &[u8]) -> Result<(), Failed>
        ensures bytes { Replaces bytes.now (Self.held self.old) (Self.held self.new) result }
        ensures untold { IsUntold (Self.held self.old) (Self.held self.new) }
        ensures only { OnOk result (IsOnly (Self.held self.new) (Self.crashes self.new).leaves) }
        ensures cause { HasCause (Self.faults self.old) (Self.faults self.new) result }
        ensures settled { OnOk result (Self.settled self.new) }
        ensures moments { Crashing (λ x. Same bytes.now)
            (Self.held self.old) (Self.crashes self.old) (Self.crashes self.new) }
        ensures asked { Self.asked self.new ≡ Self.asked self.old };
}

impl<D: Disk> Keeper for JournalStore<D> {
    ghost use Rattle.journal_store.specs.Kept.{are_crashes};

    ghost held = { λ s. content_of (D.state s).seen };

    ghost faults = { λ s. D.faults s };

    ghost settled = { λ s. IsDiskSettled (D.state s) };

    ghost crashes = { λ s. crashes_of (D.state s) };

    ghost are_crashes = { λ s. are_crashes (D.state s) (D.is_disk s) };

    ghost asked = { λ s. D.asked s };

    /// A crash that stops it leaves a content of before, or without a path none.
    fn open_at(&mut self, path: Option<&str>) -> Result<(), Failed>
        ensures bytes { Opens (is_some path.entry) (content_of (D.state self.old).seen)
            (content_of (D.state self.new).seen) result }
        ensures cause { HasCause (D.faults self.old) (D.faults self.new) result }
        ensures settled { OnOk result (IsDiskSettled (D.state self.new)) }
        ensures changes { Changes (if_path (is_some path.entry))
            (D.state self.old) (D.state self.new) result }
        ensures moments { Crashing (λ x. Same (opened_at (is_some path.entry) x))
            (content_of (D.state self.old).seen)
            (crashes_of (D.state self.old)) (crashes_of (D.state self.new)) }
        ensures asked { Asks (text_of path.entry) (D.asked self.old) (D.asked self.new) result }
    {
        self.open_path(path)
    }

    /// A crash that stops it leaves a content of before.
    fn read_all(&mut self) -> Result<Items<u8>, KeepFault>
        ensures bytes { IfOk result (λ all.
            IfSome (content_of (D.state self.old).seen) (λ bytes. all ≡ bytes)) }
        ensures same { Keeps (content_of (D.state self.old).seen)
            (content_of (D.state self.new).seen) }
        ensures untold { IsUntold (content_of (D.state self.old).seen)
            (content_of (D.state self.new).seen) }
        ensures grows { D.faults self.old ≤ D.faults self.new }
        ensures cause { IsErrOf result KeepFault.Failed →
            Rose (D.faults self.old) (D.faults self.new) }
        ensures kept { OnOk result (D.faults self.new ≡ D.faults self.old) }
        ensures memory { IsErrOf result KeepFault.OutOfMemory →
            D.faults self.new ≡ D.faults self.old }
        ensures settled { IsDiskSettled (D.state self.old) → IsDiskSettled (D.state self.new) }
        ensures any_moment { AtEachMoment (D.state self.old) (D.state self.new) (λ x. x) }
        ensures synced { OnOk result (IsDiskSettled (D.state self.new)) }
        ensures moments { Crashing Same (content_of (D.state self.old).seen)
            (crashes_of (D.state self.old)) (crashes_of (D.state self.new)) }
        ensures asked { D.asked self.new ≡ D.asked self.old }
    {
        match self.read_bytes() {
            Ok(bytes) => Ok(Items::from_vec(bytes)),
            Err(fault) => Err(fault),
        }
    }

    /// A crash that stops it leaves a content of before, or that with these bytes.
    fn append(&mut self, bytes: &[u8]) -> Result<(), Failed>
        ensures bytes { Writes (content_of (D.state self.old).seen)
            (content_of (D.state self.new).seen) result bytes.now }
        ensures untold { IsUntold (content_of (D.state self.old).seen)
            (content_of (D.state self.new).seen) }
        ensures cause { HasCause (D.faults self.old) (D.faults self.new) result }
        ensures settled { OnOk result (IsDiskSettled (D.state self.new)) }
        ensures changes { Changes (λ x. x ++ bytes.now)
            (D.state self.old) (D.state self.new) result }
        ensures moments { Crashing (HasAdded bytes.now) (content_of (D.state self.old).seen)
            (crashes_of (D.state self.old)) (crashes_of (D.state self.new)) }
        ensures asked { D.asked self.new ≡ D.asked self.old }
    {
        self.add(bytes)
    }

    /// A crash that stops it leaves a content of before, or its front.
    fn cut(&mut self, length: u64) -> Result<(), Failed>
        ensures bytes { Cuts length (content_of (D.state self.old).seen)
            (content_of (D.state self.new).seen) result }
        ensures untold { IsUntold (content_of (D.state self.old).seen)
            (content_of (D.state self.new).seen) }
        ensures cause { HasCause (D.faults self.old) (D.faults self.new) result }
        ensures settled { OnOk result (IsDiskSettled (D.state self.new)) }
        ensures changes { Changes (take length) (D.state self.old) (D.state self.new) result }
        ensures moments { Crashing (λ x. Same (take length x)) (content_of (D.state self.old).seen)
            (crashes_of (D.state self.old)) (crashes_of (D.state self.new)) }
        ensures asked { D.asked self.new ≡ D.asked self.old }
    {
        self.keep_front(length)
    }
}

impl<D: Disk> Compactor for JournalStore<D> {
    /// A crash that stops it leaves a content of before, or these bytes.
    fn replace(&mut self, bytes: &[u8]) -> Result<(), Failed>
        ensures bytes { Replaces bytes.now (content_of (D.state self.old).seen)
            (content_of (D.state self.new).seen) result }
        ensures untold { IsUntold (content_of (D.state self.old).seen)
            (content_of (D.state self.new).seen) }
        ensures only { OnOk result (IsOnly (content_of (D.state self.new).seen)
            (CanLeave (D.state self.new))) }
        ensures cause { HasCause (D.faults self.old) (D.faults self.new) result }
        ensures settled { OnOk result (IsDiskSettled (D.state self.new)) }
        ensures changes { Changes (λ x. bytes.now) (D.state self.old) (D.state self.new) result }
        ensures moments { Crashing (λ x. Same bytes.now) (content_of (D.state self.old).seen)
            (crashes_of (D.state self.old)) (crashes_of (D.state self.new)) }
        ensures asked { D.asked self.new ≡ D.asked self.old }
    {
        self.replace_all(bytes)
    }
}
