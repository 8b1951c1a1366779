ghost use Rattle.std.specs.Prelude.{◌≡◌, ◌≤◌, ℕ, List, Option, IfOk, IfSome, IsErrOf, OnOk, take};
ghost use Rattle.std.specs.Prelude.{is_some};
ghost use Rattle.std.specs.Io.KnownBytes.{Keeps};
ghost use Rattle.outside.specs.Asked.{Asks, Paths, text_of};
ghost use Rattle.outside.specs.Causes.{HasCause, Rose};
ghost use Rattle.outside.specs.Written.{Writes};
ghost use Rattle.record_journal.specs.Crashes.{AreCrashes, Crashes, Crashing, HasAdded, Same};
ghost use Rattle.record_journal.specs.Keepers.{Cuts, IsUntold, Opens, opened_at};

use outside::Failed;
use scm_text::Items;

/// Why bytes are not kept, or not read.
#[derive(Clone, Copy, PartialEq, Eq)]
pub enum KeepFault {
    /// The keeper failed, and its count of faults rose.
    Failed,
    OutOfMemory,
}

/// Keeps bytes, as a file does that grows at its end and is cut. A call that fails may be made
/// again.
pub trait Keeper: Drop {
    /// The bytes that it holds, where the object tells them.
    ghost held: { Self → Option (List ℕ) };

    /// How often it failed.
    ghost faults: { Self → ℕ };

    /// A crash now leaves the bytes that it holds, and nothing else. Of a keeper that says nothing
    /// of crashes it always stands.
    ghost settled: { Self → Type 0 };

    /// What a crash may leave of what it holds, now and since a moment. Of a keeper that says
    /// nothing of crashes it is nothing.
    ghost crashes: { Self → Crashes };

    ghost are_crashes: { (k : Self) → AreCrashes (held k) (crashes k) (settled k) };

    /// The paths at which it was opened, in order, where it tells them. One at which an opening
    /// failed may be among them.
    ghost asked: { Self → Paths };

    /// Goes on with what stands under the path. Without a path it is empty from then on, and keeps
    /// in memory.
    fn open_at(&mut self, path: Option<&str>) -> Result<(), Failed>
        ensures bytes { Opens (is_some path.entry) (held self.old) (held self.new) result }
        ensures cause { HasCause (faults self.old) (faults self.new) result }
        ensures settled { OnOk result (settled self.new) }
        ensures moments { Crashing (λ x. Same (opened_at (is_some path.entry) x))
            (held self.old) (crashes self.old) (crashes self.new) }
        ensures asked { Asks (text_of path.entry) (asked self.old) (asked self.new) result };

    /// A copy of all bytes.
    fn read_all(&mut self) -> Result<Items<u8>, KeepFault>
        ensures bytes { IfOk result (λ all. IfSome (held self.old) (λ bytes. all ≡ bytes)) }
        ensures same { Keeps (held self.old) (held self.new) }
        ensures untold { IsUntold (held self.old) (held self.new) }
        ensures grows { faults self.old ≤ faults self.new }
        ensures cause { IsErrOf result KeepFault.Failed →
            Rose (faults self.old) (faults self.new) }
        ensures kept { OnOk result (faults self.new ≡ faults self.old) }
        ensures memory { IsErrOf result KeepFault.OutOfMemory →
            faults self.new ≡ faults self.old }
        ensures settled { settled self.old → settled self.new }
        ensures moments { Crashing Same (held self.old) (crashes self.old) (crashes self.new) }
        ensures asked { asked self.new ≡ asked self.old };

    /// Appends bytes. After a fault a front of them may stand.
    fn append(&mut self, bytes: &[u8]) -> Result<(), Failed>
        ensures bytes { Writes (held self.old) (held self.new) result bytes.now }
        ensures untold { IsUntold (held self.old) (held self.new) }
        ensures cause { HasCause (faults self.old) (faults self.new) result }
        ensures settled { OnOk result (settled self.new) }
        ensures moments { Crashing (HasAdded bytes.now)
            (held self.old) (crashes self.old) (crashes self.new) }
        ensures asked { asked self.new ≡ asked self.old };

    /// Keeps the front of this length alone. After a fault that is left, or all.
    fn cut(&mut self, length: u64) -> Result<(), Failed>
        ensures bytes { Cuts length (held self.old) (held self.new) result }
        ensures untold { IsUntold (held self.old) (held self.new) }
        ensures cause { HasCause (faults self.old) (faults self.new) result }
        ensures settled { OnOk result (settled self.new) }
        ensures moments { Crashing (λ x. Same (take length x))
            (held self.old) (crashes self.old) (crashes self.new) }
        ensures asked { asked self.new ≡ asked self.old };
}
