ghost use Rattle.std.specs.Prelude.{◌≡◌, ◌+◌, ◌≤◌, ◌^◌, ℕ, IfOk, OnOk, length, is_some};
ghost use Rattle.outside.specs.Asked.{Asks, Paths, text_of};
ghost use Rattle.outside.specs.Causes.{HasCause};
ghost use Rattle.journal_disk.specs.Images.{DiskState, HasSize, IsDisk, IsWithin, Looks, Opens};
ghost use Rattle.journal_disk.specs.Images.{ReadsFile, Syncs, Writes};

use outside::Failed;

/// Three files: file 0 says which log is read, files 1 and 2 are the logs. A call that fails has
/// raised the count of faults, and may be made again.
pub trait Disk: Drop {
    /// What a read gives, and what a crash may leave, now and since a moment.
    ghost state: { Self → DiskState };

    /// How often it failed.
    ghost faults: { Self → ℕ };

    ghost is_disk: { (d : Self) → IsDisk (state d) };

    /// The paths at which it was opened, in order, where it tells them. One at which an opening
    /// failed may be among them.
    ghost asked: { Self → Paths };

    /// Goes on with the files under a path. Without a path it has empty files from then on, in
    /// memory.
    fn open_at(&mut self, path: Option<&str>) -> Result<(), Failed>
        ensures opens { Opens (is_some path.entry) (state self.old) (state self.new) result }
        ensures cause { HasCause (faults self.old) (faults self.new) result }
        ensures asked { Asks (text_of path.entry) (asked self.old) (asked self.new) result };

    /// How many bytes a file has.
    fn size(&mut self, file: u8) -> Result<u64, Failed>
        requires file { file ≤ 2 }
        ensures size { IfOk result (λ size. HasSize file size (state self.old).seen) }
        ensures bound { IfOk result (λ size. size ≤ 2 ^ 62) }
        ensures looks { Looks (state self.old) (state self.new) }
        ensures cause { HasCause (faults self.old) (faults self.new) result }
        ensures asked { asked self.new ≡ asked self.old };

    /// Reads bytes that a file has from a place on.
    fn read_at(&mut self, file: u8, place: u64, into: &mut [u8]) -> Result<(), Failed>
        requires file { file ≤ 2 }
        requires within { IsWithin file (place + length into.old) (state self.old).seen }
        ensures bytes { IfOk result (λ _. ReadsFile file place into.new (state self.old).seen) }
        ensures looks { Looks (state self.old) (state self.new) }
        ensures cause { HasCause (faults self.old) (faults self.new) result }
        ensures asked { asked self.new ≡ asked self.old };

    /// Writes over what a file has from a place on, and past its end. Until a sync a crash may
    /// leave any bytes there. A write whose end passes 2^62 fails.
    fn write_at(&mut self, file: u8, place: u64, from: &[u8]) -> Result<(), Failed>
        requires file { file ≤ 2 }
        requires within { IsWithin file place (state self.old).seen }
        ensures writes { Writes file place from.now (state self.old) (state self.new) result }
        ensures bound { OnOk result (place + length from.now ≤ 2 ^ 62) }
        ensures cause { HasCause (faults self.old) (faults self.new) result }
        ensures asked { asked self.new ≡ asked self.old };

    /// Puts on the disk what was written: after it a crash leaves what a read gives.
    fn sync(&mut self) -> Result<(), Failed>
        ensures syncs { Syncs (state self.old) (state self.new) result }
        ensures cause { HasCause (faults self.old) (faults self.new) result }
        ensures asked { asked self.new ≡ asked self.old };
}
