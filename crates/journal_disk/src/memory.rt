ghost use Rattle.std.specs.Prelude.{◌≡◌, ◌≤◌, ◌+◌, ◌^◌, ◌∷◌, ◌++◌, [], false, IfOk, IsTrue, OnErr, OnOk};
ghost use Rattle.std.specs.Prelude.{is_some};
ghost use Rattle.std.specs.Prelude.{Some, is_err, length, take, drop};
ghost use Rattle.outside.specs.Asked.{Asks, text_of};
ghost use Rattle.outside.specs.Causes.{HasCause};
ghost use Rattle.outside.specs.Fates.{later, one_more};
ghost use Rattle.journal_disk.specs.Files.{Files, file, no_files};
ghost use Rattle.journal_disk.specs.Images.{HasSize, IsWithin, Looks, Opens, ReadsFile, Syncs};
ghost use Rattle.journal_disk.specs.Images.{Writes};
ghost use Rattle.journal_disk.specs.Calls.{IsTaken, as_call, next_fate, history, with_fate};
ghost use Rattle.journal_disk.specs.Past.{Opened, Read, Sized, Synced, Wrote, disk_state, remains};
ghost use Rattle.journal_disk.specs.Past.{now_after, now_of};
ghost use Rattle.journal_disk.specs.Tears.{image_of, past_at};
ghost use Rattle.journal_disk.specs.declared.calls.DiskFate.{DiskFate};

use crate::calls::{DiskCall, DiskFate, TakenCall, reached, record_call};
use crate::disk::Disk;
use crate::files::{DiskFiles, changed};
use crate::images::{Tear, replay};
use outside::Failed;
use scm_text::{OutOfMemory, Text};
use std::alloc::{AllocError, Global};
use std::marker::Model;

/// No file is longer.
const MOST: u64 = 1 << 62;

/// Three files in memory. It records its calls, takes what becomes of each from the end of `fates`
/// (it succeeds if none is left), and offers the images that a crash may leave. A call that is out
/// of memory fails too, and isn't recorded; nor is a write whose end passes 2^62.
#[derive(Drop)]
pub struct MemoryDisk {
    first: DiskFiles,
    held: DiskFiles,
    calls: Vec<TakenCall>,
    fates: Vec<DiskFate>,
    faults: u64,
    asked: Vec<Option<Text>>,
}

impl Model for MemoryDisk {
    ghost use Rattle.std.specs.Prelude.{◌≡◌};
    ghost use Rattle.journal_disk.specs.Calls.{InMemory, history};
    ghost use Rattle.journal_disk.specs.Past.{now_of};

    ghost Value = { InMemory };

    ghost view = { λ d. record {
      first = d.first;
      past = history d.calls.items;
      fates = d.fates.items;
      faults = d.faults;
      asked = d.asked.items;
    } };

    ghost invariant = { λ d. d.held ≡ now_of d.first (history d.calls.items) };
}

impl MemoryDisk {
    /// Three empty files.
    pub fn new(alloc: Global, fates: Vec<DiskFate>) -> Self
        ensures first { result.first ≡ no_files }
        ensures past { result.past ≡ [] }
        ensures fates { result.fates ≡ fates.items }
        ensures faults { result.faults ≡ 0 }
        ensures asked { result.asked ≡ [] }
    {
        MemoryDisk {
            first: DiskFiles::new(alloc),
            held: DiskFiles::new(alloc),
            calls: Vec::new(alloc),
            fates,
            faults: 0,
            asked: Vec::new(alloc),
        }
    }

    /// The bytes of a file.
    pub fn bytes(&self, which: u8) -> &[u8]
        ensures { result.now ≡ file (now_of self.now.first self.now.past) which }
    {
        self.held.bytes(which)
    }

    /// The paths at which it was opened, in order. One at which an opening failed is among them,
    /// unless there was no memory for it.
    pub fn asked(&self) -> &[Option<Text>]
        ensures { result.now ≡ self.now.asked }
    {
        &self.asked
    }

    /// The calls that it has taken, the oldest first.
    pub fn calls(&self) -> &[TakenCall]
        ensures past { history result.now ≡ self.now.past }
        ensures len { length result.now ≡ length self.now.past }
    {
        &self.calls
    }

    /// A disk at rest that holds what a crash may have left after the first `moment` calls. The
    /// writes that no sync had followed by then are torn by `tears`, in their order; those without
    /// a tear are lost.
    pub fn offer(
        &self,
        alloc: Global,
        moment: usize,
        tears: &[Tear],
    ) -> Result<MemoryDisk, AllocError>
        requires { moment ≤ length self.now.past }
        ensures chosen { IfOk result (λ disk. disk.first
            ≡ image_of tears.now self.now.first (past_at moment self.now.past)) }
        ensures left { IfOk result (λ disk.
            remains self.now.first (past_at moment self.now.past) disk.first) }
        ensures past { IfOk result (λ disk. disk.past ≡ []) }
        ensures fates { IfOk result (λ disk. disk.fates ≡ []) }
        ensures faults { IfOk result (λ disk. disk.faults ≡ 0) }
        ensures asked { IfOk result (λ disk. disk.asked ≡ []) }
    {
        let mut image = DiskFiles::new(alloc);
        let mut held = DiskFiles::new(alloc);
        match replay(
            alloc,
            &mut image,
            &mut held,
            &self.first,
            &self.calls[..moment],
            tears,
        ) {
            Ok(()) => Ok(MemoryDisk {
                first: image,
                held,
                calls: Vec::new(alloc),
                fates: Vec::new(alloc),
                faults: 0,
                asked: Vec::new(alloc),
            }),
            Err(fault) => {
                drop(image);
                drop(held);
                Err(fault)
            }
        }
    }
}

impl MemoryDisk {
    /// What becomes of a call.
    fn take_fate(&mut self) -> DiskFate
        ensures fate { result ≡ next_fate self.old.fates }
        ensures after { self.new ≡ record self.old { fates = later self.old.fates } }
    {
        self.fates.pop().unwrap_or(DiskFate::Succeeds)
    }

    /// Counts a fault.
    fn fail(&mut self) -> Failed
        ensures after { self.new ≡ record self.old { faults = one_more self.old.faults } }
        ensures grows { self.old.faults ≤ self.new.faults }
    {
        self.faults = self.faults.saturating_add(1);
        Failed
    }

    /// Takes a call that leaves the bytes of the files.
    fn take(&mut self, call: DiskCall) -> Result<(), Failed>
        requires { (fate : DiskFate) (now : Files) → now_after (with_fate call fate) now ≡ now }
        ensures taken { IsTaken (with_fate call) self.old self.new (is_err result) }
        ensures cause { HasCause self.old.faults self.new.faults result }
        ensures asked { self.new.asked ≡ self.old.asked }
    {
        let fate = self.take_fate();
        let taken = TakenCall { call, fate };
        if record_call(&mut self.calls, taken).is_err() {
            return Err(self.fail());
        }
        match fate {
            DiskFate::Succeeds => Ok(()),
            DiskFate::Fails { .. } => Err(self.fail()),
        }
    }

    /// Writes what its fate lets reach the file, and records the write.
    fn put_down(
        &mut self,
        which: u8,
        place: u64,
        from: &[u8],
        fate: DiskFate,
    ) -> Result<(), AllocError>
        requires { place ≤ length (file (now_of self.old.first self.old.past) which) }
        ensures ok { OnOk result (self.new
            ≡ record self.old { past = Wrote which place from.now fate ∷ self.old.past }) }
        ensures err { OnErr result (self.new ≡ self.old) }
    {
        let alloc = *self.calls.allocator();
        let made = changed(
            alloc,
            self.held.bytes(which),
            place as usize,
            reached(fate, from),
        )?;
        let bytes = match Vec::from_slice(alloc, from) {
            Ok(bytes) => bytes,
            Err(fault) => {
                drop(made);
                return Err(fault);
            }
        };
        let call = DiskCall::Write {
            file: which,
            place,
            bytes,
        };
        if let Err(fault) = record_call(&mut self.calls, TakenCall { call, fate }) {
            drop(made);
            return Err(fault);
        }
        self.held.set(which, made);
        Ok(())
    }

    /// Records a path at which it is opened.
    fn record_path(&mut self, path: Option<&str>) -> Result<(), OutOfMemory>
        ensures ok { OnOk result (self.new
            ≡ record self.old { asked = self.old.asked ++ text_of path.entry ∷ [] }) }
        ensures err { OnErr result (self.new ≡ self.old) }
    {
        let text = match path {
            Some(path) => Some(Text::from_str(*self.asked.allocator(), path)?),
            None => None,
        };
        match self.asked.push(text) {
            Ok(()) => Ok(()),
            Err(full) => {
                drop(full);
                Err(OutOfMemory)
            }
        }
    }

    /// Opens without a path: its files are empty from then on.
    fn empty(&mut self) -> Result<(), Failed>
        ensures taken { IsTaken (Opened false) self.old self.new (is_err result) }
        ensures cause { HasCause self.old.faults self.new.faults result }
        ensures asked { self.new.asked ≡ self.old.asked }
    {
        let fate = self.take_fate();
        let taken = TakenCall {
            call: DiskCall::Open { has_path: false },
            fate,
        };
        if record_call(&mut self.calls, taken).is_err() {
            return Err(self.fail());
        }
        if let DiskFate::Fails { .. } = fate {
            return Err(self.fail());
        }
        self.held.clear();
        Ok(())
    }
}

impl Disk for MemoryDisk {
    ghost use Rattle.journal_disk.specs.Past.{disk_state, is_disk};

    ghost state = { λ d. disk_state d.first d.past };

    ghost faults = { λ d. d.faults };

    ghost is_disk = { λ d. is_disk d.first d.past };

    ghost asked = { λ d. Some d.asked };

    /// All paths are one: the files stand under each.
    fn open_at(&mut self, path: Option<&str>) -> Result<(), Failed>
        ensures opens { Opens (is_some path.entry) (disk_state self.old.first self.old.past)
            (disk_state self.new.first self.new.past) result }
        ensures cause { HasCause self.old.faults self.new.faults result }
        ensures taken { IsTaken (Opened (is_some path.entry)) self.old self.new (is_err result) }
        ensures asked { Asks (text_of path.entry)
            (Some self.old.asked) (Some self.new.asked) result }
    {
        if self.record_path(path).is_err() {
            let _fate = self.take_fate();
            return Err(self.fail());
        }
        match path {
            None => self.empty(),
            Some(_) => self.take(DiskCall::Open { has_path: true }),
        }
    }

    fn size(&mut self, which: u8) -> Result<u64, Failed>
        ensures size { IfOk result (λ size.
            size ≡ length (file (now_of self.old.first self.old.past) which)) }
        ensures bound { IfOk result (λ size. size ≤ 2 ^ 62) }
        ensures looks { Looks (disk_state self.old.first self.old.past)
            (disk_state self.new.first self.new.past) }
        ensures cause { HasCause self.old.faults self.new.faults result }
        ensures taken { length (file (now_of self.old.first self.old.past) which) ≤ 2 ^ 62 →
            IsTaken (Sized which) self.old self.new (is_err result) }
        ensures asked { self.new.asked ≡ self.old.asked }
    {
        self.take(DiskCall::Size { file: which })?;
        let size = self.bytes(which).len() as u64;
        if size > MOST {
            return Err(self.fail());
        }
        Ok(size)
    }

    fn read_at(&mut self, which: u8, place: u64, into: &mut [u8]) -> Result<(), Failed>
        requires { place + length into.old
            ≤ length (file (now_of self.old.first self.old.past) which) }
        ensures bytes { IfOk result (λ _. into.new ≡ take (length into.new)
            (drop place (file (now_of self.old.first self.old.past) which))) }
        ensures looks { Looks (disk_state self.old.first self.old.past)
            (disk_state self.new.first self.new.past) }
        ensures cause { HasCause self.old.faults self.new.faults result }
        ensures taken { IsTaken (Read which place (length into.old))
            self.old self.new (is_err result) }
        ensures asked { self.new.asked ≡ self.old.asked }
    {
        self.take(DiskCall::Read {
            file: which,
            place,
            size: into.len() as u64,
        })?;
        let (_, rest) = self.bytes(which).split_at(place as usize);
        let (front, _) = rest.split_at(into.len());
        into.copy_from_slice(front);
        Ok(())
    }

    fn write_at(&mut self, which: u8, place: u64, from: &[u8]) -> Result<(), Failed>
        requires { place ≤ length (file (now_of self.old.first self.old.past) which) }
        ensures writes { Writes which place from.now (disk_state self.old.first self.old.past)
            (disk_state self.new.first self.new.past) result }
        ensures bound { OnOk result (place + length from.now ≤ 2 ^ 62) }
        ensures cause { HasCause self.old.faults self.new.faults result }
        ensures taken { IsTaken (Wrote which place from.now) self.old self.new (is_err result) }
        ensures asked { self.new.asked ≡ self.old.asked }
    {
        let fate = self.take_fate();
        let size = from.len() as u64;
        if place > MOST || size > MOST - place {
            return Err(self.fail());
        }
        if let Err(_) = self.put_down(which, place, from, fate) {
            return Err(self.fail());
        }
        match fate {
            DiskFate::Succeeds => Ok(()),
            DiskFate::Fails { .. } => Err(self.fail()),
        }
    }

    fn sync(&mut self) -> Result<(), Failed>
        ensures syncs { Syncs (disk_state self.old.first self.old.past)
            (disk_state self.new.first self.new.past) result }
        ensures cause { HasCause self.old.faults self.new.faults result }
        ensures taken { IsTaken Synced self.old self.new (is_err result) }
        ensures asked { self.new.asked ≡ self.old.asked }
    {
        self.take(DiskCall::Sync)
    }
}
