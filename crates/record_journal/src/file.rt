//! Bytes in a file.
ghost use Rattle.std.specs.Prelude.{◌≡◌, ◌≤◌, None, OnOk};
ghost use Rattle.std.specs.Io.KnownBytes.{Appends, IsAtEnd};
ghost use Rattle.outside.specs.Fates.{one_more};

use super::keeper::{KeepFault, Keeper};
use outside::Failed;
use scm_text::Items;
use std::alloc::Global;
use std::fs::{File, OpenFile, OpenOptions};
use std::io;
use std::io::{ErrorKind, Read, Seek, Write};
use std::os::unix::fs::OpenOptionsExt;
use std::path::Path;
use std::rt::Files;

/// The mode of a file that is made: its owner may read and write it, and nobody else.
const MODE: u32 = 0o600;

/// Where bytes are kept.
#[derive(Drop)]
enum Place<F: Drop> {
    Memory(Vec<u8>),
    File(F),
}

/// Bytes in a file, or in memory where none is opened. It tells nothing of them, and says nothing
/// of crashes: a plain file may lose its end in one, or have other bytes there. What it appends or
/// cuts has reached the disk before it answers. It holds the file alone, by an exclusive lock that
/// ends with it: a file that another process or keeper holds can't be opened.
#[derive(Drop)]
pub struct FileKeeper<R: Files<File = File> + Drop> {
    files: R,
    alloc: Global,
    place: Place<File>,
    faults: u64,
}

impl<R: Files<File = File> + Drop> FileKeeper<R> {
    /// Holds nothing, in memory.
    pub fn new(alloc: Global, files: R) -> Self
        ensures { ⟦<FileKeeper<R> as Keeper>⟧.faults result ≡ 0 }
    {
        FileKeeper {
            files,
            alloc,
            place: Place::Memory(Vec::new(alloc)),
            faults: 0,
        }
    }

    /// Counts a fault.
    fn fail(&mut self) -> Failed
        ensures after { self.new ≡ record self.old { faults = one_more self.old.faults } }
        ensures grows { self.old.faults ≤ self.new.faults }
    {
        self.faults = self.faults.saturating_add(1);
        Failed
    }
}

/// The folder of a path.
fn folder_of(path: &str) -> &str {
    match path.rsplit_once('/') {
        Some(("", _)) => "/",
        Some((folder, _)) => folder,
        None => ".",
    }
}

/// Opens and locks a file, which is made if there is none, and sees to it that its folder has it.
fn open_file<R: Files<File = File>>(files: &R, path: &str) -> io::Result<File> {
    let file = OpenOptions::new()
        .read(true)
        .append(true)
        .create(true)
        .mode(MODE)
        .open(files, path)?;
    file.try_lock()?;
    file.sync_all()?;
    let folder = File::open(files, folder_of(path))?;
    folder.sync_all()?;
    Ok(file)
}

/// All that the file has.
fn read_file<F: Read + Seek>(file: &mut F, alloc: Global) -> io::Result<Vec<u8>>
    // It was read to its end.
    ensures { OnOk result (IsAtEnd (F.remaining file.new)) }
{
    file.rewind()?;
    let mut bytes = Vec::new(alloc);
    file.read_to_end(&mut bytes)?;
    Ok(bytes)
}

/// Appends bytes, and sees to it that they reach the disk.
fn append_file<F: Write + OpenFile>(file: &mut F, bytes: &[u8]) -> io::Result<()>
    ensures { OnOk result (Appends (F.contents file.old) (F.contents file.new) bytes.now) }
{
    file.write_all(bytes)?;
    file.sync_data()
}

/// A file that isn't longer stays.
fn cut_file<F: OpenFile>(file: &F, length: u64) -> io::Result<()> {
    if length < file.metadata()?.len() {
        file.set_len(length)?;
    }
    file.sync_all()
}

impl<R: Files<File = File> + Drop> Keeper for FileKeeper<R> {
    ghost use Rattle.record_journal.specs.Crashes.{nothing_left, nothing_is_left};

    ghost held = { λ _. None };

    ghost faults = { λ k. k.faults };

    ghost settled = { λ _. Unit {0} };

    ghost crashes = { λ _. nothing_left };

    ghost are_crashes = { λ _. nothing_is_left None (Unit {0}) };

    ghost asked = { λ _. None };

    fn open_at(&mut self, path: Option<&str>) -> Result<(), Failed> {
        let place = match path {
            None => Place::Memory(Vec::new(self.alloc)),
            Some(path) => match open_file(&self.files, path) {
                Ok(file) => Place::File(file),
                Err(_) => return Err(self.fail()),
            },
        };
        self.place = place;
        Ok(())
    }

    fn read_all(&mut self) -> Result<Items<u8>, KeepFault> {
        let read = match &mut self.place {
            Place::Memory(bytes) => {
                return match Items::from_slice(self.alloc, bytes) {
                    Ok(all) => Ok(all),
                    Err(_) => Err(KeepFault::OutOfMemory),
                };
            }
            Place::File(file) => read_file(file, self.alloc),
        };
        match read {
            Ok(bytes) => Ok(Items::from_vec(bytes)),
            Err(fault) if fault.kind() == ErrorKind::OutOfMemory => Err(KeepFault::OutOfMemory),
            Err(_) => {
                let Failed = self.fail();
                Err(KeepFault::Failed)
            }
        }
    }

    /// Where there is no memory, nothing is appended in it.
    fn append(&mut self, bytes: &[u8]) -> Result<(), Failed> {
        let done = match &mut self.place {
            Place::Memory(kept) => kept.extend_from_slice(bytes).is_ok(),
            Place::File(file) => append_file(file, bytes).is_ok(),
        };
        if done { Ok(()) } else { Err(self.fail()) }
    }

    fn cut(&mut self, length: u64) -> Result<(), Failed> {
        let done = match &mut self.place {
            Place::Memory(kept) => {
                kept.truncate(length as usize);
                true
            }
            Place::File(file) => cut_file(file, length).is_ok(),
        };
        if done { Ok(()) } else { Err(self.fail()) }
    }
}
