//! The three files on a real disk.
ghost use Rattle.std.specs.Prelude.{◌≡◌, ◌≤◌, ◌+◌, ◌^◌, IfOk, None, OnOk, length};
ghost use Rattle.outside.specs.Fates.{one_more};

use crate::disk::Disk;
use crate::files::{DiskFiles, changed};
use outside::Failed;
use std::alloc::Global;
use std::fs::{File, OpenOptions};
use std::io;
use std::os::unix::fs::{FileExt, OpenOptionsExt};
use std::rt::Files;

/// The mode of a file that is made: its owner may read and write it, and nobody else.
const MODE: u32 = 0o600;

/// No file is longer.
const MOST: u64 = 1 << 62;

/// A file, and whether it was written since it was last on the disk.
#[derive(Drop)]
struct OneFile {
    file: File,
    dirty: bool,
}

/// The files under a path.
#[derive(Drop)]
struct PathFiles {
    selector: OneFile,
    one: OneFile,
    two: OneFile,
}

/// Where the bytes are.
#[derive(Drop)]
enum Place {
    Memory(DiskFiles),
    Path(PathFiles),
}

/// The files `FILE.s`, `FILE.1` and `FILE.2`, or three files in memory if no path is opened. It
/// tells nothing of them. It holds them alone, by an exclusive lock on each that ends with it:
/// files that another process or disk holds can't be opened.
#[derive(Drop)]
pub struct FileDisk<R: Files<File = File> + Drop> {
    files: R,
    alloc: Global,
    place: Place,
    faults: u64,
}

impl<R: Files<File = File> + Drop> FileDisk<R> {
    /// Three empty files, in memory.
    pub fn new(alloc: Global, files: R) -> Self
        ensures { ⟦<FileDisk<R> as Disk>⟧.faults result ≡ 0 }
    {
        FileDisk {
            files,
            alloc,
            place: Place::Memory(DiskFiles::new(alloc)),
            faults: 0,
        }
    }

    /// Counts a fault.
    fn fail(&mut self) -> Failed
        ensures after { self.new ≡ record self.old { faults = one_more self.old.faults } }
        ensures grows { self.old.faults ≤ self.new.faults }
    {
        self.faults = self.faults.saturating_add(1);
        Failed
    }
}

/// The folder of a path.
fn folder_of(path: &str) -> &str {
    match path.rsplit_once('/') {
        Some(("", _)) => "/",
        Some((folder, _)) => folder,
        None => ".",
    }
}

/// Opens a file, which is made if it is missing, and locks it.
fn open_one<R: Files<File = File>>(
    files: &R,
    alloc: Global,
    path: &str,
    ending: &str,
) -> io::Result<OneFile> {
    let name = format!(in alloc; "{path}.{ending}")?;
    let opened = OpenOptions::new()
        .read(true)
        .write(true)
        .create(true)
        .mode(MODE)
        .open(files, name.as_str());
    drop(name);
    let file = opened?;
    file.try_lock()?;
    file.sync_all()?;
    Ok(OneFile { file, dirty: false })
}

/// Opens the files under a path, and sees to it that their folder has them.
fn open_path<R: Files<File = File>>(files: &R, alloc: Global, path: &str) -> io::Result<PathFiles> {
    let selector = open_one(files, alloc, path, "s")?;
    let one = open_one(files, alloc, path, "1")?;
    let two = open_one(files, alloc, path, "2")?;
    let folder = File::open(files, folder_of(path))?;
    folder.sync_all()?;
    Ok(PathFiles { selector, one, two })
}

impl PathFiles {
    fn file(&mut self, which: u8) -> &mut OneFile {
        match which {
            0 => &mut self.selector,
            1 => &mut self.one,
            _ => &mut self.two,
        }
    }
}

impl OneFile {
    /// How long the file is.
    fn size(&self) -> io::Result<u64> {
        Ok(self.file.metadata()?.len())
    }

    fn write(&mut self, place: u64, from: &[u8]) -> io::Result<()> {
        self.dirty = true;
        self.file.write_all_at(from, place)
    }

    /// Puts on the disk what was written. A file that failed once is tried again.
    fn sync(&mut self) -> io::Result<()> {
        if self.dirty {
            self.file.sync_data()?;
            self.dirty = false;
        }
        Ok(())
    }
}

impl PathFiles {
    fn sync(&mut self) -> io::Result<()> {
        self.selector.sync()?;
        self.one.sync()?;
        self.two.sync()
    }
}

/// Reads bytes that some have from a place on; whether there are so many.
fn read_from(bytes: &[u8], place: u64, into: &mut [u8]) -> bool {
    let Ok(place) = usize::try_from(place) else {
        return false;
    };
    let Some(rest) = bytes.get(place..) else {
        return false;
    };
    let Some(front) = rest.get(..into.len()) else {
        return false;
    };
    into.copy_from_slice(front);
    true
}

impl<R: Files<File = File> + Drop> Disk for FileDisk<R> {
    ghost use Rattle.journal_disk.specs.Images.{nothing_told, nothing_is_disk};

    ghost state = { λ _. nothing_told };

    ghost faults = { λ d. d.faults };

    ghost is_disk = { λ _. nothing_is_disk };

    ghost asked = { λ _. None };

    fn open_at(&mut self, path: Option<&str>) -> Result<(), Failed> {
        let place = match path {
            None => Place::Memory(DiskFiles::new(self.alloc)),
            Some(path) => match open_path(&self.files, self.alloc, path) {
                Ok(files) => Place::Path(files),
                Err(_) => return Err(self.fail()),
            },
        };
        self.place = place;
        Ok(())
    }

    fn size(&mut self, which: u8) -> Result<u64, Failed> {
        let size = match &mut self.place {
            Place::Memory(files) => Ok(files.bytes(which).len() as u64),
            Place::Path(files) => files.file(which).size(),
        };
        match size {
            Ok(size) if size <= MOST => Ok(size),
            _ => Err(self.fail()),
        }
    }

    fn read_at(&mut self, which: u8, place: u64, into: &mut [u8]) -> Result<(), Failed> {
        let done = match &mut self.place {
            Place::Memory(files) => read_from(files.bytes(which), place, into),
            Place::Path(files) => files.file(which).file.read_exact_at(into, place).is_ok(),
        };
        if done { Ok(()) } else { Err(self.fail()) }
    }

    fn write_at(&mut self, which: u8, place: u64, from: &[u8]) -> Result<(), Failed> {
        if place > MOST || from.len() as u64 > MOST - place {
            return Err(self.fail());
        }
        let done = match &mut self.place {
            Place::Memory(files) => files.write(which, place, from).is_ok(),
            Place::Path(files) => files.file(which).write(place, from).is_ok(),
        };
        if done { Ok(()) } else { Err(self.fail()) }
    }

    fn sync(&mut self) -> Result<(), Failed> {
        let done = match &mut self.place {
            Place::Memory(_) => true,
            Place::Path(files) => files.sync().is_ok(),
        };
        if done { Ok(()) } else { Err(self.fail()) }
    }
}
