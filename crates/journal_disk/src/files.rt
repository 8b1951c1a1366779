ghost use Rattle.std.specs.Prelude.{◌≡◌, ◌≤◌, ◌+◌, ◌++◌, IfOk, OnErr, OnOk, drop, length, take};
ghost use Rattle.journal_disk.specs.Files.{file, no_files, put, with_file, written};

use std::alloc::{AllocError, Global};
use std::marker::Model;
use std::mem;

/// The files 0, 1 and 2 of a disk.
#[derive(Drop)]
pub struct DiskFiles {
    selector: Vec<u8>,
    one: Vec<u8>,
    two: Vec<u8>,
}

impl Model for DiskFiles {
    ghost use Rattle.journal_disk.specs.Files.{Files};

    ghost Value = { Files };

    ghost view = { λ f. record {
      selector = f.selector.items;
      one = f.one.items;
      two = f.two.items;
    } };
}

impl DiskFiles {
    pub fn new(alloc: Global) -> Self
        ensures { result ≡ no_files }
    {
        DiskFiles {
            selector: Vec::new(alloc),
            one: Vec::new(alloc),
            two: Vec::new(alloc),
        }
    }

    /// The bytes of a file.
    pub fn bytes(&self, which: u8) -> &[u8]
        ensures { result.now ≡ file self.now which }
    {
        match which {
            0 => &self.selector,
            1 => &self.one,
            _ => &self.two,
        }
    }

    /// Other bytes for a file.
    pub fn set(&mut self, which: u8, bytes: Vec<u8>)
        ensures { self.new ≡ with_file self.old which bytes.items }
    {
        let old = match which {
            0 => mem::replace(&mut self.selector, bytes),
            1 => mem::replace(&mut self.one, bytes),
            _ => mem::replace(&mut self.two, bytes),
        };
        drop(old);
    }

    /// The bytes of others.
    pub fn copy_from(&mut self, others: &DiskFiles) -> Result<(), AllocError>
        ensures { OnOk result (self.new ≡ others.now) }
    {
        self.clear();
        self.selector.extend_from_slice(&others.selector)?;
        self.one.extend_from_slice(&others.one)?;
        self.two.extend_from_slice(&others.two)?;
        Ok(())
    }

    /// Writes over the bytes of a file and past their end; a place past their end counts as the
    /// end.
    pub fn write(&mut self, which: u8, place: u64, from: &[u8]) -> Result<(), AllocError>
        ensures ok { OnOk result (self.new ≡ written which place from.now self.old) }
        ensures err { OnErr result (self.new ≡ self.old) }
    {
        let place = place as usize;
        match which {
            0 => write_over(&mut self.selector, place, from),
            1 => write_over(&mut self.one, place, from),
            _ => write_over(&mut self.two, place, from),
        }
    }

    pub fn clear(&mut self)
        ensures { self.new ≡ no_files }
    {
        self.selector.clear();
        self.one.clear();
        self.two.clear();
    }
}

/// Writes over bytes and past their end; a place past their end counts as the end.
fn write_over(bytes: &mut Vec<u8>, place: usize, from: &[u8]) -> Result<(), AllocError>
    ensures ok { OnOk result (bytes.new.items ≡ put place from.now bytes.old.items) }
    ensures err { OnErr result (bytes.new.items ≡ bytes.old.items) }
{
    let place = place.min(bytes.len());
    let (over, past) = from.split_at(from.len().min(bytes.len() - place));
    bytes.extend_from_slice(past)?;
    bytes[place..place + over.len()].copy_from_slice(over);
    Ok(())
}

/// Puts three pieces after some bytes.
fn join(made: &mut Vec<u8>, front: &[u8], from: &[u8], rest: &[u8]) -> Result<(), AllocError>
    ensures { OnOk result (made.new.items ≡ made.old.items ++ front.now ++ from.now ++ rest.now) }
{
    made.extend_from_slice(front)?;
    made.extend_from_slice(from)?;
    made.extend_from_slice(rest)?;
    Ok(())
}

/// Bytes with others in their place, and past their end; a place past their end counts as the end.
pub fn changed(alloc: Global, old: &[u8], place: usize, from: &[u8]) -> Result<Vec<u8>, AllocError>
    ensures { IfOk result (λ made. made.items ≡ put place from.now old.now) }
{
    let (front, rest) = old.split_at(place.min(old.len()));
    let (_, after) = rest.split_at(from.len().min(rest.len()));
    let mut made = Vec::new(alloc);
    match join(&mut made, front, from, after) {
        Ok(()) => Ok(made),
        Err(fault) => {
            drop(made);
            Err(fault)
        }
    }
}
