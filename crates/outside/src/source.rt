ghost use Rattle.std.specs.Prelude.{◌≡◌, ◌≤◌, ◌-◌, ◌^◌, ℕ, List, Option, Some, None, IfOk, IsOk};
ghost use Rattle.std.specs.Prelude.{is_err, length, max, min, take};
ghost use Rattle.std.specs.Io.KnownBytes.{ReadConsumes};
ghost use Rattle.outside.specs.Causes.{HasCause};
ghost use Rattle.outside.specs.Fates.{IsTold, fails_next};

use super::Failed;
use super::fates::{fail, is_to_fail};
use std::io::Read;
use std::marker::Model;

/// Where bytes come from.
pub trait Source {
    /// The bytes that are still to come, where the object tells them.
    ghost left: { Self → Option (List ℕ) };

    /// How often it failed.
    ghost faults: { Self → ℕ };

    /// Gives the next bytes. 0 into a nonempty slice is the end.
    fn read(&mut self, into: &mut [u8]) -> Result<usize, Failed>
        ensures bound { IfOk result (λ n. n ≤ length into.new) }
        ensures bytes { ReadConsumes (left self.old) (left self.new) result into.new }
        ensures cause { HasCause (faults self.old) (faults self.new) result };
}

/// Gives the next of some bytes, so many at most, and says how many.
fn give(rest: &[u8], piece: usize, into: &mut [u8]) -> usize
    ensures count { result ≡ min piece (min (length into.old) (length rest.now)) }
    ensures given { take result into.new ≡ take result rest.now }
{
    let count = piece.min(into.len().min(rest.len()));
    let (front, _) = rest.split_at(count);
    into[..count].copy_from_slice(front);
    count
}

/// Bytes in memory, given in pieces of one size at most. Each `true` of `fails`, taken from its
/// end, is a call that fails; no other does.
#[derive(Drop)]
pub struct MemorySource {
    bytes: Vec<u8>,
    /// How many of the bytes were read.
    consumed: usize,
    piece: usize,
    fails: Vec<bool>,
    faults: u64,
}

impl Model for MemorySource {
    ghost use Rattle.std.specs.Prelude.{◌≤◌, drop, length};
    ghost use Rattle.outside.specs.InMemory.{GivingMemory};

    ghost Value = { GivingMemory };

    ghost view = { λ s. record {
      left = drop s.consumed s.bytes.items;
      piece = s.piece;
      fails = s.fails.items;
      faults = s.faults;
    } };

    ghost invariant = { λ s. s.consumed ≤ length s.bytes.items };
}

impl MemorySource {
    /// Gives as many bytes at a time as there is room for.
    pub fn new(bytes: Vec<u8>, fails: Vec<bool>) -> Self
        ensures left { result.left ≡ bytes.items }
        ensures piece { result.piece ≡ 2 ^ 64 - 1 }
        ensures fails { result.fails ≡ fails.items }
        ensures faults { result.faults ≡ 0 }
    {
        MemorySource::in_pieces(bytes, usize::MAX, fails)
    }

    /// Gives so many bytes at a time at most, and one at least.
    pub fn in_pieces(bytes: Vec<u8>, piece: usize, fails: Vec<bool>) -> Self
        ensures left { result.left ≡ bytes.items }
        ensures piece { result.piece ≡ piece }
        ensures fails { result.fails ≡ fails.items }
        ensures faults { result.faults ≡ 0 }
    {
        MemorySource {
            bytes,
            consumed: 0,
            piece,
            fails,
            faults: 0,
        }
    }
}

impl Source for MemorySource {
    ghost left = { λ s. Some s.left };

    ghost faults = { λ s. s.faults };

    fn read(&mut self, into: &mut [u8]) -> Result<usize, Failed>
        ensures bound { IfOk result (λ n. n ≤ length into.new) }
        ensures bytes { ReadConsumes (Some self.old.left) (Some self.new.left) result into.new }
        ensures cause { HasCause self.old.faults self.new.faults result }
        ensures only { is_err result ≡ fails_next self.old.fails }
        ensures told { IsTold self.old.fails self.new.fails
            self.old.faults self.new.faults (is_err result) }
        ensures count { IfOk result (λ n.
            n ≡ min (max 1 self.old.piece) (min (length into.old) (length self.old.left))) }
        ensures piece { self.new.piece ≡ self.old.piece }
    {
        if is_to_fail(&mut self.fails) {
            return Err(fail(&mut self.faults));
        }
        let rest = &self.bytes[self.consumed..];
        let count = give(rest, self.piece.max(1), into);
        self.consumed += count;
        Ok(count)
    }
}

/// Bytes in memory that never fail.
#[derive(Drop)]
pub struct SliceSource<'a> {
    rest: &'a [u8],
}

impl<'a> SliceSource<'a> {
    pub fn new(bytes: &'a [u8]) -> Self
        ensures { ⟦<SliceSource<'a> as Source>⟧.left result ≡ Some bytes.now }
    {
        SliceSource { rest: bytes }
    }
}

impl<'a> Source for SliceSource<'a> {
    ghost left = { λ s. Some s.rest.now };

    // It never fails.
    ghost faults = { λ _. 0 };

    fn read(&mut self, into: &mut [u8]) -> Result<usize, Failed>
        ensures bound { IfOk result (λ n. n ≤ length into.new) }
        ensures bytes { ReadConsumes (Some self.old.rest.now)
            (Some self.new.rest.now) result into.new }
        ensures cause { HasCause 0 0 result }
        ensures no_fault { IsOk result }
    {
        let count = give(self.rest, usize::MAX, into);
        let (_, after) = self.rest.split_at(count);
        self.rest = after;
        Ok(count)
    }
}

/// Any reader, as a socket or the standard input. It has left what its reader has left: a reader in
/// memory tells that, one of the system tells nothing.
#[derive(Drop)]
pub struct ReadSource<R: Read> {
    reader: R,
    faults: u64,
}

impl<R: Read> ReadSource<R> {
    pub fn new(reader: R) -> Self
        ensures left { ⟦<ReadSource<R> as Source>⟧.left result ≡ R.remaining reader }
        ensures faults { ⟦<ReadSource<R> as Source>⟧.faults result ≡ 0 }
    {
        ReadSource { reader, faults: 0 }
    }
}

impl<R: Read> Source for ReadSource<R> {
    ghost left = { λ s. R.remaining s.reader };

    ghost faults = { λ s. s.faults };

    fn read(&mut self, into: &mut [u8]) -> Result<usize, Failed> {
        match self.reader.read(into) {
            Ok(n) => Ok(n),
            Err(_) => Err(fail(&mut self.faults)),
        }
    }
}
