ghost use Rattle.std.specs.Prelude.{◌≡◌, ◌≤◌, ◌<◌, ◌+◌, ◌-◌, ◌^◌, ℕ, List, [], length, max, min};
ghost use Rattle.std.specs.Prelude.{Option, Some, None, IfOk, is_err, vec_capacity, vec_len};
ghost use Rattle.std.specs.Io.KnownBytes.{WriteAppends, Keeps};
ghost use Rattle.outside.specs.Causes.{HasCause};
ghost use Rattle.outside.specs.Fates.{IsTold, fails_next};
ghost use Rattle.outside.specs.Written.{Writes};

use super::Failed;
use super::fates::{fail, is_to_fail};
use std::alloc::Global;
use std::io::Write;
use std::marker::Model;

/// Where bytes go.
pub trait Sink {
    /// The bytes that it holds, where the object tells them.
    ghost held: { Self → Option (List ℕ) };

    /// How often it failed.
    ghost faults: { Self → ℕ };

    /// Takes a front of the bytes, at least one where there is one.
    fn write(&mut self, from: &[u8]) -> Result<usize, Failed>
        ensures bound { IfOk result (λ n. n ≤ length from.now) }
        ensures some { IfOk result (λ n. 0 < length from.now → 0 < n) }
        ensures bytes { WriteAppends (held self.old) (held self.new) result from.now }
        ensures cause { HasCause (faults self.old) (faults self.new) result };

    /// Passes on what it took.
    fn flush(&mut self) -> Result<(), Failed>
        ensures bytes { Keeps (held self.old) (held self.new) }
        ensures cause { HasCause (faults self.old) (faults self.new) result };
}

/// Writes all of the bytes, in one call where the sink takes them at once.
pub fn write_all<T: Sink>(sink: &mut T, bytes: &[u8]) -> Result<(), Failed>
    ensures written { Writes (T.held sink.old) (T.held sink.new) result bytes.now }
    ensures cause { HasCause (T.faults sink.old) (T.faults sink.new) result }
{
    let mut rest = bytes;
    while !rest.is_empty() {
        match sink.write(rest) {
            Ok(count) => {
                let (_, after) = rest.split_at(count);
                rest = after;
            }
            Err(fault) => return Err(fault),
        }
    }
    Ok(())
}

/// Bytes that were written, in memory, in pieces of one size at most. Each `true` of `fails`, taken
/// from its end, is a call that fails; no other does, but a write that finds no memory.
#[derive(Drop)]
pub struct MemorySink {
    bytes: Vec<u8>,
    piece: usize,
    fails: Vec<bool>,
    faults: u64,
}

impl Model for MemorySink {
    ghost use Rattle.std.specs.Prelude.{◌-◌, vec_capacity, vec_len};
    ghost use Rattle.outside.specs.InMemory.{HoldingMemory};

    ghost Value = { HoldingMemory };

    ghost view = { λ s. record {
      held = s.bytes.items;
      room = vec_capacity s.bytes - vec_len s.bytes;
      piece = s.piece;
      fails = s.fails.items;
      faults = s.faults;
    } };
}

impl MemorySink {
    /// Takes what it is given at once.
    pub fn new(alloc: Global, fails: Vec<bool>) -> Self
        ensures held { result.held ≡ [] }
        ensures piece { result.piece ≡ 2 ^ 64 - 1 }
        ensures fails { result.fails ≡ fails.items }
        ensures faults { result.faults ≡ 0 }
    {
        MemorySink::in_pieces(alloc, usize::MAX, fails)
    }

    /// Takes so many bytes at a time at most, and one at least.
    pub fn in_pieces(alloc: Global, piece: usize, fails: Vec<bool>) -> Self
        ensures held { result.held ≡ [] }
        ensures piece { result.piece ≡ piece }
        ensures fails { result.fails ≡ fails.items }
        ensures faults { result.faults ≡ 0 }
    {
        MemorySink::with_bytes(Vec::new(alloc), piece, fails)
    }

    /// Holds these bytes at first, and finds room in their vector. It takes so many bytes at a time
    /// at most, and one at least.
    pub fn with_bytes(bytes: Vec<u8>, piece: usize, fails: Vec<bool>) -> Self
        ensures held { result.held ≡ bytes.items }
        ensures room { result.room ≡ vec_capacity bytes - vec_len bytes }
        ensures piece { result.piece ≡ piece }
        ensures fails { result.fails ≡ fails.items }
        ensures faults { result.faults ≡ 0 }
    {
        MemorySink {
            bytes,
            piece,
            fails,
            faults: 0,
        }
    }

    /// The bytes that it holds.
    pub fn bytes(&self) -> &[u8]
        ensures { result.now ≡ self.now.held }
    {
        &self.bytes
    }
}

impl Sink for MemorySink {
    ghost held = { λ s. Some s.held };

    ghost faults = { λ s. s.faults };

    fn write(&mut self, from: &[u8]) -> Result<usize, Failed>
        ensures bound { IfOk result (λ n. n ≤ length from.now) }
        ensures some { IfOk result (λ n. 0 < length from.now → 0 < n) }
        ensures bytes { WriteAppends (Some self.old.held) (Some self.new.held) result from.now }
        ensures cause { HasCause self.old.faults self.new.faults result }
        ensures only { min (max 1 self.old.piece) (length from.now) ≤ self.old.room →
            is_err result ≡ fails_next self.old.fails }
        ensures told { IsTold self.old.fails self.new.fails
            self.old.faults self.new.faults (is_err result) }
        ensures count { IfOk result (λ n. n ≡ min (max 1 self.old.piece) (length from.now)) }
        ensures room { self.old.room ≤ self.new.room + length from.now }
        ensures piece { self.new.piece ≡ self.old.piece }
    {
        if is_to_fail(&mut self.fails) {
            return Err(fail(&mut self.faults));
        }
        let count = self.piece.max(1).min(from.len());
        match self.bytes.extend_from_slice(&from[..count]) {
            Ok(()) => Ok(count),
            Err(_) => Err(fail(&mut self.faults)),
        }
    }

    fn flush(&mut self) -> Result<(), Failed>
        ensures bytes { Keeps (Some self.old.held) (Some self.new.held) }
        ensures cause { HasCause self.old.faults self.new.faults result }
        ensures only { is_err result ≡ fails_next self.old.fails }
        ensures told { IsTold self.old.fails self.new.fails
            self.old.faults self.new.faults (is_err result) }
        ensures room { self.new.room ≡ self.old.room }
        ensures piece { self.new.piece ≡ self.old.piece }
    {
        if is_to_fail(&mut self.fails) {
            return Err(fail(&mut self.faults));
        }
        Ok(())
    }
}

/// Any writer, as a socket or the standard output. It holds what its writer holds: a writer in
/// memory tells its content, one of the system tells none.
#[derive(Drop)]
pub struct WriteSink<W: Write> {
    writer: W,
    faults: u64,
}

impl<W: Write> WriteSink<W> {
    pub fn new(writer: W) -> Self
        ensures held { ⟦<WriteSink<W> as Sink>⟧.held result ≡ W.contents writer }
        ensures faults { ⟦<WriteSink<W> as Sink>⟧.faults result ≡ 0 }
    {
        WriteSink { writer, faults: 0 }
    }

    /// How often it failed.
    pub fn faults(&self) -> u64
        ensures { result ≡ ⟦<WriteSink<W> as Sink>⟧.faults self.now }
    {
        self.faults
    }
}

impl<W: Write> Sink for WriteSink<W> {
    ghost held = { λ s. W.contents s.writer };

    ghost faults = { λ s. s.faults };

    /// A writer that takes none of some bytes has failed.
    fn write(&mut self, from: &[u8]) -> Result<usize, Failed> {
        match self.writer.write(from) {
            Ok(n) if n > 0 || from.is_empty() => Ok(n),
            _ => Err(fail(&mut self.faults)),
        }
    }

    fn flush(&mut self) -> Result<(), Failed> {
        match self.writer.flush() {
            Ok(()) => Ok(()),
            Err(_) => Err(fail(&mut self.faults)),
        }
    }
}
