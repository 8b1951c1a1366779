ghost use Rattle.std.specs.Prelude.{◌≡◌, ◌≤◌, ◌+◌, ℕ, Bool, true, false, List, Option, None, Some};
ghost use Rattle.std.specs.Prelude.{IfOk, IsOk, OnErr, OnOk, is_err, length, max, min};
ghost use Rattle.std.specs.Io.KnownBytes.{Keeps, ReadConsumes};
ghost use Rattle.outside.specs.Causes.{HasCause};
ghost use Rattle.outside.specs.Fates.{IsTold, fails_next};
ghost use Rattle.child_link.specs.Children.{HasEnded};

use outside::{Failed, MemorySource, ReadSource, SliceSource, Source};
use std::marker::Model;
use std::process::{Child, ChildStdout, SystemProcess};

/// A child: what it writes, and its end.
pub trait Link: Source {
    /// The system's number of it.
    ghost pid: { Self → ℕ };

    /// Whether it has ended, where the object tells it.
    ghost ended: { Self → Option Bool };

    /// The system's number of the child.
    fn id(&self) -> u32
        ensures { result ≡ pid self.now };

    /// Waits until the child has ended.
    fn wait(&mut self) -> Result<(), Failed>
        ensures ended { OnOk result (HasEnded (ended self.new)) }
        ensures failed { OnErr result (ended self.new ≡ ended self.old) }
        ensures bytes { Keeps (Self.left self.old) (Self.left self.new) }
        ensures pid { pid self.new ≡ pid self.old }
        ensures cause { HasCause (Self.faults self.old) (Self.faults self.new) result };
}

/// A child in memory. Each `true` of `waits`, taken from its end, is a wait that fails; reads fail
/// as its output says.
#[derive(Drop)]
pub struct MemoryLink {
    pid: u32,
    output: MemorySource,
    ended: bool,
    waits: Vec<bool>,
    failed_waits: u64,
}

impl Model for MemoryLink {
    ghost use Rattle.child_link.specs.Children.{ChildInMemory};

    ghost Value = { ChildInMemory };

    ghost view = { λ link. record {
      pid = link.pid;
      output = link.output;
      ended = link.ended;
      waits = link.waits.items;
      failed_waits = link.failed_waits;
    } };
}

impl MemoryLink {
    /// A child that hasn't ended.
    pub fn new(pid: u32, output: MemorySource, waits: Vec<bool>) -> Self
        ensures pid { result.pid ≡ pid }
        ensures output { result.output ≡ output }
        ensures ended { result.ended ≡ false }
        ensures waits { result.waits ≡ waits.items }
        ensures failed_waits { result.failed_waits ≡ 0 }
    {
        MemoryLink {
            pid,
            output,
            ended: false,
            waits,
            failed_waits: 0,
        }
    }
}

impl Source for MemoryLink {
    ghost left = { λ link. Some link.output.left };

    ghost faults = { λ link. link.output.faults + link.failed_waits };

    fn read(&mut self, into: &mut [u8]) -> Result<usize, Failed>
        ensures bound { IfOk result (λ n. n ≤ length into.new) }
        ensures bytes { ReadConsumes (Some self.old.output.left) (Some self.new.output.left)
            result into.new }
        ensures cause { HasCause (self.old.output.faults + self.old.failed_waits)
            (self.new.output.faults + self.new.failed_waits) result }
        ensures only { is_err result ≡ fails_next self.old.output.fails }
        ensures told { IsTold self.old.output.fails self.new.output.fails
            self.old.output.faults self.new.output.faults (is_err result) }
        ensures count { IfOk result (λ n. n ≡ min (max 1 self.old.output.piece)
            (min (length into.old) (length self.old.output.left))) }
        ensures piece { self.new.output.piece ≡ self.old.output.piece }
        ensures rest { self.new ≡ record self.old { output = self.new.output } }
    {
        self.output.read(into)
    }
}

impl Link for MemoryLink {
    ghost pid = { λ link. link.pid };

    ghost ended = { λ link. Some link.ended };

    fn id(&self) -> u32 {
        self.pid
    }

    fn wait(&mut self) -> Result<(), Failed>
        ensures ended { OnOk result (HasEnded (Some self.new.ended)) }
        ensures failed { OnErr result (Some self.new.ended ≡ Some self.old.ended) }
        ensures bytes { Keeps (Some self.old.output.left) (Some self.new.output.left) }
        ensures pid { self.new.pid ≡ self.old.pid }
        ensures cause { HasCause (self.old.output.faults + self.old.failed_waits)
            (self.new.output.faults + self.new.failed_waits) result }
        ensures only { is_err result ≡ fails_next self.old.waits }
        ensures told { IsTold self.old.waits self.new.waits
            self.old.failed_waits self.new.failed_waits (is_err result) }
        ensures output { self.new.output ≡ self.old.output }
    {
        if self.waits.pop().unwrap_or(false) {
            self.failed_waits = self.failed_waits.saturating_add(1);
            return Err(Failed);
        }
        self.ended = true;
        Ok(())
    }
}

/// A child in memory that never fails.
#[derive(Drop)]
pub struct SliceLink<'a> {
    pid: u32,
    output: SliceSource<'a>,
    ended: bool,
}

impl<'a> SliceLink<'a> {
    /// A child that writes these bytes, and hasn't ended.
    pub fn new(pid: u32, bytes: &'a [u8]) -> Self
        ensures pid { ⟦<SliceLink<'a> as Link>⟧.pid result ≡ pid }
        ensures ended { ⟦<SliceLink<'a> as Link>⟧.ended result ≡ Some false }
        ensures left { ⟦<SliceLink<'a> as Source>⟧.left result ≡ Some bytes.now }
    {
        SliceLink {
            pid,
            output: SliceSource::new(bytes),
            ended: false,
        }
    }
}

impl<'a> Source for SliceLink<'a> {
    ghost left = { λ link. ⟦<SliceSource<'a> as Source>⟧.left link.output };

    // It never fails.
    ghost faults = { λ _. 0 };

    fn read(&mut self, into: &mut [u8]) -> Result<usize, Failed>
        ensures bound { IfOk result (λ n. n ≤ length into.new) }
        ensures bytes { ReadConsumes (⟦<SliceSource<'a> as Source>⟧.left self.old.output)
            (⟦<SliceSource<'a> as Source>⟧.left self.new.output) result into.new }
        ensures cause { HasCause 0 0 result }
        ensures no_fault { IsOk result }
        ensures pid { self.new.pid ≡ self.old.pid }
        ensures ended { self.new.ended ≡ self.old.ended }
    {
        self.output.read(into)
    }
}

impl<'a> Link for SliceLink<'a> {
    ghost pid = { λ link. link.pid };

    ghost ended = { λ link. Some link.ended };

    fn id(&self) -> u32 {
        self.pid
    }

    fn wait(&mut self) -> Result<(), Failed>
        ensures ended { OnOk result (HasEnded (Some self.new.ended)) }
        ensures failed { OnErr result (Some self.new.ended ≡ Some self.old.ended) }
        ensures bytes { Keeps (⟦<SliceSource<'a> as Source>⟧.left self.old.output)
            (⟦<SliceSource<'a> as Source>⟧.left self.new.output) }
        ensures pid { self.new.pid ≡ self.old.pid }
        ensures cause { HasCause 0 0 result }
        ensures no_fault { IsOk result }
    {
        self.ended = true;
        Ok(())
    }
}

/// A program that was started, by its number and the pipe of its standard output. It tells no
/// content.
#[derive(Drop)]
pub struct PipeLink {
    pid: u32,
    child: Child<SystemProcess>,
    output: ReadSource<ChildStdout>,
    failed_waits: u64,
}

impl PipeLink {
    pub fn new(child: Child<SystemProcess>, output: ChildStdout) -> Self
        ensures { ⟦<PipeLink as Source>⟧.faults result ≡ 0 }
    {
        PipeLink {
            pid: child.id(),
            child,
            output: ReadSource::new(output),
            failed_waits: 0,
        }
    }
}

impl Source for PipeLink {
    ghost left = { λ _. None };

    ghost faults = { λ link. ⟦<ReadSource<ChildStdout> as Source>⟧.faults link.output
        + link.failed_waits };

    fn read(&mut self, into: &mut [u8]) -> Result<usize, Failed> {
        self.output.read(into)
    }
}

impl Link for PipeLink {
    ghost pid = { λ link. link.pid };

    ghost ended = { λ _. None };

    fn id(&self) -> u32 {
        self.pid
    }

    fn wait(&mut self) -> Result<(), Failed> {
        match self.child.wait() {
            Ok(_) => Ok(()),
            Err(_) => {
                self.failed_waits = self.failed_waits.saturating_add(1);
                Err(Failed)
            }
        }
    }
}
