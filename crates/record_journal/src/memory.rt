ghost use Rattle.std.specs.Prelude.{◌≡◌, ◌≤◌, ◌+◌, ◌-◌, ◌++◌, ◌∷◌, [], Some, IsTrue};
ghost use Rattle.std.specs.Prelude.{IfOk, OnOk, OnErr};
ghost use Rattle.std.specs.Prelude.{is_some};
ghost use Rattle.std.specs.Prelude.{IsErrOf, is_err, length, vec_capacity, vec_len};
ghost use Rattle.std.specs.Io.KnownBytes.{Keeps};
ghost use Rattle.outside.specs.Asked.{Asks, text_of};
ghost use Rattle.outside.specs.Causes.{HasCause, Rose};
ghost use Rattle.outside.specs.Fates.{later, one_more};
ghost use Rattle.outside.specs.Written.{Writes};
ghost use Rattle.record_journal.specs.InMemory.{IsTold, cut_told, next_fails, front_told};
ghost use Rattle.record_journal.specs.InMemory.{has_failed, fate_next};
ghost use Rattle.record_journal.specs.Keepers.{Cuts, Opens};

use super::keeper::{KeepFault, Keeper};
use outside::Failed;
use scm_text::{Items, OutOfMemory, Text};
use std::marker::Model;

/// What becomes of a call.
#[derive(Clone, Copy, PartialEq, Eq)]
pub enum Fate {
    Succeeds,
    /// It fails when it has done so much: an append has appended that many bytes, all at the most;
    /// a cut has cut, or at 0 it hasn't.
    Fails { done: usize },
}

/// Bytes in memory. Each call takes what becomes of it from the end of `fates`; where none is left,
/// it succeeds. An append or an opening that finds no memory fails too. It says nothing of crashes:
/// memory has no content after one.
#[derive(Drop)]
pub struct MemoryKeeper {
    bytes: Vec<u8>,
    fates: Vec<Fate>,
    faults: u64,
    asked: Vec<Option<Text>>,
}

impl Model for MemoryKeeper {
    ghost use Rattle.std.specs.Prelude.{◌-◌, vec_capacity, vec_len};
    ghost use Rattle.record_journal.specs.InMemory.{InMemory};

    ghost Value = { InMemory };

    ghost view = { λ k. record {
      bytes = k.bytes.items;
      room = vec_capacity k.bytes - vec_len k.bytes;
      fates = k.fates.items;
      faults = k.faults;
      asked = k.asked.items;
    } };
}

impl MemoryKeeper {
    /// Holds these bytes, and finds room in their vector. It takes no memory.
    pub fn new(bytes: Vec<u8>, fates: Vec<Fate>) -> Self
        ensures bytes { result.bytes ≡ bytes.items }
        ensures room { result.room ≡ vec_capacity bytes - vec_len bytes }
        ensures fates { result.fates ≡ fates.items }
        ensures faults { result.faults ≡ 0 }
        ensures asked { result.asked ≡ [] }
    {
        let asked = Vec::new(*bytes.allocator());
        MemoryKeeper {
            bytes,
            fates,
            faults: 0,
            asked,
        }
    }

    /// The bytes that it holds.
    pub fn bytes(&self) -> &[u8]
        ensures { result.now ≡ self.now.bytes }
    {
        &self.bytes
    }

    /// The paths at which it was opened, in order.
    pub fn asked(&self) -> &[Option<Text>]
        ensures { result.now ≡ self.now.asked }
    {
        &self.asked
    }
}

impl MemoryKeeper {
    /// What becomes of a call.
    fn take_fate(&mut self) -> Fate
        ensures fate { result ≡ fate_next self.old.fates }
        ensures after { self.new ≡ record self.old { fates = later self.old.fates } }
    {
        self.fates.pop().unwrap_or(Fate::Succeeds)
    }

    /// Counts a fault.
    fn fail(&mut self) -> Failed
        ensures after { self.new ≡ record self.old { faults = one_more self.old.faults } }
        ensures grows { self.old.faults ≤ self.new.faults }
    {
        self.faults = self.faults.saturating_add(1);
        Failed
    }

    /// Records a path at which it is opened.
    fn record_path(&mut self, path: Option<&str>) -> Result<(), OutOfMemory>
        ensures ok { OnOk result (self.new
            ≡ record self.old { asked = self.old.asked ++ text_of path.entry ∷ [] }) }
        ensures err { OnErr result (self.new ≡ self.old) }
    {
        let text = match path {
            Some(path) => Some(Text::from_str(*self.asked.allocator(), path)?),
            None => None,
        };
        match self.asked.push(text) {
            Ok(()) => Ok(()),
            Err(full) => {
                drop(full);
                Err(OutOfMemory)
            }
        }
    }
}

impl Keeper for MemoryKeeper {
    ghost use Rattle.record_journal.specs.Crashes.{nothing_left, nothing_is_left};

    ghost held = { λ k. Some k.bytes };

    ghost faults = { λ k. k.faults };

    ghost settled = { λ _. Unit {0} };

    ghost crashes = { λ _. nothing_left };

    ghost are_crashes = { λ k. nothing_is_left (Some k.bytes) (Unit {0}) };

    ghost asked = { λ k. Some k.asked };

    /// All paths are one: the bytes stand under each.
    fn open_at(&mut self, path: Option<&str>) -> Result<(), Failed>
        ensures bytes { Opens (is_some path.entry)
            (Some self.old.bytes) (Some self.new.bytes) result }
        ensures cause { HasCause self.old.faults self.new.faults result }
        ensures told { IsTold self.old self.new (is_err result) }
        ensures asked { Asks (text_of path.entry)
            (Some self.old.asked) (Some self.new.asked) result }
        ensures unasked { OnErr result (self.new.asked ≡ self.old.asked) }
    {
        if let Fate::Fails { .. } = self.take_fate() {
            return Err(self.fail());
        }
        if self.record_path(path).is_err() {
            return Err(self.fail());
        }
        if path.is_none() {
            self.bytes.clear();
        }
        Ok(())
    }

    fn read_all(&mut self) -> Result<Items<u8>, KeepFault>
        ensures bytes { IfOk result (λ all. all ≡ self.old.bytes) }
        ensures same { self.new.bytes ≡ self.old.bytes }
        ensures grows { self.old.faults ≤ self.new.faults }
        ensures cause { IsErrOf result KeepFault.Failed → Rose self.old.faults self.new.faults }
        ensures kept { OnOk result (self.new.faults ≡ self.old.faults) }
        ensures memory { IsErrOf result KeepFault.OutOfMemory →
            self.new.faults ≡ self.old.faults }
        ensures told { IsTold self.old self.new (has_failed result) }
        ensures only { IsErrOf result KeepFault.Failed → IsTrue (next_fails self.old) }
        ensures asked { self.new.asked ≡ self.old.asked }
    {
        if let Fate::Fails { .. } = self.take_fate() {
            let Failed = self.fail();
            return Err(KeepFault::Failed);
        }
        match Items::from_slice(*self.bytes.allocator(), &self.bytes) {
            Ok(all) => Ok(all),
            Err(_) => Err(KeepFault::OutOfMemory),
        }
    }

    /// Where there is no memory, nothing is appended.
    fn append(&mut self, bytes: &[u8]) -> Result<(), Failed>
        ensures bytes { Writes (Some self.old.bytes) (Some self.new.bytes) result bytes.now }
        ensures cause { HasCause self.old.faults self.new.faults result }
        ensures told { IsTold self.old self.new (is_err result) }
        ensures only { length bytes.now ≤ self.old.room →
            OnErr result (IsTrue (next_fails self.old)) }
        ensures front { length bytes.now ≤ self.old.room →
            self.new.bytes ≡ self.old.bytes ++ front_told (fate_next self.old.fates) bytes.now }
        ensures room { self.old.room ≤ self.new.room + length bytes.now }
        ensures asked { self.new.asked ≡ self.old.asked }
    {
        match self.take_fate() {
            Fate::Succeeds => match self.bytes.extend_from_slice(bytes) {
                Ok(()) => Ok(()),
                Err(_) => Err(self.fail()),
            },
            Fate::Fails { done } => {
                let _ = self
                    .bytes
                    .extend_from_slice(&bytes[..done.min(bytes.len())]);
                Err(self.fail())
            }
        }
    }

    fn cut(&mut self, length: u64) -> Result<(), Failed>
        ensures bytes { Cuts length (Some self.old.bytes) (Some self.new.bytes) result }
        ensures cause { HasCause self.old.faults self.new.faults result }
        ensures told { IsTold self.old self.new (is_err result) }
        ensures only { OnErr result (IsTrue (next_fails self.old)) }
        ensures front { self.new.bytes ≡ cut_told (fate_next self.old.fates) length self.old.bytes }
        ensures room { self.old.room ≤ self.new.room }
        ensures asked { self.new.asked ≡ self.old.asked }
    {
        match self.take_fate() {
            Fate::Succeeds => {
                self.bytes.truncate(length as usize);
                Ok(())
            }
            Fate::Fails { done } => {
                if 0 < done {
                    self.bytes.truncate(length as usize);
                }
                Err(self.fail())
            }
        }
    }
}
