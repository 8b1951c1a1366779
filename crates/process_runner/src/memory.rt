ghost use Rattle.std.specs.Prelude.{◌≡◌, [], ◌∷◌, ◌++◌, IfOk, OnErr, OnOk, Some};
ghost use Rattle.outside.specs.Fates.{later};
ghost use Rattle.process_runner.specs.Spawning.{
  ComesTo,
  Starts,
  WillGive,
  faults_after,
  next_start,
};
ghost use Rattle.process_runner.specs.Spawning.{no_faults};

use super::spawning::{SpawnFault, SpawnFaults, Spawned, Spawner};
use child_link::MemoryLink;
use outside::MemorySink;
use scm_text::{Items, OutOfMemory, Text};
use std::alloc::Global;
use std::marker::Model;

/// Starts nothing but keeps the words. Each of `fates`, taken from its end, is the outcome of a
/// start; after the last of them no program is found. If there is no memory for the words the fault
/// is `Other`.
#[derive(Drop)]
pub struct MemorySpawner {
    alloc: Global,
    started: Items<Items<Text>>,
    fates: Vec<Result<Spawned<MemoryLink, MemorySink>, SpawnFault>>,
    faults: SpawnFaults,
}

impl Model for MemorySpawner {
    ghost use Rattle.process_runner.specs.Spawning.{SpawningMemory};

    ghost Value = { SpawningMemory };

    ghost view = { λ s. record {
      started = s.started;
      fates = s.fates.items;
      faults = s.faults;
    } };
}

/// A copy of some texts.
fn copy_of(alloc: Global, texts: &[Text]) -> Result<Items<Text>, OutOfMemory>
    ensures { IfOk result (λ copy. copy ≡ texts.now) }
{
    let mut copy = Items::new(alloc);
    for text in texts {
        if copy.push(Text::from_str(alloc, text.as_str())?).is_err() {
            return Err(OutOfMemory);
        }
    }
    Ok(copy)
}

impl MemorySpawner {
    /// Has started nothing yet.
    pub fn new(
        alloc: Global,
        fates: Vec<Result<Spawned<MemoryLink, MemorySink>, SpawnFault>>,
    ) -> Self
        ensures started { result.started ≡ [] }
        ensures fates { result.fates ≡ fates.items }
        ensures faults { result.faults ≡ no_faults }
    {
        MemorySpawner {
            alloc,
            started: Items::new(alloc),
            fates,
            faults: SpawnFaults::NONE,
        }
    }

    /// The words of each program that was started, in order.
    pub fn started(&self) -> &[Items<Text>]
        ensures { result.now ≡ self.now.started }
    {
        self.started.as_slice()
    }

    /// Keeps the words of a program that is started.
    fn keep(&mut self, words: &Items<Text>) -> Result<(), OutOfMemory>
        ensures ok { OnOk result
            (self.new ≡ record self.old { started = self.old.started ++ words.now ∷ [] }) }
        ensures err { OnErr result (self.new ≡ self.old) }
    {
        let copy = copy_of(self.alloc, words.as_slice())?;
        match self.started.push(copy) {
            Ok(()) => Ok(()),
            Err(_) => Err(OutOfMemory),
        }
    }
}

impl Spawner for MemorySpawner {
    type Link = MemoryLink;

    type Feed = MemorySink;

    ghost started = { λ s. Some s.started };

    ghost faults = { λ s. s.faults };

    ghost gives = { WillGive };

    fn start(&mut self, words: &Items<Text>) -> Result<Spawned<MemoryLink, MemorySink>, SpawnFault>
        ensures started { Starts (Some self.old.started) (Some self.new.started) result words.now }
        ensures faults { self.new.faults ≡ faults_after result self.old.faults }
        ensures given { IfOk result (λ child. WillGive self.old child.link child.feed) }
        ensures told { ComesTo (next_start self.old.fates) result }
        ensures later { self.new.fates ≡ later self.old.fates }
    {
        match self.fates.pop() {
            Some(Ok(child)) => match self.keep(words) {
                Ok(()) => Ok(child),
                Err(OutOfMemory) => Err(self.faults.count(SpawnFault::Other)),
            },
            Some(Err(fault)) => Err(self.faults.count(fault)),
            None => Err(self.faults.count(SpawnFault::NotFound)),
        }
    }
}
