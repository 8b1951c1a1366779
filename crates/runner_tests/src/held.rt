// Children in memory of which one is held.
use crate::events::{Event, Events};
use child_link::{Link, MemoryLink};
use outside::{Failed, MemorySink, Source};
use process_runner::{MemorySpawner, SpawnFault, Spawned, Spawner};
use scm_text::{Items, Text};

/// A child in memory. The first one holds its line until the state of its service was told, and its
/// end until it was told again.
#[derive(Drop)]
pub struct HeldLink<'a> {
    link: MemoryLink,
    was_read: bool,
    events: &'a Events,
}

/// Waits with a read, the first one or a later one.
fn hold(events: &Events, was_read: bool) {
    if was_read {
        events.set(Event::Read);
        events.wait(Event::Over);
    } else {
        events.set(Event::Launched);
        events.wait(Event::Told);
    }
}

impl<'a> Source for HeldLink<'a> {
    ghost left = { λ l. ⟦<MemoryLink as Source>⟧.left l.link };

    ghost faults = { λ l. ⟦<MemoryLink as Source>⟧.faults l.link };

    fn read(&mut self, into: &mut [u8]) -> Result<usize, Failed> {
        if self.link.id() == 1 {
            hold(self.events, self.was_read);
            self.was_read = true;
        }
        self.link.read(into)
    }
}

impl<'a> Link for HeldLink<'a> {
    ghost pid = { λ l. ⟦<MemoryLink as Link>⟧.pid l.link };

    ghost ended = { λ l. ⟦<MemoryLink as Link>⟧.ended l.link };

    fn id(&self) -> u32 {
        self.link.id()
    }

    fn wait(&mut self) -> Result<(), Failed> {
        self.link.wait()
    }
}

/// Starts children in memory that may be held.
#[derive(Drop)]
pub struct HeldSpawner<'a> {
    pub spawner: MemorySpawner,
    pub events: &'a Events,
}

impl<'a> Spawner for HeldSpawner<'a> {
    ghost use Rattle.std.specs.Prelude.{⊤};

    type Link = HeldLink<'a>;

    type Feed = MemorySink;

    ghost started = { λ s. ⟦<MemorySpawner as Spawner>⟧.started s.spawner };

    ghost faults = { λ s. ⟦<MemorySpawner as Spawner>⟧.faults s.spawner };

    ghost gives = { λ s link feed. ⊤ };

    fn start(
        &mut self,
        words: &Items<Text>,
    ) -> Result<Spawned<HeldLink<'a>, MemorySink>, SpawnFault> {
        match self.spawner.start(words) {
            Ok(child) => Ok(Spawned {
                link: HeldLink {
                    link: child.link,
                    was_read: false,
                    events: self.events,
                },
                feed: child.feed,
            }),
            Err(fault) => Err(fault),
        }
    }
}
