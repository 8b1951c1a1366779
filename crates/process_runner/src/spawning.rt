ghost use Rattle.std.specs.Prelude.{◌≡◌, ℕ, List, Option, IfOk};
ghost use Rattle.process_runner.specs.Spawning.{Starts, counted, faults_after};
ghost use Rattle.process_runner.specs.declared.spawning.SpawnFaults.{SpawnFaults};

use child_link::{Feed, Link};
use scm_text::{Items, Text};

/// Why a program can't be started.
#[derive(Clone, Copy, Debug, PartialEq, Eq)]
pub enum SpawnFault {
    /// No program is there.
    NotFound,
    /// A part of its path is no folder.
    NoPath,
    /// It may not be run.
    Denied,
    Other,
}

/// How often starts failed, by their faults.
#[derive(Clone, Copy, Debug, PartialEq, Eq)]
pub struct SpawnFaults {
    pub not_found: u64,
    pub no_path: u64,
    pub denied: u64,
    pub other: u64,
}

impl SpawnFaults {
    pub const NONE: SpawnFaults = SpawnFaults {
        not_found: 0,
        no_path: 0,
        denied: 0,
        other: 0,
    };

    /// The counts with one fault more.
    fn with(self, fault: SpawnFault) -> SpawnFaults
        ensures { result ≡ counted fault self }
    {
        match fault {
            SpawnFault::NotFound => SpawnFaults {
                not_found: self.not_found.saturating_add(1),
                ..self
            },
            SpawnFault::NoPath => SpawnFaults {
                no_path: self.no_path.saturating_add(1),
                ..self
            },
            SpawnFault::Denied => SpawnFaults {
                denied: self.denied.saturating_add(1),
                ..self
            },
            SpawnFault::Other => SpawnFaults {
                other: self.other.saturating_add(1),
                ..self
            },
        }
    }

    /// Counts a fault, and answers it.
    pub fn count(&mut self, fault: SpawnFault) -> SpawnFault
        ensures counted { self.new ≡ counted fault self.old }
        ensures fault { result ≡ fault }
    {
        *self = self.with(fault);
        fault
    }
}

/// A program that was started.
#[derive(Drop)]
pub struct Spawned<L, F> {
    pub link: L,
    pub feed: F,
}

/// What starts programs.
pub trait Spawner {
    type Link: Link + Drop;

    type Feed: Feed + Drop;

    /// The words of each program that was started, in order, where the object tells them.
    ghost started: { Self → Option (List (List (List ℕ))) };

    /// How often starts failed.
    ghost faults: { Self → SpawnFaults };

    /// The ends of a child that the next start may give.
    ghost gives: { Self → Self.Link → Self.Feed → Type 0 };

    /// Starts a program: the first of the words names it, and the rest are its arguments.
    fn start(&mut self, words: &Items<Text>) -> Result<Spawned<Self::Link, Self::Feed>, SpawnFault>
        ensures started { Starts (started self.old) (started self.new) result words.now }
        ensures faults { faults self.new ≡ faults_after result (faults self.old) }
        ensures given { IfOk result (λ child. gives self.old child.link child.feed) };
}
