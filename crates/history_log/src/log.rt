// A log, and the place that its bytes lie in.
ghost use Rattle.std.specs.Prelude.{◌≡◌, ◌≤◌, ◌<◌, None, Some, IfOk, length, option_map};
ghost use Rattle.std.specs.Io.KnownBytes.{Keeps, WriteAppends};
ghost use Rattle.outside.specs.Causes.{HasCause};
ghost use Rattle.outside.specs.Fates.{one_more};
ghost use Rattle.history_log.specs.Logged.{held_in, nowhere};

use outside::{Failed, MemorySink, Sink, WriteSink};
use std::fs::File;
use std::marker::Model;

/// Where the bytes of a log lie.
#[derive(Drop)]
enum Place {
    /// Nowhere: what is written is let go.
    Nowhere,
    Memory(MemorySink),
    File(WriteSink<File>),
}

impl Place {
    /// Takes a front of the bytes, at least one where there is one.
    fn write(&mut self, from: &[u8]) -> Result<usize, Failed>
        ensures bound { IfOk result (λ n. n ≤ length from.now) }
        ensures some { IfOk result (λ n. 0 < length from.now → 0 < n) }
        ensures bytes { WriteAppends (held_in self.old) (held_in self.new) result from.now }
    {
        match self {
            Place::Nowhere => Ok(from.len()),
            Place::Memory(sink) => sink.write(from),
            Place::File(sink) => sink.write(from),
        }
    }

    /// Passes on what it took.
    fn flush(&mut self) -> Result<(), Failed>
        ensures { Keeps (held_in self.old) (held_in self.new) }
    {
        match self {
            Place::Nowhere => Ok(()),
            Place::Memory(sink) => sink.flush(),
            Place::File(sink) => sink.flush(),
        }
    }
}

/// Where the history of a run goes as it grows.
///
/// A write that fails takes nothing: what the log holds stays a front of what was to be written,
/// and the rest can be tried again.
#[derive(Drop)]
pub struct HistoryLog {
    place: Place,
    faults: u64,
}

impl Model for HistoryLog {
    ghost use Rattle.history_log.specs.Logged.{Logged, held_in};

    ghost Value = { Logged };

    ghost view = { λ l. record {
      held = held_in l.place;
      faults = l.faults;
    } };
}

impl HistoryLog {
    /// There is no log. What is written to it is let go.
    pub fn nowhere() -> Self
        ensures { result ≡ nowhere }
    {
        HistoryLog {
            place: Place::Nowhere,
            faults: 0,
        }
    }

    /// A log in memory, after what the sink holds.
    pub fn memory(sink: MemorySink) -> Self
        ensures held { result.held ≡ Some sink.held }
        ensures faults { result.faults ≡ 0 }
    {
        HistoryLog {
            place: Place::Memory(sink),
            faults: 0,
        }
    }

    /// A log in a file, from the place on where it is written next. It tells nothing of its
    /// content.
    pub fn file(file: File) -> Self
        ensures { result ≡ nowhere }
    {
        HistoryLog {
            place: Place::File(WriteSink::new(file)),
            faults: 0,
        }
    }

    /// How often it failed.
    pub fn faults(&self) -> u64
        ensures { result ≡ self.now.faults }
    {
        self.faults
    }

    /// What it holds, if it lies in memory.
    pub fn bytes(&self) -> Option<&[u8]>
        ensures { option_map (λ bytes. bytes.now) result ≡ self.now.held }
    {
        match &self.place {
            Place::Memory(sink) => Some(sink.bytes()),
            _ => None,
        }
    }

    /// Counts a fault.
    fn fail(&mut self) -> Failed
        ensures after { self.new ≡ record self.old { faults = one_more self.old.faults } }
        ensures grows { self.old.faults ≤ self.new.faults }
    {
        self.faults = self.faults.saturating_add(1);
        Failed
    }
}

impl Sink for HistoryLog {
    ghost held = { λ l. l.held };

    ghost faults = { λ l. l.faults };

    fn write(&mut self, from: &[u8]) -> Result<usize, Failed> {
        match self.place.write(from) {
            Ok(count) => Ok(count),
            Err(Failed) => Err(self.fail()),
        }
    }

    fn flush(&mut self) -> Result<(), Failed> {
        match self.place.flush() {
            Ok(()) => Ok(()),
            Err(Failed) => Err(self.fail()),
        }
    }
}
