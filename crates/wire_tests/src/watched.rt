ghost use Rattle.std.specs.Prelude.{None};

use outside::{Failed, Sink, SliceSource, Source};
use std::cell::Cell;

/// What a source and a sink share: how many bytes were given and written so far, and whether a read
/// ever found less written than what was given is answered by.
#[derive(Drop)]
pub struct Watch {
    given: Cell<usize>,
    written: Cell<usize>,
    late: Cell<bool>,
}

/// The length of what so many bytes of the session are answered: the bind has 72, each close 44.
fn due(given: usize) -> usize {
    match given {
        0..=71 => 0,
        72..=115 => 56,
        116..=159 => 104,
        _ => 152,
    }
}

impl Watch {
    pub fn new() -> Self {
        Watch {
            given: Cell::new(0),
            written: Cell::new(0),
            late: Cell::new(false),
        }
    }

    /// A read comes.
    fn look(&self) {
        if self.written.get() != due(self.given.get()) {
            self.late.set(true);
        }
    }

    /// Whether no read came before what was due then.
    pub fn was_in_time(&self) -> bool {
        !self.late.get()
    }
}

/// Bytes in two parts, which a read doesn't go across.
#[derive(Drop)]
pub struct WatchedSource<'a> {
    front: SliceSource<'a>,
    back: SliceSource<'a>,
    watch: &'a Watch,
}

impl<'a> WatchedSource<'a> {
    pub fn new(front: &'a [u8], back: &'a [u8], watch: &'a Watch) -> Self {
        WatchedSource {
            front: SliceSource::new(front),
            back: SliceSource::new(back),
            watch,
        }
    }
}

impl<'a> Source for WatchedSource<'a> {
    ghost left = { λ _. None };

    ghost faults = { λ _. 0 };

    fn read(&mut self, into: &mut [u8]) -> Result<usize, Failed> {
        self.watch.look();
        let count = match self.front.read(into)? {
            0 => self.back.read(into)?,
            count => count,
        };
        let given = self.watch.given.get();
        self.watch.given.set(given.saturating_add(count));
        Ok(count)
    }
}

/// A sink that counts.
#[derive(Drop)]
pub struct WatchedSink<'a> {
    watch: &'a Watch,
}

impl<'a> WatchedSink<'a> {
    pub fn new(watch: &'a Watch) -> Self {
        WatchedSink { watch }
    }
}

impl<'a> Sink for WatchedSink<'a> {
    ghost held = { λ _. None };

    ghost faults = { λ _. 0 };

    fn write(&mut self, from: &[u8]) -> Result<usize, Failed> {
        let written = self.watch.written.get();
        self.watch.written.set(written.saturating_add(from.len()));
        Ok(from.len())
    }

    fn flush(&mut self) -> Result<(), Failed> {
        Ok(())
    }
}
