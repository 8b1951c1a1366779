ghost use Rattle.std.specs.Prelude.{◌≡◌, ◌≤◌};
ghost use Rattle.outside.specs.Causes.{Rose};

use outside::{Failed, Sink, Source};

/// Counts a fault.
pub fn fail(faults: &mut u64) -> Failed
    ensures rose { Rose faults.old faults.new }
    ensures grows { faults.old ≤ faults.new }
{
    *faults = faults.saturating_add(1);
    Failed
}

/// A source whose failed calls are counted from 0 on.
#[derive(Drop)]
pub struct CountedSource<S: Source> {
    source: S,
    faults: u64,
}

impl<S: Source> CountedSource<S> {
    pub fn new(source: S) -> Self
        ensures left { ⟦<CountedSource<S> as Source>⟧.left result ≡ S.left source }
        ensures faults { ⟦<CountedSource<S> as Source>⟧.faults result ≡ 0 }
    {
        CountedSource { source, faults: 0 }
    }

    /// How often it failed.
    pub fn faults(&self) -> u64
        ensures { result ≡ ⟦<CountedSource<S> as Source>⟧.faults self.now }
    {
        self.faults
    }
}

impl<S: Source> Source for CountedSource<S> {
    ghost left = { λ s. S.left s.source };

    ghost faults = { λ s. s.faults };

    fn read(&mut self, into: &mut [u8]) -> Result<usize, Failed> {
        match self.source.read(into) {
            Ok(count) => Ok(count),
            Err(_) => Err(fail(&mut self.faults)),
        }
    }
}

/// A sink whose failed calls are counted from 0 on.
#[derive(Drop)]
pub struct CountedSink<T: Sink> {
    sink: T,
    faults: u64,
}

impl<T: Sink> CountedSink<T> {
    pub fn new(sink: T) -> Self
        ensures held { ⟦<CountedSink<T> as Sink>⟧.held result ≡ T.held sink }
        ensures faults { ⟦<CountedSink<T> as Sink>⟧.faults result ≡ 0 }
    {
        CountedSink { sink, faults: 0 }
    }

    /// How often it failed.
    pub fn faults(&self) -> u64
        ensures { result ≡ ⟦<CountedSink<T> as Sink>⟧.faults self.now }
    {
        self.faults
    }

    /// The sink itself.
    pub fn get_ref(&self) -> &T
        ensures { T.held result.now ≡ ⟦<CountedSink<T> as Sink>⟧.held self.now }
    {
        &self.sink
    }
}

impl<T: Sink> Sink for CountedSink<T> {
    ghost held = { λ s. T.held s.sink };

    ghost faults = { λ s. s.faults };

    fn write(&mut self, from: &[u8]) -> Result<usize, Failed> {
        match self.sink.write(from) {
            Ok(count) => Ok(count),
            Err(_) => Err(fail(&mut self.faults)),
        }
    }

    fn flush(&mut self) -> Result<(), Failed> {
        match self.sink.flush() {
            Ok(()) => Ok(()),
            Err(_) => Err(fail(&mut self.faults)),
        }
    }
}
