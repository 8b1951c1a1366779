// Connections in memory that are held, and a listener that is.
ghost use Rattle.std.specs.Prelude.{◌≡◌};
ghost use Rattle.scm_listener.specs.Connections.{past_of};

use crate::events::{Event, Events};
use outside::{Failed, MemorySink, Sink, Source};
use scm_listener::{Accepted, Listener, MemoryIn, MemoryListener, MemoryPast, Numbered};

/// The end of a connection that is read. The second one sends nothing before `D` is launched.
#[derive(Drop)]
pub struct HeldIn<'a> {
    source: MemoryIn,
    is_held: bool,
    events: &'a Events,
}

impl<'a> Source for HeldIn<'a> {
    ghost left = { λ s. ⟦<MemoryIn as Source>⟧.left s.source };

    ghost faults = { λ s. ⟦<MemoryIn as Source>⟧.faults s.source };

    fn read(&mut self, into: &mut [u8]) -> Result<usize, Failed> {
        if self.is_held {
            self.events.wait(Event::Launched);
        }
        self.source.read(into)
    }
}

/// What a listener or its connections are held by.
#[derive(Clone, Copy, PartialEq, Eq)]
pub enum Held {
    /// The second connection sends nothing before a child is launched.
    Second,
    /// A connection asks nothing after its start before its child reported.
    Started,
    /// The listener isn't closed before a child is launched.
    Listener,
}

/// The end of a connection that is written. That the second one was answered four times tells that
/// the status of `D` was told.
#[derive(Drop)]
pub struct HeldOut<'a> {
    sink: MemorySink,
    tells: bool,
    waits: bool,
    events: &'a Events,
}

/// How many bytes the second connection is answered.
const ANSWERED: usize = 208;

/// How many bytes a connection is answered up to its start: to a bind, to the opening of the
/// manager, to one creation and to the start.
const STARTED: usize = 56 + 48 + 52 + 28;

impl<'a> HeldOut<'a> {
    /// Tells that it was answered, or is held, once so much was written.
    fn cue(&self) {
        let count = self.sink.bytes().len();
        if self.tells && count >= ANSWERED {
            self.events.set(Event::Told);
            self.events.set(Event::Over);
        }
        if self.waits && count >= STARTED {
            self.events.wait(Event::Read);
        }
    }
}

impl<'a> Sink for HeldOut<'a> {
    ghost held = { λ s. ⟦<MemorySink as Sink>⟧.held s.sink };

    ghost faults = { λ s. ⟦<MemorySink as Sink>⟧.faults s.sink };

    fn write(&mut self, from: &[u8]) -> Result<usize, Failed> {
        let written = self.sink.write(from);
        self.cue();
        written
    }

    fn flush(&mut self) -> Result<(), Failed> {
        self.sink.flush()
    }
}

/// Hands out connections in memory.
#[derive(Drop)]
pub struct HeldListener<'a> {
    pub listener: MemoryListener,
    pub held: Held,
    pub events: &'a Events,
}

impl<'a> HeldListener<'a> {
    /// Waits for what it is held by.
    fn hold(&self) {
        if self.held == Held::Listener {
            self.events.wait(Event::Launched);
        }
    }
}

impl<'a> Listener for HeldListener<'a> {
    type In = HeldIn<'a>;

    type Out = HeldOut<'a>;

    type Past = MemoryPast;

    ghost left = { λ l. ⟦<MemoryListener as Listener>⟧.left l.listener };

    ghost accepted = { λ l. ⟦<MemoryListener as Listener>⟧.accepted l.listener };

    ghost noted = { λ l. ⟦<MemoryListener as Listener>⟧.noted l.listener };

    ghost listened = { λ l. ⟦<MemoryListener as Listener>⟧.listened l.listener };

    ghost faults = { λ l. ⟦<MemoryListener as Listener>⟧.faults l.listener };

    ghost tells = { λ past. ⟦<MemoryListener as Listener>⟧.tells past };

    fn listen(&mut self, port: u16, take: Option<u64>) -> Result<(), Failed> {
        self.listener.listen(port, take)
    }

    fn wait_briefly(&mut self) -> bool {
        self.listener.wait_briefly()
    }

    fn accept(&mut self) -> Accepted<HeldIn<'a>, HeldOut<'a>> {
        self.hold();
        match self.listener.accept() {
            Accepted::Conn(input, output) => {
                let is_second = self.held == Held::Second && input.number == 1;
                Accepted::Conn(
                    Numbered {
                        number: input.number,
                        end: HeldIn {
                            source: input.end,
                            is_held: is_second,
                            events: self.events,
                        },
                    },
                    Numbered {
                        number: output.number,
                        end: HeldOut {
                            sink: output.end,
                            tells: is_second,
                            waits: self.held == Held::Started,
                            events: self.events,
                        },
                    },
                )
            }
            Accepted::Closed => Accepted::Closed,
            Accepted::Failed => Accepted::Failed,
        }
    }

    fn end(input: Numbered<HeldIn<'a>>, output: Numbered<HeldOut<'a>>) -> MemoryPast
        requires { input.number ≡ output.number }
        ensures { ⟦<MemoryListener as Listener>⟧.tells result ≡ past_of input.entry.number
            (⟦<MemoryIn as Source>⟧.left input.entry.end.source)
            (⟦<MemorySink as Sink>⟧.held output.entry.end.sink)
            (⟦<MemoryIn as Source>⟧.faults input.entry.end.source)
            (⟦<MemorySink as Sink>⟧.faults output.entry.end.sink) }
    {
        input.end.events.set(Event::Over);
        MemoryListener::end(
            Numbered {
                number: input.number,
                end: input.end.source,
            },
            Numbered {
                number: output.number,
                end: output.end.sink,
            },
        )
    }

    fn note(&mut self, past: MemoryPast) {
        self.listener.note(past);
    }
}
