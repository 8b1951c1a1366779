ghost use Rattle.std.specs.Prelude.{◌≡◌, ◌≢◌, ◌≤◌, ◌+◌, ℕ, List, [], Some, is_err, length, true};
ghost use Rattle.std.specs.Io.KnownBytes.{ReadConsumes};
ghost use Rattle.outside.specs.Causes.{HasCause, Rose};
ghost use Rattle.outside.specs.Fates.{IsTold, one_more};
ghost use Rattle.scm_listener.specs.Accepting.{HasAcceptCause, IfConn, IsNew, Takes, came};
ghost use Rattle.scm_listener.specs.Accepting.{is_accept_failed};
ghost use Rattle.scm_listener.specs.Connections.{and_last, listened_after, past_of};
ghost use Rattle.scm_listener.specs.InMemory.{ConnComes, noted_in, peers_of, ends_told};

use crate::accepted::{Accepted, Numbered};
use crate::listener::{Listener, Listening};
use outside::{Failed, MemorySink, MemorySource, Source};
use std::alloc::Global;
use std::collections::VecDeque;
use std::marker::Model;
use std::mem::replace;

/// A connection in memory that is to come. Each `true` of a list of fails, taken from its end, is a
/// call that fails.
#[derive(Drop)]
pub struct MemoryPeer {
    /// What the peer sends.
    pub bytes: Vec<u8>,
    /// What becomes of the reads.
    pub reads: Vec<bool>,
    /// What becomes of the writes.
    pub writes: Vec<bool>,
}

/// The end of a connection in memory that is read, with the room for noting the connection.
#[derive(Drop)]
pub struct MemoryIn {
    source: MemorySource,
    room: Box<Noted>,
}

impl Source for MemoryIn {
    ghost left = { λ s. Some s.source.left };

    ghost faults = { λ s. s.source.faults };

    fn read(&mut self, into: &mut [u8]) -> Result<usize, Failed> {
        self.source.read(into)
    }
}

/// Both ends of a connection in memory that is past, and its number.
#[derive(Drop)]
pub struct MemoryEnds {
    pub number: u64,
    pub input: MemorySource,
    pub output: MemorySink,
}

/// A connection in memory that is past, with the room for noting it.
#[derive(Drop)]
pub struct MemoryPast {
    ends: MemoryEnds,
    room: Box<Noted>,
}

/// The connections that were noted, the last one first.
#[derive(Drop)]
pub enum Noted {
    Nothing,
    /// The last one, and those before it.
    Last(MemoryEnds, Box<Noted>),
}

/// Connections in memory, handed out one after another wherever it listens and however many it is
/// to take. Each `true` of `fails`, taken from its end, is a `listen` or an `accept` that fails; no
/// other does, but one that finds no memory. An `accept` that finds no connection takes nothing.
#[derive(Drop)]
pub struct MemoryListener {
    alloc: Global,
    waiting: VecDeque<MemoryPeer>,
    accepted: u64,
    noted: Noted,
    listened: Vec<Listening>,
    fails: Vec<bool>,
    faults: u64,
}

impl Model for MemoryListener {
    ghost use Rattle.std.specs.Prelude.{◌<◌, ◌+◌, ◌^◌, length};
    ghost use Rattle.scm_listener.specs.InMemory.{ListeningMemory, noted_in};

    ghost Value = { ListeningMemory };

    ghost view = { λ l. record {
      waiting = l.waiting.items;
      accepted = l.accepted;
      noted = noted_in l.noted;
      listened = l.listened.items;
      fails = l.fails.items;
      faults = l.faults;
    } };

    ghost invariant = { λ l. l.accepted + length l.waiting.items < 2 ^ 64 };
}

/// Counts a fault.
pub fn fail(faults: &mut u64) -> Failed
    ensures counted { faults.new ≡ one_more faults.old }
    ensures rose { Rose faults.old faults.new }
    ensures grows { faults.old ≤ faults.new }
{
    *faults = faults.saturating_add(1);
    Failed
}

impl MemoryListener {
    /// Hands out these connections.
    pub fn new(alloc: Global, waiting: VecDeque<MemoryPeer>, fails: Vec<bool>) -> Self
        ensures waiting { result.waiting ≡ waiting.items }
        ensures accepted { result.accepted ≡ 0 }
        ensures noted { result.noted ≡ [] }
        ensures listened { result.listened ≡ [] }
        ensures fails { result.fails ≡ fails.items }
        ensures faults { result.faults ≡ 0 }
    {
        let _count = waiting.len();
        MemoryListener {
            alloc,
            waiting,
            accepted: 0,
            noted: Noted::Nothing,
            listened: Vec::new(alloc),
            fails,
            faults: 0,
        }
    }

    /// The connections that were noted, the last one first.
    pub fn noted(&self) -> &Noted
        ensures { noted_in result.now ≡ self.now.noted }
    {
        &self.noted
    }

    /// Where it listened, in order.
    pub fn listened(&self) -> &[Listening]
        ensures { result.now ≡ self.now.listened }
    {
        &self.listened
    }

    /// How many connections are to come.
    pub fn waiting(&self) -> usize
        ensures { result ≡ length self.now.waiting }
    {
        self.waiting.len()
    }
}

impl Listener for MemoryListener {
    type In = MemoryIn;

    type Out = MemorySink;

    type Past = MemoryPast;

    ghost left = { λ l. peers_of l.waiting };

    ghost accepted = { λ l. l.accepted };

    ghost noted = { λ l. Some l.noted };

    ghost listened = { λ l. Some l.listened };

    ghost faults = { λ l. l.faults };

    ghost tells = { λ past. ends_told past.ends };

    fn listen(&mut self, port: u16, take: Option<u64>) -> Result<(), Failed>
        ensures listened { Some self.new.listened ≡ listened_after result
            (Some self.old.listened) (record { port = port; take = take }) }
        ensures left { peers_of self.new.waiting ≡ peers_of self.old.waiting }
        ensures accepted { self.new.accepted ≡ self.old.accepted }
        ensures noted { Some self.new.noted ≡ Some self.old.noted }
        ensures cause { HasCause self.old.faults self.new.faults result }
        ensures told { IsTold self.old.fails self.new.fails
            self.old.faults self.new.faults (is_err result) }
        ensures waiting { self.new.waiting ≡ self.old.waiting }
    {
        if self.fails.pop().unwrap_or(false) {
            return Err(fail(&mut self.faults));
        }
        match self.listened.push(Listening { port, take }) {
            Ok(()) => Ok(()),
            Err(_) => Err(fail(&mut self.faults)),
        }
    }

    fn wait_briefly(&mut self) -> bool
        ensures same { self.new ≡ self.old }
        ensures ready { result ≡ true }
    {
        true
    }

    fn accept(&mut self) -> Accepted<MemoryIn, MemorySink>
        ensures new { IfConn result (λ input output. IsNew self.old.accepted
            input.number output.number (Some input.end.source.left) (Some output.end.held)
            input.end.source.faults output.end.faults) }
        ensures takes { Takes (λ input. Some input.source.left) result
            (peers_of self.old.waiting) (peers_of self.new.waiting) }
        ensures accepted { self.new.accepted ≡ self.old.accepted + came result }
        ensures noted { Some self.new.noted ≡ Some self.old.noted }
        ensures listened { Some self.new.listened ≡ Some self.old.listened }
        ensures cause { HasAcceptCause self.old.faults self.new.faults result }
        ensures told { self.old.waiting ≢ [] → IsTold self.old.fails self.new.fails
            self.old.faults self.new.faults (is_accept_failed result) }
        ensures first { ConnComes (λ input. input.source) (λ output. output)
            self.old.waiting result self.new.waiting }
    {
        if self.waiting.is_empty() {
            return Accepted::Closed;
        }
        if self.fails.pop().unwrap_or(false) {
            let _failed = fail(&mut self.faults);
            return Accepted::Failed;
        }
        let Ok(room) = Box::new(self.alloc, Noted::Nothing) else {
            let _failed = fail(&mut self.faults);
            return Accepted::Failed;
        };
        match self.waiting.pop_front() {
            Some(peer) => {
                let number = self.accepted;
                self.accepted += 1;
                let source = MemorySource::new(peer.bytes, peer.reads);
                let input = MemoryIn { source, room };
                let output = MemorySink::new(self.alloc, peer.writes);
                Accepted::Conn(
                    Numbered { number, end: input },
                    Numbered {
                        number,
                        end: output,
                    },
                )
            }
            None => Accepted::Closed,
        }
    }

    fn end(input: Numbered<MemoryIn>, output: Numbered<MemorySink>) -> MemoryPast
        requires { input.number ≡ output.number }
        ensures { ends_told result.ends ≡ past_of input.number
            (Some input.end.source.left) (Some output.end.held)
            input.end.source.faults output.end.faults }
    {
        let MemoryIn { source, room } = input.end;
        let ends = MemoryEnds {
            number: input.number,
            input: source,
            output: output.end,
        };
        MemoryPast { ends, room }
    }

    fn note(&mut self, past: MemoryPast) {
        let MemoryPast { ends, mut room } = past;
        *room = replace(&mut self.noted, Noted::Nothing);
        self.noted = Noted::Last(ends, room);
    }
}
