ghost use Rattle.std.specs.Prelude.{◌≡◌, [], Some, option_map};
ghost use Rattle.sc_dial.specs.InMemory.{dialled_of, only_address, only_written, next_of};
ghost use Rattle.sc_dial.specs.InMemory.{line_past};

use super::counted::{CountedSink, CountedSource, fail};
use super::dialer::{Connection, Dialer};
use outside::{Failed, MemorySink, MemorySource};
use scm_text::Text;
use std::alloc::Global;
use std::mem::replace;

/// Both ends of a connection in memory.
pub type MemoryConnection = Connection<CountedSource<MemorySource>, CountedSink<MemorySink>>;

/// How far the one connection came.
#[derive(Drop)]
pub enum MemoryLine {
    /// It isn't dialled yet, and its peer sends this.
    Ready(MemorySource),
    /// It isn't given back yet.
    Out,
    Past(MemoryConnection),
}

/// One connection in memory, to any address that is dialled. Each `true` of a list of fails, taken
/// from its end, is a call that fails. No other call fails, except a dial after the first
/// connection, and one that finds no memory.
#[derive(Drop)]
pub struct MemoryDialer {
    alloc: Global,
    /// What becomes of the dials.
    dials: Vec<bool>,
    /// What becomes of the writes to the peer.
    writes: Vec<bool>,
    /// What was dialled.
    address: Option<Text>,
    line: MemoryLine,
    faults: u64,
}

impl MemoryDialer {
    /// A dialer whose peer sends what a source gives, and where these dials and these writes fail.
    pub fn new(alloc: Global, peer: MemorySource, dials: Vec<bool>, writes: Vec<bool>) -> Self
        ensures next { ⟦<MemoryDialer as Dialer>⟧.next result ≡ Some peer.left }
        ensures past { ⟦<MemoryDialer as Dialer>⟧.past result ≡ Some [] }
        ensures faults { ⟦<MemoryDialer as Dialer>⟧.faults result ≡ 0 }
    {
        MemoryDialer {
            alloc,
            dials,
            writes,
            address: None,
            line: MemoryLine::Ready(peer),
            faults: 0,
        }
    }

    /// Where the connection that was given back was dialled to.
    pub fn address(&self) -> Option<&str>
        ensures { option_map (λ a. a.now) result ≡ only_address
            (⟦<MemoryDialer as Dialer>⟧.past self.now) }
    {
        match (&self.line, &self.address) {
            (MemoryLine::Past(_), Some(address)) => Some(address.as_str()),
            _ => None,
        }
    }

    /// What was written over the connection that was given back.
    pub fn written(&self) -> Option<&[u8]>
        ensures { option_map (λ bytes. bytes.now) result ≡ only_written
            (⟦<MemoryDialer as Dialer>⟧.past self.now) }
    {
        match &self.line {
            MemoryLine::Past(connection) => Some(connection.output.get_ref().bytes()),
            _ => None,
        }
    }
}

impl Dialer for MemoryDialer {
    type In = CountedSource<MemorySource>;

    type Out = CountedSink<MemorySink>;

    ghost next = { λ d. next_of d.line };

    ghost dialled = { λ d. dialled_of d.line d.address };

    ghost past = { λ d. Some (line_past d.line d.address) };

    ghost faults = { λ d. d.faults };

    fn dial(&mut self, address: &str) -> Result<MemoryConnection, Failed> {
        if self.dials.pop().unwrap_or(false) {
            return Err(fail(&mut self.faults));
        }
        let Ok(address) = Text::from_str(self.alloc, address) else {
            return Err(fail(&mut self.faults));
        };
        match replace(&mut self.line, MemoryLine::Out) {
            MemoryLine::Ready(peer) => {
                self.address = Some(address);
                let writes = replace(&mut self.writes, Vec::new(self.alloc));
                Ok(Connection {
                    input: CountedSource::new(peer),
                    output: CountedSink::new(MemorySink::new(self.alloc, writes)),
                })
            }
            line => {
                self.line = line;
                Err(fail(&mut self.faults))
            }
        }
    }

    fn close(&mut self, input: Self::In, output: Self::Out) {
        if input.faults() > 0 || output.faults() > 0 {
            let _failed = fail(&mut self.faults);
        }
        self.line = MemoryLine::Past(Connection { input, output });
    }
}
