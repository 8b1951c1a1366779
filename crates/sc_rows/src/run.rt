//! What is said of a run, and the run.
use crate::bytes::{Names, say, show_pdus};
use crate::words::{command_of, words_of};
use outside::{MemorySink, MemorySource};
use sc_client::run_command;
use sc_dial::MemoryDialer;
use sc_top::sc_main;
use sc_words::{Command, show_reply};
use std::alloc::Global;
use std::io;
use std::io::Write;
use std::mem::replace;

/// What the peer of the next run sends, and which calls fail in it.
#[derive(Drop)]
pub struct Peer {
    sends: Vec<u8>,
    dials: Vec<bool>,
    reads: Vec<bool>,
    writes: Vec<bool>,
    prints: Vec<bool>,
}

/// Prints what a run resulted in: its status, its connection, what it printed and its diagnostic.
fn tell<W: Write>(
    out: &mut W,
    status: u8,
    dialer: &MemoryDialer,
    output: &MemorySink,
    errors: &MemorySink,
) -> io::Result<()> {
    writeln!(out, "status {status}")?;
    if let Some(address) = dialer.address() {
        say(out, &["dialled ", address])?;
    }
    if let Some(written) = dialer.written() {
        show_pdus(out, written)?;
    }
    out.write_all(output.bytes())?;
    out.write_all(errors.bytes())
}

/// Prints the text of the answers to a command over a connection, or why there is none.
fn answer<W: Write>(
    alloc: Global,
    out: &mut W,
    command: &Command,
    source: &mut MemorySource,
    sink: &mut MemorySink,
) -> io::Result<()> {
    match run_command(alloc, command, source, sink) {
        Ok(heard) => {
            let text = show_reply(alloc, command, &heard);
            drop(heard);
            match text {
                Ok(text) => out.write_all(text.as_slice()),
                Err(_) => say(out, &["out of memory"]),
            }
        }
        Err(fault) => writeln!(out, "{fault}"),
    }
}

impl Peer {
    pub fn new(alloc: Global) -> Self {
        Peer {
            sends: Vec::new(alloc),
            dials: Vec::new(alloc),
            reads: Vec::new(alloc),
            writes: Vec::new(alloc),
            prints: Vec::new(alloc),
        }
    }

    /// It sends this too.
    pub fn sends(&mut self, names: &Names, words: &str) -> io::Result<()> {
        names.read(&mut self.sends, words)
    }

    /// The first call of a kind fails.
    pub fn fails(&mut self, kind: &str) -> io::Result<()> {
        match kind {
            "dial" => self.dials.push(true)?,
            "read" => self.reads.push(true)?,
            "write" => self.writes.push(true)?,
            _ => self.prints.push(true)?,
        }
        Ok(())
    }

    /// Runs the client with these words at the peer, and prints what came of it.
    pub fn run<W: Write>(&mut self, alloc: Global, out: &mut W, line: &str) -> io::Result<()> {
        let words = words_of(alloc, line)?;
        let Peer {
            sends,
            dials,
            reads,
            writes,
            prints,
        } = replace(self, Peer::new(alloc));
        let mut dialer = MemoryDialer::new(alloc, MemorySource::new(sends, reads), dials, writes);
        let mut output = MemorySink::new(alloc, prints);
        let mut errors = MemorySink::new(alloc, Vec::new(alloc));
        let status = sc_main(alloc, &words, &mut dialer, &mut output, &mut errors);
        drop(words);
        let told = tell(out, status, &dialer, &output, &errors);
        drop(dialer);
        drop(output);
        drop(errors);
        told
    }

    /// Makes the calls of a command at the peer, both ways in pieces of a size, and prints the text
    /// of the answers and what was written: `1 ADDRESS|query|NAME`.
    pub fn call<W: Write>(&mut self, alloc: Global, out: &mut W, line: &str) -> io::Result<()> {
        let (size, line) = line.split_once(' ').unwrap_or(("1", line));
        let size = size.parse::<usize>().unwrap_or(1);
        let sends = replace(&mut self.sends, Vec::new(alloc));
        let mut source = MemorySource::in_pieces(sends, size, Vec::new(alloc));
        let mut sink = MemorySink::in_pieces(alloc, size, Vec::new(alloc));
        let command = command_of(alloc, line);
        let told = match &command {
            Ok(Ok(command)) => answer(alloc, out, command, &mut source, &mut sink),
            Ok(Err(fault)) => writeln!(out, "{fault}"),
            Err(_) => say(out, &["out of memory"]),
        };
        drop(command);
        drop(source);
        let shown = show_pdus(out, sink.bytes());
        drop(sink);
        told?;
        shown
    }
}
