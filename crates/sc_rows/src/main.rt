//! Rows of the client. The first word of a line of the input says what is done by the rest: bytes
//! get a name, the peer of the next run sends some, a call of that run fails, answers are heard,
//! words are read, asked by or run, or a connection over TCP is made. Each line is printed, and
//! after it what came of it.
#![tactic(auto)]

mod answers;
mod bytes;
mod loopback;
mod run;
mod words;

use bytes::{Names, say};
use run::Peer;
use sc_dial::TcpDialer;
use sc_words::Heard;
use scm_text::Items;
use std::alloc::Global;
use std::io;
use std::io::Write;

/// What the lines said so far.
struct Rows {
    names: Names,
    peer: Peer,
    heard: Items<Heard>,
}

impl Drop for Rows {
    fn drop(self) {
        let Rows { names, peer, heard } = self;
        drop(names);
        drop(peer);
        drop(heard);
    }
}

impl Rows {
    fn new(alloc: Global) -> Self {
        Rows {
            names: Names::new(alloc),
            peer: Peer::new(alloc),
            heard: Items::new(alloc),
        }
    }

    /// Obeys a line, apart from that of TCP.
    fn obey<W: Write>(&mut self, alloc: Global, out: &mut W, line: &str) -> io::Result<()> {
        let (what, rest) = line.split_once(' ').unwrap_or((line, ""));
        match what {
            "bytes" => self.names.add(alloc, rest),
            "sends" => self.peer.sends(&self.names, rest),
            "fails" => self.peer.fails(rest),
            "words" => words::read(alloc, out, rest),
            "heard" => answers::hear(alloc, &mut self.heard, rest),
            "asks" => answers::ask(alloc, out, rest, &self.heard),
            "tells" => answers::tell(alloc, out, rest, &self.heard),
            "call" => self.peer.call(alloc, out, rest),
            "run" => self.peer.run(alloc, out, rest),
            _ => Ok(()),
        }
    }
}

fn main(rt: HostRuntime) -> io::Result<()> {
    let alloc = rt.alloc();
    let mut out = rt.stdout();
    let mut dialer = TcpDialer::new(rt);
    let mut rows = Rows::new(alloc);
    for line in rt.lines(alloc) {
        let line = line?;
        say(&mut out, &[line.as_str()])?;
        if line.as_str() == "tcp" {
            loopback::run(alloc, &rt, &mut dialer, &mut out)?;
        } else {
            rows.obey(alloc, &mut out, line.as_str())?;
        }
    }
    Ok(())
}
