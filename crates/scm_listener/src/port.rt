ghost use Rattle.std.specs.Prelude.{◌≡◌, ◌+◌, None};
ghost use Rattle.scm_listener.specs.Connections.{past_of};

use crate::accepted::{Accepted, Numbered};
use crate::accepting::{Ends, Open, PortSource, Tried};
use crate::listener::Listener;
use crate::memory::fail;
use outside::{Failed, ReadSource, Sink, Source, WriteSink};
use sc_dial::CountedSink;
use std::alloc::Global;
use std::mem::replace;
use std::net::{Net, SocketAddr, TcpListener, TcpStream};
use std::thread::Threads;
use std::time::Clock;

/// A connection over TCP that is past: its number, and how often its reads and writes failed.
#[derive(Clone, Copy, Debug, Drop, PartialEq, Eq)]
pub struct PortPast {
    number: u64,
    read_faults: u64,
    write_faults: u64,
}

/// A port of the loopback, at 127.0.0.1 alone. It tells nothing of its connections but their
/// numbers and how often they failed. It closes after as many as it was to take.
///
/// Of the connections that it handed out at most `most` are open at a time. One that comes beyond
/// them, or for which no thread can be started or no descriptor is left, is closed unread, and is
/// none of those that it was to take. It doesn't listen if there is no room for the threads of a
/// server. A failure of accept(2) that passes (EAGAIN, ENOMEM, ENFILE, EMFILE, EPROTO,
/// ECONNABORTED, ENOBUFS) isn't its own: after a pause it tries again. After any other it doesn't
/// listen any more.
#[derive(Drop)]
pub struct PortListener<R: Net<Listener = TcpListener, Stream = TcpStream>> {
    net: R,
    alloc: Global,
    /// How many of its connections may be open at a time, if there is such a bound.
    most: Option<usize>,
    open: Option<Open>,
    /// The connection that came ahead of its accept.
    ahead: Option<Ends>,
    /// How many more connections it takes.
    room: u64,
    accepted: u64,
    faults: u64,
}

impl<R> PortListener<R>
where
    R: Net<Listener = TcpListener, Stream = TcpStream> + Threads + Clock,
{
    /// Listens nowhere yet.
    pub fn new(alloc: Global, net: R, most: Option<usize>) -> Self
        ensures accepted { ⟦<PortListener<R> as Listener>⟧.accepted result ≡ 0 }
        ensures faults { ⟦<PortListener<R> as Listener>⟧.faults result ≡ 0 }
    {
        PortListener {
            net,
            alloc,
            most,
            open: None,
            ahead: None,
            room: 0,
            accepted: 0,
            faults: 0,
        }
    }

    /// Where it listens, while it does.
    pub fn local_addr(&self) -> Option<SocketAddr> {
        match &self.open {
            Some(open) => open.listener().local_addr().ok(),
            None => None,
        }
    }
}

/// The next connection of a listener that listens: the one that came ahead, if one did.
fn next_of<R>(
    ahead: &mut Option<Ends>,
    open: &Option<Open>,
    net: &R,
    most: Option<usize>,
) -> Option<Ends>
where
    R: Threads + Clock,
{
    match (ahead.take(), open) {
        (Some(ends), _) => Some(ends),
        (None, Some(open)) => open.next(net, most),
        (None, None) => None,
    }
}

/// Tries once to accept a connection, of a listener that listens.
fn try_of<R>(open: &Option<Open>, net: &R, most: Option<usize>) -> Tried
where
    R: Threads + Clock,
{
    match open {
        Some(open) => open.try_next(net, most),
        None => Tried::Lost,
    }
}

impl<R> Listener for PortListener<R>
where
    R: Net<Listener = TcpListener, Stream = TcpStream> + Threads + Clock,
{
    type In = PortSource<ReadSource<TcpStream>>;

    type Out = CountedSink<WriteSink<TcpStream>>;

    type Past = PortPast;

    ghost left = { λ _. None };

    ghost accepted = { λ l. l.accepted };

    ghost noted = { λ _. None };

    ghost listened = { λ _. None };

    ghost faults = { λ l. l.faults };

    ghost tells = { λ past. past_of past.number None None past.read_faults past.write_faults };

    fn listen(&mut self, port: u16, take: Option<u64>) -> Result<(), Failed> {
        match Open::new(&self.net, self.alloc, port) {
            Ok(open) => {
                drop(self.ahead.take());
                self.open = Some(open);
                self.room = take.unwrap_or(u64::MAX);
                Ok(())
            }
            Err(_) => Err(fail(&mut self.faults)),
        }
    }

    fn wait_briefly(&mut self) -> bool {
        if self.room == 0 || self.ahead.is_some() {
            return true;
        }
        match try_of(&self.open, &self.net, self.most) {
            Tried::Came(ends) => {
                drop(replace(&mut self.ahead, Some(ends)));
                true
            }
            Tried::Nobody => false,
            Tried::Lost => true,
        }
    }

    fn accept(&mut self) -> Accepted<Self::In, Self::Out> {
        match (self.room.checked_sub(1), self.accepted.checked_add(1)) {
            (Some(room), Some(accepted)) => match next_of(
                &mut self.ahead,
                &self.open,
                &self.net,
                self.most,
            ) {
                Some(Ends { stream, twin, seat }) => {
                    let number = self.accepted;
                    self.room = room;
                    self.accepted = accepted;
                    let input = PortSource::new(ReadSource::new(stream), seat);
                    let output = CountedSink::new(WriteSink::new(twin));
                    Accepted::Conn(
                        Numbered { number, end: input },
                        Numbered {
                            number,
                            end: output,
                        },
                    )
                }
                None => {
                    self.open = None;
                    let _failed = fail(&mut self.faults);
                    Accepted::Failed
                }
            },
            _ => {
                self.open = None;
                Accepted::Closed
            }
        }
    }

    /// The connection ends with its two handles.
    fn end(
        input: Numbered<PortSource<ReadSource<TcpStream>>>,
        output: Numbered<CountedSink<WriteSink<TcpStream>>>,
    ) -> PortPast
        requires { input.number ≡ output.number }
        ensures { past_of result.number None None result.read_faults result.write_faults
            ≡ past_of input.number None None
            (⟦<PortSource<ReadSource<TcpStream>> as Source>⟧.faults input.end)
            (⟦<CountedSink<WriteSink<TcpStream>> as Sink>⟧.faults output.end) }
    {
        PortPast {
            number: input.number,
            read_faults: input.end.faults(),
            write_faults: output.end.faults(),
        }
    }

    fn note(&mut self, past: PortPast) {
        let _noted = past;
    }
}
