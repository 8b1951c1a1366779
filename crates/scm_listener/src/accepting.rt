// The connections of a port, as the system's accept gives them.
ghost use Rattle.std.specs.IoError.{raw_os_error};
ghost use Rattle.std.specs.Prelude.{◌≡◌};
ghost use Rattle.scm_listener.specs.Failures.{is_passing};

use crate::spare::can_start;
use outside::{Failed, Source};
use sc_dial::CountedSource;
use std::alloc::Global;
use std::io::{self, ErrorKind};
use std::net::{Ipv4Addr, Net, TcpListener, TcpStream};
use std::os::fd::OwnedFd;
use std::sync::Arc;
use std::thread::{self, Threads};
use std::time::{Clock, Duration};

/// The failures of accept(2) that pass: their numbers in Linux's errno.h.
const EAGAIN: u32 = 11;

const ENOMEM: u32 = 12;

const ENFILE: u32 = 23;

const EMFILE: u32 = 24;

const EPROTO: u32 = 71;

const ECONNABORTED: u32 = 103;

const ENOBUFS: u32 = 105;

/// How long it waits before it tries again, in milliseconds.
const PAUSE: u64 = 20;

/// How long one try waits for a connection, in milliseconds.
const PATIENCE: u64 = 250;

/// The thread of a connection, and one for a connection that comes at another port meanwhile.
const CONNECTION_THREADS: u32 = 2;

/// The threads of a server beside its first one, as long as one connection is served.
const SERVER_THREADS: u32 = 3 + CONNECTION_THREADS;

/// How often it is looked, a pause apart, whether a connection that came can be served.
const LOOKS: u32 = 5;

/// Connections share it: there is one more of it than they are.
pub type Seat = Arc<(), Global>;

/// The end of a connection that is read. The connection has a seat until it is dropped.
#[derive(Drop)]
pub struct PortSource<S: Source> {
    source: CountedSource<S>,
    seat: Seat,
}

impl<S: Source> PortSource<S> {
    pub fn new(source: S, seat: Seat) -> Self
        ensures left { ⟦<PortSource<S> as Source>⟧.left result ≡ S.left source }
        ensures faults { ⟦<PortSource<S> as Source>⟧.faults result ≡ 0 }
    {
        PortSource {
            source: CountedSource::new(source),
            seat,
        }
    }

    /// How often it failed.
    pub fn faults(&self) -> u64
        ensures { result ≡ ⟦<PortSource<S> as Source>⟧.faults self.now }
    {
        self.source.faults()
    }
}

impl<S: Source> Source for PortSource<S> {
    ghost left = { λ s. ⟦<CountedSource<S> as Source>⟧.left s.source };

    ghost faults = { λ s. ⟦<CountedSource<S> as Source>⟧.faults s.source };

    fn read(&mut self, into: &mut [u8]) -> Result<usize, Failed> {
        self.source.read(into)
    }
}

/// Two handles of a connection that came, and its seat.
#[derive(Drop)]
pub struct Ends {
    pub stream: TcpStream,
    pub twin: TcpStream,
    pub seat: Seat,
}

/// What one try to accept a connection results in.
#[derive(Drop)]
pub enum Tried {
    Came(Ends),
    /// None came for a while, or it was closed unread.
    Nobody,
    /// The port is lost.
    Lost,
}

/// A socket that listens on a port, and the seat that its connections share.
#[derive(Drop)]
pub struct Open {
    alloc: Global,
    listener: TcpListener,
    seat: Seat,
}

/// Whether a later accept may succeed.
fn is_passing(fault: &io::Error) -> bool
    ensures { result ≡ is_passing (raw_os_error fault.now) }
{
    match fault.raw_os_error() {
        Some(code) => matches!(
            code.unsigned_abs(),
            EAGAIN | ENOMEM | ENFILE | EMFILE | EPROTO | ECONNABORTED | ENOBUFS
        ),
        None => false,
    }
}

/// Whether an accept waited as long as it may. Linux's accept(2) fails with EAGAIN then.
fn is_timeout(fault: &io::Error) -> bool {
    fault.kind() == ErrorKind::WouldBlock
}

/// What an accept that failed results in. After a failure that passes, other than that none came,
/// there is a pause.
fn after<R: Clock>(net: &R, fault: &io::Error) -> Tried {
    if is_timeout(fault) {
        return Tried::Nobody;
    }
    if is_passing(fault) {
        thread::sleep(net, Duration::from_millis(PAUSE));
        return Tried::Nobody;
    }
    Tried::Lost
}

/// A listener each of whose accepts waits for a while at most: SO_RCVTIMEO in socket(7).
fn with_timeout(listener: TcpListener) -> io::Result<TcpListener> {
    let socket = TcpStream::from(OwnedFd::from(listener));
    match socket.set_read_timeout(Some(Duration::from_millis(PATIENCE))) {
        Ok(()) => Ok(TcpListener::from(OwnedFd::from(socket))),
        Err(fault) => {
            drop(socket);
            Err(fault)
        }
    }
}

/// Listens on a port of the loopback.
fn bind<R>(net: &R, port: u16) -> io::Result<TcpListener>
where
    R: Net<Listener = TcpListener, Stream = TcpStream>,
{
    with_timeout(TcpListener::bind(net, (Ipv4Addr::LOCALHOST, port))?)
}

/// The ends of a connection, which sends each write at once and waits for bytes without an end:
/// Linux gives it the listener's timeout.
fn ends_of(stream: TcpStream, seat: &Seat) -> io::Result<Ends> {
    stream.set_nodelay(true)?;
    stream.set_read_timeout(None)?;
    let twin = stream.try_clone()?;
    let seat = Arc::try_clone(seat)?;
    Ok(Ends { stream, twin, seat })
}

impl Open {
    /// Listens on a port of the loopback, if there is room for the threads of a server.
    pub fn new<R>(net: &R, alloc: Global, port: u16) -> io::Result<Open>
    where
        R: Net<Listener = TcpListener, Stream = TcpStream> + Threads,
    {
        if !can_start(net, alloc, SERVER_THREADS) {
            return Err(io::Error::from(ErrorKind::WouldBlock));
        }
        let seat = Arc::new(alloc, ())?;
        match bind(net, port) {
            Ok(listener) => Ok(Open {
                alloc,
                listener,
                seat,
            }),
            Err(fault) => {
                drop(seat);
                Err(fault)
            }
        }
    }

    pub fn listener(&self) -> &TcpListener {
        &self.listener
    }

    /// Whether as many connections have a seat as may.
    fn is_full(&self, most: Option<usize>) -> bool {
        match most {
            Some(most) => Arc::strong_count(&self.seat) > most,
            None => false,
        }
    }

    /// Whether a connection that came can be served, now or in a short while: another that is
    /// about to end may leave it a seat and a thread.
    fn has_room<R>(&self, net: &R, most: Option<usize>) -> bool
    where
        R: Threads + Clock,
    {
        for _ in 0..LOOKS {
            if !self.is_full(most) && can_start(net, self.alloc, CONNECTION_THREADS) {
                return true;
            }
            thread::sleep(net, Duration::from_millis(PAUSE));
        }
        false
    }

    /// Tries once to accept a connection. A failure that passes is followed by a pause.
    pub fn try_next<R>(&self, net: &R, most: Option<usize>) -> Tried
    where
        R: Threads + Clock,
    {
        match self.listener.accept() {
            Ok((stream, _)) => {
                if !self.has_room(net, most) {
                    drop(stream);
                    return Tried::Nobody;
                }
                match ends_of(stream, &self.seat) {
                    Ok(ends) => Tried::Came(ends),
                    Err(_) => Tried::Nobody,
                }
            }
            Err(fault) => after(net, &fault),
        }
    }

    /// The next connection that has a seat, or `None` once the port is lost.
    pub fn next<R>(&self, net: &R, most: Option<usize>) -> Option<Ends>
    where
        R: Threads + Clock,
    {
        for _ in 0..u64::MAX {
            match self.try_next(net, most) {
                Tried::Came(ends) => return Some(ends),
                Tried::Nobody => {}
                Tried::Lost => return None,
            }
        }
        None
    }
}
