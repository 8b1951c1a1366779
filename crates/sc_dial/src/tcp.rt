ghost use Rattle.std.specs.Prelude.{◌≡◌, None};

use super::counted::{CountedSink, CountedSource, fail};
use super::dialer::{Connection, Dialer};
use outside::{Failed, ReadSource, WriteSink};
use std::io;
use std::net::{Net, TcpStream};

/// Connections over TCP. It tells nothing of them.
#[derive(Drop)]
pub struct TcpDialer<R: Net<Stream = TcpStream>> {
    net: R,
    faults: u64,
}

/// Two handles of one new connection, which sends each write at once.
fn connected<R: Net<Stream = TcpStream>>(
    net: &R,
    address: &str,
) -> io::Result<(TcpStream, TcpStream)> {
    let stream = TcpStream::connect(net, address)?;
    stream.set_nodelay(true)?;
    let twin = stream.try_clone()?;
    Ok((stream, twin))
}

impl<R: Net<Stream = TcpStream>> TcpDialer<R> {
    pub fn new(net: R) -> Self
        ensures { ⟦<TcpDialer<R> as Dialer>⟧.faults result ≡ 0 }
    {
        TcpDialer { net, faults: 0 }
    }
}

impl<R: Net<Stream = TcpStream>> Dialer for TcpDialer<R> {
    type In = CountedSource<ReadSource<TcpStream>>;

    type Out = CountedSink<WriteSink<TcpStream>>;

    ghost next = { λ _. None };

    ghost dialled = { λ _. None };

    ghost past = { λ _. None };

    ghost faults = { λ d. d.faults };

    fn dial(&mut self, address: &str) -> Result<Connection<Self::In, Self::Out>, Failed> {
        match connected(&self.net, address) {
            Ok((stream, twin)) => Ok(Connection {
                input: CountedSource::new(ReadSource::new(stream)),
                output: CountedSink::new(WriteSink::new(twin)),
            }),
            Err(_) => Err(fail(&mut self.faults)),
        }
    }

    /// The connection ends with its two handles.
    fn close(&mut self, input: Self::In, output: Self::Out) {
        if input.faults() > 0 || output.faults() > 0 {
            let _failed = fail(&mut self.faults);
        }
    }
}
