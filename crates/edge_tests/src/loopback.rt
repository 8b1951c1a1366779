ghost use Rattle.std.specs.Prelude.{◌≡◌};

use outside::{Sink, Source};
use scm_listener::{Accepted, Listener, Numbered, PortListener};
use std::io::{Read, Write};
use std::net::{Net, SocketAddr, TcpStream};

/// Whether one byte is read, and one is written.
fn is_answered<I: Source, O: Sink>(input: &mut I, output: &mut O) -> bool {
    let mut byte = [0u8; 2];
    let is_read = matches!(input.read(&mut byte), Ok(1));
    let is_written = matches!(output.write(b"b"), Ok(1));
    is_read && byte[0] == b'a' && is_written
}

/// Answers one byte of the next connection, ends it and notes it.
fn answers<N: Listener>(listener: &mut N) -> bool {
    match listener.accept() {
        Accepted::Conn(mut input, mut output) => {
            let numbered = input.number == 0;
            let answered = is_answered(&mut input.end, &mut output.end);
            let past = end_of(listener, input, output);
            listener.note(past);
            numbered && answered
        }
        _ => false,
    }
}

fn end_of<N: Listener>(_listener: &N, input: Numbered<N::In>, output: Numbered<N::Out>) -> N::Past
    requires { input.number ≡ output.number }
{
    N::end(input, output)
}

/// Whether a byte comes back from the port, and then the end.
fn echoes<N: Listener>(listener: &mut N, peer: &mut TcpStream) -> bool {
    let is_written = matches!(peer.write(b"a"), Ok(1));
    let is_answered = answers(listener);
    let mut byte = [0u8; 2];
    let is_read = matches!(peer.read(&mut byte), Ok(1));
    let ends = matches!(peer.read(&mut [0u8; 1]), Ok(0));
    is_written && is_answered && is_read && byte[0] == b'b' && ends
}

/// Whether no connection is made to the listener's port until a peer connects, a byte then returns
/// from the port, its address is of the loopback, and it is closed afterwards.
fn is_exchanged<N: Listener, R: Net<Stream = TcpStream>>(
    net: &R,
    listener: &mut N,
    address: SocketAddr,
) -> bool {
    let nobody = !listener.wait_briefly();
    let Ok(mut peer) = TcpStream::connect(net, address) else {
        return false;
    };
    let came = listener.wait_briefly();
    let echoed = echoes(listener, &mut peer);
    drop(peer);
    let closed = matches!(&listener.accept(), Accepted::Closed);
    address.ip().is_loopback() && nobody && came && echoed && closed
}

/// One exchange over a port that takes one connection, after which it is closed.
#[test]
fn an_exchange_over_a_port(rt: HostRuntime) {
    let mut listener = PortListener::new(rt.alloc(), rt, Some(1));
    let listens = listener.listen(0, Some(1)).is_ok();
    let exchanged = match listener.local_addr() {
        Some(address) => is_exchanged(&rt, &mut listener, address),
        None => false,
    };
    drop(listener);
    assert!(rt; listens && exchanged);
}
