//! A connection over TCP to a peer in the same process.
use crate::bytes::say;
use outside::{Failed, Sink, Source};
use sc_dial::{Connection, Dialer, TcpDialer};
use std::alloc::Global;
use std::io;
use std::io::{Read, Write};
use std::net::{Net, TcpListener, TcpStream};

/// Reads a byte of a peer that was accepted and answers it with the next letter.
fn answer(peer: &mut TcpStream) -> io::Result<bool> {
    let mut byte = [0u8; 1];
    let read = peer.read(&mut byte)?;
    let written = peer.write(b"b")?;
    Ok(read == 1 && byte[0] == b'a' && written == 1)
}

/// Answers a byte of the next connection, and ends it.
fn answers(listener: &TcpListener) -> bool {
    let Ok((mut peer, _)) = listener.accept() else {
        return false;
    };
    let answered = answer(&mut peer);
    drop(peer);
    matches!(answered, Ok(true))
}

/// Whether the next byte is `b`, and then the end comes.
fn is_answered<S: Source>(input: &mut S) -> Result<bool, Failed> {
    let mut byte = [0u8; 2];
    let read = input.read(&mut byte)?;
    let end = input.read(&mut byte)?;
    Ok(read == 1 && byte[0] == b'b' && end == 0)
}

/// Sends a byte, lets it be answered, and tells whether the answer came and then the end.
fn exchange<I: Source, O: Sink>(input: &mut I, output: &mut O, listener: &TcpListener) -> bool {
    let sent = output.write(b"a");
    let answered = answers(listener);
    matches!(sent, Ok(1)) && answered && matches!(is_answered(input), Ok(true))
}

/// Whether a byte that is sent over a connection to itself comes back from the peer.
fn echoes<R: Net<Stream = TcpStream>>(
    dialer: &mut TcpDialer<R>,
    listener: &TcpListener,
    address: &str,
) -> bool {
    let Ok(connection) = dialer.dial(address) else {
        return false;
    };
    let Connection {
        mut input,
        mut output,
    } = connection;
    let echoed = exchange(&mut input, &mut output, listener);
    dialer.close(input, output);
    echoed
}

/// Prints what a connection over TCP came to, and that none is made without a listener.
pub fn run<R: Net<Listener = TcpListener, Stream = TcpStream>, W: Write>(
    alloc: Global,
    net: &R,
    dialer: &mut TcpDialer<R>,
    out: &mut W,
) -> io::Result<()> {
    let listener = TcpListener::bind(net, "127.0.0.1:0")?;
    let address = format!(in alloc; "{}", listener.local_addr()?)?;
    let echoed = echoes(dialer, &listener, address.as_str());
    drop(listener);
    let gone = dialer.dial(address.as_str()).is_err();
    drop(address);
    let echo = if echoed {
        "a byte came back, then the end"
    } else {
        "another connection"
    };
    let lack = if gone {
        "no connection without a listener"
    } else {
        "a connection"
    };
    say(out, &[echo])?;
    say(out, &[lack])
}
