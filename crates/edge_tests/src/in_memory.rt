use outside::{Sink, Source};
use scm_listener::{Accepted, Listener, Listening, MemoryListener, MemoryPeer, Noted};
use std::alloc::{AllocError, Global};
use std::collections::VecDeque;

/// A peer that sends some bytes, and whose connection never fails.
fn peer(alloc: Global, bytes: &[u8]) -> Result<MemoryPeer, AllocError> {
    Ok(MemoryPeer {
        bytes: bytes.to_vec(alloc)?,
        reads: Vec::new(alloc),
        writes: Vec::new(alloc),
    })
}

/// Lets a peer wait that sends some bytes.
fn add(alloc: Global, waiting: &mut VecDeque<MemoryPeer>, bytes: &[u8]) {
    if let Ok(peer) = peer(alloc, bytes) {
        let _added = waiting.push_back(peer).is_ok();
    }
}

/// A listener with two peers. The second of its calls is to fail.
fn two_peers(alloc: Global) -> MemoryListener {
    let fails = Vec::from_array(alloc, [true, false]).unwrap_or(Vec::new(alloc));
    let mut waiting = VecDeque::new(alloc);
    add(alloc, &mut waiting, b"ab");
    add(alloc, &mut waiting, b"c");
    MemoryListener::new(alloc, waiting, fails)
}

/// Whether what is read next is written back.
fn is_echoed<I: Source, O: Sink>(input: &mut I, output: &mut O) -> bool {
    let mut piece = [0u8; 4];
    match input.read(&mut piece) {
        Ok(count) => output.write(&piece[..count]).is_ok(),
        Err(_) => false,
    }
}

/// Writes back what the next connection sends, and notes it.
fn echo(listener: &mut MemoryListener) -> &'static str {
    match listener.accept() {
        Accepted::Conn(mut input, mut output) => {
            let is_echoed = is_echoed(&mut input.end, &mut output.end);
            let past = MemoryListener::end(input, output);
            listener.note(past);
            if is_echoed { "came" } else { "broke" }
        }
        Accepted::Closed => "closed",
        Accepted::Failed => "failed",
    }
}

/// The numbers and bytes of the last two connections that were noted.
fn last_two(noted: &Noted) -> Option<(u64, &[u8], u64, &[u8])> {
    let Noted::Last(last, earlier) = noted else {
        return None;
    };
    let Noted::Last(first, _) = &**earlier else {
        return None;
    };
    Some((
        first.number,
        first.output.bytes(),
        last.number,
        last.output.bytes(),
    ))
}

/// Whether the connections of two peers come in order, up to the end.
fn come_in_order(listener: &mut MemoryListener) -> bool {
    let rows = ["failed", "came", "came", "closed", "closed"];
    for want in rows {
        if echo(listener) != want {
            return false;
        }
    }
    listener.waiting() == 0
}

/// Whether the two connections are noted, and that the port was listened on once.
fn are_noted(listener: &MemoryListener) -> bool {
    let once = Listening {
        port: 4000,
        take: None,
    };
    let listened = listener.listened();
    let noted = matches!(last_two(listener.noted()), Some((0, b"ab", 1, b"c")));
    noted && listened.len() == 1 && listened.iter().all(|one| *one == once)
}

#[test]
fn connections_come_in_order_and_are_noted_once(rt: HostRuntime) {
    let mut listener = two_peers(rt.alloc());
    let listens = listener.listen(4000, None).is_ok();
    let in_order = come_in_order(&mut listener);
    let noted = are_noted(&listener);
    drop(listener);
    assert!(rt; listens && in_order && noted);
}
