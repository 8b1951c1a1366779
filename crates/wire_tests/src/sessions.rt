ghost use Rattle.std.specs.Prelude.{◌≡◌, ◌<◌, ◌^◌, IfOk, length};

use crate::bytes::bytes;
use outside::{
    MemorySink, MemorySource, ReadSource, Sink, SliceSource, Source, WriteSink, write_all,
};
use rpc_session::{Incoming, Session};
use std::alloc::Global;
use std::test::Fail;

/// A bind of the smallest sizes, in group 7.
const BIND: &str = "05000b03 10000000 48000000 01000000 00000000 07000000 01000000 00000100 \
     81bb7a364498f135ad3298f038001003 02000000 045d888aeb1cc9119fe808002b104860 02000000";

/// A request of call 2 with opnum 15 and twelve stub bytes.
const REQUEST: &str =
    "05000003 10000000 24000000 02000000 0c000000 00000f00 000000000000000000000000";

fn feed(alloc: Global, session: &mut Session, digits: &str) -> Result<(), Fail> {
    let piece = bytes(alloc, digits)?;
    session.feed(piece.as_slice()).ok().ok_or("memory")?;
    Ok(())
}

/// Binds a session, and asks it. Whether it told its bind_ack.
fn asks(alloc: Global, session: &mut Session) -> Result<bool, Fail> {
    feed(alloc, session, BIND)?;
    let told = session.next(alloc).is_ok();
    feed(alloc, session, REQUEST)?;
    Ok(told)
}

/// So many bytes of 9.
fn nines(alloc: Global, count: u16) -> Result<Vec<u8>, Fail>
    ensures { IfOk result (λ bytes. length bytes.items ≡ count) }
{
    let mut bytes = Vec::new(alloc);
    bytes.resize(usize::from(count), 9).ok().ok_or("memory")?;
    Ok(bytes)
}

/// Whether the next item, which is a request, is answered by this body.
fn replies(alloc: Global, session: &mut Session, body: &[u8], sink: &mut MemorySink) -> bool
    requires { length body.now < 2 ^ 16 }
{
    match session.next(alloc) {
        Ok(Some(Incoming::Request(request))) => {
            session
                .reply(request.call, request.context, body, sink)
                .is_ok()
        }
        _ => false,
    }
}

/// Whether a session of its own answers a request by this body.
fn is_answered(alloc: Global, body: &[u8], sink: &mut MemorySink) -> Result<bool, Fail>
    requires { length body.now < 2 ^ 16 }
{
    let mut session = Session::new(alloc);
    match asks(alloc, &mut session) {
        Ok(asked) => Ok(asked && replies(alloc, &mut session, body, sink)),
        Err(fault) => Err(fault),
    }
}

/// Whether these bytes stand at a place.
fn stands_at(alloc: Global, all: &[u8], place: usize, digits: &str) -> Result<bool, Fail> {
    let front = bytes(alloc, digits)?;
    Ok(
        all.get(place..)
            .is_some_and(|rest| rest.starts_with(front.as_slice())),
    )
}

#[test]
fn a_long_reply_goes_in_fragments(rt: HostRuntime) -> Result<(), Fail> {
    let mut sink = MemorySink::in_pieces(rt.alloc(), 1000, Vec::new(rt.alloc()));
    assert!(rt; is_answered(rt.alloc(), [9; 3000].as_slice(), &mut sink)?);
    assert_eq!(rt; sink.bytes().len(), 3072);
    let rows = [
        (0, "05000201 10000000 98050000 02000000 b80b0000 00000000"),
        (
            1432,
            "05000200 10000000 98050000 02000000 38060000 00000000",
        ),
        (
            2864,
            "05000202 10000000 d0000000 02000000 b8000000 00000000",
        ),
    ];
    for (place, front) in rows {
        assert!(rt;
            stands_at(rt.alloc(), sink.bytes(), place, front)?,
            "at {place}"
        );
    }
    Ok(())
}

#[test]
fn a_sink_that_fails_holds_the_fragments_before(rt: HostRuntime) -> Result<(), Fail> {
    let fails = vec![in rt.alloc(); true, false]?;
    let mut sink = MemorySink::new(rt.alloc(), fails);
    assert!(rt; !is_answered(rt.alloc(), [9; 3000].as_slice(), &mut sink)?);
    assert_eq!(rt; sink.bytes().len(), 1432);
    Ok(())
}

/// Whether a session writes a fault of call 4.
fn tells_fault(alloc: Global, sink: &mut MemorySink) -> bool {
    Session::new(alloc).fault(4, 0, 0x1C010002, sink).is_ok()
}

#[test]
fn a_fault_is_written(rt: HostRuntime) -> Result<(), Fail> {
    let want = "05000303 10000000 20000000 04000000 00000000 00000000 0200011c 00000000";
    let mut sink = MemorySink::new(rt.alloc(), Vec::new(rt.alloc()));
    assert!(rt; tells_fault(rt.alloc(), &mut sink));
    assert!(rt; stands_at(rt.alloc(), sink.bytes(), 0, want)?);
    assert_eq!(rt; sink.bytes().len(), 32);
    Ok(())
}

/// How many bytes three reads of 100 give.
fn given<S: Source>(source: &mut S) -> [Option<usize>; 3] {
    let mut into = [0; 100];
    [
        source.read(&mut into).ok(),
        source.read(&mut into).ok(),
        source.read(&mut into).ok(),
    ]
}

#[test]
fn sources_give_their_bytes_once(rt: HostRuntime) -> Result<(), Fail> {
    let all = nines(rt.alloc(), 120)?;
    let mut slice = SliceSource::new(all.as_slice());
    assert_eq!(rt; given(&mut slice), [Some(100), Some(20), Some(0)]);
    let mut reader = ReadSource::new(all.as_slice());
    assert_eq!(rt; given(&mut reader), [Some(100), Some(20), Some(0)]);
    let fails = vec![in rt.alloc(); false, true]?;
    let mut memory = MemorySource::in_pieces(nines(rt.alloc(), 90)?, 70, fails);
    assert_eq!(rt; given(&mut memory), [None, Some(70), Some(20)]);
    Ok(())
}

#[test]
fn any_writer_is_a_sink(rt: HostRuntime) -> Result<(), Fail> {
    let mut sink = WriteSink::new(Vec::new(rt.alloc()));
    write_all(&mut sink, &[1, 2, 3]).ok().ok_or("written")?;
    sink.flush().ok().ok_or("flushed")?;
    let mut full = [0; 2];
    let mut short = WriteSink::new(full.as_mut_slice());
    assert!(rt; write_all(&mut short, &[1, 2, 3]).is_err());
    Ok(())
}
