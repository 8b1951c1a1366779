use super::counter::Counter;
use super::watched::{Watch, WatchedSink, WatchedSource};
use conn_desk::{Served, serve};
use outside::{MemorySink, MemorySource};
use std::alloc::Global;
use std::test::*;

/// A bind of the smallest sizes in group 7, and two closes of handle 7.
const SESSION: &str = "05000b03 10000000 48000000 01000000 00000000 07000000 01000000 00000100 \
     81bb7a364498f135ad3298f038001003 02000000 045d888aeb1cc9119fe808002b104860 02000000 \
     05000003 10000000 2c000000 02000000 14000000 00000000 \
     00000000 0700000000000000 0000000000000000 \
     05000003 10000000 2c000000 03000000 14000000 00000000 \
     00000000 0700000000000000 0000000000000000";

/// What the bind is answered, the first close, and the second one.
const ANSWERS: [&str; 3] = [
    "05000c03 10000000 38000000 01000000 98059805 07000000 01000000 01000000 \
     00000000 045d888aeb1cc9119fe808002b104860 02000000",
    "05000203 10000000 30000000 02000000 18000000 00000000 \
     00000000 0700000000000000 0000000000000000 00000000",
    "05000203 10000000 30000000 03000000 18000000 00000000 \
     00000000 0700000000000000 0000000000000000 01000000",
];

/// Bytes of hex digits, with spaces between them.
fn put(alloc: Global, all: &mut Vec<u8>, digits: &str) -> Result<(), Fail> {
    let mut close = String::new(alloc);
    for part in digits.split(' ') {
        close.push_str(part)?;
    }
    all.extend_from_slice(hex::decode(alloc, close.as_str())?.as_slice())?;
    Ok(())
}

/// The bytes of so many answers.
fn text(alloc: Global, answers: &[&'static str], count: usize) -> Result<Vec<u8>, Fail> {
    let mut all = Vec::new(alloc);
    for answer in answers.iter().take(count) {
        put(alloc, &mut all, answer)?;
    }
    Ok(all)
}

/// Whether the session, read in pieces of this size at a desk with so much room, ends so and is
/// answered this.
fn comes_to(
    alloc: Global,
    bytes: Vec<u8>,
    piece: usize,
    room: u32,
    end: Served,
    text: &[u8],
) -> bool {
    let mut desk = Counter {
        alloc,
        asked: 0,
        room,
    };
    let mut input = MemorySource::in_pieces(bytes, piece, Vec::new(alloc));
    let mut output = MemorySink::new(alloc, Vec::new(alloc));
    let how = serve(alloc, &mut desk, &mut input, &mut output);
    how == end && output.bytes() == text
}

#[test]
fn pieces_of_any_size_are_answered_alike_until_there_is_no_room(
    rt: HostRuntime,
) -> Result<(), Fail> {
    let rows = [
        (usize::MAX, 2, Served::Ended, 3),
        (1, 2, Served::Ended, 3),
        (45, 2, Served::Ended, 3),
        (usize::MAX, 1, Served::Full, 2),
        (1, 1, Served::Full, 2),
        (1, 0, Served::Full, 1),
    ];
    for (piece, room, end, count) in rows {
        let mut bytes = Vec::new(rt.alloc());
        put(rt.alloc(), &mut bytes, SESSION)?;
        let text = text(rt.alloc(), &ANSWERS, count)?;
        assert!(rt;
            comes_to(rt.alloc(), bytes, piece, room, end, text.as_slice()),
            "{piece} {room}"
        );
    }
    Ok(())
}

/// A bind to svcctl as context 0 and to the trigger interface as context 1, a close, a raise, a
/// raise one byte short, a method that there is not, a raise one byte long, and a close.
const RAISES: &str = "05000b03 10000000 74000000 01000000 00000000 07000000 02000000 00000100 \
     81bb7a364498f135ad3298f038001003 02000000 045d888aeb1cc9119fe808002b104860 02000000 \
     01000100 100a3f5c4b2e614d9a770d5b1e6f2c01 01000000 \
     045d888aeb1cc9119fe808002b104860 02000000 \
     05000003 10000000 2c000000 02000000 14000000 00000000 \
     00000000 0700000000000000 0000000000000000 \
     05000003 10000000 28000000 03000000 10000000 01000000 000102030405060708090a0b0c0d0e0f \
     05000003 10000000 27000000 04000000 0f000000 01000000 000102030405060708090a0b0c0d0e \
     05000003 10000000 28000000 05000000 10000000 01000100 000102030405060708090a0b0c0d0e0f \
     05000003 10000000 29000000 06000000 11000000 01000000 000102030405060708090a0b0c0d0e0f00 \
     05000003 10000000 2c000000 07000000 14000000 00000000 \
     00000000 0700000000000000 0000000000000000";

/// What each is answered: the faults are no requests to the desk.
const RAISE_ANSWERS: [&str; 7] = [
    "05000c03 10000000 50000000 01000000 98059805 07000000 01000000 02000000 \
     00000000 045d888aeb1cc9119fe808002b104860 02000000 \
     00000000 045d888aeb1cc9119fe808002b104860 02000000",
    "05000203 10000000 30000000 02000000 18000000 00000000 \
     00000000 0700000000000000 0000000000000000 00000000",
    "05000203 10000000 1c000000 03000000 04000000 01000000 01000000",
    "05000303 10000000 20000000 04000000 00000000 01000000 f7060000 00000000",
    "05000303 10000000 20000000 05000000 00000000 01000000 0200011c 00000000",
    "05000303 10000000 20000000 06000000 00000000 01000000 f7060000 00000000",
    "05000203 10000000 30000000 07000000 18000000 00000000 \
     00000000 0700000000000000 0000000000000000 02000000",
];

#[test]
fn a_raise_is_answered_a_code_in_its_place(rt: HostRuntime) -> Result<(), Fail> {
    let rows = [
        (usize::MAX, 3, Served::Ended, 7),
        (1, 3, Served::Ended, 7),
        (1, 2, Served::Full, 6),
        (1, 1, Served::Full, 2),
    ];
    for (piece, room, end, count) in rows {
        let mut bytes = Vec::new(rt.alloc());
        put(rt.alloc(), &mut bytes, RAISES)?;
        let text = text(rt.alloc(), &RAISE_ANSWERS, count)?;
        assert!(rt;
            comes_to(rt.alloc(), bytes, piece, room, end, text.as_slice()),
            "{piece} {room}"
        );
    }
    Ok(())
}

/// Whether the session, given in two parts, is answered to the end, and each time that more is read
/// all of what was read before is answered.
fn is_in_time(alloc: Global, front: &[u8], back: &[u8]) -> bool {
    let mut desk = Counter {
        alloc,
        asked: 0,
        room: 2,
    };
    let watch = Watch::new();
    let mut input = WatchedSource::new(front, back, &watch);
    let mut output = WatchedSink::new(&watch);
    let how = serve(alloc, &mut desk, &mut input, &mut output);
    how == Served::Ended && watch.was_in_time()
}

#[test]
fn each_reply_is_written_before_the_next_read(rt: HostRuntime) -> Result<(), Fail> {
    let mut bytes = Vec::new(rt.alloc());
    put(rt.alloc(), &mut bytes, SESSION)?;
    for cut in 0..bytes.len() {
        let (front, back) = bytes.as_slice().split_at(cut);
        assert!(rt; is_in_time(rt.alloc(), front, back), "{cut}");
    }
    Ok(())
}
