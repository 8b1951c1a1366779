// Connections, each alone at a book of its own under small limits.
ghost use Rattle.std.specs.Prelude.{◌≡◌, ◌≤◌};
ghost use Rattle.scm_core.specs.Managed.{AreSmall};

use book_calls::new_manager;
use outside::{FixedClock, MemorySink, MemorySource};
use record_journal::{Journal, MemoryKeeper};
use scm_model::{Limits, Principal};
use scm_pipe::{Piped, Served, serve_alone};
use std::alloc::Global;
use std::sync::Wait;

/// A bind, a manager that is opened, and its close.
pub const SESSION: [u8; 152] = [
    5, 0, 0xb, 3, 0x10, 0, 0, 0, 0x48, 0, 0, 0, 1, 0, 0, 0, //
    0xd0, 0x16, 0xd0, 0x16, 0, 0, 0, 0, 1, 0, 0, 0, 0, 0, 1, 0, //
    0x81, 0xbb, 0x7a, 0x36, 0x44, 0x98, 0xf1, 0x35, 0xad, 0x32, 0x98, 0xf0, 0x38, 0, 0x10, 3, //
    2, 0, 0, 0, 4, 0x5d, 0x88, 0x8a, 0xeb, 0x1c, 0xc9, 0x11, 0x9f, 0xe8, 8, 0, //
    0x2b, 0x10, 0x48, 0x60, 2, 0, 0, 0, // the bind
    5, 0, 0, 3, 0x10, 0, 0, 0, 0x24, 0, 0, 0, 2, 0, 0, 0, //
    0xc, 0, 0, 0, 0, 0, 0xf, 0, 0, 0, 0, 0, 0, 0, 0, 0, //
    0, 0, 0, 0, // the opening
    5, 0, 0, 3, 0x10, 0, 0, 0, 0x2c, 0, 0, 0, 3, 0, 0, 0, //
    0x14, 0, 0, 0, 0, 0, 0, 0, 0, 0, 0, 0, 1, 0, 0, 0, //
    0, 0, 0, 0, 0, 0, 0, 0, 0, 0, 0, 0, // the close
];

/// What each of the three is answered.
pub const TEXTS: [u8; 152] = [
    5, 0, 0xc, 3, 0x10, 0, 0, 0, 0x38, 0, 0, 0, 1, 0, 0, 0, //
    0xd0, 0x16, 0xd0, 0x16, 1, 0, 0, 0, 1, 0, 0, 0, 1, 0, 0, 0, //
    0, 0, 0, 0, 4, 0x5d, 0x88, 0x8a, 0xeb, 0x1c, 0xc9, 0x11, 0x9f, 0xe8, 8, 0, //
    0x2b, 0x10, 0x48, 0x60, 2, 0, 0, 0, // to the bind
    5, 0, 2, 3, 0x10, 0, 0, 0, 0x30, 0, 0, 0, 2, 0, 0, 0, //
    0x18, 0, 0, 0, 0, 0, 0, 0, 0, 0, 0, 0, 1, 0, 0, 0, //
    0, 0, 0, 0, 0, 0, 0, 0, 0, 0, 0, 0, 0, 0, 0, 0, // a handle
    5, 0, 2, 3, 0x10, 0, 0, 0, 0x30, 0, 0, 0, 3, 0, 0, 0, //
    0x18, 0, 0, 0, 0, 0, 0, 0, 0, 0, 0, 0, 0, 0, 0, 0, //
    0, 0, 0, 0, 0, 0, 0, 0, 0, 0, 0, 0, 0, 0, 0, 0, // no handle
];

/// What is sent, all that it may be answered, how many steps the limits have room for beside the
/// caller's coming and going, for how many bytes of text, how the connection ends, and how many
/// bytes it is answered.
#[derive(Clone, Copy)]
pub struct Talk {
    pub session: &'static [u8],
    pub texts: &'static [u8],
    pub calls: u8,
    pub text: u8,
    pub end: Served,
    pub answered: usize,
}

/// The whole session.
pub const WHOLE: Talk = Talk {
    session: &SESSION,
    texts: &TEXTS,
    calls: 2,
    text: 0,
    end: Served::Ended,
    answered: 152,
};

/// Limits with room for so many steps beside a caller's coming and going, and for so much text.
fn limits(calls: u8, text: u8) -> Limits
    ensures small { AreSmall result }
    ensures callers { result.callers ≡ 1 }
    ensures steps { 2 ≤ result.steps }
{
    Limits {
        services: 1,
        handles: 2,
        registrations: 0,
        callers: 1,
        processes: 1,
        controls: 1,
        steps: 2 + u64::from(calls),
        text: u64::from(text),
    }
}

/// Whether the connection ends as a row says, and is answered so.
fn ends_so<R: Wait>(
    rt: &R,
    alloc: Global,
    row: &Talk,
    input: &mut MemorySource,
    output: &mut MemorySink,
) -> bool {
    match new_manager(alloc, limits(row.calls, row.text)) {
        Ok(manager) => {
            let keeper = MemoryKeeper::new(Vec::new(alloc), Vec::new(alloc));
            let clock = FixedClock { moment: 0 };
            let Piped { how, keeper } = serve_alone(
                rt,
                alloc,
                manager,
                Journal::empty(),
                keeper,
                Principal::Admin,
                input,
                output,
                &clock,
            );
            drop(keeper);
            how == row.end
                && output.bytes().len() == row.answered
                && row.texts.starts_with(output.bytes())
        }
        Err(_) => false,
    }
}

/// The same of a connection that sends a byte at a time, of whose reads and writes these fail.
pub fn comes_to_failing<R: Wait>(
    rt: &R,
    alloc: Global,
    row: &Talk,
    reads: Vec<bool>,
    writes: Vec<bool>,
) -> bool {
    match Vec::from_slice(alloc, row.session) {
        Ok(bytes) => {
            let mut input = MemorySource::in_pieces(bytes, 1, reads);
            let mut output = MemorySink::new(alloc, writes);
            let ends_so = ends_so(rt, alloc, row, &mut input, &mut output);
            drop(input);
            drop(output);
            ends_so
        }
        Err(_) => {
            drop(reads);
            drop(writes);
            false
        }
    }
}

/// The same of one whose reads and writes succeed.
pub fn comes_to<R: Wait>(rt: &R, alloc: Global, row: &Talk) -> bool {
    comes_to_failing(rt, alloc, row, Vec::new(alloc), Vec::new(alloc))
}
