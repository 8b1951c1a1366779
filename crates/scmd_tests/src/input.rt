// Malicious input.
ghost use Rattle.std.specs.Prelude.{◌≢◌};
ghost use Rattle.scm_book.specs.Passes.{IsOf};

use crate::runs::{PIPE, Run};
use book_calls::{Site, guest};
use conn_worker::{Ended, PipeWaiter, serve_connection};
use outside::{MemorySink, MemorySource};
use rpc_pdu::PduKind;
use scm_book::Pass;
use scm_pipe::Served;
use std::alloc::Global;
use std::sync::Wait;
use svcctl_words::{Sheet, Side};
use test_books::{Ask, CLOCK, NOTHING, Stage, TEXTS, Talk, TestBook, begin, tells};

/// Counts of items that don't follow.
const COUNTED: &str = "bind
                                | manager - - 0                 | h1 0
a name of 4,294,967,295 units   | open h1 #FFFFFFFF 0 #FFFFFFFF x440062000000 4 | fault #6F7
as many words of a start        | start h1 #FFFFFFFF * #FFFFFFFF * 2 0 2 x41000000 | fault #6F7
";

/// A connection with such counts.
pub const COUNTS: Run = Run {
    asked: COUNTED,
    told: COUNTED,
    ..PIPE
};

/// A bind, and a request whose fragment has a byte less than a header.
const SHORT: [u8; 88] = [
    5, 0, 0xb, 3, 0x10, 0, 0, 0, 0x48, 0, 0, 0, 1, 0, 0, 0, //
    0xd0, 0x16, 0xd0, 0x16, 0, 0, 0, 0, 1, 0, 0, 0, 0, 0, 1, 0, //
    0x81, 0xbb, 0x7a, 0x36, 0x44, 0x98, 0xf1, 0x35, 0xad, 0x32, 0x98, 0xf0, 0x38, 0, 0x10, 3, //
    2, 0, 0, 0, 4, 0x5d, 0x88, 0x8a, 0xeb, 0x1c, 0xc9, 0x11, 0x9f, 0xe8, 8, 0, //
    0x2b, 0x10, 0x48, 0x60, 2, 0, 0, 0, // the bind
    5, 0, 0, 3, 0x10, 0, 0, 0, 0xf, 0, 0, 0, 2, 0, 0, 0, // the request
];

/// A connection that sends it.
pub const SHORT_FRAGMENT: Talk = Talk {
    session: &SHORT,
    texts: &TEXTS,
    calls: 1,
    text: 0,
    end: Served::BadPdu(72, PduKind::Length),
    answered: 56,
};

/// What another caller has: the manager and a service.
const HELD: [(Ask<'static>, u32); 2] = [
    (Ask::OpensManager, 0),
    (Ask::Creates("A", "/a", NOTHING), 0),
];

/// The handles of another caller.
const HANDLES: &str = "bind
A's handle is caller 1's | status h2                      | 0 0 0 0 0 0 0 6
                     | delete h2                          | 6
                     | close h2                           | h2 6
the manager's too    | create h1 'B' - own '/bin/b' plain | - h0 6
                     | close h1                           | h1 6
";

/// How a connection of a caller ends.
fn served<R: Wait>(
    rt: &R,
    alloc: Global,
    book: &TestBook,
    pass: Pass,
    input: &mut MemorySource,
    output: &mut MemorySink,
) -> Option<Served>
    requires { IsOf book.now pass × (pass.caller ≢ 0) }
{
    match PipeWaiter::new(rt, alloc) {
        Ok(mut waiter) => {
            let Ended { how, spent } = serve_connection(
                rt,
                alloc,
                book,
                pass,
                input,
                output,
                &CLOCK,
                &mut waiter,
            );
            drop(waiter);
            drop(spent);
            Some(how)
        }
        Err(_) => {
            drop(pass);
            None
        }
    }
}

/// Whether a connection that asks by these handles is refused each.
fn is_refused<R: Wait>(
    rt: &R,
    alloc: Global,
    book: &TestBook,
    pass: Pass,
    sheet: &mut Sheet,
) -> bool
    requires { IsOf book.now pass × (pass.caller ≢ 0) }
{
    let mut bytes = Vec::new(alloc);
    let is_asked = sheet.put("pipe", HANDLES, Side::Asks).is_some()
        && bytes.extend_from_slice(sheet.bytes()).is_ok();
    let mut input = MemorySource::new(bytes, Vec::new(alloc));
    let mut output = MemorySink::new(alloc, Vec::new(alloc));
    let how = served(rt, alloc, book, pass, &mut input, &mut output);
    let is_told = sheet.put("pipe", HANDLES, Side::Tells).is_some()
        && sheet.bytes() == output.bytes();
    drop(output);
    drop(input);
    is_asked && is_told && how == Some(Served::Ended)
}

/// Whether a guest is, beside a caller who has them.
fn is_guest_refused<R: Wait>(at: &Site<'_, R>, caller: &mut Pass, sheet: &mut Sheet) -> bool
    requires { IsOf at.now.book.now caller.old × (caller.old.caller ≢ 0) }
{
    if !tells(at, caller, &HELD) {
        return false;
    }
    match guest(at.rt, at.book, caller, 0) {
        Ok(pass) => is_refused(at.rt, at.alloc, at.book, pass, sheet),
        Err(_) => false,
    }
}

/// Whether a caller is refused by the handles of another one.
pub fn are_handles_apart<R: Wait>(rt: &R, alloc: Global, sheet: &mut Sheet) -> bool {
    match begin(rt, alloc) {
        Some(Stage { book, mut caller }) => {
            let at = Site {
                rt,
                alloc,
                book: &book,
            };
            let is_refused = is_guest_refused(&at, &mut caller, sheet);
            drop(at);
            drop(caller);
            drop(book);
            is_refused
        }
        None => false,
    }
}
