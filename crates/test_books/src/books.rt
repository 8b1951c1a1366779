//! Books in memory, and what their one caller asks.
ghost use Rattle.std.specs.Prelude.{◌≡◌, ◌≢◌, ◌≤◌, false, true, IfSome, IsTrue};
ghost use Rattle.scm_model.specs.Ranges.{in_range};
ghost use Rattle.scm_model.specs.Refused.{zero_status};
ghost use Rattle.scm_book.specs.Called.{is_start};
ghost use Rattle.scm_book.specs.Passes.{HasPlan, IsOf};

use book_calls::{Site, Told, begin_start, call, end_start, limits, new_book};
use outside::FixedClock;
use record_journal::MemoryKeeper;
use scm_book::{Book, CallEnd, Opened, Pass};
use scm_model::{Apart, NewService, Principal, Reply, Request, Status, zero_status};
use scm_text::{Items, WText};
use std::alloc::Global;
use std::sync::Wait;

pub const CLOCK: FixedClock = FixedClock { moment: 0 };

/// The moment that the clock of a server tells.
pub const MOMENT: u64 = 7;

pub type TestBook = Book<MemoryKeeper>;

/// A book, and its administrator's pass.
pub struct Stage {
    pub book: TestBook,
    pub caller: Pass,
}

/// An administrator joins a book in which nothing took place.
fn staged<R: Wait>(rt: &R, opened: Opened<MemoryKeeper>) -> Option<Stage>
    requires book { IsOf opened.book opened.pass }
    requires nobody { opened.pass.caller ≡ 0 }
    requires alone { opened.pass.alone ≡ true }
    ensures { IfSome result (λ s. IsOf s.book s.caller × (s.caller.caller ≢ 0)) }
{
    let Opened { book, pass } = opened;
    match book.join_alone(rt, pass, 0, Principal::Admin) {
        Ok(caller) => Some(Stage { book, caller }),
        Err(back) => {
            drop(back);
            drop(book);
            None
        }
    }
}

/// An administrator joins, with room for so many steps.
pub fn begin_within<R: Wait>(rt: &R, alloc: Global, steps: u64) -> Option<Stage>
    requires { steps ≤ 16777216 }
    ensures { IfSome result (λ s. IsOf s.book s.caller × (s.caller.caller ≢ 0)) }
{
    match new_book(alloc, limits(steps), Vec::new(alloc)) {
        Some(opened) => staged(rt, opened),
        None => None,
    }
}

/// An administrator joins, with room for all that a row does.
pub fn begin<R: Wait>(rt: &R, alloc: Global) -> Option<Stage>
    ensures { IfSome result (λ s. IsOf s.book s.caller × (s.caller.caller ≢ 0)) }
{
    begin_within(rt, alloc, 256)
}

/// A pass that is nobody's.
pub fn runner(book: &TestBook, by: &mut Pass) -> Pass
    requires { IsOf book.now by.old × (by.old.caller ≢ 0) }
    ensures by { IsOf book.now by.new × (by.new.caller ≢ 0) }
    ensures runner { IsOf book.now result × (result.caller ≡ 0) }
{
    book.join_runner(by)
}

/// What the caller asks, by the handles that it has. The first one that is given is that of the
/// manager.
#[derive(Clone, Copy)]
pub enum Ask<'a> {
    OpensManager,
    /// Creates a service of this name and path, which needs the services that these bytes name.
    Creates(&'a str, &'a str, &'a [u8]),
    /// Creates a service of this name and path that may share its process.
    Shares(&'a str, &'a str),
    Starts(u64),
    /// Reports RUNNING, in which the service takes STOP.
    Runs(u64),
    Stops(u64),
}

/// No service that is needed, as a body has it.
pub const NOTHING: &[u8] = &[0, 0];

/// A service that is started.
pub const BEGIN: [(Ask<'static>, u32); 3] = [
    (Ask::OpensManager, 0),
    (Ask::Creates("A", "/a", NOTHING), 0),
    (Ask::Starts(2), 0),
];

/// A text in UTF-16.
fn text(alloc: Global, text: &str) -> Option<WText> {
    let Ok(units) = text.encode_utf16().collect::<Vec<u16>>(alloc) else {
        return None;
    };
    let text = WText::from_units(alloc, units.as_slice());
    drop(units);
    match text {
        Ok(text) => Some(text),
        Err(_) => None,
    }
}

/// Creates a service of a type by the first handle.
fn created(alloc: Global, kind: u32, name: WText, path: WText, needs: Items<u8>) -> Option<Request>
    ensures { IfSome result (λ asked. (is_start asked ≡ false) × IsTrue (in_range asked)) }
{
    let new = NewService {
        handle: 1,
        name,
        display: None,
        access: 0xF81FF,
        kind,
        start: 3,
        error: 1,
        path,
        group: None,
        tag: None,
        needs: Some(needs),
        account: None,
    };
    match Apart::new(alloc, new) {
        Ok(new) => Some(Request::Create(new)),
        Err(_) => None,
    }
}

/// Creates a service of a type with a name.
fn named(alloc: Global, kind: u32, name: WText, path: &str, needs: &[u8]) -> Option<Request>
    ensures { IfSome result (λ asked. (is_start asked ≡ false) × IsTrue (in_range asked)) }
{
    let Some(path) = text(alloc, path) else {
        drop(name);
        return None;
    };
    match Items::from_slice(alloc, needs) {
        Ok(needs) => created(alloc, kind, name, path, needs),
        Err(_) => {
            drop(path);
            drop(name);
            None
        }
    }
}

/// A status of a process of its own.
pub fn status(state: u32, accepted: u32) -> Status
    ensures { result ≡ record zero_status { kind = 16; state = state; accepted = accepted } }
{
    Status {
        kind: 0x10,
        state,
        accepted,
        ..zero_status()
    }
}

/// The request of a question. A start has none here.
fn request_of(alloc: Global, asked: Ask<'_>) -> Option<Request>
    ensures { IfSome result (λ asked. (is_start asked ≡ false) × IsTrue (in_range asked)) }
{
    match asked {
        Ask::OpensManager => Some(Request::OpenManager {
            database: None,
            access: 0xF003F,
        }),
        Ask::Creates(name, path, needs) => match text(alloc, name) {
            Some(name) => named(alloc, 0x10, name, path, needs),
            None => None,
        },
        Ask::Shares(name, path) => match text(alloc, name) {
            Some(name) => named(alloc, 0x20, name, path, NOTHING),
            None => None,
        },
        Ask::Runs(handle) => Some(Request::SetStatus {
            handle,
            status: status(4, 1),
        }),
        Ask::Stops(handle) => Some(Request::Control { handle, control: 1 }),
        Ask::Starts(_) => None,
    }
}

/// Makes a call that is no start, and tells its code.
fn code_of<R: Wait>(at: &Site<'_, R>, caller: &mut Pass, asked: Ask<'_>) -> Option<u32>
    requires book { IsOf at.now.book.now caller.old }
    requires caller { caller.old.caller ≢ 0 }
    ensures book { IsOf at.now.book.now caller.new }
    ensures caller { caller.new.caller ≢ 0 }
{
    match request_of(at.alloc, asked) {
        Some(request) => match call(at.rt, at.book, caller, 0, request) {
            Ok(told) => Some(told.code),
            Err(_) => None,
        },
        None => None,
    }
}

/// Asks, and tells the code. A start is to wait, and has code 0 then.
pub fn code_for<R: Wait>(at: &Site<'_, R>, caller: &mut Pass, asked: Ask<'_>) -> Option<u32>
    requires book { IsOf at.now.book.now caller.old }
    requires caller { caller.old.caller ≢ 0 }
    ensures book { IsOf at.now.book.now caller.new }
    ensures caller { caller.new.caller ≢ 0 }
{
    match asked {
        Ask::Starts(handle) => match begin_start(at.rt, at.alloc, at.book, caller, handle) {
            Some(_) => Some(0),
            None => None,
        },
        _ => code_of(at, caller, asked),
    }
}

/// Whether each question has the code beside it.
pub fn tells<R: Wait>(at: &Site<'_, R>, caller: &mut Pass, rows: &[(Ask<'_>, u32)]) -> bool
    requires book { IsOf at.now.book.now caller.old }
    requires caller { caller.old.caller ≢ 0 }
    ensures book { IsOf at.now.book.now caller.new }
    ensures caller { caller.new.caller ≢ 0 }
{
    for (asked, code) in rows {
        if code_for(at, caller, *asked) != Some(*code) {
            return false;
        }
    }
    true
}

/// The code that a start is answered with, once it is decided.
pub fn decided<R: Wait>(rt: &R, book: &TestBook, caller: &mut Pass, plan: u64) -> u32
    requires book { IsOf book.now caller.old }
    requires plan { HasPlan book.now.opening caller.old plan }
    ensures book { IsOf book.now caller.new }
    ensures caller { caller.new.caller ≢ 0 }
{
    for _ in rt.forever() {
        let seen = book.bell().count();
        match end_start(rt, book, caller, plan) {
            Some(code) => return code,
            None => {
                book.bell().wait(rt, seen);
            }
        }
    }
    unreachable!()
}

/// The state of a service, by its handle.
pub fn state<R: Wait>(rt: &R, book: &TestBook, caller: &mut Pass, handle: u64) -> Option<u64>
    requires book { IsOf book.now caller.old }
    requires caller { caller.old.caller ≢ 0 }
    ensures book { IsOf book.now caller.new }
    ensures caller { caller.new.caller ≢ 0 }
{
    match call(rt, book, caller, 0, Request::QueryStatus { handle }) {
        Ok(Told { code: 0, number }) => Some(number),
        _ => None,
    }
}

/// The exit code in the answer to a query.
fn exit_in(reply: &Reply) -> Option<u32> {
    match reply {
        Reply::State { status, code } if *code == 0 => Some(status.win32),
        _ => None,
    }
}

/// The exit code of a service, by its handle.
pub fn exit_code<R: Wait>(rt: &R, book: &TestBook, caller: &mut Pass, handle: u64) -> Option<u32>
    requires book { IsOf book.now caller.old }
    requires caller { caller.old.caller ≢ 0 }
    ensures book { IsOf book.now caller.new }
{
    match book.call(rt, caller, 0, Request::QueryStatus { handle }) {
        CallEnd::Answered(reply) => {
            let code = exit_in(&reply);
            drop(reply);
            code
        }
        CallEnd::Unmade(_) => None,
    }
}
