// Calls in short: what is asked, and what is answered.
ghost use Rattle.std.specs.Prelude.{◌≡◌, ◌≢◌, false, IfOk, IsTrue};
ghost use Rattle.scm_model.specs.Ranges.{in_range};
ghost use Rattle.scm_book.specs.Called.{is_start};
ghost use Rattle.scm_book.specs.Passes.{IsOf};

use record_journal::MemoryKeeper;
use scm_book::{Book, CallEnd, MakeFault, Pass};
use scm_model::codes::{
    DELETE, SC_MANAGER_ALL_ACCESS, SERVICE_ALL_ACCESS, SERVICE_CONTROL_STOP, SERVICE_DEMAND_START,
    SERVICE_ERROR_NORMAL, SERVICE_QUERY_STATUS, SERVICE_WIN32_OWN_PROCESS,
};
use scm_model::{Apart, NewService, Reply, Request};
use scm_text::{OutOfMemory, WText};
use std::alloc::Global;
use std::sync::Wait;

/// What a caller asks. The name of a service is one unit, and its path is `/a`.
#[derive(Clone, Copy, PartialEq, Eq)]
pub enum Asked {
    OpensManager,
    Creates { manager: u64, name: u16 },
    Opens { manager: u64, name: u16 },
    Queries { handle: u64 },
    Locks { manager: u64 },
    Unlocks { lock: u64 },
    Stops { handle: u64 },
    Deletes { handle: u64 },
    Closes { handle: u64 },
}

/// The answer to a call: the code, and the number of a handle or of a service's state beside it.
#[derive(Clone, Copy, PartialEq, Eq)]
pub struct Told {
    pub code: u32,
    pub number: u64,
}

fn text(alloc: Global, units: &[u16]) -> Result<WText, OutOfMemory> {
    match WText::from_units(alloc, units) {
        Ok(text) => Ok(text),
        Err(_) => Err(OutOfMemory),
    }
}

/// Creates a service of this name and path.
fn created(alloc: Global, handle: u64, name: WText, path: WText) -> Result<Request, OutOfMemory>
    ensures start { IfOk result (λ request. is_start request ≡ false) }
    ensures ranged { IfOk result (λ request. IsTrue (in_range request)) }
{
    let new = NewService {
        handle,
        name,
        display: None,
        access: SERVICE_ALL_ACCESS,
        kind: SERVICE_WIN32_OWN_PROCESS,
        start: SERVICE_DEMAND_START,
        error: SERVICE_ERROR_NORMAL,
        path,
        group: None,
        tag: None,
        needs: None,
        account: None,
    };
    Ok(Request::Create(Apart::new(alloc, new)?))
}

fn creation(alloc: Global, handle: u64, name: u16) -> Result<Request, OutOfMemory>
    ensures start { IfOk result (λ request. is_start request ≡ false) }
    ensures ranged { IfOk result (λ request. IsTrue (in_range request)) }
{
    let path = text(alloc, &[0x2F, 0x61])?;
    match text(alloc, &[name]) {
        Ok(name) => created(alloc, handle, name, path),
        Err(fault) => {
            drop(path);
            Err(fault)
        }
    }
}

/// The request of a call.
pub fn request_of(alloc: Global, asked: Asked) -> Result<Request, OutOfMemory>
    ensures start { IfOk result (λ request. is_start request ≡ false) }
    ensures ranged { IfOk result (λ request. IsTrue (in_range request)) }
{
    match asked {
        Asked::OpensManager => Ok(Request::OpenManager {
            database: None,
            access: SC_MANAGER_ALL_ACCESS,
        }),
        Asked::Creates { manager, name } => creation(alloc, manager, name),
        Asked::Opens { manager, name } => match text(alloc, &[name]) {
            Ok(name) => Ok(Request::OpenService {
                handle: manager,
                name,
                access: SERVICE_QUERY_STATUS | DELETE,
            }),
            Err(fault) => Err(fault),
        },
        Asked::Queries { handle } => Ok(Request::QueryStatus { handle }),
        Asked::Locks { manager } => Ok(Request::Lock { handle: manager }),
        Asked::Unlocks { lock } => Ok(Request::Unlock { handle: lock }),
        Asked::Stops { handle } => Ok(Request::Control {
            handle,
            control: SERVICE_CONTROL_STOP,
        }),
        Asked::Deletes { handle } => Ok(Request::Delete { handle }),
        Asked::Closes { handle } => Ok(Request::Close { handle }),
    }
}

/// What a reply says in short.
pub fn told_by(reply: &Reply) -> Told {
    let (code, number) = match reply {
        Reply::Code(code) => (*code, 0),
        Reply::Handle { handle, code } => (*code, *handle),
        Reply::State { status, code } => (*code, u64::from(status.state)),
        Reply::Made { handle, code, .. } => (*code, *handle),
        Reply::Tag { code, .. }
        | Reply::Shown { code, .. }
        | Reply::LockState { code, .. }
        | Reply::Name { code, .. }
        | Reply::Listing { code, .. }
        | Reply::Page { code, .. }
        | Reply::Bytes { code, .. }
        | Reply::Notice { code, .. } => (*code, 0),
    };
    Told { code, number }
}

/// The outcome of a call in short.
fn end_of(ended: CallEnd) -> Result<Told, MakeFault> {
    match ended {
        CallEnd::Answered(reply) => {
            let told = told_by(&reply);
            drop(reply);
            Ok(told)
        }
        CallEnd::Unmade(fault) => Err(fault),
    }
}

/// Makes a call of a caller by its request.
pub fn call<R: Wait>(
    rt: &R,
    book: &Book<MemoryKeeper>,
    pass: &mut Pass,
    moment: u64,
    request: Request,
) -> Result<Told, MakeFault>
    requires book { IsOf book.now pass.old }
    requires caller { pass.old.caller ≢ 0 }
    requires start { is_start request ≡ false }
    requires ranged { IsTrue (in_range request) }
    ensures book { IsOf book.now pass.new }
    ensures caller { pass.new.caller ≢ 0 }
{
    end_of(book.call(rt, pass, moment, request))
}

/// Raises the triggers with a subtype, in the name of a caller.
pub fn raise<R: Wait>(
    rt: &R,
    book: &Book<MemoryKeeper>,
    pass: &mut Pass,
    moment: u64,
    subtype: [u8; 16],
) -> Result<Told, MakeFault>
    requires book { IsOf book.now pass.old }
    requires caller { pass.old.caller ≢ 0 }
    ensures book { IsOf book.now pass.new }
    ensures caller { pass.new.caller ≢ 0 }
{
    end_of(book.raise(rt, pass, moment, subtype))
}

/// Makes a call of a caller.
pub fn ask<R: Wait>(
    rt: &R,
    alloc: Global,
    book: &Book<MemoryKeeper>,
    pass: &mut Pass,
    moment: u64,
    asked: Asked,
) -> Result<Told, MakeFault>
    requires book { IsOf book.now pass.old }
    requires caller { pass.old.caller ≢ 0 }
    ensures book { IsOf book.now pass.new }
    ensures caller { pass.new.caller ≢ 0 }
{
    match request_of(alloc, asked) {
        Ok(request) => call(rt, book, pass, moment, request),
        Err(_) => Err(MakeFault::OutOfMemory),
    }
}
