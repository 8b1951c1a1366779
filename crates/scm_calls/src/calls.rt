ghost use Rattle.std.specs.Prelude.{◌≡◌, ◌++◌, ◌∷◌, [], IsTrue};
ghost use Rattle.scm_calls.specs.Calls.{plain_call_at, plain_call_of, plain_reply_kind};
ghost use Rattle.scm_shapes.specs.declared.item.Value.TheVariants as value;
ghost use Rattle.scm_shapes.specs.Shapes.{after, first_handle, first_number, first_some_text};
ghost use Rattle.scm_shapes.specs.HandleBodies.{handle_body_values, is_handle_body};
ghost use Rattle.scm_shapes.specs.Written.{IsWritten};
ghost use Rattle.scm_model.specs.declared.calls.Request.TheVariants as request;
ghost use Rattle.scm_calls.specs.declared.calls.Call.TheVariants as call;
ghost use Rattle.scm_calls.specs.Requests.{plain_from, plain_shape, plain_values, status_from};
ghost use Rattle.scm_calls.specs.Requests.{status_values};

use crate::kinds::ReplyKind;
use scm_model::codes::{
    MAX_LOCK_STATUS_SIZE, R_CLOSE_SERVICE_HANDLE, R_CONTROL_SERVICE, R_DELETE_SERVICE,
    R_GET_SERVICE_DISPLAY_NAME_W, R_GET_SERVICE_KEY_NAME_W, R_LOCK_SERVICE_DATABASE,
    R_OPEN_SC_MANAGER_W, R_OPEN_SERVICE_W, R_QUERY_SERVICE_LOCK_STATUS_W, R_QUERY_SERVICE_STATUS,
    R_SET_SERVICE_STATUS, R_START_SERVICE_W, R_UNLOCK_SERVICE_DATABASE,
};
use scm_model::{Request, Status};
use scm_shapes::{HandleBody, Item, Piece, Values, write_handle, write_pieces};
use scm_text::{Buffer, OutOfMemory, WText};
use std::alloc::Global;

/// A call whose line is here.
#[derive(Clone, Copy, Debug, PartialEq, Eq)]
pub enum Call {
    Close,
    Control,
    Delete,
    Lock,
    QueryStatus,
    SetStatus,
    Unlock,
    OpenManager,
    OpenService,
    QueryLock,
    Start,
    DisplayName,
    KeyName,
}

/// The call of an opnum.
pub fn call_at(opnum: u16) -> Option<Call>
    ensures { result ≡ plain_call_at opnum }
{
    match opnum {
        R_CLOSE_SERVICE_HANDLE => Some(Call::Close),
        R_CONTROL_SERVICE => Some(Call::Control),
        R_DELETE_SERVICE => Some(Call::Delete),
        R_LOCK_SERVICE_DATABASE => Some(Call::Lock),
        R_QUERY_SERVICE_STATUS => Some(Call::QueryStatus),
        R_SET_SERVICE_STATUS => Some(Call::SetStatus),
        R_UNLOCK_SERVICE_DATABASE => Some(Call::Unlock),
        R_OPEN_SC_MANAGER_W => Some(Call::OpenManager),
        R_OPEN_SERVICE_W => Some(Call::OpenService),
        R_QUERY_SERVICE_LOCK_STATUS_W => Some(Call::QueryLock),
        R_START_SERVICE_W => Some(Call::Start),
        R_GET_SERVICE_DISPLAY_NAME_W => Some(Call::DisplayName),
        R_GET_SERVICE_KEY_NAME_W => Some(Call::KeyName),
        _ => None,
    }
}

/// The call of a request.
pub fn call_of(request: &Request) -> Option<Call>
    ensures { result ≡ plain_call_of request.now }
{
    match request {
        Request::Close { .. } => Some(Call::Close),
        Request::Control { .. } => Some(Call::Control),
        Request::Delete { .. } => Some(Call::Delete),
        Request::Lock { .. } => Some(Call::Lock),
        Request::QueryStatus { .. } => Some(Call::QueryStatus),
        Request::SetStatus { .. } => Some(Call::SetStatus),
        Request::Unlock { .. } => Some(Call::Unlock),
        Request::OpenManager { .. } => Some(Call::OpenManager),
        Request::OpenService { .. } => Some(Call::OpenService),
        Request::QueryLock { .. } => Some(Call::QueryLock),
        Request::Start { .. } => Some(Call::Start),
        Request::DisplayName { .. } => Some(Call::DisplayName),
        Request::KeyName { .. } => Some(Call::KeyName),
        _ => None,
    }
}

/// The kind of a call's replies.
pub fn reply_kind(call: Call) -> ReplyKind
    ensures { result ≡ plain_reply_kind call }
{
    match call {
        Call::Close | Call::Lock | Call::Unlock | Call::OpenManager | Call::OpenService => {
            ReplyKind::Handle
        }
        Call::Control | Call::QueryStatus => ReplyKind::State,
        Call::Delete | Call::SetStatus | Call::Start => ReplyKind::Code,
        Call::QueryLock => ReplyKind::LockState,
        Call::DisplayName | Call::KeyName => ReplyKind::Name,
    }
}

/// The kinds of items in the body of a request.
pub fn request_shape(call: Call) -> &'static [Item]
    ensures { result.now ≡ plain_shape call }
{
    match call {
        Call::Close | Call::Delete | Call::Lock | Call::QueryStatus | Call::Unlock => {
            &[Item::Handle]
        }
        Call::Control => &[Item::Handle, Item::Number],
        Call::SetStatus => &[
            Item::Handle,
            Item::Number,
            Item::Number,
            Item::Number,
            Item::Number,
            Item::Number,
            Item::Number,
            Item::Number,
        ],
        Call::OpenManager => &[Item::UnkeptText, Item::SomeText, Item::Number],
        Call::OpenService | Call::DisplayName | Call::KeyName => {
            &[Item::Handle, Item::Text, Item::Number]
        }
        Call::QueryLock => &[Item::Handle, Item::NumberTo(MAX_LOCK_STATUS_SIZE)],
        Call::Start => &[Item::Handle, Item::Words],
    }
}

/// A status of seven numbers.
pub fn status_of(values: &mut Values) -> Status
    ensures value { result ≡ status_from values.old }
    ensures rest { values.new ≡ after 7 values.old }
{
    Status {
        kind: values.number(),
        state: values.number(),
        accepted: values.number(),
        win32: values.number(),
        specific: values.number(),
        checkpoint: values.number(),
        hint: values.number(),
    }
}

/// The machine's name isn't kept.
fn open_manager(values: &mut Values) -> Request
    ensures { result ≡ plain_from call.OpenManager values.old }
{
    values.skip();
    Request::OpenManager {
        database: values.some_text(),
        access: values.number(),
    }
}

fn open_service(alloc: Global, values: &mut Values) -> Request
    ensures { result ≡ plain_from call.OpenService values.old }
{
    Request::OpenService {
        handle: values.handle(),
        name: values.text(alloc),
        access: values.number(),
    }
}

fn display_name(alloc: Global, values: &mut Values) -> Request
    ensures { result ≡ plain_from call.DisplayName values.old }
{
    Request::DisplayName {
        handle: values.handle(),
        name: values.text(alloc),
        size: values.number(),
    }
}

fn key_name(alloc: Global, values: &mut Values) -> Request
    ensures { result ≡ plain_from call.KeyName values.old }
{
    Request::KeyName {
        handle: values.handle(),
        name: values.text(alloc),
        size: values.number(),
    }
}

/// What is asked by a body that is a handle and at most two numbers.
#[inline(always)]
pub fn request_of_handle_body(call: Call, body: HandleBody) -> Request
    requires { IsTrue (is_handle_body (plain_shape call)) }
    ensures { result ≡ plain_from call (handle_body_values body) }
{
    let HandleBody { handle, first, .. } = body;
    match call {
        Call::Close => Request::Close { handle },
        Call::Control => Request::Control {
            handle,
            control: first,
        },
        Call::Delete => Request::Delete { handle },
        Call::Lock => Request::Lock { handle },
        Call::QueryStatus => Request::QueryStatus { handle },
        Call::Unlock => Request::Unlock { handle },
        Call::QueryLock => Request::QueryLock {
            handle,
            size: first,
        },
        _ => unreachable!(),
    }
}

/// What is asked by the values of a body.
pub fn request_of(alloc: Global, call: Call, values: &mut Values) -> Request
    ensures { result ≡ plain_from call values.old }
{
    match call {
        Call::Close
        | Call::Control
        | Call::Delete
        | Call::Lock
        | Call::QueryStatus
        | Call::Unlock
        | Call::QueryLock => request_of_handle_body(call, values.handle_body()),
        Call::SetStatus => Request::SetStatus {
            handle: values.handle(),
            status: status_of(values),
        },
        Call::OpenManager => open_manager(values),
        Call::OpenService => open_service(alloc, values),
        Call::Start => Request::Start {
            handle: values.handle(),
            words: values.words(),
        },
        Call::DisplayName => display_name(alloc, values),
        Call::KeyName => key_name(alloc, values),
    }
}

/// Writes a handle and the numbers of a status.
fn put_status(
    handle: u64,
    status: &Status,
    out: Buffer<u8>,
) -> Result<Buffer<u8>, (OutOfMemory, Buffer<u8>)>
    ensures { IsWritten (value.Handle handle ∷ status_values status.now) out result }
{
    write_handle(handle, &status.numbers(), out)
}

/// Writes a handle, a name and a number.
fn put_name(
    handle: u64,
    name: &WText,
    number: u32,
    out: Buffer<u8>,
) -> Result<Buffer<u8>, (OutOfMemory, Buffer<u8>)>
    ensures { IsWritten (value.Handle handle ∷ value.Text name.now ∷ value.Number number ∷ []) out
        result }
{
    write_pieces(
        &[
            Piece::Handle(handle),
            Piece::Text(name),
            Piece::Number(number),
        ],
        out,
    )
}

/// Writes the body of a request after what the buffer holds, if its call is one of this crate's. If
/// memory runs out, the buffer is given back as it was.
pub fn put_request(
    request: &Request,
    out: Buffer<u8>,
) -> Result<Buffer<u8>, (OutOfMemory, Buffer<u8>)>
    ensures { IsWritten (plain_values request.now) out result }
{
    match request {
        Request::Close { handle }
        | Request::Delete { handle }
        | Request::Lock { handle }
        | Request::QueryStatus { handle }
        | Request::Unlock { handle } => write_handle(*handle, &[], out),
        Request::Control {
            handle,
            control: number,
        }
        | Request::QueryLock {
            handle,
            size: number,
        } => write_handle(*handle, &[*number], out),
        Request::SetStatus { handle, status } => put_status(*handle, status, out),
        Request::OpenManager { database, access } => {
            let (database, access) = (Piece::SomeText(database), Piece::Number(*access));
            write_pieces(&[Piece::UnkeptText, database, access], out)
        }
        Request::OpenService {
            handle,
            name,
            access: number,
        }
        | Request::DisplayName {
            handle,
            name,
            size: number,
        }
        | Request::KeyName {
            handle,
            name,
            size: number,
        } => put_name(*handle, name, *number, out),
        Request::Start { handle, words } => {
            write_pieces(&[Piece::Handle(*handle), Piece::Words(words)], out)
        }
        _ => write_pieces(&[], out),
    }
}
