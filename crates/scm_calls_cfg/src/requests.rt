ghost use Rattle.std.specs.Prelude.{◌≡◌, IfOk, IsOk, IsTrue};
ghost use Rattle.scm_shapes.specs.HandleBodies.{handle_body_values, is_handle_body};
ghost use Rattle.scm_shapes.specs.Plain.{ArePlain};
ghost use Rattle.scm_shapes.specs.Written.{IsWritten};
ghost use Rattle.scm_calls_cfg.specs.Requests.{change_from, change_values, config_from};
ghost use Rattle.scm_calls_cfg.specs.Requests.{config_shape, config_values, new_from, new_values};

use crate::calls::Call;
use scm_model::codes::MAX_CONFIG_SIZE;
use scm_model::{Apart, ChangeService, NewService, Request};
use scm_shapes::{HandleBody, Item, Piece, Values, write_handle, write_pieces};
use scm_text::{Buffer, OutOfMemory};
use std::alloc::Global;

/// The kinds of items in the body of a request.
pub fn request_shape(call: Call) -> &'static [Item]
    ensures { result.now ≡ config_shape call }
{
    match call {
        Call::Change => &[
            Item::Handle,
            Item::Number,
            Item::Number,
            Item::Number,
            Item::SomeText,
            Item::SomeText,
            Item::SomeNumber,
            Item::SomeBytes,
            Item::SomeText,
            Item::UnkeptBytes,
            Item::SomeText,
        ],
        Call::Create => &[
            Item::Handle,
            Item::Text,
            Item::SomeText,
            Item::Number,
            Item::Number,
            Item::Number,
            Item::Number,
            Item::Text,
            Item::SomeText,
            Item::SomeNumber,
            Item::SomeBytes,
            Item::SomeText,
            Item::UnkeptBytes,
        ],
        Call::QueryConfig => &[Item::Handle, Item::NumberTo(MAX_CONFIG_SIZE)],
        Call::Change2 => &[Item::Handle, Item::Info],
        Call::QueryConfig2 => &[Item::Handle, Item::Number, Item::NumberTo(MAX_CONFIG_SIZE)],
    }
}

fn change_of(values: &mut Values) -> ChangeService
    ensures { result ≡ change_from values.old }
{
    let handle = values.handle();
    let kind = values.number();
    let start = values.number();
    let error = values.number();
    let path = values.some_text();
    let group = values.some_text();
    let tag = values.some_number();
    let needs = values.some_bytes();
    let account = values.some_text();
    values.skip();
    let display = values.some_text();
    ChangeService {
        handle,
        kind,
        start,
        error,
        path,
        group,
        tag,
        needs,
        account,
        display,
    }
}

fn new_of(alloc: Global, values: &mut Values) -> NewService
    ensures { result ≡ new_from values.old }
{
    NewService {
        handle: values.handle(),
        name: values.text(alloc),
        display: values.some_text(),
        access: values.number(),
        kind: values.number(),
        start: values.number(),
        error: values.number(),
        path: values.text(alloc),
        group: values.some_text(),
        tag: values.some_number(),
        needs: values.some_bytes(),
        account: values.some_text(),
    }
}

/// What is asked by a body that is a handle and at most two numbers.
#[inline(always)]
pub fn request_of_handle_body(call: Call, body: HandleBody) -> Request
    requires { IsTrue (is_handle_body (config_shape call)) }
    ensures { result ≡ config_from call (handle_body_values body) }
{
    let HandleBody {
        handle,
        first,
        second,
    } = body;
    match call {
        Call::QueryConfig => Request::QueryConfig {
            handle,
            size: first,
        },
        Call::QueryConfig2 => Request::QueryConfig2 {
            handle,
            level: first,
            size: second,
        },
        _ => unreachable!(),
    }
}

/// What is asked by the values of a body.
pub fn request_of(alloc: Global, call: Call, values: &mut Values) -> Result<Request, OutOfMemory>
    ensures value { IfOk result (λ request. request ≡ config_from call values.old) }
    // No memory is taken for a handle and numbers.
    ensures memory { ArePlain (config_shape call) → IsOk result }
{
    match call {
        Call::Change => Ok(Request::Change(Apart::new(alloc, change_of(values))?)),
        Call::Create => Ok(Request::Create(Apart::new(alloc, new_of(alloc, values))?)),
        Call::Change2 => Ok(Request::Change2 {
            handle: values.handle(),
            info: values.info(),
        }),
        Call::QueryConfig | Call::QueryConfig2 => {
            Ok(request_of_handle_body(call, values.handle_body()))
        }
    }
}

/// Writes what is to be changed. The password is left out.
fn put_change(
    change: &ChangeService,
    out: Buffer<u8>,
) -> Result<Buffer<u8>, (OutOfMemory, Buffer<u8>)>
    ensures { IsWritten (change_values change.now) out result }
{
    write_pieces(
        &[
            Piece::Handle(change.handle),
            Piece::Number(change.kind),
            Piece::Number(change.start),
            Piece::Number(change.error),
            Piece::SomeText(&change.path),
            Piece::SomeText(&change.group),
            Piece::SomeNumber(change.tag),
            Piece::SomeBytes(&change.needs),
            Piece::SomeText(&change.account),
            Piece::UnkeptBytes,
            Piece::SomeText(&change.display),
        ],
        out,
    )
}

/// Writes what is asked of a new service. The password is left out.
fn put_new(new: &NewService, out: Buffer<u8>) -> Result<Buffer<u8>, (OutOfMemory, Buffer<u8>)>
    ensures { IsWritten (new_values new.now) out result }
{
    write_pieces(
        &[
            Piece::Handle(new.handle),
            Piece::Text(&new.name),
            Piece::SomeText(&new.display),
            Piece::Number(new.access),
            Piece::Number(new.kind),
            Piece::Number(new.start),
            Piece::Number(new.error),
            Piece::Text(&new.path),
            Piece::SomeText(&new.group),
            Piece::SomeNumber(new.tag),
            Piece::SomeBytes(&new.needs),
            Piece::SomeText(&new.account),
            Piece::UnkeptBytes,
        ],
        out,
    )
}

/// Writes the body of a request after what the buffer holds, if its call is one of this crate's. If
/// memory runs out, the buffer is given back as it was.
pub fn put_request(
    request: &Request,
    out: Buffer<u8>,
) -> Result<Buffer<u8>, (OutOfMemory, Buffer<u8>)>
    ensures { IsWritten (config_values request.now) out result }
{
    match request {
        Request::Change(change) => put_change(change, out),
        Request::Create(new) => put_new(new, out),
        Request::QueryConfig { handle, size } => write_handle(*handle, &[*size], out),
        Request::Change2 { handle, info } => {
            write_pieces(&[Piece::Handle(*handle), Piece::Info(info)], out)
        }
        Request::QueryConfig2 {
            handle,
            level,
            size,
        } => write_handle(*handle, &[*level, *size], out),
        _ => write_pieces(&[], out),
    }
}
