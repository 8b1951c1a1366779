ghost use Rattle.std.specs.Prelude.{◌≡◌, IsTrue};
ghost use Rattle.scm_shapes.specs.HandleBodies.{handle_body_values, is_handle_body};
ghost use Rattle.scm_shapes.specs.Written.{IsWritten};
ghost use Rattle.scm_calls_enum.specs.Requests.{enum_from, enum_shape, enum_values};

use crate::calls::Call;
use scm_model::Request;
use scm_model::codes::{MAX_CONFIG_SIZE, MAX_ENUM_SIZE};
use scm_shapes::{HandleBody, Item, Piece, Values, write_handle, write_pieces};
use scm_text::{Buffer, OutOfMemory};

/// The kinds of items in the body of a request.
pub fn request_shape(call: Call) -> &'static [Item]
    ensures { result.now ≡ enum_shape call }
{
    match call {
        Call::EnumDependents => &[Item::Handle, Item::Number, Item::NumberTo(MAX_ENUM_SIZE)],
        Call::EnumServices => &[
            Item::Handle,
            Item::Number,
            Item::Number,
            Item::NumberTo(MAX_ENUM_SIZE),
            Item::SomeNumber,
        ],
        Call::QueryStatusEx => &[Item::Handle, Item::Number, Item::NumberTo(MAX_CONFIG_SIZE)],
        Call::Notify => &[Item::Handle, Item::Number],
        Call::GetNotify | Call::CloseNotify => &[Item::Handle],
    }
}

/// What is asked by a body that is a handle and at most two numbers.
#[inline(always)]
pub fn request_of_handle_body(call: Call, body: HandleBody) -> Request
    requires { IsTrue (is_handle_body (enum_shape call)) }
    ensures { result ≡ enum_from call (handle_body_values body) }
{
    let HandleBody {
        handle,
        first,
        second,
    } = body;
    match call {
        Call::EnumDependents => Request::EnumDependents {
            handle,
            states: first,
            size: second,
        },
        Call::QueryStatusEx => Request::QueryStatusEx {
            handle,
            level: first,
            size: second,
        },
        Call::Notify => Request::Notify {
            handle,
            mask: first,
        },
        Call::GetNotify => Request::GetNotify { handle },
        Call::CloseNotify => Request::CloseNotify { handle },
        Call::EnumServices => unreachable!(),
    }
}

/// What is asked by the values of a body.
pub fn request_of(call: Call, values: &mut Values) -> Request
    ensures { result ≡ enum_from call values.old }
{
    match call {
        Call::EnumServices => Request::EnumServices {
            handle: values.handle(),
            kinds: values.number(),
            states: values.number(),
            size: values.number(),
            resume: values.some_number(),
        },
        Call::EnumDependents
        | Call::QueryStatusEx
        | Call::Notify
        | Call::GetNotify
        | Call::CloseNotify => request_of_handle_body(call, values.handle_body()),
    }
}

/// Writes the body of a request after what the buffer holds, if its call is one of this crate's. If
/// memory runs out, the buffer is given back as it was.
pub fn put_request(
    request: &Request,
    out: Buffer<u8>,
) -> Result<Buffer<u8>, (OutOfMemory, Buffer<u8>)>
    ensures { IsWritten (enum_values request.now) out result }
{
    match request {
        Request::EnumDependents {
            handle,
            states: number,
            size,
        }
        | Request::QueryStatusEx {
            handle,
            level: number,
            size,
        } => write_handle(*handle, &[*number, *size], out),
        Request::EnumServices {
            handle,
            kinds,
            states,
            size,
            resume,
        } => {
            let (handle, kinds) = (Piece::Handle(*handle), Piece::Number(*kinds));
            let (states, size) = (Piece::Number(*states), Piece::Number(*size));
            write_pieces(
                &[handle, kinds, states, size, Piece::SomeNumber(*resume)],
                out,
            )
        }
        Request::Notify { handle, mask } => write_handle(*handle, &[*mask], out),
        Request::GetNotify { handle } | Request::CloseNotify { handle } => {
            write_handle(*handle, &[], out)
        }
        _ => write_pieces(&[], out),
    }
}
