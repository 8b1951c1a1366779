ghost use Rattle.std.specs.Prelude.{◌≡◌, IsTrue};
ghost use Rattle.scm_shapes.specs.HandleBodies.{handle_body_values, is_handle_body};
ghost use Rattle.scm_shapes.specs.Written.{IsWritten};
ghost use Rattle.scm_calls_sec.specs.Requests.{security_from, security_shape, security_values};

use crate::calls::Call;
use scm_model::Request;
use scm_model::codes::MAX_SECURITY_SIZE;
use scm_shapes::{HandleBody, Item, Piece, Values, write_handle, write_pieces};
use scm_text::{Buffer, OutOfMemory};
use std::alloc::Global;

/// The kinds of items in the body of a request.
pub fn request_shape(call: Call) -> &'static [Item]
    ensures { result.now ≡ security_shape call }
{
    match call {
        Call::QuerySecurity => &[
            Item::Handle,
            Item::Number,
            Item::NumberTo(MAX_SECURITY_SIZE),
        ],
        Call::SetSecurity => &[
            Item::Handle,
            Item::Number,
            Item::SizedArray(MAX_SECURITY_SIZE),
        ],
    }
}

/// What is asked by a body that is a handle and at most two numbers.
#[inline(always)]
pub fn request_of_handle_body(call: Call, body: HandleBody) -> Request
    requires { IsTrue (is_handle_body (security_shape call)) }
    ensures { result ≡ security_from call (handle_body_values body) }
{
    let HandleBody {
        handle,
        first,
        second,
    } = body;
    match call {
        Call::QuerySecurity => Request::QuerySecurity {
            handle,
            parts: first,
            size: second,
        },
        Call::SetSecurity => unreachable!(),
    }
}

/// What is asked by the values of a body.
pub fn request_of(alloc: Global, call: Call, values: &mut Values) -> Request
    ensures { result ≡ security_from call values.old }
{
    match call {
        Call::QuerySecurity => request_of_handle_body(call, values.handle_body()),
        Call::SetSecurity => Request::SetSecurity {
            handle: values.handle(),
            parts: values.number(),
            bytes: values.sized_array(alloc),
        },
    }
}

/// Writes the body of a request after what the buffer holds, if its call is one of this crate's. If
/// memory runs out, the buffer is given back as it was.
pub fn put_request(
    request: &Request,
    out: Buffer<u8>,
) -> Result<Buffer<u8>, (OutOfMemory, Buffer<u8>)>
    ensures { IsWritten (security_values request.now) out result }
{
    match request {
        Request::QuerySecurity {
            handle,
            parts,
            size,
        } => write_handle(*handle, &[*parts, *size], out),
        Request::SetSecurity {
            handle,
            parts,
            bytes,
        } => {
            let (handle, parts) = (Piece::Handle(*handle), Piece::Number(*parts));
            write_pieces(&[handle, parts, Piece::SizedArray(bytes)], out)
        }
        _ => write_pieces(&[], out),
    }
}
