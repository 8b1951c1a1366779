ghost use Rattle.std.specs.Prelude.{◌≡◌, ◌≤◌, ◌++◌, ◌∷◌, []};
ghost use Rattle.scm_shapes.specs.declared.item.Value.TheVariants as value;
ghost use Rattle.scm_shapes.specs.Written.{IsWritten};
ghost use Rattle.scm_calls.specs.Requests.{status_values};
ghost use Rattle.scm_shapes.specs.Shapes.{after, value_of};
ghost use Rattle.scm_calls.specs.declared.kinds.ReplyKind.TheVariants as kind;
ghost use Rattle.scm_calls.specs.Replies.{reply_shape, reply_from, reply_values, process_from};
ghost use Rattle.scm_calls.specs.Replies.{filled_values, process_values, asked_size, longest_shown};
ghost use Rattle.scm_calls.specs.Replies.{filled_width, longest};

use crate::calls::status_of;
use crate::kinds::ReplyKind;
use scm_model::{ProcessStatus, Reply, Request, Status};
use scm_shapes::{Item, Piece, Values, write_handle, write_numbers, write_pieces};
use scm_text::{Buffer, OutOfMemory, WText};
use std::alloc::Global;

/// The kinds of items in the body of a reply.
pub fn reply_shape(kind: ReplyKind) -> &'static [Item]
    ensures { result.now ≡ reply_shape kind }
{
    match kind {
        ReplyKind::Code => &[Item::Number],
        ReplyKind::Handle => &[Item::Handle, Item::Number],
        ReplyKind::State => &[
            Item::Number,
            Item::Number,
            Item::Number,
            Item::Number,
            Item::Number,
            Item::Number,
            Item::Number,
            Item::Number,
        ],
        ReplyKind::Made => &[Item::SomeNumber, Item::Handle, Item::Number],
        ReplyKind::Tag => &[Item::SomeNumber, Item::Number],
        ReplyKind::Shown => &[Item::Shown, Item::Number, Item::Number],
        ReplyKind::LockState => &[Item::Lock, Item::Number, Item::Number],
        ReplyKind::Name => &[Item::Text, Item::Number, Item::Number],
        ReplyKind::Listing => &[Item::Bytes, Item::Number, Item::Number, Item::Number],
        ReplyKind::Page => &[
            Item::Bytes,
            Item::Number,
            Item::Number,
            Item::SomeNumber,
            Item::Number,
        ],
        ReplyKind::Bytes => &[Item::Bytes, Item::Number, Item::Number],
        ReplyKind::Notice => &[
            Item::Number,
            Item::Number,
            Item::Number,
            Item::Number,
            Item::Number,
            Item::Number,
            Item::Number,
            Item::Number,
            Item::Number,
            Item::Number,
            Item::SomeText,
            Item::Number,
        ],
    }
}

/// A status of seven numbers, and its process and flags.
fn process_of(values: &mut Values) -> ProcessStatus
    ensures value { result ≡ process_from values.old }
    ensures rest { values.new ≡ after 9 values.old }
{
    ProcessStatus {
        status: status_of(values),
        pid: values.number(),
        flags: values.number(),
    }
}

fn listing(alloc: Global, values: &mut Values) -> Reply
    ensures { result ≡ reply_from kind.Listing values.old }
{
    let (size, bytes) = values.bytes(alloc);
    Reply::Listing {
        size,
        bytes,
        needed: values.number(),
        returned: values.number(),
        code: values.number(),
    }
}

fn page(alloc: Global, values: &mut Values) -> Reply
    ensures { result ≡ reply_from kind.Page values.old }
{
    let (size, bytes) = values.bytes(alloc);
    Reply::Page {
        size,
        bytes,
        needed: values.number(),
        returned: values.number(),
        resume: values.some_number(),
        code: values.number(),
    }
}

fn bytes_told(alloc: Global, values: &mut Values) -> Reply
    ensures { result ≡ reply_from kind.Bytes values.old }
{
    let (size, bytes) = values.bytes(alloc);
    Reply::Bytes {
        size,
        bytes,
        needed: values.number(),
        code: values.number(),
    }
}

fn notice(values: &mut Values) -> Reply
    ensures { result ≡ reply_from kind.Notice values.old }
{
    Reply::Notice {
        mask: values.number(),
        status: process_of(values),
        name: values.some_text(),
        code: values.number(),
    }
}

/// The reply that the values of a body make up.
pub fn reply_of(alloc: Global, kind: ReplyKind, values: &mut Values) -> Reply
    ensures { result ≡ reply_from kind values.old }
{
    match kind {
        ReplyKind::Code => Reply::Code(values.number()),
        ReplyKind::Handle => Reply::Handle {
            handle: values.handle(),
            code: values.number(),
        },
        ReplyKind::State => Reply::State {
            status: status_of(values),
            code: values.number(),
        },
        ReplyKind::Made => Reply::Made {
            tag: values.some_number(),
            handle: values.handle(),
            code: values.number(),
        },
        ReplyKind::Tag => Reply::Tag {
            tag: values.some_number(),
            code: values.number(),
        },
        ReplyKind::Shown => Reply::Shown {
            config: values.shown(),
            needed: values.number(),
            code: values.number(),
        },
        ReplyKind::LockState => {
            let (held, owner, seconds) = values.lock();
            Reply::LockState {
                held,
                owner,
                seconds,
                needed: values.number(),
                code: values.number(),
            }
        }
        ReplyKind::Name => Reply::Name {
            name: values.text(alloc),
            size: values.number(),
            code: values.number(),
        },
        ReplyKind::Listing => listing(alloc, values),
        ReplyKind::Page => page(alloc, values),
        ReplyKind::Bytes => bytes_told(alloc, values),
        ReplyKind::Notice => notice(values),
    }
}

/// Writes the numbers of a status and a code.
fn put_state(
    status: &Status,
    code: u32,
    out: Buffer<u8>,
) -> Result<Buffer<u8>, (OutOfMemory, Buffer<u8>)>
    ensures { IsWritten (status_values status.now ++ value.Number code ∷ []) out result }
{
    write_numbers(
        &[
            status.kind,
            status.state,
            status.accepted,
            status.win32,
            status.specific,
            status.checkpoint,
            status.hint,
            code,
        ],
        out,
    )
}

/// Writes a piece and two numbers.
fn put_three(
    piece: Piece,
    number: u32,
    code: u32,
    out: Buffer<u8>,
) -> Result<Buffer<u8>, (OutOfMemory, Buffer<u8>)>
    ensures { IsWritten (value_of piece.entry ∷ value.Number number ∷ value.Number code ∷ []) out
        result }
{
    write_pieces(&[piece, Piece::Number(number), Piece::Number(code)], out)
}

/// Writes an event: its bit, the numbers of a status with its process, a name and a code.
fn put_notice(
    mask: u32,
    status: &ProcessStatus,
    name: &Option<WText>,
    code: u32,
    out: Buffer<u8>,
) -> Result<Buffer<u8>, (OutOfMemory, Buffer<u8>)>
    ensures { IsWritten (value.Number mask ∷ process_values status.now
        ++ value.SomeText name.now ∷ value.Number code ∷ []) out result }
{
    write_pieces(
        &[
            Piece::Number(mask),
            Piece::Number(status.status.kind),
            Piece::Number(status.status.state),
            Piece::Number(status.status.accepted),
            Piece::Number(status.status.win32),
            Piece::Number(status.status.specific),
            Piece::Number(status.status.checkpoint),
            Piece::Number(status.status.hint),
            Piece::Number(status.pid),
            Piece::Number(status.flags),
            Piece::SomeText(name),
            Piece::Number(code),
        ],
        out,
    )
}

/// Writes a reply with bytes, or a notice.
fn put_filled(reply: &Reply, out: Buffer<u8>) -> Result<Buffer<u8>, (OutOfMemory, Buffer<u8>)>
    ensures { IsWritten (filled_values reply.now) out result }
{
    match reply {
        Reply::Listing {
            size,
            bytes,
            needed,
            returned,
            code,
        } => {
            let (bytes, needed) = (Piece::Bytes(*size, bytes), Piece::Number(*needed));
            let (returned, code) = (Piece::Number(*returned), Piece::Number(*code));
            write_pieces(&[bytes, needed, returned, code], out)
        }
        Reply::Page {
            size,
            bytes,
            needed,
            returned,
            resume,
            code,
        } => {
            let (bytes, needed) = (Piece::Bytes(*size, bytes), Piece::Number(*needed));
            let (returned, resume) = (Piece::Number(*returned), Piece::SomeNumber(*resume));
            write_pieces(
                &[bytes, needed, returned, resume, Piece::Number(*code)],
                out,
            )
        }
        Reply::Bytes {
            size,
            bytes,
            needed,
            code,
        } => put_three(Piece::Bytes(*size, bytes), *needed, *code, out),
        Reply::Notice {
            mask,
            status,
            name,
            code,
        } => put_notice(*mask, status, name, *code, out),
        _ => write_pieces(&[], out),
    }
}

/// Writes the body of a reply after what the buffer holds. If memory runs out, the buffer is given
/// back as it was.
pub fn put_reply(reply: &Reply, out: Buffer<u8>) -> Result<Buffer<u8>, (OutOfMemory, Buffer<u8>)>
    ensures { IsWritten (reply_values reply.now) out result }
{
    match reply {
        Reply::Code(code) => write_numbers(&[*code], out),
        Reply::Handle { handle, code } => write_handle(*handle, &[*code], out),
        Reply::State { status, code } => put_state(status, *code, out),
        Reply::Made { tag, handle, code } => {
            let (tag, handle) = (Piece::SomeNumber(*tag), Piece::Handle(*handle));
            write_pieces(&[tag, handle, Piece::Number(*code)], out)
        }
        Reply::Tag { tag, code } => {
            write_pieces(&[Piece::SomeNumber(*tag), Piece::Number(*code)], out)
        }
        Reply::Shown {
            config,
            needed,
            code,
        } => put_three(Piece::Shown(config), *needed, *code, out),
        Reply::LockState {
            held,
            owner,
            seconds,
            needed,
            code,
        } => put_three(Piece::Lock(*held, owner, *seconds), *needed, *code, out),
        Reply::Name { name, size, code } => put_three(Piece::Text(name), *size, *code, out),
        Reply::Listing { .. } => put_filled(reply, out),
        Reply::Page { .. } => put_filled(reply, out),
        Reply::Bytes { .. } => put_filled(reply, out),
        Reply::Notice { .. } => put_filled(reply, out),
    }
}

/// The size in which a request asks for its reply, where that decides how long the reply can be, or
/// 0.
pub fn asked_size(request: &Request) -> u32
    ensures { result ≡ asked_size request.now }
{
    match request {
        Request::QueryConfig { size, .. }
        | Request::QueryConfig2 { size, .. }
        | Request::QuerySecurity { size, .. }
        | Request::EnumDependents { size, .. }
        | Request::EnumServices { size, .. }
        | Request::QueryStatusEx { size, .. } => *size,
        _ => 0,
    }
}

/// The greatest length of a reply with a configuration that takes at most this many bytes.
fn longest_shown(size: u32) -> u32
    requires { size ≤ 262144 }
    ensures { result ≡ longest_shown size }
{
    let units = size.saturating_sub(36) / 2;
    if units < 5 {
        44
    } else {
        114 + 2 * ((units - 1) / 2 * 2 + 1)
    }
}

/// How many bytes a size takes, with as many bytes and their padding.
fn filled_width(size: u32) -> u32
    requires { size ≤ 262144 }
    ensures { result ≡ filled_width size }
{
    (size + 7) / 4 * 4
}

/// The greatest length of the body of a reply of a kind that fits in a size.
pub fn longest(kind: ReplyKind, size: u32) -> u32
    // No size in a request is greater.
    requires { size ≤ 262144 }
    ensures { result ≡ longest kind size }
{
    match kind {
        ReplyKind::Code => 4,
        ReplyKind::Handle => 24,
        ReplyKind::State | ReplyKind::Made => 32,
        ReplyKind::Tag => 12,
        ReplyKind::Shown => longest_shown(size),
        ReplyKind::LockState => 548,
        ReplyKind::Name => 536,
        ReplyKind::Listing => filled_width(size) + 12,
        ReplyKind::Page => filled_width(size) + 20,
        ReplyKind::Bytes => filled_width(size) + 8,
        ReplyKind::Notice => 576,
    }
}
