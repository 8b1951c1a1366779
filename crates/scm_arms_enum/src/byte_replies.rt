ghost use Rattle.std.specs.Prelude.{◌≡◌, ◌^◌, ◌-◌, [], length, min, nat_lt, if◌then◌else◌};
ghost use Rattle.scm_model.specs.declared.calls.Reply.TheVariants as reply;
ghost use Rattle.scm_model.specs.declared.codes.TheConstants.{ERROR_INSUFFICIENT_BUFFER};

use scm_model::Reply;
use scm_model::codes::ERROR_INSUFFICIENT_BUFFER;
use scm_text::Items;
use std::alloc::Global;

/// The answer without bytes.
pub fn no_bytes(size: u32, needed: u32, code: u32, alloc: Global) -> Reply
    ensures { result ≡ reply.Bytes size [] needed code }
{
    Reply::Bytes {
        size,
        bytes: Items::new(alloc),
        needed,
        code,
    }
}

/// The bytes if there is room for them, or how many they are.
pub fn bytes_reply(size: u32, bytes: Items<u8>, alloc: Global) -> Reply
    ensures { result ≡ (if nat_lt size (min (2 ^ 32 - 1) (length bytes))
        then reply.Bytes size [] (min (2 ^ 32 - 1) (length bytes)) ERROR_INSUFFICIENT_BUFFER
        else reply.Bytes size bytes 0 0) }
{
    let needed = (bytes.len() as u64).min(0xFFFF_FFFF) as u32;
    if size < needed {
        return no_bytes(size, needed, ERROR_INSUFFICIENT_BUFFER, alloc);
    }
    Reply::Bytes {
        size,
        bytes,
        needed: 0,
        code: 0,
    }
}
