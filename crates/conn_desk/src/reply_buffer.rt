ghost use Rattle.std.specs.Prelude.{◌≡◌, ◌≤◌, ◌<◌, ◌+◌, [], IfErr, IfOk, IsOk, length};
ghost use Rattle.rpc_session.specs.Spare.{kept_size};
ghost use Rattle.rpc_session.specs.declared.spare.TheConstants.{KEPT_BYTES};
ghost use Rattle.conn_desk.specs.declared.desk.HandlerError.TheVariants as lacks;

use super::desk::HandlerError;
use rpc_session::KEPT_BYTES;
use scm_text::Buffer;
use std::alloc::Global;
use std::marker::Model;
use std::mem::replace;

/// The memory of a reply, which serves one after another. Contracts see how many bytes it holds.
#[derive(Drop)]
pub struct ReplyBuffer {
    kept: Option<Buffer<u8>>,
}

impl Model for ReplyBuffer {
    ghost use Rattle.std.specs.Prelude.{◌≤◌, ℕ};
    ghost use Rattle.rpc_session.specs.declared.spare.TheConstants.{KEPT_BYTES};
    ghost use Rattle.conn_desk.specs.Buffers.{size_of};

    ghost Value = { ℕ };

    ghost view = { λ b. size_of b.kept };

    ghost invariant = { λ b. size_of b.kept ≤ KEPT_BYTES };
}

/// An empty buffer with room for so many bytes, in memory of its own.
fn room_for(alloc: Global, bytes: usize) -> Result<Buffer<u8>, HandlerError>
    ensures ok { IfOk result (λ out. (out.items ≡ []) × (out.room ≡ bytes)) }
    ensures err { IfErr result (λ why. why ≡ lacks.OutOfMemory) }
{
    match Buffer::with_room(alloc, bytes) {
        Ok(out) => Ok(out),
        Err(_) => Err(HandlerError::OutOfMemory),
    }
}

impl ReplyBuffer {
    /// No memory.
    pub fn new() -> Self
        ensures { result ≡ 0 }
    {
        ReplyBuffer { kept: None }
    }

    /// An empty buffer with room for so many bytes. It is the kept one if that is large enough,
    /// which takes no memory; one that is too small is freed.
    pub fn take(&mut self, alloc: Global, bytes: usize) -> Result<Buffer<u8>, HandlerError>
        ensures ok { IfOk result (λ out. (out.items ≡ []) × (bytes ≤ out.room)) }
        ensures err { IfErr result (λ why. why ≡ lacks.OutOfMemory) }
        ensures enough { 0 < bytes → bytes ≤ self.old → IsOk result }
        ensures left { self.new ≡ 0 }
    {
        let Some(mut kept) = self.kept.take() else {
            return room_for(alloc, bytes);
        };
        kept.clear();
        if bytes <= kept.room() {
            Ok(kept)
        } else {
            drop(kept);
            room_for(alloc, bytes)
        }
    }

    /// Keeps a buffer after its use, in place of what was kept. If it is more than `KEPT_BYTES`, it
    /// is freed.
    pub fn keep(&mut self, used: Buffer<u8>)
        ensures size { self.new ≡ kept_size self.old (used.room + length used.items) }
        ensures bound { self.new ≤ KEPT_BYTES }
    {
        let written = used.as_slice().len();
        if written <= KEPT_BYTES && used.room() <= KEPT_BYTES - written {
            drop(replace(&mut self.kept, Some(used)));
        } else {
            drop(used);
        }
    }
}
