ghost use Rattle.std.specs.Prelude.{◌≡◌, ◌≤◌, IfOk, IsOk, length, vec_capacity};
ghost use Rattle.rpc_session.specs.Spare.{kept_size};
ghost use Rattle.rpc_session.specs.declared.spare.TheConstants.{KEPT_BYTES};

use scm_text::{Items, OutOfMemory};
use std::alloc::Global;
use std::marker::Model;
use std::mem::replace;

/// How many bytes of memory a connection keeps at most for its next request, and at most for its
/// next reply. A longer buffer is freed after its use.
pub const KEPT_BYTES: usize = 65536;

/// The memory of a request's body, which serves one after another. Contracts see how many bytes it
/// holds.
#[derive(Drop)]
pub struct SpareBytes {
    memory: Vec<u8>,
}

impl Model for SpareBytes {
    ghost use Rattle.std.specs.Prelude.{◌≤◌, ℕ, vec_capacity};
    ghost use Rattle.rpc_session.specs.declared.spare.TheConstants.{KEPT_BYTES};

    ghost Value = { ℕ };

    ghost view = { λ s. vec_capacity s.memory };

    ghost invariant = { λ s. vec_capacity s.memory ≤ KEPT_BYTES };
}

impl SpareBytes {
    /// No memory.
    pub fn new(alloc: Global) -> Self
        ensures { result ≡ 0 }
    {
        SpareBytes {
            memory: Vec::new(alloc),
        }
    }

    /// A copy of some bytes. It lies in the kept memory if that is large enough, and takes no other
    /// then; memory that is too small is freed.
    pub fn copy(&mut self, alloc: Global, bytes: &[u8]) -> Result<Items<u8>, OutOfMemory>
        ensures copy { IfOk result (λ copy. copy ≡ bytes.now) }
        ensures enough { length bytes.now ≤ self.old → IsOk result }
        ensures left { self.new ≡ 0 }
    {
        let mut memory = replace(&mut self.memory, Vec::new(alloc));
        if memory.capacity() < bytes.len() {
            drop(memory);
            return Items::from_slice(alloc, bytes);
        }
        memory.clear();
        match memory.extend_from_slice(bytes) {
            Ok(()) => Ok(Items::from_vec(memory)),
            Err(_) => {
                drop(memory);
                Err(OutOfMemory)
            }
        }
    }

    /// Keeps memory after its use, in place of what was kept. If it is more than `KEPT_BYTES`, it
    /// is freed.
    pub fn keep(&mut self, used: Vec<u8>)
        ensures size { self.new ≡ kept_size self.old (vec_capacity used) }
        ensures bound { self.new ≤ KEPT_BYTES }
    {
        if used.capacity() <= KEPT_BYTES {
            drop(replace(&mut self.memory, used));
        } else {
            drop(used);
        }
    }
}
