ghost use Rattle.std.specs.Prelude.{ℕ, ◌≡◌, ◌≤◌, ◌+◌, ◌<◌, ◌^◌, [], drop, length, IfErr, OnOk};
ghost use Rattle.sc_client.specs.Along.{ReadsMore};
ghost use Rattle.sc_client.specs.Runs.{IsCaused};

use super::fault::ClientFault;
use outside::Source;
use scm_text::{Items, OutOfMemory};
use std::alloc::Global;

/// The bytes of the peer that weren't taken yet.
#[derive(Drop)]
pub struct Held {
    pub bytes: Items<u8>,
    /// Where they begin in all that the peer sent.
    pub place: u64,
}

impl Held {
    /// Nothing was read yet.
    pub fn new(alloc: Global) -> Held
        ensures { result ≡ record { bytes = []; place = 0 } }
    {
        Held {
            bytes: Items::new(alloc),
            place: 0,
        }
    }

    /// Drops bytes that were taken.
    pub fn pass(&mut self, alloc: Global, count: usize) -> Result<(), OutOfMemory>
        requires within { count ≤ length self.old.bytes }
        requires small { self.old.place + length self.old.bytes < 2 ^ 63 }
        ensures { OnOk result (self.new
            ≡ record { bytes = drop count self.old.bytes; place = self.old.place + count }) }
    {
        let (_, rest) = self.bytes.as_slice().split_at(count);
        self.bytes = Items::from_slice(alloc, rest)?;
        self.place += count as u64;
        Ok(())
    }

    /// Reads a piece, and appends it to what is held.
    pub fn read_more<S: Source>(&mut self, source: &mut S) -> Result<(), ClientFault>
        ensures read { ReadsMore (S.left source.old) (S.left source.new) self.old self.new result }
        ensures grows { S.faults source.old ≤ S.faults source.new }
        ensures cause { IfErr result (λ fault. (sink : ℕ)
            → IsCaused fault (S.faults source.old) (S.faults source.new) sink sink) }
        ensures kept { OnOk result (S.faults source.new ≡ S.faults source.old) }
    {
        let mut piece = [0u8; 4096];
        let Ok(count) = source.read(&mut piece) else {
            return Err(ClientFault::ReadFault);
        };
        if count == 0 {
            return Err(ClientFault::Truncated);
        }
        let (front, _) = piece.split_at(count);
        self.bytes.append(front)?;
        Ok(())
    }
}
