ghost use Rattle.std.specs.Prelude.{◌≡◌, ◌∷◌, OnErr, OnOk};
ghost use Rattle.journal_disk.specs.Calls.{as_call, history};
ghost use Rattle.journal_disk.specs.Past.{reached};

use std::alloc::AllocError;

/// A call of a disk.
#[derive(Drop)]
pub enum DiskCall {
    Open {
        has_path: bool,
    },
    Size {
        file: u8,
    },
    Read {
        file: u8,
        place: u64,
        size: u64,
    },
    Write {
        file: u8,
        place: u64,
        bytes: Vec<u8>,
    },
    Sync,
}

/// What becomes of a call.
#[derive(Clone, Copy, PartialEq, Eq)]
pub enum DiskFate {
    Succeeds,
    /// It fails. Of a write the first `done` bytes reach the file all the same, or all bytes if it
    /// has fewer; another call does nothing.
    Fails { done: u64 },
}

/// A call that was taken, with what became of it.
#[derive(Drop)]
pub struct TakenCall {
    pub call: DiskCall,
    pub fate: DiskFate,
}

/// Records a call as the newest.
pub fn record_call(calls: &mut Vec<TakenCall>, taken: TakenCall) -> Result<(), AllocError>
    ensures ok { OnOk result (history calls.new.items ≡ as_call taken ∷ history calls.old.items) }
    ensures err { OnErr result (calls.new.items ≡ calls.old.items) }
{
    calls.push(taken)?;
    Ok(())
}

/// The bytes of a write that reach the file.
pub fn reached(fate: DiskFate, bytes: &[u8]) -> &[u8]
    ensures { result.now ≡ reached fate bytes.now }
{
    match fate {
        DiskFate::Succeeds => bytes,
        DiskFate::Fails { done } => {
            let (front, _) = bytes.split_at(bytes.len().min(done as usize));
            front
        }
    }
}
