ghost use Rattle.std.specs.Prelude.{◌≡◌, ◌++◌, IfOk, OnOk, replicate, slice_index_or, length};
ghost use Rattle.std.specs.Prelude.{nat_lt, ◌^◌, ◌-◌, ◌<◌, if◌then◌else◌};
ghost use Rattle.journal_disk.specs.Files.{file, written};
ghost use Rattle.journal_disk.specs.Calls.{as_call, history};
ghost use Rattle.journal_disk.specs.Past.{now_after, reached};
ghost use Rattle.journal_disk.specs.Tears.{image_after, image_of, lost, open_after, torn_by};

use crate::calls::{DiskCall, DiskFate, TakenCall, reached};
use crate::files::DiskFiles;
use std::alloc::{AllocError, Global};

/// How a crash tears a write that no sync follows: its first `kept` bytes are new, the next
/// `longer` ones are `byte`, and the rest is as it was.
#[derive(Clone, Copy, PartialEq, Eq)]
pub struct Tear {
    pub kept: u64,
    pub byte: u8,
    pub longer: u64,
}

/// A write of which nothing reached the disk.
const LOST: Tear = Tear {
    kept: 0,
    byte: 0,
    longer: 0,
};

/// Puts a byte so often after some.
fn fill(made: &mut Vec<u8>, byte: u8, count: u64) -> Result<(), AllocError>
    ensures { OnOk result (made.new.items ≡ made.old.items ++ replicate count byte) }
{
    for i in 0..count {
        made.push(byte)?;
    }
    Ok(())
}

/// Puts a front, and then a byte so often, after some bytes.
fn join(made: &mut Vec<u8>, front: &[u8], byte: u8, count: u64) -> Result<(), AllocError>
    ensures { OnOk result (made.new.items ≡ made.old.items ++ (front.now ++ replicate count byte)) }
{
    made.extend_from_slice(front)?;
    fill(made, byte, count)
}

/// What a tear makes of a write.
fn torn(alloc: Global, from: &[u8], tear: Tear) -> Result<Vec<u8>, AllocError>
    ensures { IfOk result (λ made. made.items ≡ torn_by tear from.now) }
{
    let size = from.len() as u64;
    let kept = tear.kept.min(size);
    let longer = tear.longer.min(size - kept);
    let mut made = Vec::new(alloc);
    match join(&mut made, &from[..kept as usize], tear.byte, longer) {
        Ok(()) => Ok(made),
        Err(fault) => {
            drop(made);
            Err(fault)
        }
    }
}

/// Writes into a file what a tear makes of a write, if the file reaches up to it.
fn tear_in(
    alloc: Global,
    image: &mut DiskFiles,
    which: u8,
    place: u64,
    from: &[u8],
    tear: Tear,
) -> Result<(), AllocError>
    ensures { OnOk result (image.new
        ≡ (if nat_lt (length (file image.old which)) place then image.old
        else written which place (torn_by tear from.now) image.old)) }
{
    if (image.bytes(which).len() as u64) < place {
        return Ok(());
    }
    let piece = torn(alloc, from, tear)?;
    let done = image.write(which, place, &piece);
    drop(piece);
    done
}

/// How many writes are open after one call more.
fn open_after(taken: &TakenCall, writes: usize) -> usize
    requires { writes < 2 ^ 64 - 1 }
    ensures { result ≡ open_after (as_call taken.now) writes }
{
    match (&taken.call, taken.fate) {
        (DiskCall::Write { .. }, _) => writes + 1,
        (DiskCall::Sync, DiskFate::Succeeds) => 0,
        (DiskCall::Open { has_path: false }, DiskFate::Succeeds) => 0,
        _ => writes,
    }
}

/// One call more, for an image that a crash leaves and for what a read gives.
fn go_on(
    alloc: Global,
    image: &mut DiskFiles,
    held: &mut DiskFiles,
    taken: &TakenCall,
    tear: Tear,
) -> Result<(), AllocError>
    ensures held { OnOk result (held.new ≡ now_after (as_call taken.now) held.old) }
    ensures image { OnOk result (image.new
        ≡ image_after tear (as_call taken.now) held.old image.old) }
{
    match (&taken.call, taken.fate) {
        (DiskCall::Write { file, place, bytes }, fate) => {
            held.write(*file, *place, reached(fate, bytes))?;
            tear_in(alloc, image, *file, *place, bytes, tear)
        }
        (DiskCall::Sync, DiskFate::Succeeds) => image.copy_from(held),
        (DiskCall::Open { has_path: false }, DiskFate::Succeeds) => {
            image.clear();
            held.clear();
            Ok(())
        }
        _ => Ok(()),
    }
}

/// The tear of an open write.
fn tear_of(tears: &[Tear], place: usize) -> Tear
    ensures { result ≡ slice_index_or tears.now place lost }
{
    tears.get(place).copied().unwrap_or(LOST)
}

/// Some calls, one after another, with a tear for each open write in their order.
fn go_through(
    alloc: Global,
    image: &mut DiskFiles,
    held: &mut DiskFiles,
    calls: &[TakenCall],
    tears: &[Tear],
) -> Result<(), AllocError>
    requires { image.old ≡ held.old }
    ensures { OnOk result (image.new ≡ image_of tears.now held.old (history calls.now)) }
{
    let mut writes = 0;
    for taken in calls {
        let tear = tear_of(tears, writes);
        go_on(alloc, image, held, taken, tear)?;
        writes = open_after(taken, writes);
    }
    Ok(())
}

/// Makes an image that a crash may leave after some calls.
pub fn replay(
    alloc: Global,
    image: &mut DiskFiles,
    held: &mut DiskFiles,
    first: &DiskFiles,
    calls: &[TakenCall],
    tears: &[Tear],
) -> Result<(), AllocError>
    ensures image { OnOk result (image.new ≡ image_of tears.now first.now (history calls.now)) }
    ensures held { OnOk result (held.new ≡ image.new) }
{
    image.copy_from(first)?;
    held.copy_from(first)?;
    go_through(alloc, image, held, calls, tears)?;
    held.copy_from(image)
}
