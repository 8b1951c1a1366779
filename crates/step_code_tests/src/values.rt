use scm_model::{Kept, Request, Step};
use scm_text::{Buffer, OutOfMemory};
use std::alloc::Global;
use std::test::*;
use step_code::{code_length, read_entry, write_code};

/// The moment 5, and a call of caller 2.
const CALL: &[u8] = &[5, 0, 0, 0, 0, 0, 0, 0, 1, 2, 0, 0, 0, 0, 0, 0, 0];

/// Writes an entry into room for just its code.
fn written(alloc: Global, moment: u64, step: &Step) -> Result<Buffer<u8>, OutOfMemory> {
    let Some(length) = code_length(step) else {
        return Err(OutOfMemory);
    };
    let mut bytes = Buffer::with_room(alloc, length)?;
    write_code(&mut bytes, moment, step);
    Ok(bytes)
}

/// Whether an entry has this code.
fn is_written(alloc: Global, moment: u64, step: &Step, code: &[u8]) -> bool {
    match written(alloc, moment, step) {
        Ok(bytes) => {
            let same = bytes.as_slice() == code;
            drop(bytes);
            same
        }
        Err(_) => false,
    }
}

/// Whether the entry that is read from a code has it.
fn is_read(alloc: Global, code: &[u8]) -> bool {
    match read_entry(alloc, code) {
        Ok(Some(entry)) => {
            let same = entry.rest.is_empty() && is_written(alloc, entry.moment, &entry.step, code);
            drop(entry);
            same
        }
        _ => false,
    }
}

/// Whether an entry has this code, and is read back from it.
pub fn has_code(alloc: Global, moment: u64, step: Step, code: &[u8]) -> bool {
    let same = is_written(alloc, moment, &step, code);
    drop(step);
    same && is_read(alloc, code)
}

/// Whether a call of caller 2 at the moment 5 has this code after its caller.
pub fn has_call(alloc: Global, request: Request, kept: Kept, code: &[u8]) -> bool {
    let step = Step::Call {
        caller: 2,
        request,
        kept,
    };
    let bytes = written(alloc, 5, &step);
    drop(step);
    match bytes {
        Ok(bytes) => {
            let whole = bytes.as_slice();
            let same = whole.get(..CALL.len()) == Some(CALL)
                && whole.get(CALL.len()..) == Some(code)
                && is_read(alloc, whole);
            drop(bytes);
            same
        }
        Err(_) => false,
    }
}

/// The same for a call whose change wasn't to be kept.
pub fn has_unkept(alloc: Global, request: Request, code: &[u8]) -> bool {
    has_call(alloc, request, Kept::NotAsked, code)
}

/// Whether no code begins the bytes.
pub fn is_no_code(alloc: Global, bytes: &[u8]) -> bool {
    match read_entry(alloc, bytes) {
        Ok(Some(entry)) => {
            drop(entry);
            false
        }
        Ok(None) => true,
        Err(_) => false,
    }
}
