// What an entry says of callers, without its step.
ghost use Rattle.std.specs.Prelude.{◌≡◌, ◌++◌, IfOk, IfSome, List, Some, option_map, ℕ};
ghost use Rattle.scm_model.specs.Entries.{Entry};
ghost use Rattle.step_code.specs.Codes.{code_of};
ghost use Rattle.step_code.specs.Fits.{IsEntry};
ghost use Rattle.step_code.specs.Fronts.{HasFields, front_at, front_of, plain_size};
ghost use Rattle.step_code.specs.declared.fronts_read.Front.{Front};

use crate::entries_read::{DecodedEntry, kept_at, read_entry};
use crate::fields_read::{byte_of, n2_of, n8_of};
use crate::requests_passed::{
    after_change, after_change2, after_create, after_enum_services, after_named,
    after_open_manager, after_set_security, after_set_status, after_start,
};
use scm_model::Step;
use scm_model::codes::{
    R_CHANGE_SERVICE_CONFIG_W, R_CHANGE_SERVICE_CONFIG2_W, R_CLOSE_NOTIFY_HANDLE,
    R_CLOSE_SERVICE_HANDLE, R_CONTROL_SERVICE, R_CREATE_SERVICE_W, R_DELETE_SERVICE,
    R_ENUM_DEPENDENT_SERVICES_W, R_ENUM_SERVICES_STATUS_W, R_GET_NOTIFY_RESULTS,
    R_GET_SERVICE_DISPLAY_NAME_W, R_GET_SERVICE_KEY_NAME_W, R_LOCK_SERVICE_DATABASE,
    R_NOTIFY_SERVICE_STATUS_CHANGE, R_OPEN_SC_MANAGER_W, R_OPEN_SERVICE_W,
    R_QUERY_SERVICE_CONFIG_W, R_QUERY_SERVICE_CONFIG2_W, R_QUERY_SERVICE_LOCK_STATUS_W,
    R_QUERY_SERVICE_OBJECT_SECURITY, R_QUERY_SERVICE_STATUS, R_QUERY_SERVICE_STATUS_EX,
    R_SET_SERVICE_OBJECT_SECURITY, R_SET_SERVICE_STATUS, R_START_SERVICE_W,
    R_UNLOCK_SERVICE_DATABASE,
};
use scm_text::OutOfMemory;
use std::alloc::Global;

/// What a step says of callers.
#[derive(Clone, Copy)]
pub enum Front {
    /// One joined.
    Joined,
    /// It is a call or a raise of this one, whether or not there was memory for it.
    Called { caller: u64 },
    Neither,
}

/// The front of an entry that was read.
#[derive(Clone, Copy)]
pub struct DecodedFront<'a> {
    pub front: Front,
    /// The bytes after the entry's code.
    pub rest: &'a [u8],
}

fn front_of(step: &Step) -> Front
    ensures { result ≡ front_of step.now }
{
    match step {
        Step::Joined { .. } => Front::Joined,
        Step::Call { caller, .. } | Step::Raised { caller, .. } | Step::NoMemory { caller } => {
            Front::Called { caller: *caller }
        }
        _ => Front::Neither,
    }
}

/// How many bytes the fields of an opnum's request have, if it is of a handle and at most two
/// numbers.
fn plain_size(opnum: u16) -> Option<usize>
    ensures { result ≡ plain_size opnum }
{
    match opnum {
        R_CLOSE_SERVICE_HANDLE
        | R_DELETE_SERVICE
        | R_LOCK_SERVICE_DATABASE
        | R_QUERY_SERVICE_STATUS
        | R_UNLOCK_SERVICE_DATABASE
        | R_GET_NOTIFY_RESULTS
        | R_CLOSE_NOTIFY_HANDLE => Some(8),
        R_CONTROL_SERVICE
        | R_QUERY_SERVICE_CONFIG_W
        | R_QUERY_SERVICE_LOCK_STATUS_W
        | R_NOTIFY_SERVICE_STATUS_CHANGE => Some(12),
        R_QUERY_SERVICE_OBJECT_SECURITY
        | R_ENUM_DEPENDENT_SERVICES_W
        | R_QUERY_SERVICE_CONFIG2_W
        | R_QUERY_SERVICE_STATUS_EX => Some(16),
        _ => None,
    }
}

/// The bytes after the fields of an opnum's request, if it is of a handle and at most two numbers.
fn after_numbers(opnum: u16, bytes: &[u8]) -> Option<&[u8]>
    ensures { IfSome result (λ rest. HasFields opnum bytes.now rest.now) }
{
    let size = plain_size(opnum)?;
    if bytes.len() < size {
        return None;
    }
    let (_, rest) = bytes.split_at(size);
    Some(rest)
}

/// The bytes after the fields of an opnum's request, which are passed over without memory.
fn after_fields(opnum: u16, bytes: &[u8]) -> Option<&[u8]>
    ensures { IfSome result (λ rest. HasFields opnum bytes.now rest.now) }
{
    match opnum {
        R_SET_SERVICE_OBJECT_SECURITY => after_set_security(bytes),
        R_SET_SERVICE_STATUS => after_set_status(bytes),
        R_CHANGE_SERVICE_CONFIG_W => after_change(bytes),
        R_CREATE_SERVICE_W => after_create(bytes),
        R_ENUM_SERVICES_STATUS_W => after_enum_services(bytes),
        R_OPEN_SC_MANAGER_W => after_open_manager(bytes),
        R_START_SERVICE_W => after_start(bytes),
        R_CHANGE_SERVICE_CONFIG2_W => after_change2(bytes),
        R_OPEN_SERVICE_W | R_GET_SERVICE_DISPLAY_NAME_W | R_GET_SERVICE_KEY_NAME_W => {
            after_named(opnum, bytes)
        }
        _ => after_numbers(opnum, bytes),
    }
}

/// The front of a call, whose fields are passed over without memory.
fn call_front(bytes: &[u8]) -> Option<DecodedFront<'_>>
    ensures { IfSome result (λ read. front_at bytes.now ≡ Some (read.front, read.rest.now)) }
{
    let Ok((_, rest)) = n8_of(bytes) else {
        return None;
    };
    let Ok((1, rest)) = byte_of(rest) else {
        return None;
    };
    let Ok((caller, rest)) = n8_of(rest) else {
        return None;
    };
    let Ok((opnum, rest)) = n2_of(rest) else {
        return None;
    };
    let rest = after_fields(opnum, rest)?;
    let Ok((_, rest)) = kept_at(rest) else {
        return None;
    };
    let front = Front::Called { caller };
    Some(DecodedFront { front, rest })
}

/// The front of any entry, by its step.
fn front_by_step<'a>(
    alloc: Global,
    bytes: &'a [u8],
) -> Result<Option<DecodedFront<'a>>, OutOfMemory>
    ensures { IfOk result (λ read. option_map {U = Front × List ℕ}
        (λ f. (f.front, f.rest.now)) read ≡ front_at bytes.now) }
{
    let Some(DecodedEntry { step, rest, .. }) = read_entry(alloc, bytes)? else {
        return Ok(None);
    };
    let front = front_of(&step);
    drop(step);
    Ok(Some(DecodedFront { front, rest }))
}

/// The front of the entry whose code begins the bytes.
fn decoded_front<'a>(
    alloc: Global,
    bytes: &'a [u8],
) -> Result<Option<DecodedFront<'a>>, OutOfMemory>
    ensures { IfOk result (λ read. option_map {U = Front × List ℕ}
        (λ f. (f.front, f.rest.now)) read ≡ front_at bytes.now) }
{
    match call_front(bytes) {
        Some(front) => Ok(Some(front)),
        None => front_by_step(alloc, bytes),
    }
}

/// Reads of the entry whose code begins the bytes what its step says of callers alone, without
/// making the step. `None` comes exactly if they begin with the code of no entry. It takes no
/// memory for the code of a call.
pub fn read_front<'a>(
    alloc: Global,
    bytes: &'a [u8],
) -> Result<Option<DecodedFront<'a>>, OutOfMemory>
    // The front is that of the entry which `read_entry` answers, and so are the bytes after it.
    ensures exact { IfOk result (λ read. option_map {U = Front × List ℕ}
        (λ f. (f.front, f.rest.now)) read ≡ front_at bytes.now) }
    // What has a code has its front, whatever comes after it.
    ensures read_back { (entry : Entry) (rest : List ℕ) → IsEntry entry
        → bytes.now ≡ code_of entry ++ rest
        → IfOk result (λ read. option_map {U = Front × List ℕ}
        (λ f. (f.front, f.rest.now)) read ≡ Some (front_of entry.1, rest)) }
{
    decoded_front(alloc, bytes)
}
