ghost use Rattle.std.specs.Prelude.{◌≡◌, ◌<◌, ◌^◌, ◌==◌, Some, codes, length, option_and_then};
ghost use Rattle.std.specs.Prelude.{IfOk};
ghost use Rattle.std.specs.Prelude.{if◌then◌else◌};
ghost use Rattle.scm_model.specs.Rows.{caller_of, owner_at, principal_in};
ghost use Rattle.scm_rules.specs.Locks.{is_held, lock_owner, lock_size, principal_name};
ghost use Rattle.scm_rules.specs.Locks.{query_lock_reply, query_lock_verdict, seconds_held};

use scm_model::codes::{ERROR_ACCESS_DENIED, ERROR_INSUFFICIENT_BUFFER, ERROR_INVALID_HANDLE};
use scm_model::{LockRow, Principal, Reply};
use scm_tables::{Tables, mask_lacks};
use scm_text::{OutOfMemory, WText};
use std::alloc::Global;

const SC_MANAGER_QUERY_LOCK_STATUS: u32 = 0x10;

/// `admin`
const ADMIN: [u16; 5] = [97, 100, 109, 105, 110];

/// `user`
const USER: [u16; 4] = [117, 115, 101, 114];

fn text_of(units: &[u16], alloc: Global) -> Result<WText, OutOfMemory>
    ensures { IfOk result (λ text. text ≡ units.now) }
{
    match WText::from_units(alloc, units) {
        Ok(text) => Ok(text),
        Err(_) => Err(OutOfMemory),
    }
}

/// The name of a principal.
fn name_of(principal: Principal, alloc: Global) -> Result<WText, OutOfMemory>
    ensures { IfOk result (λ text. text ≡ principal_name principal) }
{
    match principal {
        Principal::Admin => text_of(&ADMIN, alloc),
        Principal::User => text_of(&USER, alloc),
    }
}

/// Who the caller is whose handle holds the lock. Nobody has a user's rights.
fn holder(tables: &Tables, held: LockRow) -> Principal
    ensures { result ≡ principal_in (option_and_then (caller_of tables.now.flat)
        (owner_at tables.now.flat.handles held)) }
{
    match tables.owner_at(held) {
        Some(caller) => tables.principal_of(caller),
        None => Principal::User,
    }
}

/// Who holds the lock of the database: the name of the principal, or the empty text.
pub fn lock_owner(tables: &Tables, alloc: Global) -> Result<WText, OutOfMemory>
    ensures { IfOk result (λ owner. owner ≡ lock_owner tables.now.flat) }
{
    match tables.lock() {
        Some(held) => name_of(holder(tables, held), alloc),
        None => Ok(WText::new(alloc)),
    }
}

/// How many bytes the owner takes with the numbers before it. No owner is longer than the
/// precondition says.
fn lock_size(owner: &WText) -> u32
    requires { length owner.now < 2 ^ 16 }
    ensures { result ≡ lock_size owner.now }
{
    12 + 2 * (owner.units().len() as u32 + 1)
}

fn is_held(lock: Option<LockRow>) -> u32
    ensures { result ≡ is_held lock }
{
    match lock {
        Some(_) => 1,
        None => 0,
    }
}

/// For how many whole seconds the lock is held, as far as numbers go.
fn seconds_at(moment: u64, lock: Option<LockRow>) -> u32
    ensures { result ≡ seconds_held moment lock }
{
    match lock {
        Some(held) => (moment.saturating_sub(held.since) / 1000).min(0xFFFF_FFFF) as u32,
        None => 0,
    }
}

/// What `RQueryServiceLockStatusW` is refused with, or 0: `ERROR_INVALID_HANDLE` (6),
/// `ERROR_ACCESS_DENIED` (5) or
/// `ERROR_INSUFFICIENT_BUFFER` (122), where so many bytes are needed.
fn query_lock_verdict(tables: &Tables, caller: u64, handle: u64, size: u32, needed: u32) -> u32
    requires { needed ≡ lock_size (lock_owner tables.now.flat) }
    ensures { result ≡ query_lock_verdict tables.now.flat caller handle size }
{
    let Some(granted) = tables.manager_mask(caller, handle) else {
        return ERROR_INVALID_HANDLE;
    };
    if mask_lacks(granted, SC_MANAGER_QUERY_LOCK_STATUS) {
        return ERROR_ACCESS_DENIED;
    }
    if size < needed {
        return ERROR_INSUFFICIENT_BUFFER;
    }
    0
}

/// What a query of the lock is answered, with the owner that was found for it. It takes no memory.
#[tactic(auto, using(crate::proofs::Owners::short_owner))]
pub fn query_lock(tables: &Tables, caller: u64, handle: u64, size: u32, owner: WText) -> Reply
    requires { owner ≡ lock_owner tables.now.flat }
    ensures { result ≡ query_lock_reply tables.now.flat caller handle size }
{
    let needed = lock_size(&owner);
    let code = query_lock_verdict(tables, caller, handle, size, needed);
    if code == 0 {
        return Reply::LockState {
            held: is_held(tables.lock()),
            owner: Some(owner),
            seconds: seconds_at(tables.moment(), tables.lock()),
            needed,
            code: 0,
        };
    }
    Reply::LockState {
        held: 0,
        owner: None,
        seconds: 0,
        needed: if code == ERROR_INSUFFICIENT_BUFFER {
            needed
        } else {
            0
        },
        code,
    }
}
