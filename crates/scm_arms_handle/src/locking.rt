ghost use Rattle.std.specs.Prelude.{◌≡◌, ◌≢◌, ◌≤◌, ◌<◌, ◌^◌};
ghost use Rattle.scm_model.specs.Refused.{outcome};
ghost use Rattle.scm_model.specs.declared.calls.Request.TheVariants as request;
ghost use Rattle.scm_rules.specs.Locks.{
  lock_done,
  lock_verdict,
  locks,
  unlock_done,
  unlock_verdict,
};
ghost use Rattle.scm_rules.specs.Locks.{lock_outcome, unlock_outcome};

use scm_model::codes::{
    ERROR_ACCESS_DENIED, ERROR_INVALID_HANDLE, ERROR_NOT_ENOUGH_QUOTA,
    ERROR_SERVICE_DATABASE_LOCKED, SC_MANAGER_LOCK,
};
use scm_model::{HandleKind, HandleRow, Limits, Reply};
use scm_tables::{Tables, mask_lacks};

/// What `RLockServiceDatabase` is refused with, or 0: `ERROR_INVALID_HANDLE` (6),
/// `ERROR_ACCESS_DENIED` (5),
/// `ERROR_SERVICE_DATABASE_LOCKED` (1055) or `ERROR_NOT_ENOUGH_QUOTA` (1816).
pub fn lock_verdict(tables: &Tables, limits: &Limits, caller: u64, handle: u64) -> u32
    ensures { result ≡ lock_verdict limits.now tables.now.flat caller handle }
{
    let Some(granted) = tables.manager_mask(caller, handle) else {
        return ERROR_INVALID_HANDLE;
    };
    if mask_lacks(granted, SC_MANAGER_LOCK) {
        return ERROR_ACCESS_DENIED;
    }
    if tables.lock().is_some() {
        return ERROR_SERVICE_DATABASE_LOCKED;
    }
    if limits.handles as usize <= tables.handles_of(caller) {
        return ERROR_NOT_ENOUGH_QUOTA;
    }
    0
}

/// Takes the lock of the database, with a handle of its own.
pub fn lock(tables: &mut Tables, limits: &Limits, caller: u64, handle: u64) -> Reply
    requires room { 1 ≤ tables.old.spare.handles }
    requires next { tables.old.flat.next.handle < 2 ^ 63 }
    ensures reply { result ≡ (lock_outcome limits.now tables.old.flat caller handle).reply }
    ensures flat { tables.new.flat ≡ (lock_outcome limits.now tables.old.flat caller handle).flat }
    ensures limits { tables.new.limits ≡ tables.old.limits }
    ensures refused { lock_verdict limits.now tables.old.flat caller handle ≢ 0
        → tables.new ≡ tables.old }
{
    let code = lock_verdict(tables, limits, caller, handle);
    if code != 0 {
        return Reply::Handle { handle: 0, code };
    }
    let handle = tables.add_handle(caller, HandleKind::Lock, 0);
    tables.take_lock(handle);
    Reply::Handle { handle, code: 0 }
}

/// Whether a handle is the lock's.
fn locks(row: Option<HandleRow>) -> bool
    ensures { result ≡ locks row }
{
    match row {
        Some(row) => row.kind == HandleKind::Lock,
        None => false,
    }
}

/// What `RUnlockServiceDatabase` is refused with, or 0: `ERROR_INVALID_SERVICE_LOCK` (1071).
pub fn unlock_verdict(tables: &Tables, caller: u64, handle: u64) -> u32
    ensures { result ≡ unlock_verdict tables.now.flat caller handle }
{
    if locks(tables.handle(caller, handle)) {
        0
    } else {
        1071
    }
}

/// Gives the lock of the database back. Its handle leaves.
pub fn unlock(tables: &mut Tables, caller: u64, handle: u64) -> Reply
    ensures reply { result ≡ (unlock_outcome tables.old.flat caller handle).reply }
    ensures flat { tables.new.flat ≡ (unlock_outcome tables.old.flat caller handle).flat }
    ensures limits { tables.new.limits ≡ tables.old.limits }
    ensures refused { unlock_verdict tables.old.flat caller handle ≢ 0 → tables.new ≡ tables.old }
{
    let code = unlock_verdict(tables, caller, handle);
    if code != 0 {
        return Reply::Handle { handle, code };
    }
    tables.free_lock(handle);
    tables.remove_handle(handle);
    Reply::Handle { handle: 0, code: 0 }
}
