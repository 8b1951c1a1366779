ghost use Rattle.std.specs.Prelude.{◌≡◌, ◌≢◌, ◌≤◌, ◌<◌, ◌^◌};
ghost use Rattle.scm_model.specs.Refused.{outcome};
ghost use Rattle.scm_model.specs.declared.calls.Request.TheVariants as request;
ghost use Rattle.scm_rules.specs.OpenManager.{manager_granted, open_manager_done};
ghost use Rattle.scm_rules.specs.OpenManager.{open_manager_verdict, open_manager_outcome};

use super::databases::{names_active, names_failed};
use access_mask::granted;
use scm_model::codes::{
    ERROR_ACCESS_DENIED, ERROR_DATABASE_DOES_NOT_EXIST, ERROR_INVALID_NAME, ERROR_NOT_ENOUGH_QUOTA,
};
use scm_model::{HandleKind, Limits, Reply};
use scm_tables::Tables;
use scm_text::WText;

/// The rights that a caller is granted on the manager.
fn manager_granted(tables: &Tables, caller: u64, access: u32) -> Option<u32>
    ensures { result ≡ manager_granted tables.now.flat caller access }
{
    granted(tables.principal_of(caller), true, access)
}

/// What `ROpenSCManagerW` is refused with, or 0: `ERROR_INVALID_NAME` (123),
/// `ERROR_DATABASE_DOES_NOT_EXIST` (1065),
/// `ERROR_ACCESS_DENIED` (5) or `ERROR_NOT_ENOUGH_QUOTA` (1816).
pub fn open_manager_verdict(
    tables: &Tables,
    limits: &Limits,
    caller: u64,
    database: &Option<WText>,
    access: u32,
) -> u32
    ensures { result ≡ open_manager_verdict limits.now tables.now.flat caller database.now access }
{
    if names_failed(database) {
        return ERROR_DATABASE_DOES_NOT_EXIST;
    }
    if !names_active(database) {
        return ERROR_INVALID_NAME;
    }
    if manager_granted(tables, caller, access).is_none() {
        return ERROR_ACCESS_DENIED;
    }
    if limits.handles as usize <= tables.handles_of(caller) {
        return ERROR_NOT_ENOUGH_QUOTA;
    }
    0
}

/// Opens the manager for a caller.
pub fn open_manager(
    tables: &mut Tables,
    limits: &Limits,
    caller: u64,
    database: &Option<WText>,
    access: u32,
) -> Reply
    requires room { 1 ≤ tables.old.spare.handles }
    requires next { tables.old.flat.next.handle < 2 ^ 63 }
    ensures reply { result ≡ (open_manager_outcome limits.now tables.old.flat caller database.now
        access).reply }
    ensures flat { tables.new.flat ≡ (open_manager_outcome limits.now tables.old.flat caller
        database.now access).flat }
    ensures limits { tables.new.limits ≡ tables.old.limits }
    ensures refused { open_manager_verdict limits.now tables.old.flat caller database.now access ≢ 0
        → tables.new ≡ tables.old }
{
    let code = open_manager_verdict(tables, limits, caller, database, access);
    if code != 0 {
        return Reply::Handle { handle: 0, code };
    }
    let rights = manager_granted(tables, caller, access).unwrap_or(0);
    let handle = tables.add_handle(caller, HandleKind::Manager, rights);
    Reply::Handle { handle, code: 0 }
}
