ghost use Rattle.std.specs.Prelude.{◌≡◌, ◌≢◌, IfOk, option_copied, option_map};
ghost use Rattle.scm_model.specs.Refused.{outcome};
ghost use Rattle.scm_model.specs.declared.calls.Request.TheVariants as request;
ghost use Rattle.scm_rules.specs.Delete.{delete_change, delete_done, delete_verdict, is_failed};
ghost use Rattle.scm_rules.specs.Delete.{delete_outcome, removal_of};
ghost use Rattle.scm_model.specs.declared.steps.Kept.TheVariants as appended;
ghost use Rattle.scm_rules.specs.Verdicts.{unless_refused};
ghost use Rattle.scm_arms_service.specs.Judged.{code_once_kept};

use scm_model::codes::{
    DELETE, ERROR_ACCESS_DENIED, ERROR_CANTWRITE, ERROR_INVALID_HANDLE,
    ERROR_SERVICE_MARKED_FOR_DELETE,
};
use scm_model::{Change, Kept, Reply, Service};
use scm_tables::{Tables, is_marked, mask_lacks};
use scm_text::OutOfMemory;
use std::alloc::Global;

/// Whether a change could not be kept.
pub fn is_failed(kept: Kept) -> bool
    ensures { result ≡ is_failed kept }
{
    matches!(kept, Kept::Failed)
}

/// The code of a change that is done once it is kept: where that failed, `ERROR_CANTWRITE` (1013).
pub fn code_once_kept(code: u32, kept: Kept) -> u32
    ensures { result ≡ code_once_kept code kept }
{
    if code == 0 && is_failed(kept) {
        1013
    } else {
        code
    }
}

/// What `RDeleteService` is refused with, or 0: `ERROR_INVALID_HANDLE` (6), `ERROR_ACCESS_DENIED`
/// (5),
/// `ERROR_SERVICE_MARKED_FOR_DELETE` (1072) or `ERROR_CANTWRITE` (1013).
pub fn delete_verdict(tables: &Tables, caller: u64, handle: u64, kept: Kept) -> u32
    ensures { result ≡ delete_verdict tables.now.flat caller handle kept }
{
    let Some(opened) = tables.opened(caller, handle) else {
        return ERROR_INVALID_HANDLE;
    };
    if mask_lacks(opened.granted, DELETE) {
        return ERROR_ACCESS_DENIED;
    }
    if is_marked(tables.service(opened.service)) {
        return ERROR_SERVICE_MARKED_FOR_DELETE;
    }
    if is_failed(kept) {
        return ERROR_CANTWRITE;
    }
    0
}

/// The change of the configurations that the removal of a service is.
fn removal(service: Option<&Service>, alloc: Global) -> Result<Option<Change>, OutOfMemory>
    ensures { IfOk result (λ change. change ≡ option_map removal_of (option_copied service.entry)) }
{
    match service {
        Some(row) => Ok(Some(Change::Removed(row.config.name.copy(alloc)?))),
        None => Ok(None),
    }
}

/// The change of the configurations that a call makes, unless it is refused.
pub fn removed(
    tables: &Tables,
    caller: u64,
    handle: u64,
    alloc: Global,
) -> Result<Option<Change>, OutOfMemory>
    ensures { IfOk result (λ change. change ≡ unless_refused
        (delete_verdict tables.now.flat caller handle appended.Kept)
        (delete_change tables.now.flat caller handle)) }
{
    if delete_verdict(tables, caller, handle, Kept::Kept) != 0 {
        return Ok(None);
    }
    removal(tables.held_service(caller, handle), alloc)
}

/// Marks a service, and notifies its registrations. It leaves once it is STOPPED and no handle
/// names it.
pub fn delete(tables: &mut Tables, caller: u64, handle: u64, kept: Kept) -> Reply
    ensures reply { result ≡ (delete_outcome tables.old.flat caller handle kept).reply }
    ensures flat { tables.new.flat ≡ (delete_outcome tables.old.flat caller handle kept).flat }
    ensures limits { tables.new.limits ≡ tables.old.limits }
    ensures refused { delete_verdict tables.old.flat caller handle kept ≢ 0
        → tables.new ≡ tables.old }
{
    let code = delete_verdict(tables, caller, handle, kept);
    if code != 0 {
        return Reply::Code(code);
    }
    if let Some(opened) = tables.opened(caller, handle) {
        tables.mark(opened.service);
    }
    Reply::Code(0)
}
