ghost use Rattle.std.specs.Prelude.{◌≡◌, ◌≢◌};
ghost use Rattle.scm_model.specs.Refused.{outcome};
ghost use Rattle.scm_model.specs.Rows.{is_closable};
ghost use Rattle.scm_model.specs.declared.calls.Request.TheVariants as request;
ghost use Rattle.scm_rules.specs.Close.{close_done, close_verdict, close_outcome};

use scm_model::codes::ERROR_INVALID_HANDLE;
use scm_model::{HandleKind, Reply};
use scm_tables::Tables;

/// Whether a handle of this kind can be closed by `RCloseServiceHandle`.
fn is_closable(kind: HandleKind) -> bool
    ensures { result ≡ is_closable kind }
{
    match kind {
        HandleKind::Manager | HandleKind::Service(_) => true,
        HandleKind::Lock | HandleKind::Notify(_) => false,
    }
}

/// What `RCloseServiceHandle` is refused with, or 0: `ERROR_INVALID_HANDLE` (6).
pub fn close_verdict(tables: &Tables, caller: u64, handle: u64) -> u32
    ensures { result ≡ close_verdict tables.now.flat caller handle }
{
    match tables.handle(caller, handle) {
        Some(row) => {
            if is_closable(row.kind) {
                0
            } else {
                ERROR_INVALID_HANDLE
            }
        }
        None => ERROR_INVALID_HANDLE,
    }
}

/// Closes a caller's handle.
pub fn close(tables: &mut Tables, caller: u64, handle: u64) -> Reply
    ensures reply { result ≡ (close_outcome tables.old.flat caller handle).reply }
    ensures flat { tables.new.flat ≡ (close_outcome tables.old.flat caller handle).flat }
    ensures limits { tables.new.limits ≡ tables.old.limits }
    ensures refused { close_verdict tables.old.flat caller handle ≢ 0 → tables.new ≡ tables.old }
{
    let code = close_verdict(tables, caller, handle);
    if code != 0 {
        return Reply::Handle { handle, code };
    }
    tables.remove_handle(handle);
    Reply::Handle { handle: 0, code: 0 }
}
