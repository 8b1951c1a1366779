ghost use Rattle.std.specs.Prelude.{◌≡◌, ◌≢◌, ◌≤◌, ◌<◌, ◌^◌, ◌||◌, nat_le};
ghost use Rattle.scm_model.specs.Notices.{registered_by};
ghost use Rattle.scm_model.specs.Rows.{held_by};
ghost use Rattle.scm_rules.specs.Notify.{is_bad_mask, notify_done, notify_outcome, notify_verdict};
ghost use Rattle.scm_rules.specs.Notify.{watched};

use scm_model::codes::{
    ERROR_ACCESS_DENIED, ERROR_INVALID_HANDLE, ERROR_INVALID_PARAMETER, ERROR_NOT_ENOUGH_QUOTA,
    ERROR_SERVICE_MARKED_FOR_DELETE, NOTIFY_OF_MANAGER, NOTIFY_OF_SERVICE, SERVICE_QUERY_STATUS,
};
use scm_model::{HandleKind, Limits, Opened, Reply};
use scm_tables::{Tables, is_marked, mask_lacks};

/// The service, or the manager as 0, that a caller's handle is of, with the rights on it.
fn watched(tables: &Tables, caller: u64, handle: u64) -> Option<Opened>
    ensures { result ≡ watched tables.now.flat caller handle }
{
    match tables.handle(caller, handle) {
        Some(row) => match row.kind {
            HandleKind::Manager => Some(Opened {
                service: 0,
                granted: row.granted,
            }),
            HandleKind::Service(service) => Some(Opened {
                service,
                granted: row.granted,
            }),
            HandleKind::Lock | HandleKind::Notify(_) => None,
        },
        None => None,
    }
}

/// Whether a mask has no event, or one that there isn't.
fn is_bad_mask(service: u64, mask: u32) -> bool
    ensures { result ≡ is_bad_mask service mask }
{
    let events = if service == 0 {
        NOTIFY_OF_MANAGER
    } else {
        NOTIFY_OF_SERVICE
    };
    mask == 0 || mask & events != mask
}

/// Whether the caller has as many registrations or handles as it may have.
fn is_full(tables: &Tables, limits: &Limits, caller: u64) -> bool
    ensures { result ≡ nat_le limits.now.registrations (registered_by tables.now.flat caller)
        || nat_le limits.now.handles (held_by tables.now.flat caller) }
{
    limits.registrations as usize <= tables.registered_by(caller)
        || limits.handles as usize <= tables.handles_of(caller)
}

/// What `RNotifyServiceStatusChange` is refused with, or 0: `ERROR_INVALID_HANDLE` (6),
/// `ERROR_ACCESS_DENIED` (5),
/// `ERROR_INVALID_PARAMETER` (87), `ERROR_SERVICE_MARKED_FOR_DELETE` (1072) or
/// `ERROR_NOT_ENOUGH_QUOTA` (1816).
pub fn notify_verdict(tables: &Tables, limits: &Limits, caller: u64, handle: u64, mask: u32) -> u32
    ensures { result ≡ notify_verdict limits.now tables.now.flat caller handle mask }
{
    let Some(watched) = watched(tables, caller, handle) else {
        return ERROR_INVALID_HANDLE;
    };
    if mask_lacks(watched.granted, SERVICE_QUERY_STATUS) {
        return ERROR_ACCESS_DENIED;
    }
    if is_bad_mask(watched.service, mask) {
        return ERROR_INVALID_PARAMETER;
    }
    if is_marked(tables.held_service(caller, handle)) {
        return ERROR_SERVICE_MARKED_FOR_DELETE;
    }
    if is_full(tables, limits, caller) {
        return ERROR_NOT_ENOUGH_QUOTA;
    }
    0
}

/// Registers a caller for events of what its handle is of, with a handle of the registration. It
/// takes no memory.
pub fn notify(tables: &mut Tables, limits: &Limits, caller: u64, handle: u64, mask: u32) -> Reply
    requires registrations { 1 ≤ tables.old.spare.registrations }
    requires handles { 1 ≤ tables.old.spare.handles }
    requires next_registration { tables.old.flat.next.registration < 2 ^ 63 }
    requires next_handle { tables.old.flat.next.handle < 2 ^ 63 }
    ensures reply { result ≡ (notify_outcome limits.now tables.old.flat caller handle mask).reply }
    ensures flat { tables.new.flat ≡ (notify_outcome limits.now tables.old.flat caller handle
        mask).flat }
    ensures limits { tables.new.limits ≡ tables.old.limits }
    ensures refused { notify_verdict limits.now tables.old.flat caller handle mask ≢ 0
        → tables.new ≡ tables.old }
{
    let code = notify_verdict(tables, limits, caller, handle, mask);
    if code != 0 {
        return Reply::Handle { handle: 0, code };
    }
    let Some(watched) = watched(tables, caller, handle) else {
        return Reply::Handle { handle: 0, code };
    };
    let number = tables.add_registration(caller, handle, watched.service, mask);
    let handle = tables.add_handle(caller, HandleKind::Notify(number), 0);
    Reply::Handle { handle, code: 0 }
}
