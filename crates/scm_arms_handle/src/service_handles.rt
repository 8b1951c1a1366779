ghost use Rattle.std.specs.Prelude.{◌≡◌, ◌≢◌, ◌≤◌, ◌<◌, ◌^◌};
ghost use Rattle.scm_model.specs.Refused.{outcome};
ghost use Rattle.scm_model.specs.declared.calls.Request.TheVariants as request;
ghost use Rattle.scm_rules.specs.OpenService.{open_service_done, open_service_rights};
ghost use Rattle.scm_rules.specs.OpenService.{open_service_outcome, open_service_verdict};
ghost use Rattle.scm_rules.specs.OpenService.{service_granted};
ghost use Rattle.scm_rules.specs.Security.{service_allowed};

use access_mask::{granted, map_generic};
use scm_model::codes::{
    ERROR_ACCESS_DENIED, ERROR_INVALID_HANDLE, ERROR_INVALID_NAME, ERROR_NOT_ENOUGH_QUOTA,
    ERROR_SERVICE_DOES_NOT_EXIST,
};
use scm_model::{HandleKind, Limits, Reply};
use scm_tables::Tables;
use scm_text::WText;
use sec_check::allowed;
use service_record::is_bad_name;

/// The rights that a caller is granted on any service.
fn service_granted(tables: &Tables, caller: u64, access: u32) -> Option<u32>
    ensures { result ≡ service_granted tables.now.flat caller access }
{
    granted(tables.principal_of(caller), false, access)
}

/// The rights that the security descriptor of the service with a name allows a caller.
fn service_allowed(tables: &Tables, caller: u64, name: &WText, access: u32) -> Option<u32>
    ensures { result ≡ service_allowed tables.now.flat caller name.now access }
{
    match tables.named_secured(name) {
        Some(row) => {
            let desired = map_generic(false, access);
            allowed(
                row.security.as_slice(),
                tables.principal_of(caller),
                desired,
            )
        }
        None => None,
    }
}

/// The rights on a service that are granted and that its security descriptor allows.
fn open_service_rights(tables: &Tables, caller: u64, name: &WText, access: u32) -> u32
    ensures { result ≡ open_service_rights tables.now.flat caller name.now access }
{
    let granted = service_granted(tables, caller, access).unwrap_or(0);
    let allowed = service_allowed(tables, caller, name, access).unwrap_or(0);
    granted & allowed
}

/// What `ROpenServiceW` is refused with, or 0: `ERROR_INVALID_HANDLE` (6), `ERROR_INVALID_NAME`
/// (123),
/// `ERROR_SERVICE_DOES_NOT_EXIST` (1060), `ERROR_ACCESS_DENIED` (5) or `ERROR_NOT_ENOUGH_QUOTA`
/// (1816).
pub fn open_service_verdict(
    tables: &Tables,
    limits: &Limits,
    caller: u64,
    handle: u64,
    name: &WText,
    access: u32,
) -> u32
    ensures { result ≡ open_service_verdict limits.now tables.now.flat caller handle name.now
        access }
{
    if tables.manager_mask(caller, handle).is_none() {
        return ERROR_INVALID_HANDLE;
    }
    if is_bad_name(name) {
        return ERROR_INVALID_NAME;
    }
    if tables.named(name).is_none() {
        return ERROR_SERVICE_DOES_NOT_EXIST;
    }
    if service_granted(tables, caller, access).is_none() {
        return ERROR_ACCESS_DENIED;
    }
    if service_allowed(tables, caller, name, access).is_none() {
        return ERROR_ACCESS_DENIED;
    }
    if limits.handles as usize <= tables.handles_of(caller) {
        return ERROR_NOT_ENOUGH_QUOTA;
    }
    0
}

/// Opens a service for a caller.
pub fn open_service(
    tables: &mut Tables,
    limits: &Limits,
    caller: u64,
    handle: u64,
    name: &WText,
    access: u32,
) -> Reply
    requires room { 1 ≤ tables.old.spare.handles }
    requires next { tables.old.flat.next.handle < 2 ^ 63 }
    ensures reply { result ≡ (open_service_outcome limits.now tables.old.flat caller handle name.now
        access).reply }
    ensures flat { tables.new.flat ≡ (open_service_outcome limits.now tables.old.flat caller handle
        name.now access).flat }
    ensures limits { tables.new.limits ≡ tables.old.limits }
    ensures refused { open_service_verdict limits.now tables.old.flat caller handle name.now access
        ≢ 0 → tables.new ≡ tables.old }
{
    let code = open_service_verdict(tables, limits, caller, handle, name, access);
    if code != 0 {
        return Reply::Handle { handle: 0, code };
    }
    let rights = open_service_rights(tables, caller, name, access);
    let handle = tables.next_handle();
    if let Some(row) = tables.named(name) {
        let service = row.number;
        let _handle = tables.add_handle(caller, HandleKind::Service(service), rights);
    }
    Reply::Handle { handle, code: 0 }
}
