ghost use Rattle.std.specs.Prelude.{◌≡◌, ◌≢◌, IfOk, IfSome};
ghost use Rattle.sec_desc.specs.Writing.{IsWritable};
ghost use Rattle.scm_rules.specs.Security.{asked_security, descriptor_in, rights_to_set};
ghost use Rattle.scm_rules.specs.Security.{set_security_done, set_security_outcome};
ghost use Rattle.scm_rules.specs.Security.{set_security_verdict};

use super::descriptors::{are_no_parts, new_security};
use scm_model::Reply;
use scm_model::codes::{
    ERROR_ACCESS_DENIED, ERROR_INVALID_HANDLE, ERROR_INVALID_PARAMETER,
    ERROR_SERVICE_MARKED_FOR_DELETE,
};
use scm_tables::{Tables, is_marked, mask_lacks};
use scm_text::{Items, OutOfMemory};
use sec_desc::Descriptor;
use sec_desc::codes::{WRITE_DAC, WRITE_OWNER};
use std::alloc::Global;

/// The rights that are needed to set parts: one for owner and group, one for the list.
fn rights_to_set(parts: u32) -> u32
    ensures { result ≡ rights_to_set parts }
{
    let owner = if parts & 3 == 0 { 0 } else { WRITE_OWNER };
    let list = if parts & 4 == 0 { 0 } else { WRITE_DAC };
    owner | list
}

/// What `RSetServiceObjectSecurity` is refused with for what its bytes are read as, or 0:
/// `ERROR_INVALID_HANDLE` (6), `ERROR_INVALID_PARAMETER` (87), `ERROR_ACCESS_DENIED` (5) or
/// `ERROR_SERVICE_MARKED_FOR_DELETE` (1072).
pub fn set_security_verdict(
    tables: &Tables,
    caller: u64,
    handle: u64,
    parts: u32,
    given: &Option<Descriptor>,
) -> u32
    ensures { result ≡ set_security_verdict tables.now.flat caller handle parts given.now }
{
    let Some(opened) = tables.opened(caller, handle) else {
        return ERROR_INVALID_HANDLE;
    };
    if are_no_parts(parts) {
        return ERROR_INVALID_PARAMETER;
    }
    if mask_lacks(opened.granted, rights_to_set(parts)) {
        return ERROR_ACCESS_DENIED;
    }
    if is_marked(tables.held_service(caller, handle)) {
        return ERROR_SERVICE_MARKED_FOR_DELETE;
    }
    if given.is_none() {
        return ERROR_INVALID_PARAMETER;
    }
    0
}

/// The bytes of the descriptor that the service of a caller's handle is asked to get, with the
/// parts of what was read in place of its own. `given` lends its parts, and has them again at the
/// end.
pub fn asked_security(
    tables: &Tables,
    caller: u64,
    handle: u64,
    parts: u32,
    given: &mut Option<Descriptor>,
    alloc: Global,
) -> Result<Option<Items<u8>>, OutOfMemory>
    requires { IfSome given.old IsWritable }
    ensures bytes { IfOk result (λ security. security ≡ asked_security tables.now.flat caller handle
        parts given.old) }
    ensures given { given.new ≡ given.old }
{
    let Some(given) = given else {
        return Ok(None);
    };
    let Some(row) = tables.held_secured(caller, handle) else {
        return Ok(None);
    };
    let security = row.security.as_slice();
    Ok(Some(new_security(parts, given, security, alloc)?))
}

/// Gives a service the security descriptor that was made for it. The code is what the call is
/// refused with. It takes no memory.
pub fn set_security(
    tables: &mut Tables,
    caller: u64,
    handle: u64,
    parts: u32,
    bytes: &Items<u8>,
    code: u32,
    security: Option<Items<u8>>,
) -> Reply
    requires verdict { code ≡ set_security_verdict tables.old.flat caller handle parts
        (descriptor_in bytes.now) }
    requires made { security ≡ asked_security tables.old.flat caller handle parts
        (descriptor_in bytes.now) }
    ensures reply { result ≡ (set_security_outcome tables.old.flat caller handle parts
        bytes.now).reply }
    ensures flat { tables.new.flat ≡ (set_security_outcome tables.old.flat caller handle parts
        bytes.now).flat }
    ensures limits { tables.new.limits ≡ tables.old.limits }
    ensures refused { set_security_verdict tables.old.flat caller handle parts
        (descriptor_in bytes.now) ≢ 0 → tables.new ≡ tables.old }
{
    let _ = bytes;
    if code != 0 {
        return Reply::Code(code);
    }
    let service = tables.held_secured(caller, handle);
    if let (Some(row), Some(security)) = (service, security) {
        let number = row.number;
        tables.set_security(number, security);
    }
    Reply::Code(0)
}
