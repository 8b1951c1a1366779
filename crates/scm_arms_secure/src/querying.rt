ghost use Rattle.std.specs.Prelude.{◌≡◌, IfOk, IfSome, option_copied, option_map};
ghost use Rattle.scm_rules.specs.Security.{IsSecured, query_security_reply, security_in};
ghost use Rattle.scm_rules.specs.Security.{security_of};

use super::descriptors::{are_no_parts, base_bytes};
use scm_arms_enum::{bytes_reply, no_bytes};
use scm_model::codes::{ERROR_ACCESS_DENIED, ERROR_INVALID_HANDLE, ERROR_INVALID_PARAMETER};
use scm_model::{Reply, Service};
use scm_tables::{Tables, mask_lacks};
use scm_text::{Items, OutOfMemory};
use sec_desc::codes::READ_CONTROL;
use std::alloc::Global;

/// The parts that are asked for of what a service has, if it is there.
fn security_in(
    parts: u32,
    service: Option<&Service>,
    alloc: Global,
) -> Result<Items<u8>, OutOfMemory>
    requires { IfSome (option_copied service) IsSecured }
    ensures { IfOk result (λ bytes. bytes
        ≡ security_in parts (option_map security_of (option_copied service.entry))) }
{
    match service {
        Some(row) => base_bytes(row.security.as_slice(), parts, alloc),
        None => Ok(Items::new(alloc)),
    }
}

/// What `RQueryServiceObjectSecurity` is answered.
pub fn query_security(
    tables: &Tables,
    caller: u64,
    handle: u64,
    parts: u32,
    size: u32,
    alloc: Global,
) -> Result<Reply, OutOfMemory>
    ensures { IfOk result (λ reply. reply ≡ query_security_reply tables.now.flat caller handle parts
        size) }
{
    let Some(opened) = tables.opened(caller, handle) else {
        return Ok(no_bytes(size, 0, ERROR_INVALID_HANDLE, alloc));
    };
    if are_no_parts(parts) {
        return Ok(no_bytes(size, 0, ERROR_INVALID_PARAMETER, alloc));
    }
    if mask_lacks(opened.granted, READ_CONTROL) {
        return Ok(no_bytes(size, 0, ERROR_ACCESS_DENIED, alloc));
    }
    let bytes = security_in(parts, tables.held_secured(caller, handle), alloc)?;
    Ok(bytes_reply(size, bytes, alloc))
}
