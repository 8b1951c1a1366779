ghost use Rattle.std.specs.Prelude.{◌≡◌, IfOk, option_copied};
ghost use Rattle.scm_rules.specs.QueryConfig2.{level_in, query_config2_reply};

use super::byte_replies::{bytes_reply, no_bytes};
use scm_model::codes::{
    ERROR_ACCESS_DENIED, ERROR_INVALID_HANDLE, ERROR_INVALID_LEVEL, SERVICE_QUERY_CONFIG,
};
use scm_model::{Reply, Service, is_level};
use scm_tables::{Tables, mask_lacks};
use scm_text::{Items, OutOfMemory};
use service_listing::level;
use std::alloc::Global;

/// The bytes of a level of a service that is there.
fn level_in(number: u32, service: Option<&Service>, alloc: Global) -> Result<Items<u8>, OutOfMemory>
    ensures { IfOk result (λ bytes. bytes ≡ level_in number (option_copied service.entry)) }
{
    let Some(row) = service else {
        return Ok(Items::new(alloc));
    };
    match level(number, &row.config, alloc)? {
        Some(bytes) => Ok(bytes),
        None => Ok(Items::new(alloc)),
    }
}

/// What `RQueryServiceConfig2W` is answered.
pub fn query_config2(
    tables: &Tables,
    caller: u64,
    handle: u64,
    level: u32,
    size: u32,
    alloc: Global,
) -> Result<Reply, OutOfMemory>
    ensures { IfOk result (λ reply. reply ≡ query_config2_reply tables.now.flat caller handle level
        size) }
{
    let Some(opened) = tables.opened(caller, handle) else {
        return Ok(no_bytes(size, 0, ERROR_INVALID_HANDLE, alloc));
    };
    if mask_lacks(opened.granted, SERVICE_QUERY_CONFIG) {
        return Ok(no_bytes(size, 0, ERROR_ACCESS_DENIED, alloc));
    }
    if !is_level(level) {
        return Ok(no_bytes(size, 0, ERROR_INVALID_LEVEL, alloc));
    }
    let bytes = level_in(level, tables.held_service(caller, handle), alloc)?;
    Ok(bytes_reply(size, bytes, alloc))
}
