ghost use Rattle.std.specs.Prelude.{◌≡◌, IfOk, option_copied};
ghost use Rattle.scm_rules.specs.QueryStatusEx.{process_status_in, query_ex_reply};

use super::byte_replies::no_bytes;
use scm_model::codes::{
    ERROR_ACCESS_DENIED, ERROR_INSUFFICIENT_BUFFER, ERROR_INVALID_HANDLE, ERROR_INVALID_LEVEL,
    SC_STATUS_PROCESS_INFO, SERVICE_QUERY_STATUS,
};
use scm_model::{ProcessStatus, Reply, Service, zero_process_status};
use scm_tables::{Tables, mask_lacks};
use scm_text::OutOfMemory;
use service_listing::process_status;
use std::alloc::Global;

/// The status of a service that is there, with the system's number of its current process.
fn process_status_in(tables: &Tables, service: Option<&Service>) -> ProcessStatus
    ensures { result ≡ process_status_in tables.now.flat.processes (option_copied service.entry) }
{
    match service {
        Some(row) => ProcessStatus {
            status: row.status,
            pid: tables.pid_of(row),
            flags: 0,
        },
        None => zero_process_status(),
    }
}

/// What `RQueryServiceStatusEx` is answered.
pub fn query_status_ex(
    tables: &Tables,
    caller: u64,
    handle: u64,
    level: u32,
    size: u32,
    alloc: Global,
) -> Result<Reply, OutOfMemory>
    ensures { IfOk result (λ reply. reply
        ≡ query_ex_reply tables.now.flat caller handle level size) }
{
    let Some(opened) = tables.opened(caller, handle) else {
        return Ok(no_bytes(size, 0, ERROR_INVALID_HANDLE, alloc));
    };
    if mask_lacks(opened.granted, SERVICE_QUERY_STATUS) {
        return Ok(no_bytes(size, 0, ERROR_ACCESS_DENIED, alloc));
    }
    if level != SC_STATUS_PROCESS_INFO {
        return Ok(no_bytes(size, 0, ERROR_INVALID_LEVEL, alloc));
    }
    if size < 36 {
        return Ok(no_bytes(size, 36, ERROR_INSUFFICIENT_BUFFER, alloc));
    }
    let status = process_status_in(tables, tables.held_service(caller, handle));
    Ok(Reply::Bytes {
        size,
        bytes: process_status(&status, alloc)?,
        needed: 0,
        code: 0,
    })
}
