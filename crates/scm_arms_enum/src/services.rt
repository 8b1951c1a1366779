ghost use Rattle.std.specs.Prelude.{◌≡◌, [], filter, map, IfOk};
ghost use Rattle.scm_model.specs.declared.calls.Reply.TheVariants as reply;
ghost use Rattle.scm_rules.specs.EnumServices.{enum_services_reply, is_asked};

use super::replying::page_reply;
use super::stating::{are_states, is_in_states, push};
use record_table::Services;
use scm_model::codes::{
    ERROR_ACCESS_DENIED, ERROR_INVALID_HANDLE, ERROR_INVALID_PARAMETER,
    SC_MANAGER_ENUMERATE_SERVICE,
};
use scm_model::{Reply, Service};
use scm_tables::{Tables, mask_lacks};
use scm_text::{Items, OutOfMemory};
use std::alloc::Global;

/// Whether a service comes after a number, has one of the types and is in the states.
fn is_asked(kinds: u32, states: u32, after: u32, service: &Service) -> bool
    ensures { result ≡ is_asked kinds states after service.now }
{
    (after as u64) < service.number
        && kinds & service.config.kind != 0
        && is_in_states(states, service)
}

/// The services after a number that are asked for.
fn services_after<'a>(
    services: Services<'a>,
    kinds: u32,
    states: u32,
    after: u32,
    alloc: Global,
) -> Result<Vec<&'a Service>, OutOfMemory>
    ensures { IfOk result (λ rows. map (λ s. s.now) rows.items ≡ filter
        (is_asked kinds states after) services.entry) }
{
    let mut rows = Vec::new(alloc);
    for row in services {
        if is_asked(kinds, states, after, row) {
            push(&mut rows, row)?;
        }
    }
    Ok(rows)
}

/// The answer without services.
fn refused(size: u32, resume: Option<u32>, code: u32, alloc: Global) -> Reply
    ensures { result ≡ reply.Page size [] 0 0 resume code }
{
    Reply::Page {
        size,
        bytes: Items::new(alloc),
        needed: 0,
        returned: 0,
        resume,
        code,
    }
}

/// What `REnumServicesStatusW` is answered: the services that are asked for, page by page.
pub fn enum_services(
    tables: &Tables,
    caller: u64,
    handle: u64,
    kinds: u32,
    states: u32,
    size: u32,
    resume: Option<u32>,
    alloc: Global,
) -> Result<Reply, OutOfMemory>
    ensures { IfOk result (λ reply. reply ≡ enum_services_reply tables.now.flat caller handle kinds
        states size resume) }
{
    let Some(granted) = tables.manager_mask(caller, handle) else {
        return Ok(refused(size, resume, ERROR_INVALID_HANDLE, alloc));
    };
    if mask_lacks(granted, SC_MANAGER_ENUMERATE_SERVICE) {
        return Ok(refused(size, resume, ERROR_ACCESS_DENIED, alloc));
    }
    if kinds == 0 || !are_states(states) {
        return Ok(refused(size, resume, ERROR_INVALID_PARAMETER, alloc));
    }
    let after = resume.unwrap_or(0);
    let rows = services_after(tables.rows(), kinds, states, after, alloc)?;
    page_reply(size, resume, rows.as_slice(), alloc)
}
