ghost use Rattle.std.specs.Prelude.{◌≡◌, ◌++◌, ◌==◌, [], filter, map, IfOk, OnOk, option_copied};
ghost use Rattle.std.specs.Prelude.{option_to_list};
ghost use Rattle.scm_model.specs.declared.calls.Reply.TheVariants as reply;
ghost use Rattle.scm_rules.specs.EnumDependents.{enum_dependents_reply, is_in_states};
ghost use Rattle.scm_rules.specs.EnumDependents.{listed_dependents, services_of};

use super::replying::listing_reply;
use super::stating::{are_states, is_in_states, push};
use scm_model::codes::{
    ERROR_ACCESS_DENIED, ERROR_INVALID_HANDLE, ERROR_INVALID_PARAMETER,
    SERVICE_ENUMERATE_DEPENDENTS,
};
use scm_model::{Reply, Service};
use scm_tables::{Tables, mask_lacks};
use scm_text::{Items, OutOfMemory};
use std::alloc::Global;

/// Appends a service that is there and in the states.
fn push_listed<'a>(
    rows: &mut Vec<&'a Service>,
    row: Option<&'a Service>,
    states: u32,
) -> Result<(), OutOfMemory>
    ensures { OnOk result (map (λ s. s.now) rows.new.items ≡ map (λ s. s.now) rows.old.items
        ++ filter (is_in_states states) (option_to_list (option_copied row.entry))) }
{
    match row {
        Some(row) => {
            if is_in_states(states, row) {
                push(rows, row)
            } else {
                Ok(())
            }
        }
        None => Ok(()),
    }
}

/// The services with these numbers, in order, that are in the states.
fn listed_in<'a>(
    tables: &'a Tables,
    numbers: &[u64],
    states: u32,
    alloc: Global,
) -> Result<Vec<&'a Service>, OutOfMemory>
    ensures { IfOk result (λ rows. map (λ s. s.now) rows.items ≡ filter (is_in_states states)
        (services_of tables.now.flat numbers.now)) }
{
    let mut rows = Vec::new(alloc);
    for number in numbers {
        push_listed(&mut rows, tables.service(*number), states)?;
    }
    Ok(rows)
}

/// The dependents of a service that are in the states, in the order in which they are stopped.
fn listed_dependents(
    tables: &Tables,
    target: u64,
    states: u32,
    alloc: Global,
) -> Result<Vec<&Service>, OutOfMemory>
    ensures { IfOk result (λ rows. map (λ s. s.now) rows.items ≡ listed_dependents tables.now.flat
        target states) }
{
    let order = tables.stop_order(target, alloc)?;
    listed_in(tables, order.as_slice(), states, alloc)
}

/// The answer without services.
fn refused(size: u32, code: u32, alloc: Global) -> Reply
    ensures { result ≡ reply.Listing size [] 0 0 code }
{
    Reply::Listing {
        size,
        bytes: Items::new(alloc),
        needed: 0,
        returned: 0,
        code,
    }
}

/// What `REnumDependentServicesW` is answered: the dependents of a service in the order in which
/// they are stopped, all of them or none.
pub fn enum_dependents(
    tables: &Tables,
    caller: u64,
    handle: u64,
    states: u32,
    size: u32,
    alloc: Global,
) -> Result<Reply, OutOfMemory>
    ensures { IfOk result (λ reply. reply ≡ enum_dependents_reply tables.now.flat caller handle
        states size) }
{
    let Some(opened) = tables.opened(caller, handle) else {
        return Ok(refused(size, ERROR_INVALID_HANDLE, alloc));
    };
    if mask_lacks(opened.granted, SERVICE_ENUMERATE_DEPENDENTS) {
        return Ok(refused(size, ERROR_ACCESS_DENIED, alloc));
    }
    if !are_states(states) {
        return Ok(refused(size, ERROR_INVALID_PARAMETER, alloc));
    }
    let rows = listed_dependents(tables, opened.service, states, alloc)?;
    listing_reply(size, rows.as_slice(), alloc)
}
