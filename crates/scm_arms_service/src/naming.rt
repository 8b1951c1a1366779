ghost use Rattle.std.specs.Prelude.{◌≡◌, IfOk};
ghost use Rattle.scm_rules.specs.OtherName.{display_by_name, name_by_display, name_or_empty};
ghost use Rattle.scm_rules.specs.OtherName.{other_name_reply, other_name_verdict, units_of};

use scm_model::Reply;
use scm_model::codes::{
    ERROR_INSUFFICIENT_BUFFER, ERROR_INVALID_HANDLE, ERROR_SERVICE_DOES_NOT_EXIST,
};
use scm_tables::Tables;
use scm_text::{OutOfMemory, WText};
use std::alloc::Global;

/// How many units a name has, as far as numbers go.
fn units_of(name: &Option<WText>) -> u32
    ensures { result ≡ units_of name.now }
{
    match name {
        Some(name) => name.units().len().min(0xFFFF_FFFF) as u32,
        None => 0,
    }
}

/// What a call for the other name of a service is refused with, or 0: `ERROR_INVALID_HANDLE` (6),
/// `ERROR_SERVICE_DOES_NOT_EXIST` (1060) or `ERROR_INSUFFICIENT_BUFFER` (122).
fn other_name_verdict(
    tables: &Tables,
    caller: u64,
    handle: u64,
    size: u32,
    other: &Option<WText>,
) -> u32
    ensures { result ≡ other_name_verdict tables.now.flat caller handle size other.now }
{
    if tables.manager_mask(caller, handle).is_none() {
        return ERROR_INVALID_HANDLE;
    }
    if other.is_none() {
        return ERROR_SERVICE_DOES_NOT_EXIST;
    }
    if size <= units_of(other) {
        return ERROR_INSUFFICIENT_BUFFER;
    }
    0
}

/// A name, or the empty one where there is none.
fn name_or_empty(name: Option<WText>, alloc: Global) -> WText
    ensures { result ≡ name_or_empty name }
{
    match name {
        Some(name) => name,
        None => WText::new(alloc),
    }
}

/// What a call for the other name of a service is answered.
fn other_name(
    tables: &Tables,
    caller: u64,
    handle: u64,
    size: u32,
    other: Option<WText>,
    alloc: Global,
) -> Reply
    ensures { result ≡ other_name_reply tables.now.flat caller handle size other }
{
    let code = other_name_verdict(tables, caller, handle, size, &other);
    let units = units_of(&other);
    if code == 0 {
        return Reply::Name {
            name: name_or_empty(other, alloc),
            size: units,
            code: 0,
        };
    }
    Reply::Name {
        name: WText::new(alloc),
        size: if code == ERROR_INSUFFICIENT_BUFFER {
            units
        } else {
            0
        },
        code,
    }
}

/// The display name of the service with a name.
fn display_by_name(
    tables: &Tables,
    name: &WText,
    alloc: Global,
) -> Result<Option<WText>, OutOfMemory>
    ensures { IfOk result (λ other. other ≡ display_by_name tables.now.flat name.now) }
{
    match tables.named(name) {
        Some(row) => Ok(Some(row.config.display.copy(alloc)?)),
        None => Ok(None),
    }
}

/// The name of the service with a display name.
fn name_by_display(
    tables: &Tables,
    display: &WText,
    alloc: Global,
) -> Result<Option<WText>, OutOfMemory>
    ensures { IfOk result (λ other. other ≡ name_by_display tables.now.flat display.now) }
{
    match tables.displayed(display) {
        Some(row) => Ok(Some(row.config.name.copy(alloc)?)),
        None => Ok(None),
    }
}

/// What `RGetServiceDisplayNameW` is answered.
pub fn display_name(
    tables: &Tables,
    caller: u64,
    handle: u64,
    name: &WText,
    size: u32,
    alloc: Global,
) -> Result<Reply, OutOfMemory>
    ensures { IfOk result (λ reply. reply ≡ other_name_reply tables.now.flat caller handle size
        (display_by_name tables.now.flat name.now)) }
{
    let other = display_by_name(tables, name, alloc)?;
    Ok(other_name(tables, caller, handle, size, other, alloc))
}

/// What `RGetServiceKeyNameW` is answered.
pub fn key_name(
    tables: &Tables,
    caller: u64,
    handle: u64,
    display: &WText,
    size: u32,
    alloc: Global,
) -> Result<Reply, OutOfMemory>
    ensures { IfOk result (λ reply. reply ≡ other_name_reply tables.now.flat caller handle size
        (name_by_display tables.now.flat display.now)) }
{
    let other = name_by_display(tables, display, alloc)?;
    Ok(other_name(tables, caller, handle, size, other, alloc))
}
