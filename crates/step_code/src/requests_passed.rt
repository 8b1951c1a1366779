// The fields of requests, passed over without memory.
ghost use Rattle.std.specs.Prelude.{◌≡◌, IfSome};
ghost use Rattle.step_code.specs.Fronts.{HasFields, Leaves};
ghost use Rattle.step_code.specs.Reading.{change2_at, change_at, common_at, create_at};
ghost use Rattle.step_code.specs.Reading.{enum_services_at, failure_at, info_at, info_of, is_named};
ghost use Rattle.step_code.specs.Reading.{open_manager_at, set_security_at, set_status_at, start_at};

use crate::fields_passed::{
    after_byte_list, after_counted_triggers, after_flag, after_n4, after_n8, after_some_actions,
    after_some_bytes, after_some_n4, after_some_text, after_some_words, after_status, after_text,
};
use crate::fields_read::byte_of;
use scm_model::codes::{R_GET_SERVICE_DISPLAY_NAME_W, R_GET_SERVICE_KEY_NAME_W, R_OPEN_SERVICE_W};

/// Whether an opnum's request is of a handle, a name and a number.
fn is_named(opnum: u16) -> bool
    ensures { result ≡ is_named opnum }
{
    matches!(
        opnum,
        R_OPEN_SERVICE_W | R_GET_SERVICE_DISPLAY_NAME_W | R_GET_SERVICE_KEY_NAME_W
    )
}

/// The bytes after a handle, a name and a number, if these are the opnum's request.
pub(crate) fn after_named(opnum: u16, bytes: &[u8]) -> Option<&[u8]>
    ensures { IfSome result (λ rest. HasFields opnum bytes.now rest.now) }
{
    if !is_named(opnum) {
        return None;
    }
    let name = after_n8(bytes)?;
    let number = after_text(name)?;
    after_n4(number)
}

pub(crate) fn after_open_manager(bytes: &[u8]) -> Option<&[u8]>
    ensures { IfSome result (λ rest. Leaves (open_manager_at bytes.now) rest.now) }
{
    let access = after_some_text(bytes)?;
    after_n4(access)
}

pub(crate) fn after_start(bytes: &[u8]) -> Option<&[u8]>
    ensures { IfSome result (λ rest. Leaves (start_at bytes.now) rest.now) }
{
    let words = after_n8(bytes)?;
    after_some_words(words)
}

pub(crate) fn after_enum_services(bytes: &[u8]) -> Option<&[u8]>
    ensures { IfSome result (λ rest. Leaves (enum_services_at bytes.now) rest.now) }
{
    let kinds = after_n8(bytes)?;
    let states = after_n4(kinds)?;
    let size = after_n4(states)?;
    let resume = after_n4(size)?;
    after_some_n4(resume)
}

pub(crate) fn after_set_security(bytes: &[u8]) -> Option<&[u8]>
    ensures { IfSome result (λ rest. Leaves (set_security_at bytes.now) rest.now) }
{
    let parts = after_n8(bytes)?;
    let descriptor = after_n4(parts)?;
    after_byte_list(descriptor)
}

pub(crate) fn after_set_status(bytes: &[u8]) -> Option<&[u8]>
    ensures { IfSome result (λ rest. Leaves (set_status_at bytes.now) rest.now) }
{
    let status = after_n8(bytes)?;
    after_status(status)
}

fn after_common(bytes: &[u8]) -> Option<&[u8]>
    ensures { IfSome result (λ rest. Leaves (common_at bytes.now) rest.now) }
{
    let tag = after_some_text(bytes)?;
    let needs = after_some_n4(tag)?;
    let account = after_some_bytes(needs)?;
    after_some_text(account)
}

pub(crate) fn after_change(bytes: &[u8]) -> Option<&[u8]>
    ensures { IfSome result (λ rest. Leaves (change_at bytes.now) rest.now) }
{
    let kind = after_n8(bytes)?;
    let start = after_n4(kind)?;
    let error = after_n4(start)?;
    let path = after_n4(error)?;
    let common = after_some_text(path)?;
    let display = after_common(common)?;
    after_some_text(display)
}

pub(crate) fn after_create(bytes: &[u8]) -> Option<&[u8]>
    ensures { IfSome result (λ rest. Leaves (create_at bytes.now) rest.now) }
{
    let name = after_n8(bytes)?;
    let display = after_text(name)?;
    let access = after_some_text(display)?;
    let kind = after_n4(access)?;
    let start = after_n4(kind)?;
    let error = after_n4(start)?;
    let path = after_n4(error)?;
    let common = after_text(path)?;
    after_common(common)
}

fn after_failure(bytes: &[u8]) -> Option<&[u8]>
    ensures { IfSome result (λ rest. Leaves (failure_at bytes.now) rest.now) }
{
    let command = after_n4(bytes)?;
    let actions = after_some_text(command)?;
    after_some_actions(actions)
}

/// The bytes after what is asked at the level that a byte stands for.
fn after_level(level: u8, bytes: &[u8]) -> Option<&[u8]>
    ensures { IfSome result (λ rest. Leaves (info_of level bytes.now) rest.now) }
{
    match level {
        0 => after_some_text(bytes),
        1 => after_failure(bytes),
        2 | 3 => after_flag(bytes),
        4 => after_counted_triggers(bytes),
        5 | 6 => after_n4(bytes),
        _ => None,
    }
}

fn after_info(bytes: &[u8]) -> Option<&[u8]>
    ensures { IfSome result (λ rest. Leaves (info_at bytes.now) rest.now) }
{
    let Ok((level, rest)) = byte_of(bytes) else {
        return None;
    };
    after_level(level, rest)
}

pub(crate) fn after_change2(bytes: &[u8]) -> Option<&[u8]>
    ensures { IfSome result (λ rest. Leaves (change2_at bytes.now) rest.now) }
{
    let info = after_n8(bytes)?;
    after_info(info)
}
