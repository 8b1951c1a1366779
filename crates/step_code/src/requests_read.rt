// The fields of requests, read from left to right.
ghost use Rattle.std.specs.Prelude.{◌≡◌};
ghost use Rattle.step_code.specs.Reading.{Yields, by_handle, by_name, by_number, by_numbers};
ghost use Rattle.step_code.specs.Reading.{change2_at, change_at, common_at, create_at};
ghost use Rattle.step_code.specs.Reading.{enum_services_at, failure_at, fields_at, handle_at};
ghost use Rattle.step_code.specs.Reading.{info_at, info_of, named_at, number_at, numbers_at};
ghost use Rattle.step_code.specs.Reading.{open_manager_at, plain_fields_at, request_at};
ghost use Rattle.step_code.specs.Reading.{set_security_at, set_status_at, start_at};

use crate::fields_read::{
    Stop, byte_list_of, byte_of, counted_triggers, flag_of, n2_of, n4_of, n8_of, some_actions_of,
    some_bytes_of, some_number_of, some_text_of, some_words_of, status_of, text_of,
};
use scm_model::codes::{
    R_CHANGE_SERVICE_CONFIG_W, R_CHANGE_SERVICE_CONFIG2_W, R_CLOSE_NOTIFY_HANDLE,
    R_CLOSE_SERVICE_HANDLE, R_CONTROL_SERVICE, R_CREATE_SERVICE_W, R_DELETE_SERVICE,
    R_ENUM_DEPENDENT_SERVICES_W, R_ENUM_SERVICES_STATUS_W, R_GET_NOTIFY_RESULTS,
    R_GET_SERVICE_DISPLAY_NAME_W, R_GET_SERVICE_KEY_NAME_W, R_LOCK_SERVICE_DATABASE,
    R_NOTIFY_SERVICE_STATUS_CHANGE, R_OPEN_SC_MANAGER_W, R_OPEN_SERVICE_W,
    R_QUERY_SERVICE_CONFIG_W, R_QUERY_SERVICE_CONFIG2_W, R_QUERY_SERVICE_LOCK_STATUS_W,
    R_QUERY_SERVICE_OBJECT_SECURITY, R_QUERY_SERVICE_STATUS, R_QUERY_SERVICE_STATUS_EX,
    R_SET_SERVICE_OBJECT_SECURITY, R_SET_SERVICE_STATUS, R_START_SERVICE_W,
    R_UNLOCK_SERVICE_DATABASE,
};
use scm_model::{Apart, ChangeService, Info, NewService, Request};
use scm_text::{Items, WText};
use std::alloc::Global;

#[tactic(auto, unfolding(crate::specs::Reading::failure_at))]
fn failure_of(alloc: Global, bytes: &[u8]) -> Result<(Info, &[u8]), Stop>
    ensures { Yields (λ x. (x.0, x.1.now)) result (failure_at bytes.now) }
{
    let (reset, rest) = n4_of(bytes)?;
    let (command, rest) = some_text_of(alloc, rest)?;
    let (actions, rest) = some_actions_of(alloc, rest)?;
    let info = Info::Failure {
        reset,
        command,
        actions,
    };
    Ok((info, rest))
}

/// What is asked at the level that a byte stands for.
fn info_of(alloc: Global, level: u8, bytes: &[u8]) -> Result<(Info, &[u8]), Stop>
    ensures { Yields (λ x. (x.0, x.1.now)) result (info_of level bytes.now) }
{
    match level {
        0 => {
            let (text, rest) = some_text_of(alloc, bytes)?;
            Ok((Info::Description(text), rest))
        }
        1 => failure_of(alloc, bytes),
        2 => {
            let (on, rest) = flag_of(bytes)?;
            Ok((Info::Delayed(on), rest))
        }
        3 => {
            let (on, rest) = flag_of(bytes)?;
            Ok((Info::OnExit(on), rest))
        }
        4 => {
            let (triggers, rest) = counted_triggers(alloc, bytes)?;
            Ok((Info::Triggers(triggers), rest))
        }
        5 => {
            let (level, rest) = n4_of(bytes)?;
            Ok((Info::Other(level), rest))
        }
        6 => {
            let (level, rest) = n4_of(bytes)?;
            Ok((Info::Nothing(level), rest))
        }
        _ => Err(Stop::NoCode),
    }
}

#[tactic(auto, unfolding(crate::specs::Reading::info_at))]
fn info_at(alloc: Global, bytes: &[u8]) -> Result<(Info, &[u8]), Stop>
    ensures { Yields (λ x. (x.0, x.1.now)) result (info_at bytes.now) }
{
    let (level, rest) = byte_of(bytes)?;
    info_of(alloc, level, rest)
}

/// What a creation and a change have in common.
#[derive(Drop)]
struct Common {
    group: Option<WText>,
    tag: Option<u32>,
    needs: Option<Items<u8>>,
    account: Option<WText>,
}

#[tactic(auto, unfolding(crate::specs::Reading::common_at))]
fn common_of(alloc: Global, bytes: &[u8]) -> Result<(Common, &[u8]), Stop>
    ensures { Yields (λ x. (x.0, x.1.now)) result (common_at bytes.now) }
{
    let (group, rest) = some_text_of(alloc, bytes)?;
    let (tag, rest) = some_number_of(rest)?;
    let (needs, rest) = some_bytes_of(alloc, rest)?;
    let (account, rest) = some_text_of(alloc, rest)?;
    let common = Common {
        group,
        tag,
        needs,
        account,
    };
    Ok((common, rest))
}

#[tactic(auto, unfolding(crate::specs::Reading::change_at))]
fn change_of(alloc: Global, bytes: &[u8]) -> Result<(Request, &[u8]), Stop>
    ensures { Yields (λ x. (x.0, x.1.now)) result (change_at bytes.now) }
{
    let (handle, rest) = n8_of(bytes)?;
    let (kind, rest) = n4_of(rest)?;
    let (start, rest) = n4_of(rest)?;
    let (error, rest) = n4_of(rest)?;
    let (path, rest) = some_text_of(alloc, rest)?;
    let (common, rest) = common_of(alloc, rest)?;
    let (display, rest) = some_text_of(alloc, rest)?;
    let change = ChangeService {
        handle,
        kind,
        start,
        error,
        path,
        group: common.group,
        tag: common.tag,
        needs: common.needs,
        account: common.account,
        display,
    };
    Ok((Request::Change(Apart::new(alloc, change)?), rest))
}

#[tactic(auto, unfolding(crate::specs::Reading::create_at))]
fn create_of(alloc: Global, bytes: &[u8]) -> Result<(Request, &[u8]), Stop>
    ensures { Yields (λ x. (x.0, x.1.now)) result (create_at bytes.now) }
{
    let (handle, rest) = n8_of(bytes)?;
    let (name, rest) = text_of(alloc, rest)?;
    let (display, rest) = some_text_of(alloc, rest)?;
    let (access, rest) = n4_of(rest)?;
    let (kind, rest) = n4_of(rest)?;
    let (start, rest) = n4_of(rest)?;
    let (error, rest) = n4_of(rest)?;
    let (path, rest) = text_of(alloc, rest)?;
    let (common, rest) = common_of(alloc, rest)?;
    let new = NewService {
        handle,
        name,
        display,
        access,
        kind,
        start,
        error,
        path,
        group: common.group,
        tag: common.tag,
        needs: common.needs,
        account: common.account,
    };
    Ok((Request::Create(Apart::new(alloc, new)?), rest))
}

#[tactic(auto, unfolding(crate::specs::Reading::set_security_at))]
fn set_security_of(alloc: Global, bytes: &[u8]) -> Result<(Request, &[u8]), Stop>
    ensures { Yields (λ x. (x.0, x.1.now)) result (set_security_at bytes.now) }
{
    let (handle, rest) = n8_of(bytes)?;
    let (parts, rest) = n4_of(rest)?;
    let (bytes, rest) = byte_list_of(alloc, rest)?;
    let request = Request::SetSecurity {
        handle,
        parts,
        bytes,
    };
    Ok((request, rest))
}

#[tactic(auto, unfolding(crate::specs::Reading::set_status_at))]
fn set_status_of(bytes: &[u8]) -> Result<(Request, &[u8]), Stop>
    ensures { Yields (λ x. (x.0, x.1.now)) result (set_status_at bytes.now) }
{
    let (handle, rest) = n8_of(bytes)?;
    let (status, rest) = status_of(rest)?;
    Ok((Request::SetStatus { handle, status }, rest))
}

#[tactic(auto, unfolding(crate::specs::Reading::enum_services_at))]
fn enum_services_of(bytes: &[u8]) -> Result<(Request, &[u8]), Stop>
    ensures { Yields (λ x. (x.0, x.1.now)) result (enum_services_at bytes.now) }
{
    let (handle, rest) = n8_of(bytes)?;
    let (kinds, rest) = n4_of(rest)?;
    let (states, rest) = n4_of(rest)?;
    let (size, rest) = n4_of(rest)?;
    let (resume, rest) = some_number_of(rest)?;
    let request = Request::EnumServices {
        handle,
        kinds,
        states,
        size,
        resume,
    };
    Ok((request, rest))
}

#[tactic(auto, unfolding(crate::specs::Reading::open_manager_at))]
fn open_manager_of(alloc: Global, bytes: &[u8]) -> Result<(Request, &[u8]), Stop>
    ensures { Yields (λ x. (x.0, x.1.now)) result (open_manager_at bytes.now) }
{
    let (database, rest) = some_text_of(alloc, bytes)?;
    let (access, rest) = n4_of(rest)?;
    Ok((Request::OpenManager { database, access }, rest))
}

#[tactic(auto, unfolding(crate::specs::Reading::start_at))]
fn start_of(alloc: Global, bytes: &[u8]) -> Result<(Request, &[u8]), Stop>
    ensures { Yields (λ x. (x.0, x.1.now)) result (start_at bytes.now) }
{
    let (handle, rest) = n8_of(bytes)?;
    let (words, rest) = some_words_of(alloc, rest)?;
    Ok((Request::Start { handle, words }, rest))
}

#[tactic(auto, unfolding(crate::specs::Reading::change2_at))]
fn change2_of(alloc: Global, bytes: &[u8]) -> Result<(Request, &[u8]), Stop>
    ensures { Yields (λ x. (x.0, x.1.now)) result (change2_at bytes.now) }
{
    let (handle, rest) = n8_of(bytes)?;
    let (info, rest) = info_at(alloc, rest)?;
    Ok((Request::Change2 { handle, info }, rest))
}

/// The request of a handle, a name and a number.
fn by_name(opnum: u16, handle: u64, name: WText, number: u32) -> Option<Request>
    ensures { result ≡ by_name opnum handle name number }
{
    match opnum {
        R_OPEN_SERVICE_W => Some(Request::OpenService {
            handle,
            name,
            access: number,
        }),
        R_GET_SERVICE_DISPLAY_NAME_W => Some(Request::DisplayName {
            handle,
            name,
            size: number,
        }),
        R_GET_SERVICE_KEY_NAME_W => Some(Request::KeyName {
            handle,
            name,
            size: number,
        }),
        _ => {
            drop(name);
            None
        }
    }
}

#[tactic(auto, unfolding(crate::specs::Reading::named_at))]
fn named_of(alloc: Global, opnum: u16, bytes: &[u8]) -> Result<(Request, &[u8]), Stop>
    ensures { Yields (λ x. (x.0, x.1.now)) result (named_at opnum bytes.now) }
{
    let (handle, rest) = n8_of(bytes)?;
    let (name, rest) = text_of(alloc, rest)?;
    let (number, rest) = n4_of(rest)?;
    match by_name(opnum, handle, name, number) {
        Some(request) => Ok((request, rest)),
        None => Err(Stop::NoCode),
    }
}

/// The request of a handle and two numbers.
fn by_numbers(opnum: u16, handle: u64, first: u32, size: u32) -> Option<Request>
    ensures { result ≡ by_numbers opnum handle first size }
{
    match opnum {
        R_QUERY_SERVICE_OBJECT_SECURITY => Some(Request::QuerySecurity {
            handle,
            parts: first,
            size,
        }),
        R_ENUM_DEPENDENT_SERVICES_W => Some(Request::EnumDependents {
            handle,
            states: first,
            size,
        }),
        R_QUERY_SERVICE_CONFIG2_W => Some(Request::QueryConfig2 {
            handle,
            level: first,
            size,
        }),
        R_QUERY_SERVICE_STATUS_EX => Some(Request::QueryStatusEx {
            handle,
            level: first,
            size,
        }),
        _ => None,
    }
}

#[tactic(auto, unfolding(crate::specs::Reading::numbers_at))]
fn numbers_of(opnum: u16, bytes: &[u8]) -> Result<(Request, &[u8]), Stop>
    ensures { Yields (λ x. (x.0, x.1.now)) result (numbers_at opnum bytes.now) }
{
    let (handle, rest) = n8_of(bytes)?;
    let (first, rest) = n4_of(rest)?;
    let (size, rest) = n4_of(rest)?;
    match by_numbers(opnum, handle, first, size) {
        Some(request) => Ok((request, rest)),
        None => Err(Stop::NoCode),
    }
}

/// The request of a handle and a number.
fn by_number(opnum: u16, handle: u64, number: u32) -> Option<Request>
    ensures { result ≡ by_number opnum handle number }
{
    match opnum {
        R_CONTROL_SERVICE => Some(Request::Control {
            handle,
            control: number,
        }),
        R_QUERY_SERVICE_CONFIG_W => Some(Request::QueryConfig {
            handle,
            size: number,
        }),
        R_QUERY_SERVICE_LOCK_STATUS_W => Some(Request::QueryLock {
            handle,
            size: number,
        }),
        R_NOTIFY_SERVICE_STATUS_CHANGE => Some(Request::Notify {
            handle,
            mask: number,
        }),
        _ => None,
    }
}

#[tactic(auto, unfolding(crate::specs::Reading::number_at))]
fn number_of(opnum: u16, bytes: &[u8]) -> Result<(Request, &[u8]), Stop>
    ensures { Yields (λ x. (x.0, x.1.now)) result (number_at opnum bytes.now) }
{
    let (handle, rest) = n8_of(bytes)?;
    let (number, rest) = n4_of(rest)?;
    match by_number(opnum, handle, number) {
        Some(request) => Ok((request, rest)),
        None => Err(Stop::NoCode),
    }
}

/// The request of a handle alone.
fn by_handle(opnum: u16, handle: u64) -> Option<Request>
    ensures { result ≡ by_handle opnum handle }
{
    match opnum {
        R_CLOSE_SERVICE_HANDLE => Some(Request::Close { handle }),
        R_DELETE_SERVICE => Some(Request::Delete { handle }),
        R_LOCK_SERVICE_DATABASE => Some(Request::Lock { handle }),
        R_QUERY_SERVICE_STATUS => Some(Request::QueryStatus { handle }),
        R_UNLOCK_SERVICE_DATABASE => Some(Request::Unlock { handle }),
        R_GET_NOTIFY_RESULTS => Some(Request::GetNotify { handle }),
        R_CLOSE_NOTIFY_HANDLE => Some(Request::CloseNotify { handle }),
        _ => None,
    }
}

#[tactic(auto, unfolding(crate::specs::Reading::handle_at))]
fn handle_of(opnum: u16, bytes: &[u8]) -> Result<(Request, &[u8]), Stop>
    ensures { Yields (λ x. (x.0, x.1.now)) result (handle_at opnum bytes.now) }
{
    let (handle, rest) = n8_of(bytes)?;
    match by_handle(opnum, handle) {
        Some(request) => Ok((request, rest)),
        None => Err(Stop::NoCode),
    }
}

/// The fields of a request of a handle, and of a name and numbers.
fn plain_fields_of(alloc: Global, opnum: u16, bytes: &[u8]) -> Result<(Request, &[u8]), Stop>
    ensures { Yields (λ x. (x.0, x.1.now)) result (plain_fields_at opnum bytes.now) }
{
    match opnum {
        R_OPEN_SERVICE_W | R_GET_SERVICE_DISPLAY_NAME_W | R_GET_SERVICE_KEY_NAME_W => {
            named_of(alloc, opnum, bytes)
        }
        R_CONTROL_SERVICE
        | R_QUERY_SERVICE_CONFIG_W
        | R_QUERY_SERVICE_LOCK_STATUS_W
        | R_NOTIFY_SERVICE_STATUS_CHANGE => number_of(opnum, bytes),
        R_QUERY_SERVICE_OBJECT_SECURITY
        | R_ENUM_DEPENDENT_SERVICES_W
        | R_QUERY_SERVICE_CONFIG2_W
        | R_QUERY_SERVICE_STATUS_EX => numbers_of(opnum, bytes),
        _ => handle_of(opnum, bytes),
    }
}

/// The fields of an opnum's request.
fn fields_of(alloc: Global, opnum: u16, bytes: &[u8]) -> Result<(Request, &[u8]), Stop>
    ensures { Yields (λ x. (x.0, x.1.now)) result (fields_at opnum bytes.now) }
{
    match opnum {
        R_SET_SERVICE_OBJECT_SECURITY => set_security_of(alloc, bytes),
        R_SET_SERVICE_STATUS => set_status_of(bytes),
        R_CHANGE_SERVICE_CONFIG_W => change_of(alloc, bytes),
        R_CREATE_SERVICE_W => create_of(alloc, bytes),
        R_ENUM_SERVICES_STATUS_W => enum_services_of(bytes),
        R_OPEN_SC_MANAGER_W => open_manager_of(alloc, bytes),
        R_START_SERVICE_W => start_of(alloc, bytes),
        R_CHANGE_SERVICE_CONFIG2_W => change2_of(alloc, bytes),
        _ => plain_fields_of(alloc, opnum, bytes),
    }
}

/// An opnum, and the fields of its request.
#[tactic(auto, unfolding(crate::specs::Reading::request_at))]
pub(crate) fn request_of(alloc: Global, bytes: &[u8]) -> Result<(Request, &[u8]), Stop>
    ensures { Yields (λ x. (x.0, x.1.now)) result (request_at bytes.now) }
{
    let (opnum, rest) = n2_of(bytes)?;
    fields_of(alloc, opnum, rest)
}
