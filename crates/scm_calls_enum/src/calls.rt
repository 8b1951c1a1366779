ghost use Rattle.std.specs.Prelude.{◌≡◌};
ghost use Rattle.scm_calls_enum.specs.Calls.{enum_call_at, enum_call_of, enum_reply_kind};

use scm_calls::ReplyKind;
use scm_model::Request;
use scm_model::codes::{
    R_CLOSE_NOTIFY_HANDLE, R_ENUM_DEPENDENT_SERVICES_W, R_ENUM_SERVICES_STATUS_W,
    R_GET_NOTIFY_RESULTS, R_NOTIFY_SERVICE_STATUS_CHANGE, R_QUERY_SERVICE_STATUS_EX,
};

/// A call whose line is here.
#[derive(Clone, Copy, Debug, PartialEq, Eq)]
pub enum Call {
    EnumDependents,
    EnumServices,
    QueryStatusEx,
    Notify,
    GetNotify,
    CloseNotify,
}

/// The call of an opnum.
pub fn call_at(opnum: u16) -> Option<Call>
    ensures { result ≡ enum_call_at opnum }
{
    match opnum {
        R_ENUM_DEPENDENT_SERVICES_W => Some(Call::EnumDependents),
        R_ENUM_SERVICES_STATUS_W => Some(Call::EnumServices),
        R_QUERY_SERVICE_STATUS_EX => Some(Call::QueryStatusEx),
        R_NOTIFY_SERVICE_STATUS_CHANGE => Some(Call::Notify),
        R_GET_NOTIFY_RESULTS => Some(Call::GetNotify),
        R_CLOSE_NOTIFY_HANDLE => Some(Call::CloseNotify),
        _ => None,
    }
}

/// The call of a request.
pub fn call_of(request: &Request) -> Option<Call>
    ensures { result ≡ enum_call_of request.now }
{
    match request {
        Request::EnumDependents { .. } => Some(Call::EnumDependents),
        Request::EnumServices { .. } => Some(Call::EnumServices),
        Request::QueryStatusEx { .. } => Some(Call::QueryStatusEx),
        Request::Notify { .. } => Some(Call::Notify),
        Request::GetNotify { .. } => Some(Call::GetNotify),
        Request::CloseNotify { .. } => Some(Call::CloseNotify),
        _ => None,
    }
}

/// The kind of a call's replies.
pub fn reply_kind(call: Call) -> ReplyKind
    ensures { result ≡ enum_reply_kind call }
{
    match call {
        Call::EnumDependents => ReplyKind::Listing,
        Call::EnumServices => ReplyKind::Page,
        Call::QueryStatusEx => ReplyKind::Bytes,
        Call::Notify | Call::CloseNotify => ReplyKind::Handle,
        Call::GetNotify => ReplyKind::Notice,
    }
}
