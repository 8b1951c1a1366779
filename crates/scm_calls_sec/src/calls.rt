ghost use Rattle.std.specs.Prelude.{◌≡◌};
ghost use Rattle.scm_calls_sec.specs.Calls.{security_call_at, security_call_of};
ghost use Rattle.scm_calls_sec.specs.Calls.{security_reply_kind};

use scm_calls::ReplyKind;
use scm_model::Request;
use scm_model::codes::{R_QUERY_SERVICE_OBJECT_SECURITY, R_SET_SERVICE_OBJECT_SECURITY};

/// A call whose line is here.
#[derive(Clone, Copy, Debug, PartialEq, Eq)]
pub enum Call {
    QuerySecurity,
    SetSecurity,
}

/// The call of an opnum.
pub fn call_at(opnum: u16) -> Option<Call>
    ensures { result ≡ security_call_at opnum }
{
    match opnum {
        R_QUERY_SERVICE_OBJECT_SECURITY => Some(Call::QuerySecurity),
        R_SET_SERVICE_OBJECT_SECURITY => Some(Call::SetSecurity),
        _ => None,
    }
}

/// The call of a request.
pub fn call_of(request: &Request) -> Option<Call>
    ensures { result ≡ security_call_of request.now }
{
    match request {
        Request::QuerySecurity { .. } => Some(Call::QuerySecurity),
        Request::SetSecurity { .. } => Some(Call::SetSecurity),
        _ => None,
    }
}

/// The kind of a call's replies.
pub fn reply_kind(call: Call) -> ReplyKind
    ensures { result ≡ security_reply_kind call }
{
    match call {
        Call::QuerySecurity => ReplyKind::Bytes,
        Call::SetSecurity => ReplyKind::Code,
    }
}
