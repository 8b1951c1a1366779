ghost use Rattle.std.specs.Prelude.{◌≡◌};
ghost use Rattle.scm_calls_cfg.specs.Calls.{config_call_at, config_call_of, config_reply_kind};

use scm_calls::ReplyKind;
use scm_model::Request;
use scm_model::codes::{
    R_CHANGE_SERVICE_CONFIG_W, R_CHANGE_SERVICE_CONFIG2_W, R_CREATE_SERVICE_W,
    R_QUERY_SERVICE_CONFIG_W, R_QUERY_SERVICE_CONFIG2_W,
};

/// A call whose line is here.
#[derive(Clone, Copy, Debug, PartialEq, Eq)]
pub enum Call {
    Change,
    Create,
    QueryConfig,
    Change2,
    QueryConfig2,
}

/// The call of an opnum.
pub fn call_at(opnum: u16) -> Option<Call>
    ensures { result ≡ config_call_at opnum }
{
    match opnum {
        R_CHANGE_SERVICE_CONFIG_W => Some(Call::Change),
        R_CREATE_SERVICE_W => Some(Call::Create),
        R_QUERY_SERVICE_CONFIG_W => Some(Call::QueryConfig),
        R_CHANGE_SERVICE_CONFIG2_W => Some(Call::Change2),
        R_QUERY_SERVICE_CONFIG2_W => Some(Call::QueryConfig2),
        _ => None,
    }
}

/// The call of a request.
pub fn call_of(request: &Request) -> Option<Call>
    ensures { result ≡ config_call_of request.now }
{
    match request {
        Request::Change(_) => Some(Call::Change),
        Request::Create(_) => Some(Call::Create),
        Request::QueryConfig { .. } => Some(Call::QueryConfig),
        Request::Change2 { .. } => Some(Call::Change2),
        Request::QueryConfig2 { .. } => Some(Call::QueryConfig2),
        _ => None,
    }
}

/// The kind of a call's replies.
pub fn reply_kind(call: Call) -> ReplyKind
    ensures { result ≡ config_reply_kind call }
{
    match call {
        Call::Change => ReplyKind::Tag,
        Call::Create => ReplyKind::Made,
        Call::QueryConfig => ReplyKind::Shown,
        Call::Change2 => ReplyKind::Code,
        Call::QueryConfig2 => ReplyKind::Bytes,
    }
}
