ghost use Rattle.std.specs.Prelude.{◌≡◌};
ghost use Rattle.scm_model.specs.Ranges.{are_few, are_few_actions, in_range, info_in_range};
ghost use Rattle.scm_model.specs.Ranges.{is_level};

use super::codes::{
    MAX_CONFIG_SIZE, MAX_ENUM_SIZE, MAX_LOCK_STATUS_SIZE, MAX_SECURITY_SIZE, SC_MAX_ACTIONS,
    SC_MAX_ARGUMENTS, SC_MAX_TRIGGERS, SERVICE_CONFIG_DELAYED_AUTO_START_INFO,
    SERVICE_CONFIG_DESCRIPTION, SERVICE_CONFIG_FAILURE_ACTIONS,
    SERVICE_CONFIG_FAILURE_ACTIONS_FLAG, SERVICE_CONFIG_TRIGGER_INFO,
};
use super::{Action, Info, Request};
use scm_text::{Items, WText};

/// Whether the words of a start are as many as there may be at most, or absent.
fn are_few(words: &Option<Items<WText>>) -> bool
    ensures { result ≡ are_few words.now }
{
    match words {
        Some(words) => words.len() as u64 <= SC_MAX_ARGUMENTS as u64,
        None => true,
    }
}

/// Whether the actions are as many as there may be at most, or absent.
fn are_few_actions(actions: &Option<Items<Action>>) -> bool
    ensures { result ≡ are_few_actions actions.now }
{
    match actions {
        Some(actions) => actions.len() as u64 <= SC_MAX_ACTIONS as u64,
        None => true,
    }
}

/// Whether a level of configurations is served.
pub fn is_level(level: u32) -> bool
    ensures { result ≡ is_level level }
{
    level == SERVICE_CONFIG_DESCRIPTION
        || level == SERVICE_CONFIG_FAILURE_ACTIONS
        || level == SERVICE_CONFIG_DELAYED_AUTO_START_INFO
        || level == SERVICE_CONFIG_FAILURE_ACTIONS_FLAG
        || level == SERVICE_CONFIG_TRIGGER_INFO
}

impl Info {
    /// Whether each count that it states is in its range, and the level is one that it can be of.
    fn in_range(&self) -> bool
        ensures { result ≡ info_in_range self.now }
    {
        match self {
            Info::Description(_) | Info::Delayed(_) | Info::OnExit(_) => true,
            Info::Failure { actions, .. } => are_few_actions(actions),
            Info::Triggers(list) => list.len() as u64 <= SC_MAX_TRIGGERS as u64,
            Info::Other(level) => !is_level(*level),
            Info::Nothing(level) => is_level(*level),
        }
    }
}

impl Request {
    /// Whether each size and count that it states is in the range that MS-SCMR sets for it, or,
    /// for a security descriptor, this server. A request that is read from a body is.
    pub fn in_range(&self) -> bool
        ensures { result ≡ in_range self.now }
    {
        match self {
            Request::EnumDependents { size, .. } | Request::EnumServices { size, .. } => {
                *size <= MAX_ENUM_SIZE
            }
            Request::QueryConfig { size, .. }
            | Request::QueryConfig2 { size, .. }
            | Request::QueryStatusEx { size, .. } => *size <= MAX_CONFIG_SIZE,
            Request::Change2 { handle: _, info } => info.in_range(),
            Request::QueryLock { handle: _, size } => *size <= MAX_LOCK_STATUS_SIZE,
            Request::Start { handle: _, words } => are_few(words),
            Request::QuerySecurity { size, .. } => *size <= MAX_SECURITY_SIZE,
            Request::SetSecurity { bytes, .. } => bytes.len() as u64 <= MAX_SECURITY_SIZE as u64,
            _ => true,
        }
    }
}
