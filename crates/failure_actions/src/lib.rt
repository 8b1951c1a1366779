//! What is done after a failure of a service, by the `SERVICE_FAILURE_ACTIONS` of its
//! configuration.
#![tactic(auto)]

ghost use Rattle.std.specs.Prelude.{◌≡◌, ◌↔◌, IsNone};
ghost use Rattle.failure_actions.specs.Failing.{nth_action, failure_count, due_action};
ghost use Rattle.failure_actions.specs.Failing.{is_forgotten};
ghost use Rattle.failure_actions.specs.Failing.{on_failure};

use scm_model::codes::{INFINITE, SC_ACTION_NONE, SC_ACTION_REBOOT, SC_ACTION_RESTART};
use scm_model::{Action, Config, DueKind};

/// What a failure results in.
#[derive(Clone, Copy, Debug, PartialEq, Eq)]
pub struct Failure {
    /// How many failures count now.
    pub failures: u32,
    /// What is done, where the configuration has any action.
    pub action: Option<Action>,
}

/// Milliseconds of a second.
const SECOND: u128 = 1000;

/// Whether the failures so far are too long ago to count.
fn is_forgotten(config: &Config, last: u64, moment: u64) -> bool
    ensures { result ≡ is_forgotten config.now last moment }
{
    config.reset != INFINITE && last as u128 + config.reset as u128 * SECOND <= moment as u128
}

/// How many failures count after one more.
fn counted(config: &Config, failures: u32, last: u64, moment: u64) -> u32
    ensures { result ≡ failure_count config.now failures last moment }
{
    if failures == 0 || is_forgotten(config, last, moment) {
        1
    } else {
        failures.saturating_add(1)
    }
}

/// The action of a number, counted from 1; the last one where there are fewer.
fn action_at(actions: &[Action], number: u32) -> Option<Action>
    ensures { result ≡ nth_action actions.now number }
{
    let place = actions.len().min(number as usize).saturating_sub(1);
    actions.get(place).copied()
}

/// The count and the action after a failure at this moment, where `failures` counted before it and
/// the last one was at `last`. It takes no memory.
pub fn on_failure(config: &Config, failures: u32, last: u64, moment: u64) -> Failure
    ensures { result ≡ on_failure config.now failures last moment }
{
    let failures = counted(config, failures, last, moment);
    Failure {
        failures,
        action: action_at(config.actions.as_slice(), failures),
    }
}

/// What becomes due by an action of a service; none exactly for the action that is none. A number
/// beyond those of the actions can't stand in a configuration, and would be the last of them. It
/// takes no memory.
pub fn due_action(service: u64, action: &Action) -> Option<DueKind>
    ensures due { result ≡ due_action service action.now }
    ensures nothing { IsNone result ↔ (action.now.what ≡ SC_ACTION_NONE) }
{
    match action.what {
        SC_ACTION_NONE => None,
        SC_ACTION_RESTART => Some(DueKind::Start(service)),
        SC_ACTION_REBOOT => Some(DueKind::Reboot(service)),
        _ => Some(DueKind::Command(service)),
    }
}
