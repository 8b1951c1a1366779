ghost use Rattle.std.specs.Prelude.{◌≡◌, ◌==◌, ◌||◌, nat_lt, option_copied};
ghost use Rattle.std.specs.List.{list_any};
ghost use Rattle.service_record.specs.Checks.{check_change, check_new, has_bad_lists};
ghost use Rattle.service_record.specs.Checks.{has_bad_names, has_bad_numbers, has_bad_texts};
ghost use Rattle.service_record.specs.Checks.{is_bad_account, is_bad_name, is_longer, name_of_need};

use super::lines::is_bad_line;
use scm_model::codes::{
    ERROR_INVALID_NAME, ERROR_INVALID_PARAMETER, ERROR_INVALID_SERVICE_ACCOUNT,
};
use scm_model::{Action, Config, Need};
use scm_text::{WText, same_units};

/// Whether a slash of either kind is among the units.
fn has_slash(units: &[u16]) -> bool
    ensures { result ≡ list_any (λ u. u == 47 || u == 92) units.now }
{
    for unit in units {
        if *unit == 47 || *unit == 92 {
            return true;
        }
    }
    false
}

fn is_longer(units: usize, text: &WText) -> bool
    ensures { result ≡ is_longer units text.now }
{
    units < text.units().len()
}

/// Whether a text is no name of a service: that is what `ERROR_INVALID_NAME` (123) is for.
pub fn is_bad_name(name: &WText) -> bool
    ensures { result ≡ is_bad_name name.now }
{
    let units = name.units();
    units.len() == 0 || 256 < units.len() || has_slash(units)
}

fn has_bad_names(config: &Config) -> bool
    ensures { result ≡ has_bad_names config.now }
{
    is_bad_name(&config.name) || is_longer(256, &config.display)
}

fn has_bad_numbers(config: &Config) -> bool
    ensures { result ≡ has_bad_numbers config.now }
{
    !(config.kind == 0x10 || config.kind == 0x20)
        || !(2 <= config.start && config.start <= 4)
        || 3 < config.error
        || (config.delayed && config.start != 2)
}

fn has_bad_texts(config: &Config) -> bool
    ensures { result ≡ has_bad_texts config.now }
{
    is_bad_line(config.path.units())
        || is_longer(256, &config.group)
        || is_longer(2048, &config.description)
        || (config.command.units().len() != 0 && is_bad_line(config.command.units()))
}

fn name_of_need(need: &Need) -> &WText
    ensures { result.now ≡ name_of_need need.now }
{
    match need {
        Need::Service(name) | Need::Group(name) => name,
    }
}

fn has_long_need(needs: &[Need]) -> bool
    ensures { result ≡ list_any (λ need. is_longer 256 (name_of_need need)) needs.now }
{
    for need in needs {
        if is_longer(256, name_of_need(need)) {
            return true;
        }
    }
    false
}

fn has_bad_action(actions: &[Action]) -> bool
    ensures { result ≡ list_any (λ action. nat_lt 3 action.what) actions.now }
{
    for action in actions {
        if 3 < action.what {
            return true;
        }
    }
    false
}

/// Whether a configuration has needs, actions or triggers that no service may have: that is what
/// `ERROR_INVALID_PARAMETER` (87) is for.
pub fn has_bad_lists(config: &Config) -> bool
    ensures { result ≡ has_bad_lists config.now }
{
    512 < config.needs.len()
        || has_long_need(config.needs.as_slice())
        || 64 < config.actions.len()
        || has_bad_action(config.actions.as_slice())
        || 64 < config.triggers.len()
}

/// `LocalSystem`
const LOCAL_SYSTEM: [u16; 11] = [76, 111, 99, 97, 108, 83, 121, 115, 116, 101, 109];

/// Whether an account is another than `LocalSystem`, which an absent or empty one stands for too.
pub fn is_bad_account(account: Option<&WText>) -> bool
    ensures { result ≡ is_bad_account (option_copied account.entry) }
{
    match account {
        Some(account) => {
            account.units().len() != 0 && !same_units(account.units(), &LOCAL_SYSTEM)
        }
        None => false,
    }
}

/// What a configuration of a new service is refused with, as a code of MS-ERREF, or 0:
/// `ERROR_INVALID_NAME` (123),
/// `ERROR_INVALID_PARAMETER` (87) or `ERROR_INVALID_SERVICE_ACCOUNT` (1057), in this order. It
/// takes no memory.
#[tactic(auto, unfolding(crate::specs::Checks::check_new))]
pub fn check_new(config: &Config, account: Option<&WText>) -> u32
    ensures { result ≡ check_new config.now (option_copied account.entry) }
{
    if has_bad_names(config) {
        return ERROR_INVALID_NAME;
    }
    if has_bad_numbers(config) || has_bad_texts(config) || has_bad_lists(config) {
        return ERROR_INVALID_PARAMETER;
    }
    if is_bad_account(account) {
        return ERROR_INVALID_SERVICE_ACCOUNT;
    }
    0
}

/// The same of a configuration that is to replace another. It takes no memory.
pub fn check_change(old: &Config, new: &Config, account: Option<&WText>) -> u32
    ensures { result ≡ check_change old.now new.now (option_copied account.entry) }
{
    check_new(new, account)
}
