// How long a code is.
ghost use Rattle.std.specs.Prelude.{◌≡◌, ◌+◌, ◌*◌, ◌<◌, ◌≤◌, ◌^◌, IfNone, IfSome, length};
ghost use Rattle.scm_model.specs.Texts.{some_actions, some_bytes, some_text, some_words, text_of};
ghost use Rattle.scm_model.specs.Texts.{text_of_call, text_of_change, text_of_info, text_of_new};
ghost use Rattle.scm_model.specs.Texts.{text_of_words};
ghost use Rattle.step_code.specs.Sizes.{actions_size, bytes_size, change_size, code_size};
ghost use Rattle.step_code.specs.Sizes.{create_size, fields_size, info_size, some_size, step_size};
ghost use Rattle.step_code.specs.Sizes.{text_size, trigger_size, triggers_size, words_size};

use scm_model::{Action, ChangeService, Info, NewService, Request, Step, TriggerIn};
use scm_text::{Items, WText};

fn text_length(text: &WText) -> u64
    requires { length text.now < 2 ^ 32 }
    ensures { result ≡ text_size text.now }
{
    4 + 2 * text.units().len() as u64
}

fn some_text_length(text: &Option<WText>) -> u64
    requires { some_text text.now < 2 ^ 32 }
    ensures size { result ≡ some_size text_size text.now }
    ensures small { result ≤ 5 + some_text text.now }
{
    match text {
        Some(text) => 1 + text_length(text),
        None => 1,
    }
}

fn some_bytes_length(bytes: &Option<Items<u8>>) -> u64
    requires { some_bytes bytes.now < 2 ^ 32 }
    ensures size { result ≡ some_size bytes_size bytes.now }
    ensures small { result ≤ 5 + some_bytes bytes.now }
{
    match bytes {
        Some(bytes) => 5 + bytes.len() as u64,
        None => 1,
    }
}

fn some_number_length(number: Option<u32>) -> u64
    ensures size { result ≡ some_size (λ _. 4) number }
    ensures small { result ≤ 5 }
{
    match number {
        Some(_) => 5,
        None => 1,
    }
}

fn words_length(words: &[WText]) -> u64
    requires { text_of_words words.now < 2 ^ 32 }
    ensures size { result ≡ words_size words.now }
    ensures small { result ≤ 4 + text_of_words words.now }
{
    let mut size = 4;
    for word in words {
        size += text_length(word);
    }
    size
}

fn some_words_length(words: &Option<Items<WText>>) -> u64
    requires { some_words words.now < 2 ^ 32 }
    ensures size { result ≡ some_size words_size words.now }
    ensures small { result ≤ 5 + some_words words.now }
{
    match words {
        Some(words) => 1 + words_length(words.as_slice()),
        None => 1,
    }
}

fn some_actions_length(actions: &Option<Items<Action>>) -> u64
    requires { some_actions actions.now < 2 ^ 32 }
    ensures size { result ≡ some_size actions_size actions.now }
    ensures small { result ≤ 5 + some_actions actions.now }
{
    match actions {
        Some(actions) => 5 + 8 * actions.len() as u64,
        None => 1,
    }
}

fn trigger_length(trigger: &TriggerIn) -> u64
    ensures size { result ≡ trigger_size trigger.now }
    ensures small { result ≤ 29 }
{
    if trigger.subtype.is_some() { 29 } else { 13 }
}

fn triggers_length(triggers: &[TriggerIn]) -> u64
    requires { 32 * length triggers.now < 2 ^ 32 }
    ensures size { result ≡ triggers_size triggers.now }
    ensures small { result ≤ 4 + 29 * length triggers.now }
{
    let mut size = 4;
    for trigger in triggers {
        size += trigger_length(trigger);
    }
    size
}

fn info_length(info: &Info) -> u64
    requires { text_of_info info.now < 2 ^ 32 }
    ensures size { result ≡ info_size info.now }
    ensures small { result ≤ 20 + text_of_info info.now }
{
    match info {
        Info::Description(text) => 1 + some_text_length(text),
        Info::Failure {
            command,
            actions,
            ..
        } => 5 + some_text_length(command) + some_actions_length(actions),
        Info::Triggers(triggers) => 1 + triggers_length(triggers.as_slice()),
        Info::Delayed(_) | Info::OnExit(_) => 2,
        Info::Other(_) | Info::Nothing(_) => 5,
    }
}

fn change_length(change: &ChangeService) -> u64
    requires { text_of_change change.now < 2 ^ 32 }
    ensures size { result ≡ change_size change.now }
    ensures small { result ≤ 50 + text_of_change change.now }
{
    20 + some_text_length(&change.path)
        + some_text_length(&change.group)
        + some_number_length(change.tag)
        + some_bytes_length(&change.needs)
        + some_text_length(&change.account)
        + some_text_length(&change.display)
}

fn create_length(new: &NewService) -> u64
    requires { text_of_new new.now < 2 ^ 32 }
    ensures size { result ≡ create_size new.now }
    ensures small { result ≤ 57 + text_of_new new.now }
{
    24 + text_length(&new.name)
        + some_text_length(&new.display)
        + text_length(&new.path)
        + some_text_length(&new.group)
        + some_number_length(new.tag)
        + some_bytes_length(&new.needs)
        + some_text_length(&new.account)
}

fn fields_length(request: &Request) -> u64
    requires { text_of_call request.now < 2 ^ 32 }
    ensures size { result ≡ fields_size request.now }
    ensures small { result ≤ 60 + text_of_call request.now }
{
    match request {
        Request::Control { .. }
        | Request::QueryConfig { .. }
        | Request::QueryLock { .. }
        | Request::Notify { .. } => 12,
        Request::QuerySecurity { .. }
        | Request::EnumDependents { .. }
        | Request::QueryConfig2 { .. }
        | Request::QueryStatusEx { .. } => 16,
        Request::SetSecurity { bytes, .. } => 16 + bytes.len() as u64,
        Request::SetStatus { .. } => 36,
        Request::Change(change) => change_length(change),
        Request::Create(new) => create_length(new),
        Request::EnumServices { resume, .. } => 20 + some_number_length(*resume),
        Request::OpenManager { database, .. } => 4 + some_text_length(database),
        Request::OpenService { name, .. }
        | Request::DisplayName { name, .. }
        | Request::KeyName { name, .. } => 12 + text_length(name),
        Request::Start { words, .. } => 8 + some_words_length(words),
        Request::Change2 { info, .. } => 8 + info_length(info),
        _ => 8,
    }
}

fn step_length(step: &Step) -> u64
    requires { text_of step.now < 2 ^ 32 }
    ensures size { result ≡ step_size step.now }
    ensures small { result ≤ 72 + text_of step.now }
{
    match step {
        Step::Joined { .. } => 2,
        Step::Call { request, .. } => 12 + fields_length(request),
        Step::EndStart { .. } => 17,
        Step::LaunchTaken | Step::Tick => 1,
        Step::Launched { .. } | Step::LaunchFailed { .. } => 13,
        Step::Report { .. } => 45,
        Step::Raised { .. } => 25,
        Step::Ended { .. }
        | Step::ControlTaken { .. }
        | Step::Gone { .. }
        | Step::NoMemory { .. } => 9,
    }
}

/// How many bytes the code of an entry with this step has. There is none if the step's text, as
/// `Step::text` counts it, has 2^32 bytes or more: a count might need more than four bytes.
pub fn code_length(step: &Step) -> Option<usize>
    ensures size { IfSome result (λ size. size ≡ code_size step.now) }
    ensures short { IfSome result (λ _. text_of step.now < 2 ^ 32) }
    ensures none { IfNone result (2 ^ 32 ≤ text_of step.now) }
{
    if 0xFFFF_FFFF < step.text() {
        return None;
    }
    Some((8 + step_length(step)) as usize)
}
