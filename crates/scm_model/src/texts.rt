ghost use Rattle.std.specs.Prelude.{◌≡◌, ◌+◌, ◌-◌, ◌*◌, ◌<◌, ◌^◌, length, min};
ghost use Rattle.scm_model.specs.Texts.{some_actions, some_bytes, some_text, some_words, text_of};
ghost use Rattle.scm_model.specs.Texts.{text_of_call, text_of_change, text_of_info, text_of_new};
ghost use Rattle.scm_model.specs.Texts.{text_of_words};

use super::{Action, ChangeService, Info, NewService, Request, Step};
use scm_text::{Items, WText};

/// How much text there is in a text that may be absent.
fn some_text(text: &Option<WText>) -> u128
    ensures text { result ≡ some_text text.now }
    ensures small { result < 2 ^ 66 }
{
    match text {
        Some(text) => 2 * text.units().len() as u128,
        None => 0,
    }
}

/// How much text there is in bytes that may be absent.
fn some_bytes(bytes: &Option<Items<u8>>) -> u128
    ensures text { result ≡ some_bytes bytes.now }
    ensures small { result < 2 ^ 66 }
{
    match bytes {
        Some(bytes) => bytes.len() as u128,
        None => 0,
    }
}

/// How much text the request for a new service has.
fn text_of_new(new: &NewService) -> u128
    ensures text { result ≡ text_of_new new.now }
    ensures small { result < 2 ^ 70 }
{
    2 * new.name.units().len() as u128
        + some_text(&new.display)
        + 2 * new.path.units().len() as u128
        + some_text(&new.group)
        + some_bytes(&new.needs)
        + some_text(&new.account)
}

/// How much text the request for a change has.
fn text_of_change(change: &ChangeService) -> u128
    ensures text { result ≡ text_of_change change.now }
    ensures small { result < 2 ^ 70 }
{
    some_text(&change.path)
        + some_text(&change.group)
        + some_bytes(&change.needs)
        + some_text(&change.account)
        + some_text(&change.display)
}

/// How much text a word has: twice its units, and 8 for the word.
fn text_of_word(word: &WText) -> u128
    ensures { result ≡ 2 * length word.now + 8 }
{
    2 * word.units().len() as u128 + 8
}

/// How much text some words have, as far as numbers go.
fn text_of_words(words: &[WText]) -> u128
    ensures { result ≡ min (text_of_words words.now) (2 ^ 128 - 1) }
{
    let mut text = 0u128;
    for word in words {
        text = text.saturating_add(text_of_word(word));
    }
    text
}

/// How much text there is in words that may be absent.
fn some_words(words: &Option<Items<WText>>) -> u128
    ensures { result ≡ min (some_words words.now) (2 ^ 128 - 1) }
{
    match words {
        Some(words) => text_of_words(words.as_slice()),
        None => 0,
    }
}

/// How much text there is in actions that may be absent: 8 each.
fn some_actions(actions: &Option<Items<Action>>) -> u128
    ensures text { result ≡ some_actions actions.now }
    ensures small { result < 2 ^ 68 }
{
    match actions {
        Some(actions) => 8 * actions.len() as u128,
        None => 0,
    }
}

/// How much text there is in what is asked at a level.
fn text_of_info(info: &Info) -> u128
    ensures text { result ≡ text_of_info info.now }
    ensures small { result < 2 ^ 70 }
{
    match info {
        Info::Description(text) => some_text(text),
        Info::Failure {
            reset: _,
            command,
            actions,
        } => some_text(command) + some_actions(actions),
        Info::Triggers(list) => 32 * list.len() as u128,
        Info::Delayed(_) | Info::OnExit(_) | Info::Other(_) | Info::Nothing(_) => 0,
    }
}

/// How much text a request has, as far as numbers go.
fn text_of_call(request: &Request) -> u128
    ensures { result ≡ min (text_of_call request.now) (2 ^ 128 - 1) }
{
    match request {
        Request::Change(change) => text_of_change(change),
        Request::Create(new) => text_of_new(new),
        Request::Change2 { handle: _, info } => text_of_info(info),
        Request::OpenManager {
            database,
            access: _,
        } => some_text(database),
        Request::OpenService {
            handle: _,
            name,
            access: _,
        }
        | Request::DisplayName {
            handle: _,
            name,
            size: _,
        }
        | Request::KeyName {
            handle: _,
            name,
            size: _,
        } => 2 * name.units().len() as u128,
        Request::SetSecurity {
            handle: _,
            parts: _,
            bytes,
        } => bytes.len() as u128,
        Request::Start { handle: _, words } => some_words(words),
        _ => 0,
    }
}

impl Step {
    /// How much text the step has, as far as numbers go: twice the units of its texts, the bytes of
    /// its lists of bytes, 8 for each word and each action, and 32 for each trigger.
    pub fn text(&self) -> u128
        ensures { result ≡ min (text_of self.now) (2 ^ 128 - 1) }
    {
        match self {
            Step::Call { request, .. } => text_of_call(request),
            _ => 0,
        }
    }
}
