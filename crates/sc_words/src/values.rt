ghost use Rattle.std.specs.Prelude.{◌≡◌, IfOk, map};
ghost use Rattle.sc_words.specs.Values.{action_named, actions_named, actions_of, each, error_named};
ghost use Rattle.sc_words.specs.Values.{flag_named, kind_named, name_at, names_at, word_number};
ghost use Rattle.sc_words.specs.Values.{slash_pieces, seconds_at, start_named, what_named};

use super::texts::word_text;
use decimal_words::number_below;
use scm_model::Action;
use scm_model::codes::{
    SERVICE_ERROR_CRITICAL, SERVICE_ERROR_IGNORE, SERVICE_ERROR_NORMAL, SERVICE_ERROR_SEVERE,
    SERVICE_WIN32_OWN_PROCESS, SERVICE_WIN32_SHARE_PROCESS,
};
use scm_text::{Items, OutOfMemory, WText};
use std::alloc::{AllocError, Global};

/// When a service is started.
#[derive(Clone, Copy, PartialEq, Eq)]
pub enum StartType {
    Auto,
    Demand,
    Disabled,
    /// By itself, some time after the others.
    DelayedAuto,
}

/// The type that a word names.
pub fn kind_named(word: &str) -> Option<u32>
    ensures { result ≡ kind_named word.now }
{
    match word {
        "own" => Some(SERVICE_WIN32_OWN_PROCESS),
        "share" => Some(SERVICE_WIN32_SHARE_PROCESS),
        _ => None,
    }
}

/// The start type that a word names.
pub fn start_named(word: &str) -> Option<StartType>
    ensures { result ≡ start_named word.now }
{
    match word {
        "auto" => Some(StartType::Auto),
        "demand" => Some(StartType::Demand),
        "disabled" => Some(StartType::Disabled),
        "delayed-auto" => Some(StartType::DelayedAuto),
        _ => None,
    }
}

/// The error control that a word names.
pub fn error_named(word: &str) -> Option<u32>
    ensures { result ≡ error_named word.now }
{
    match word {
        "ignore" => Some(SERVICE_ERROR_IGNORE),
        "normal" => Some(SERVICE_ERROR_NORMAL),
        "severe" => Some(SERVICE_ERROR_SEVERE),
        "critical" => Some(SERVICE_ERROR_CRITICAL),
        _ => None,
    }
}

/// Whether a word says yes or no.
pub fn flag_named(word: &str) -> Option<bool>
    ensures { result ≡ flag_named word.now }
{
    match word {
        "yes" => Some(true),
        "no" => Some(false),
        _ => None,
    }
}

/// What stands between the slashes of a word.
fn split<'a>(alloc: Global, word: &'a str) -> Result<Vec<&'a str>, AllocError>
    ensures { IfOk result (λ words. map (λ word. word.now) words.items ≡ slash_pieces word.now) }
{
    word.split('/').collect(alloc)
}

/// What stands between the slashes of a word.
pub fn slash_pieces<'a>(alloc: Global, word: &'a str) -> Result<Vec<&'a str>, OutOfMemory>
    ensures { IfOk result (λ words. map (λ word. word.now) words.items ≡ slash_pieces word.now) }
{
    match split(alloc, word) {
        Ok(words) => Ok(words),
        Err(_) => Err(OutOfMemory),
    }
}

/// A name, which isn't empty.
#[tactic(auto, unfolding(crate::specs::Values::name_at))]
fn name_at(alloc: Global, word: &str) -> Result<Option<WText>, OutOfMemory>
    ensures { IfOk result (λ name. name ≡ name_at word.now) }
{
    if word.is_empty() {
        return Ok(None);
    }
    word_text(alloc, word)
}

/// The names that words are, if each is one.
fn names_of(alloc: Global, words: &[&str]) -> Result<Option<Items<WText>>, OutOfMemory>
    ensures { IfOk result (λ names. names ≡ each name_at (map (λ word. word.now) words.now)) }
{
    let mut names = Items::new(alloc);
    for word in words {
        let Some(name) = name_at(alloc, word)? else {
            return Ok(None);
        };
        if names.push(name).is_err() {
            return Err(OutOfMemory);
        }
    }
    Ok(Some(names))
}

/// Names with `/` between them, or none where that is all.
#[tactic(auto, unfolding(crate::specs::Values::names_at))]
pub fn names_at(alloc: Global, word: &str) -> Result<Option<Items<WText>>, OutOfMemory>
    ensures { IfOk result (λ names. names ≡ names_at word.now) }
{
    if word == "/" {
        return Ok(Some(Items::new(alloc)));
    }
    let words = slash_pieces(alloc, word)?;
    names_of(alloc, words.as_slice())
}

/// A number of 32 bits.
pub fn word_number(word: &str) -> Option<u32>
    ensures { result ≡ word_number word.now }
{
    let number = number_below(1 << 32, word.as_bytes())?;
    Some(number as u32)
}

/// Seconds.
#[tactic(auto, unfolding(crate::specs::Values::seconds_at))]
pub fn seconds_at(word: &str) -> Option<u32>
    ensures { result ≡ seconds_at word.now }
{
    if word == "INFINITE" {
        Some(u32::MAX)
    } else {
        word_number(word)
    }
}

/// What is done at a failure.
fn what_named(word: &str) -> Option<u32>
    ensures { result ≡ what_named word.now }
{
    match word {
        "none" => Some(0),
        "restart" => Some(1),
        "reboot" => Some(2),
        "run" => Some(3),
        _ => None,
    }
}

#[tactic(auto, unfolding(crate::specs::Values::action_named))]
fn action_at(what: &str, delay: &str) -> Option<Action>
    ensures { result ≡ action_named what.now delay.now }
{
    let what = what_named(what)?;
    let delay = word_number(delay)?;
    Some(Action { what, delay })
}

/// The actions that words are, each in two words.
fn actions_of(alloc: Global, words: &[&str]) -> Result<Option<Items<Action>>, OutOfMemory>
    ensures { IfOk result (λ actions. actions ≡ actions_of (map (λ word. word.now) words.now)) }
{
    let mut actions = Items::new(alloc);
    let mut place = 0;
    while place < words.len() {
        if place + 1 == words.len() {
            return Ok(None);
        }
        let Some(action) = action_at(words[place], words[place + 1]) else {
            return Ok(None);
        };
        if actions.push(action).is_err() {
            return Err(OutOfMemory);
        }
        place += 2;
    }
    Ok(Some(actions))
}

/// Actions and their delays with `/` between them.
#[tactic(auto, unfolding(crate::specs::Values::actions_named))]
pub fn actions_at(alloc: Global, word: &str) -> Result<Option<Items<Action>>, OutOfMemory>
    ensures { IfOk result (λ actions. actions ≡ actions_named word.now) }
{
    let words = slash_pieces(alloc, word)?;
    actions_of(alloc, words.as_slice())
}
