ghost use Rattle.std.specs.Prelude.{◌≡◌, ◌<◌, IsSome, IfErr, None, OnOk, drop, length};
ghost use Rattle.sc_words.specs.Along.{IsPairRead, IsPut};
ghost use Rattle.sc_words.specs.Places.{AnswersAs};
ghost use Rattle.sc_words.specs.declared.fault.WordsFault.TheVariants as faults;
ghost use Rattle.sc_words.specs.Settings.{is_given, is_of_failure, key_at, key_named, no_settings};
ghost use Rattle.sc_words.specs.Settings.{settings_from, takes_key, with_value};

use super::fault::WordsFault;
use super::texts::word_text;
use super::values::{
    StartType, actions_at, error_named, flag_named, kind_named, names_at, seconds_at, start_named,
};
use super::verb::Verb;
use scm_model::Action;
use scm_text::{Items, Text, WText};
use std::alloc::Global;

/// A word that says what the next word is. It ends in `=`.
#[derive(Clone, Copy, PartialEq, Eq)]
pub enum Key {
    BinPath,
    Type,
    Start,
    Error,
    Group,
    Tag,
    Depend,
    DisplayName,
    Obj,
    Reset,
    Actions,
    Command,
}

/// What the keys of a command say. What no key says is absent.
pub struct Settings {
    pub path: Option<WText>,
    /// The type, as in a configuration.
    pub kind: Option<u32>,
    pub start: Option<StartType>,
    /// The error control, as in a configuration.
    pub error: Option<u32>,
    pub group: Option<WText>,
    /// Whether a tag is asked for.
    pub tag: Option<bool>,
    /// The names of services, and after `+` those of groups.
    pub needs: Option<Items<WText>>,
    pub display: Option<WText>,
    pub account: Option<WText>,
    /// Seconds.
    pub reset: Option<u32>,
    pub actions: Option<Items<Action>>,
    pub command: Option<WText>,
}

impl Drop for Settings {
    fn drop(self) {
        let Settings {
            path,
            kind: _,
            start: _,
            error: _,
            group,
            tag: _,
            needs,
            display,
            account,
            reset: _,
            actions,
            command,
        } = self;
        drop(path);
        drop(group);
        drop(needs);
        drop(display);
        drop(account);
        drop(actions);
        drop(command);
    }
}

/// The key that a word is.
fn key_named(word: &str) -> Option<Key>
    ensures { result ≡ key_named word.now }
{
    match word {
        "binPath=" => Some(Key::BinPath),
        "type=" => Some(Key::Type),
        "start=" => Some(Key::Start),
        "error=" => Some(Key::Error),
        "group=" => Some(Key::Group),
        "tag=" => Some(Key::Tag),
        "depend=" => Some(Key::Depend),
        "DisplayName=" => Some(Key::DisplayName),
        "obj=" => Some(Key::Obj),
        "reset=" => Some(Key::Reset),
        "actions=" => Some(Key::Actions),
        "command=" => Some(Key::Command),
        _ => None,
    }
}

impl Key {
    /// Whether it is a key of failure actions.
    fn is_of_failure(self) -> bool
        ensures { result ≡ is_of_failure self }
    {
        matches!(self, Key::Reset | Key::Actions | Key::Command)
    }
}

/// Whether a verb takes a key.
fn takes_key(verb: Verb, key: Key) -> bool
    ensures { result ≡ takes_key verb key }
{
    match verb {
        Verb::Create | Verb::Config => !key.is_of_failure(),
        Verb::Failure => key.is_of_failure(),
        _ => false,
    }
}

/// Where a value is to stand.
fn put<T: Drop>(place: usize, into: &mut Option<T>, value: Option<T>) -> Result<(), WordsFault>
    ensures ok { OnOk result (IsSome into.new × (into.new ≡ value)) }
    ensures err { IfErr result (λ fault. (value ≡ None) × (fault ≡ faults.BadWord place)) }
{
    match value {
        Some(value) => {
            *into = Some(value);
            Ok(())
        }
        None => Err(WordsFault::BadWord(place)),
    }
}

impl Settings {
    /// No key stood yet.
    fn new() -> Settings
        ensures { result ≡ no_settings }
    {
        Settings {
            path: None,
            kind: None,
            start: None,
            error: None,
            group: None,
            tag: None,
            needs: None,
            display: None,
            account: None,
            reset: None,
            actions: None,
            command: None,
        }
    }

    /// Whether a key stood before.
    fn is_given(&self, key: Key) -> bool
        ensures { result ≡ is_given key self.now }
    {
        match key {
            Key::BinPath => self.path.is_some(),
            Key::Type => self.kind.is_some(),
            Key::Start => self.start.is_some(),
            Key::Error => self.error.is_some(),
            Key::Group => self.group.is_some(),
            Key::Tag => self.tag.is_some(),
            Key::Depend => self.needs.is_some(),
            Key::DisplayName => self.display.is_some(),
            Key::Obj => self.account.is_some(),
            Key::Reset => self.reset.is_some(),
            Key::Actions => self.actions.is_some(),
            Key::Command => self.command.is_some(),
        }
    }

    /// Puts the value of a key that stands at a place.
    fn set(&mut self, alloc: Global, key: Key, place: usize, word: &str) -> Result<(), WordsFault>
        ensures { IsPut place (with_value key word.now self.old) self.new result }
    {
        match key {
            Key::BinPath => put(place, &mut self.path, word_text(alloc, word)?),
            Key::Type => put(place, &mut self.kind, kind_named(word)),
            Key::Start => put(place, &mut self.start, start_named(word)),
            Key::Error => put(place, &mut self.error, error_named(word)),
            Key::Group => put(place, &mut self.group, word_text(alloc, word)?),
            Key::Tag => put(place, &mut self.tag, flag_named(word)),
            Key::Depend => put(place, &mut self.needs, names_at(alloc, word)?),
            Key::DisplayName => put(place, &mut self.display, word_text(alloc, word)?),
            Key::Obj => put(place, &mut self.account, word_text(alloc, word)?),
            Key::Reset => put(place, &mut self.reset, seconds_at(word)),
            Key::Actions => put(place, &mut self.actions, actions_at(alloc, word)?),
            Key::Command => put(place, &mut self.command, word_text(alloc, word)?),
        }
    }

    /// The key that a word is, if the verb takes it and it didn't stand before.
    #[tactic(auto, unfolding(crate::specs::Settings::key_at))]
    fn key_at(&self, verb: Verb, word: &str) -> Option<Key>
        ensures { result ≡ key_at verb self.now word.now }
    {
        let key = key_named(word)?;
        if takes_key(verb, key) && !self.is_given(key) {
            Some(key)
        } else {
            None
        }
    }

    /// Reads the key at a place of the words, and its value after it.
    fn read_pair(
        &mut self,
        alloc: Global,
        verb: Verb,
        place: usize,
        words: &[Text],
    ) -> Result<(), WordsFault>
        requires { place < length words.now }
        ensures { IsPairRead verb place words.now self.old self.new result }
    {
        let Some(key) = self.key_at(verb, words[place].as_str()) else {
            return Err(WordsFault::BadWord(place));
        };
        if place + 1 == words.len() {
            return Err(WordsFault::BadWord(place + 1));
        }
        self.set(alloc, key, place + 1, words[place + 1].as_str())
    }
}

/// What the words from a place on give: keys, each with its value.
pub fn settings_from(
    alloc: Global,
    verb: Verb,
    place: usize,
    words: &[Text],
) -> Result<Settings, WordsFault>
    ensures { AnswersAs result (settings_from verb place no_settings (drop place words.now)) }
{
    let mut settings = Settings::new();
    let mut place = place;
    while place < words.len() {
        settings.read_pair(alloc, verb, place, words)?;
        place += 2;
    }
    Ok(settings)
}
