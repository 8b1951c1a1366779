ghost use Rattle.std.specs.Prelude.{◌≡◌, drop};
ghost use Rattle.sc_words.specs.Places.{AnswersAs, fits, no_word_at, seen_word, word_at};
ghost use Rattle.sc_words.specs.Words.{without_rest, bit_in, bit_named, command_of, creation_in};
ghost use Rattle.sc_words.specs.Words.{failure_in, lone_command, lone_task, named_command};
ghost use Rattle.sc_words.specs.Words.{number_in, task_of, one_text, text_in_place, texts_from};
ghost use Rattle.sc_words.specs.Words.{security_in, triggers_in};

use super::command::{Command, Level, Task};
use super::fault::WordsFault;
use super::security::{NewSecurity, security_named};
use super::settings::{Settings, settings_from};
use super::texts::word_text;
use super::triggers::triggers_from;
use super::values::word_number;
use super::verb::{Verb, verb_named};
use scm_model::TriggerIn;
use scm_model::codes::{
    SERVICE_CONTROL_CONTINUE, SERVICE_CONTROL_INTERROGATE, SERVICE_CONTROL_PAUSE,
    SERVICE_CONTROL_STOP,
};
use scm_text::{Items, Text, WText};
use std::alloc::Global;

/// Where the words after `ADDRESS VERB NAME` begin.
const REST: usize = 3;

/// The word at a place.
#[tactic(auto, unfolding(crate::specs::Places::word_at))]
fn word_at(words: &[Text], place: usize) -> Result<&str, WordsFault>
    ensures { AnswersAs (seen_word result) (word_at place words.now) }
{
    match words.get(place) {
        Some(word) => Ok(word.as_str()),
        None => Err(WordsFault::BadWord(words.len())),
    }
}

/// That no word stands at a place or after it.
#[tactic(auto, unfolding(crate::specs::Places::no_word_at))]
fn no_word_at(words: &[Text], place: usize) -> Result<(), WordsFault>
    ensures { AnswersAs result (no_word_at place words.now) }
{
    if words.len() <= place {
        Ok(())
    } else {
        Err(WordsFault::BadWord(place))
    }
}

/// What a word at a place stands for.
fn fits<T: Drop>(place: usize, value: Option<T>) -> Result<T, WordsFault>
    ensures { AnswersAs result (fits place value) }
{
    match value {
        Some(value) => Ok(value),
        None => Err(WordsFault::BadWord(place)),
    }
}

/// The text that the word at a place is.
#[tactic(auto, unfolding(crate::specs::Words::text_in_place))]
fn text_in_place(alloc: Global, words: &[Text], place: usize) -> Result<WText, WordsFault>
    ensures { AnswersAs result (text_in_place place words.now) }
{
    let word = word_at(words, place)?;
    fits(place, word_text(alloc, word)?)
}

/// The one text of the rest.
#[tactic(auto, unfolding(crate::specs::Words::one_text))]
fn one_text(alloc: Global, words: &[Text]) -> Result<WText, WordsFault>
    ensures { AnswersAs result (one_text words.now) }
{
    let text = text_in_place(alloc, words, REST)?;
    no_word_at(words, REST + 1)?;
    Ok(text)
}

/// The one number of the rest.
#[tactic(auto, unfolding(crate::specs::Words::number_in))]
fn number_in(words: &[Text]) -> Result<u32, WordsFault>
    ensures { AnswersAs result (number_in words.now) }
{
    let word = word_at(words, REST)?;
    let number = fits(REST, word_number(word))?;
    no_word_at(words, REST + 1)?;
    Ok(number)
}

/// Whether a word is 1, and not 0.
fn bit_named(word: &str) -> Option<bool>
    ensures { result ≡ bit_named word.now }
{
    match word {
        "0" => Some(false),
        "1" => Some(true),
        _ => None,
    }
}

/// The one bit of the rest.
#[tactic(auto, unfolding(crate::specs::Words::bit_in))]
fn bit_in(words: &[Text]) -> Result<bool, WordsFault>
    ensures { AnswersAs result (bit_in words.now) }
{
    let word = word_at(words, REST)?;
    let bit = fits(REST, bit_named(word))?;
    no_word_at(words, REST + 1)?;
    Ok(bit)
}

/// The words from a place on as texts.
fn texts_from(alloc: Global, words: &[Text], start: usize) -> Result<Items<WText>, WordsFault>
    ensures { AnswersAs result (texts_from start (drop start words.now)) }
{
    let mut texts = Items::new(alloc);
    for place in start..words.len() {
        let Some(text) = word_text(alloc, words[place].as_str())? else {
            return Err(WordsFault::BadWord(place));
        };
        if texts.push(text).is_err() {
            return Err(WordsFault::OutOfMemory);
        }
    }
    Ok(texts)
}

/// The triggers of the rest: one or more, or `delete`.
#[tactic(auto, unfolding(crate::specs::Words::triggers_in))]
fn triggers_in(alloc: Global, words: &[Text]) -> Result<Items<TriggerIn>, WordsFault>
    ensures { AnswersAs result (triggers_in words.now) }
{
    let word = word_at(words, REST)?;
    if word == "delete" {
        no_word_at(words, REST + 1)?;
        return Ok(Items::new(alloc));
    }
    triggers_from(alloc, words, REST)
}

/// The one descriptor of the rest.
#[tactic(auto, unfolding(crate::specs::Words::security_in, crate::specs::Places::no_word_at))]
fn security_in(alloc: Global, words: &[Text]) -> Result<NewSecurity, WordsFault>
    ensures { AnswersAs result (security_in words.now) }
{
    let word = word_at(words, REST)?;
    let Some(new) = security_named(alloc, word)? else {
        return Err(WordsFault::BadWord(REST));
    };
    if words.len() <= REST + 1 {
        Ok(new)
    } else {
        drop(new);
        Err(WordsFault::BadWord(REST + 1))
    }
}

/// The settings of a creation, which has a path.
#[tactic(auto, unfolding(crate::specs::Words::creation_in, crate::specs::Words::settings_in))]
fn creation(alloc: Global, words: &[Text]) -> Result<Settings, WordsFault>
    ensures { AnswersAs result (creation_in words.now) }
{
    let settings = settings_from(alloc, Verb::Create, REST, words)?;
    if settings.path.is_some() {
        Ok(settings)
    } else {
        Err(WordsFault::BadWord(words.len()))
    }
}

/// The settings of failure actions: a reset and actions come together.
#[tactic(auto, unfolding(crate::specs::Words::failure_in, crate::specs::Words::settings_in))]
fn failure(alloc: Global, words: &[Text]) -> Result<Settings, WordsFault>
    ensures { AnswersAs result (failure_in words.now) }
{
    let settings = settings_from(alloc, Verb::Failure, REST, words)?;
    if settings.reset.is_some() == settings.actions.is_some() {
        Ok(settings)
    } else {
        Err(WordsFault::BadWord(words.len()))
    }
}

/// A task that goes by no further word.
fn without_rest(task: Task, words: &[Text]) -> Result<Task, WordsFault>
    ensures { AnswersAs result (without_rest task words.now) }
{
    no_word_at(words, REST)?;
    Ok(task)
}

/// What a verb does by the words.
#[tactic(auto, unfolding(crate::specs::Words::settings_in))]
fn task_of(alloc: Global, verb: Verb, words: &[Text]) -> Result<Task, WordsFault>
    ensures { AnswersAs result (task_of verb words.now) }
{
    match verb {
        Verb::Create => Ok(Task::Create(creation(alloc, words)?)),
        Verb::Config => Ok(Task::Config(settings_from(alloc, verb, REST, words)?)),
        Verb::Description => Ok(Task::Description(one_text(alloc, words)?)),
        Verb::Failure => Ok(Task::Failure(failure(alloc, words)?)),
        Verb::Start => Ok(Task::Start(texts_from(alloc, words, REST)?)),
        Verb::Stop => without_rest(Task::Control(SERVICE_CONTROL_STOP), words),
        Verb::Pause => without_rest(Task::Control(SERVICE_CONTROL_PAUSE), words),
        Verb::Continue => without_rest(Task::Control(SERVICE_CONTROL_CONTINUE), words),
        Verb::Interrogate => without_rest(Task::Control(SERVICE_CONTROL_INTERROGATE), words),
        Verb::Control => Ok(Task::Control(number_in(words)?)),
        Verb::Query => without_rest(Task::Query, words),
        Verb::Delete => without_rest(Task::Delete, words),
        Verb::QueryConfig => without_rest(Task::QueryConfig, words),
        Verb::QueryEx => without_rest(Task::QueryEx, words),
        Verb::QueryDescription => without_rest(Task::QueryLevel(Level::Description), words),
        Verb::QueryFailure => without_rest(Task::QueryLevel(Level::Failure), words),
        Verb::QueryFailureFlag => without_rest(Task::QueryLevel(Level::FailureFlag), words),
        Verb::FailureFlag => Ok(Task::FailureFlag(bit_in(words)?)),
        Verb::QueryTriggerInfo => without_rest(Task::QueryLevel(Level::Triggers), words),
        Verb::TriggerInfo => Ok(Task::Triggers(triggers_in(alloc, words)?)),
        Verb::EnumDepend => without_rest(Task::EnumDepend, words),
        Verb::GetDisplayName => without_rest(Task::DisplayName, words),
        Verb::GetKeyName => without_rest(Task::KeyName, words),
        Verb::QueryLock => Err(WordsFault::BadWord(2)),
        Verb::ShowSecurity => without_rest(Task::QuerySecurity, words),
        Verb::SetSecurity => Ok(Task::SetSecurity(security_in(alloc, words)?)),
    }
}

/// What a verb does that stands alone.
fn lone_task(verb: Verb) -> Option<Task>
    ensures { result ≡ lone_task verb }
{
    match verb {
        Verb::Query => Some(Task::QueryAll),
        Verb::QueryLock => Some(Task::QueryLock),
        _ => None,
    }
}

/// What a verb that may stand alone asks of the manager.
fn lone_command(
    alloc: Global,
    address: &str,
    verb: Verb,
    words: &[Text],
) -> Result<Command, WordsFault>
    ensures { AnswersAs result (lone_command address.now (lone_task verb) words.now) }
{
    match lone_task(verb) {
        Some(task) => {
            let address = Text::from_str(alloc, address)?;
            let name = WText::new(alloc);
            Ok(Command {
                address,
                name,
                task,
            })
        }
        None => Err(WordsFault::BadWord(words.len())),
    }
}

/// What a verb asks by the words `NAME REST`.
#[tactic(auto, unfolding(crate::specs::Words::named_command))]
fn named_command(
    alloc: Global,
    address: &str,
    verb: Verb,
    words: &[Text],
) -> Result<Command, WordsFault>
    ensures { AnswersAs result (named_command address.now verb words.now) }
{
    let name = text_in_place(alloc, words, 2)?;
    let task = task_of(alloc, verb, words)?;
    Ok(Command {
        address: Text::from_str(alloc, address)?,
        name,
        task,
    })
}

/// What the words `ADDRESS VERB NAME REST` ask for, or `ADDRESS VERB`.
#[tactic(auto, unfolding(crate::specs::Words::command_of))]
pub fn read_words(alloc: Global, words: &Items<Text>) -> Result<Command, WordsFault>
    // A command exactly where there is one, else the first word that doesn't fit.
    ensures { AnswersAs result (command_of words.now) }
{
    let words = words.as_slice();
    let address = word_at(words, 0)?;
    let verb = fits(1, verb_named(word_at(words, 1)?))?;
    if words.len() == 2 {
        lone_command(alloc, address, verb, words)
    } else {
        named_command(alloc, address, verb, words)
    }
}
