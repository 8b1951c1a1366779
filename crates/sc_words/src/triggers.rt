ghost use Rattle.std.specs.Prelude.{◌≡◌, IfOk, drop, map};
ghost use Rattle.sc_words.specs.Along.{IsPut, with_next};
ghost use Rattle.sc_words.specs.Places.{AnswersAs, each_from};
ghost use Rattle.sc_words.specs.Triggers.{subtype_named, trigger_action, trigger_kind};
ghost use Rattle.sc_words.specs.Triggers.{trigger_named, trigger_of, trigger_of_parts, uuid_named};

use super::fault::WordsFault;
use super::values::slash_pieces;
use scm_model::TriggerIn;
use scm_model::codes::{
    SERVICE_TRIGGER_ACTION_SERVICE_START, SERVICE_TRIGGER_ACTION_SERVICE_STOP,
    SERVICE_TRIGGER_TYPE_CUSTOM,
};
use scm_text::{Items, OutOfMemory, Text};
use std::alloc::Global;
use uuid::Uuid;

/// What a trigger does.
fn trigger_action(word: &str) -> Option<u32>
    ensures { result ≡ trigger_action word.now }
{
    match word {
        "start" => Some(SERVICE_TRIGGER_ACTION_SERVICE_START),
        "stop" => Some(SERVICE_TRIGGER_ACTION_SERVICE_STOP),
        _ => None,
    }
}

/// The type of a trigger.
fn trigger_kind(word: &str) -> Option<u32>
    ensures { result ≡ trigger_kind word.now }
{
    match word {
        "custom" => Some(SERVICE_TRIGGER_TYPE_CUSTOM),
        _ => None,
    }
}

/// The UUID that a word is.
fn uuid_named(word: &str) -> Option<Uuid>
    ensures { result ≡ uuid_named word.now }
{
    Uuid::parse_str(word).ok()
}

/// A UUID as it lies in memory, of the form with hyphens, which has 36 characters.
#[tactic(auto, unfolding(crate::specs::Triggers::subtype_named))]
fn subtype_named(word: &str) -> Option<[u8; 16]>
    ensures { result ≡ subtype_named word.now }
{
    if word.len() != 36 {
        return None;
    }
    let uuid = uuid_named(word)?;
    Some(uuid.to_bytes_le())
}

/// The trigger of an action, a type and a subtype.
#[tactic(auto, unfolding(crate::specs::Triggers::trigger_of_parts))]
fn trigger_of_parts(action: &str, kind: &str, subtype: &str) -> Option<TriggerIn>
    ensures { result ≡ trigger_of_parts action.now kind.now subtype.now }
{
    let action = trigger_action(action)?;
    let kind = trigger_kind(kind)?;
    let subtype = subtype_named(subtype)?;
    Some(TriggerIn {
        kind,
        action,
        subtype: Some(subtype),
        items: 0,
    })
}

/// The trigger that an action, a type and a subtype are.
fn trigger_of(pieces: &[&str]) -> Option<TriggerIn>
    ensures { result ≡ trigger_of (map (λ word. word.now) pieces.now) }
{
    match pieces {
        [action, kind, subtype] => trigger_of_parts(action, kind, subtype),
        _ => None,
    }
}

/// The trigger that a word is: an action, a type and a subtype with `/` between them.
#[tactic(auto, unfolding(crate::specs::Triggers::trigger_named))]
fn trigger_named(alloc: Global, word: &str) -> Result<Option<TriggerIn>, OutOfMemory>
    ensures { IfOk result (λ trigger. trigger ≡ trigger_named word.now) }
{
    let pieces = slash_pieces(alloc, word)?;
    let trigger = trigger_of(pieces.as_slice());
    drop(pieces);
    Ok(trigger)
}

/// Adds the trigger that the word at a place is.
fn add_trigger(
    alloc: Global,
    triggers: &mut Items<TriggerIn>,
    place: usize,
    word: &str,
) -> Result<(), WordsFault>
    ensures { IsPut place (with_next triggers.old (trigger_named word.now)) triggers.new result }
{
    let Some(trigger) = trigger_named(alloc, word)? else {
        return Err(WordsFault::BadWord(place));
    };
    match triggers.push(trigger) {
        Ok(()) => Ok(()),
        Err(_) => Err(WordsFault::OutOfMemory),
    }
}

/// The triggers that the words from a place on are, or the place of the first word that is none.
pub fn triggers_from(
    alloc: Global,
    words: &[Text],
    start: usize,
) -> Result<Items<TriggerIn>, WordsFault>
    ensures { AnswersAs result (each_from trigger_named start (drop start words.now)) }
{
    let mut triggers = Items::new(alloc);
    for place in start..words.len() {
        if let Err(fault) = add_trigger(alloc, &mut triggers, place, words[place].as_str()) {
            drop(triggers);
            return Err(fault);
        }
    }
    Ok(triggers)
}
