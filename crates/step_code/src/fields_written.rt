// The fields of a code, written into room that there is.
ghost use Rattle.std.specs.Prelude.{◌≡◌, ◌+◌, ◌*◌, ◌++◌, ◌∷◌, ◌<◌, ◌≤◌, ◌^◌, [], All, length};
ghost use Rattle.std.specs.List.{flat_map, sum_by};
ghost use Rattle.scm_model.specs.Texts.{some_actions, some_bytes, some_text, some_words};
ghost use Rattle.scm_model.specs.Texts.{text_of_words};
ghost use Rattle.step_code.specs.Codes.{action, byte_list, flag, list, n2, n4, n8, some, status};
ghost use Rattle.step_code.specs.Codes.{subtype, text, trigger};
ghost use Rattle.step_code.specs.Fits.{AreItems, Is4, IsAction, IsByteList, IsAbsentOr, IsStatus};
ghost use Rattle.step_code.specs.Fits.{IsSubtype, IsText, IsTrigger};
ghost use Rattle.step_code.specs.Sizes.{actions_size, bytes_size, some_size, text_size};
ghost use Rattle.step_code.specs.Sizes.{trigger_size, triggers_size, words_size};

use scm_model::{Action, Status, TriggerIn};
use scm_text::{Buffer, Items, WText};

pub(crate) fn put_byte(out: &mut Buffer<u8>, byte: u8)
    requires { 1 ≤ out.old.room }
    ensures bytes { out.new.items ≡ out.old.items ++ byte ∷ [] }
    ensures room { out.new.room + 1 ≡ out.old.room }
{
    out.push(byte);
}

pub(crate) fn put2(out: &mut Buffer<u8>, number: u16)
    requires { 2 ≤ out.old.room }
    ensures bytes { out.new.items ≡ out.old.items ++ n2 number }
    ensures room { out.new.room + 2 ≡ out.old.room }
{
    out.extend(&number.to_le_bytes());
}

pub(crate) fn put4(out: &mut Buffer<u8>, number: u32)
    requires { 4 ≤ out.old.room }
    ensures bytes { out.new.items ≡ out.old.items ++ n4 number }
    ensures room { out.new.room + 4 ≡ out.old.room }
{
    out.extend(&number.to_le_bytes());
}

pub(crate) fn put8(out: &mut Buffer<u8>, number: u64)
    requires { 8 ≤ out.old.room }
    ensures bytes { out.new.items ≡ out.old.items ++ n8 number }
    ensures room { out.new.room + 8 ≡ out.old.room }
{
    out.extend(&number.to_le_bytes());
}

pub(crate) fn put_flag(out: &mut Buffer<u8>, value: bool)
    requires { 1 ≤ out.old.room }
    ensures bytes { out.new.items ≡ out.old.items ++ flag value }
    ensures room { out.new.room + 1 ≡ out.old.room }
{
    if value {
        out.push(1);
    } else {
        out.push(0);
    }
}

fn put_units(out: &mut Buffer<u8>, units: &[u16])
    requires { 2 * length units.now ≤ out.old.room }
    ensures bytes { out.new.items ≡ out.old.items ++ flat_map n2 units.now }
    ensures room { out.new.room + 2 * length units.now ≡ out.old.room }
    ensures fits { All (λ u. u < 2 ^ 16) units.now }
{
    for unit in units {
        put2(out, *unit);
    }
}

/// A count of units, and these.
pub(crate) fn put_text(out: &mut Buffer<u8>, value: &WText)
    requires room { text_size value.now ≤ out.old.room }
    requires short { length value.now < 2 ^ 32 }
    ensures bytes { out.new.items ≡ out.old.items ++ text value.now }
    ensures room { out.new.room + text_size value.now ≡ out.old.room }
    ensures fits { IsText value.now }
{
    put4(out, value.units().len() as u32);
    put_units(out, value.units());
}

/// A count of bytes, and these.
pub(crate) fn put_bytes(out: &mut Buffer<u8>, value: &Items<u8>)
    requires room { bytes_size value.now ≤ out.old.room }
    requires short { length value.now < 2 ^ 32 }
    ensures bytes { out.new.items ≡ out.old.items ++ byte_list value.now }
    ensures room { out.new.room + bytes_size value.now ≡ out.old.room }
{
    put4(out, value.len() as u32);
    out.extend(value.as_slice());
}

pub(crate) fn put_subtype(out: &mut Buffer<u8>, value: &[u8; 16])
    requires { 16 ≤ out.old.room }
    ensures bytes { out.new.items ≡ out.old.items ++ subtype value.now }
    ensures room { out.new.room + 16 ≡ out.old.room }
    ensures fits { IsSubtype value.now }
{
    out.extend(value);
}

pub(crate) fn put_some_number(out: &mut Buffer<u8>, value: Option<u32>)
    requires { some_size (λ _. 4) value ≤ out.old.room }
    ensures bytes { out.new.items ≡ out.old.items ++ some n4 value }
    ensures room { out.new.room + some_size (λ _. 4) value ≡ out.old.room }
    ensures fits { IsAbsentOr Is4 value }
{
    match value {
        Some(number) => {
            put_flag(out, true);
            put4(out, number);
        }
        None => put_flag(out, false),
    }
}

pub(crate) fn put_some_text(out: &mut Buffer<u8>, value: &Option<WText>)
    requires room { some_size text_size value.now ≤ out.old.room }
    requires short { some_text value.now < 2 ^ 32 }
    ensures bytes { out.new.items ≡ out.old.items ++ some text value.now }
    ensures room { out.new.room + some_size text_size value.now ≡ out.old.room }
    ensures fits { IsAbsentOr IsText value.now }
{
    match value {
        Some(value) => {
            put_flag(out, true);
            put_text(out, value);
        }
        None => put_flag(out, false),
    }
}

pub(crate) fn put_some_bytes(out: &mut Buffer<u8>, value: &Option<Items<u8>>)
    requires room { some_size bytes_size value.now ≤ out.old.room }
    requires short { some_bytes value.now < 2 ^ 32 }
    ensures bytes { out.new.items ≡ out.old.items ++ some byte_list value.now }
    ensures room { out.new.room + some_size bytes_size value.now ≡ out.old.room }
    ensures fits { IsAbsentOr IsByteList value.now }
{
    match value {
        Some(value) => {
            put_flag(out, true);
            put_bytes(out, value);
        }
        None => put_flag(out, false),
    }
}

fn put_some_subtype(out: &mut Buffer<u8>, value: &Option<[u8; 16]>)
    requires { some_size (λ _. 16) value.now ≤ out.old.room }
    ensures bytes { out.new.items ≡ out.old.items ++ some subtype value.now }
    ensures room { out.new.room + some_size (λ _. 16) value.now ≡ out.old.room }
    ensures fits { IsAbsentOr IsSubtype value.now }
{
    match value {
        Some(value) => {
            put_flag(out, true);
            put_subtype(out, value);
        }
        None => put_flag(out, false),
    }
}

fn put_each_word(out: &mut Buffer<u8>, words: &[WText])
    requires room { sum_by text_size words.now ≤ out.old.room }
    requires short { text_of_words words.now < 2 ^ 32 }
    ensures bytes { out.new.items ≡ out.old.items ++ flat_map text words.now }
    ensures room { out.new.room + sum_by text_size words.now ≡ out.old.room }
    ensures fits { All IsText words.now }
{
    for word in words {
        put_text(out, word);
    }
}

/// A count of words, and these.
#[tactic(auto, using(crate::proofs::Words::short_list))]
fn put_words(out: &mut Buffer<u8>, words: &[WText])
    requires room { words_size words.now ≤ out.old.room }
    requires short { text_of_words words.now < 2 ^ 32 }
    ensures bytes { out.new.items ≡ out.old.items ++ list text words.now }
    ensures room { out.new.room + words_size words.now ≡ out.old.room }
    ensures fits { AreItems IsText words.now }
{
    put4(out, words.len() as u32);
    put_each_word(out, words);
}

pub(crate) fn put_some_words(out: &mut Buffer<u8>, value: &Option<Items<WText>>)
    requires room { some_size words_size value.now ≤ out.old.room }
    requires short { some_words value.now < 2 ^ 32 }
    ensures bytes { out.new.items ≡ out.old.items ++ some (list text) value.now }
    ensures room { out.new.room + some_size words_size value.now ≡ out.old.room }
    ensures fits { IsAbsentOr (AreItems IsText) value.now }
{
    match value {
        Some(words) => {
            put_flag(out, true);
            put_words(out, words.as_slice());
        }
        None => put_flag(out, false),
    }
}

fn put_action(out: &mut Buffer<u8>, value: &Action)
    requires { 8 ≤ out.old.room }
    ensures bytes { out.new.items ≡ out.old.items ++ action value.now }
    ensures room { out.new.room + 8 ≡ out.old.room }
    ensures fits { IsAction value.now }
{
    put4(out, value.what);
    put4(out, value.delay);
}

fn put_each_action(out: &mut Buffer<u8>, actions: &[Action])
    requires { 8 * length actions.now ≤ out.old.room }
    ensures bytes { out.new.items ≡ out.old.items ++ flat_map action actions.now }
    ensures room { out.new.room + 8 * length actions.now ≡ out.old.room }
    ensures fits { All IsAction actions.now }
{
    for value in actions {
        put_action(out, value);
    }
}

pub(crate) fn put_some_actions(out: &mut Buffer<u8>, value: &Option<Items<Action>>)
    requires room { some_size actions_size value.now ≤ out.old.room }
    requires short { some_actions value.now < 2 ^ 32 }
    ensures bytes { out.new.items ≡ out.old.items ++ some (list action) value.now }
    ensures room { out.new.room + some_size actions_size value.now ≡ out.old.room }
    ensures fits { IsAbsentOr (AreItems IsAction) value.now }
{
    match value {
        Some(actions) => {
            put_flag(out, true);
            put4(out, actions.len() as u32);
            put_each_action(out, actions.as_slice());
        }
        None => put_flag(out, false),
    }
}

fn put_trigger(out: &mut Buffer<u8>, value: &TriggerIn)
    requires { trigger_size value.now ≤ out.old.room }
    ensures bytes { out.new.items ≡ out.old.items ++ trigger value.now }
    ensures room { out.new.room + trigger_size value.now ≡ out.old.room }
    ensures fits { IsTrigger value.now }
{
    put4(out, value.kind);
    put4(out, value.action);
    put_some_subtype(out, &value.subtype);
    put4(out, value.items);
}

fn put_each_trigger(out: &mut Buffer<u8>, triggers: &[TriggerIn])
    requires { sum_by trigger_size triggers.now ≤ out.old.room }
    ensures bytes { out.new.items ≡ out.old.items ++ flat_map trigger triggers.now }
    ensures room { out.new.room + sum_by trigger_size triggers.now ≡ out.old.room }
    ensures fits { All IsTrigger triggers.now }
{
    for value in triggers {
        put_trigger(out, value);
    }
}

/// A count of triggers, and these.
pub(crate) fn put_triggers(out: &mut Buffer<u8>, triggers: &[TriggerIn])
    requires room { triggers_size triggers.now ≤ out.old.room }
    requires few { length triggers.now < 2 ^ 32 }
    ensures bytes { out.new.items ≡ out.old.items ++ list trigger triggers.now }
    ensures room { out.new.room + triggers_size triggers.now ≡ out.old.room }
    ensures fits { AreItems IsTrigger triggers.now }
{
    put4(out, triggers.len() as u32);
    put_each_trigger(out, triggers);
}

pub(crate) fn put_status(out: &mut Buffer<u8>, value: &Status)
    requires { 28 ≤ out.old.room }
    ensures bytes { out.new.items ≡ out.old.items ++ status value.now }
    ensures room { out.new.room + 28 ≡ out.old.room }
    ensures fits { IsStatus value.now }
{
    put4(out, value.kind);
    put4(out, value.state);
    put4(out, value.accepted);
    put4(out, value.win32);
    put4(out, value.specific);
    put4(out, value.checkpoint);
    put4(out, value.hint);
}
