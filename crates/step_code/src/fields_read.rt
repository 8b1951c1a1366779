// The fields of a code, read from left to right.
ghost use Rattle.std.specs.Prelude.{◌≡◌, ◌==◌, IfErr, IfOk, false};
ghost use Rattle.std.specs.List.{list_any};
ghost use Rattle.scm_text.specs.Fold.{HasNoZero};
ghost use Rattle.step_code.specs.Reading.{Yields, action_at, byte_at, byte_list_at, flag_at};
ghost use Rattle.step_code.specs.Reading.{items_at, list_at, n2_at, n4_at, n8_at, some_at};
ghost use Rattle.step_code.specs.Reading.{status_at, subtype_at, text_at, trigger_at};
ghost use Rattle.step_code.specs.declared.fields_read.Stop.TheVariants as stops;

use scm_model::{Action, Status, TriggerIn};
use scm_text::{Items, OutOfMemory, WText};
use std::alloc::{AllocError, AllocFailed, Global};

/// Why reading stopped.
#[derive(Clone, Copy)]
pub(crate) enum Stop {
    /// No code begins with these bytes.
    NoCode,
    OutOfMemory,
}

impl From<AllocError> for Stop {
    ghost from_gives = { λ _ e. e ≡ stops.OutOfMemory };

    fn from(_e: AllocError) -> Stop {
        Stop::OutOfMemory
    }
}

impl<T: Drop> From<AllocFailed<T>> for Stop {
    ghost from_gives = { λ _ e. e ≡ stops.OutOfMemory };

    fn from(_e: AllocFailed<T>) -> Stop {
        Stop::OutOfMemory
    }
}

impl From<OutOfMemory> for Stop {
    ghost from_gives = { λ _ e. e ≡ stops.OutOfMemory };

    fn from(_e: OutOfMemory) -> Stop {
        Stop::OutOfMemory
    }
}

#[tactic(auto, unfolding(crate::specs::Reading::byte_at))]
pub(crate) fn byte_of(bytes: &[u8]) -> Result<(u8, &[u8]), Stop>
    ensures { Yields (λ x. (x.0, x.1.now)) result (byte_at bytes.now) }
{
    match bytes {
        [byte, rest @ ..] => Ok((*byte, rest)),
        [] => Err(Stop::NoCode),
    }
}

#[tactic(auto, unfolding(crate::specs::Reading::n2_at))]
pub(crate) fn n2_of(bytes: &[u8]) -> Result<(u16, &[u8]), Stop>
    ensures { Yields (λ x. (x.0, x.1.now)) result (n2_at bytes.now) }
{
    if bytes.len() < 2 {
        return Err(Stop::NoCode);
    }
    let (front, rest) = bytes.split_at(2);
    Ok((u16::from_le_bytes([front[0], front[1]]), rest))
}

#[tactic(auto, unfolding(crate::specs::Reading::n4_at))]
pub(crate) fn n4_of(bytes: &[u8]) -> Result<(u32, &[u8]), Stop>
    ensures { Yields (λ x. (x.0, x.1.now)) result (n4_at bytes.now) }
{
    if bytes.len() < 4 {
        return Err(Stop::NoCode);
    }
    let (front, rest) = bytes.split_at(4);
    let number = u32::from_le_bytes([front[0], front[1], front[2], front[3]]);
    Ok((number, rest))
}

#[tactic(auto, unfolding(crate::specs::Reading::n8_at))]
pub(crate) fn n8_of(bytes: &[u8]) -> Result<(u64, &[u8]), Stop>
    ensures { Yields (λ x. (x.0, x.1.now)) result (n8_at bytes.now) }
{
    if bytes.len() < 8 {
        return Err(Stop::NoCode);
    }
    let (front, rest) = bytes.split_at(8);
    let number = u64::from_le_bytes([
        front[0], front[1], front[2], front[3], front[4], front[5], front[6], front[7],
    ]);
    Ok((number, rest))
}

#[tactic(auto, unfolding(crate::specs::Reading::flag_at))]
pub(crate) fn flag_of(bytes: &[u8]) -> Result<(bool, &[u8]), Stop>
    ensures { Yields (λ x. (x.0, x.1.now)) result (flag_at bytes.now) }
{
    match bytes {
        [0, rest @ ..] => Ok((false, rest)),
        [1, rest @ ..] => Ok((true, rest)),
        _ => Err(Stop::NoCode),
    }
}

/// The 16 bytes of a subtype.
#[tactic(auto, unfolding(crate::specs::Reading::subtype_at))]
pub(crate) fn subtype_of(bytes: &[u8]) -> Result<([u8; 16], &[u8]), Stop>
    ensures { Yields (λ x. (x.0, x.1.now)) result (subtype_at bytes.now) }
{
    if bytes.len() < 16 {
        return Err(Stop::NoCode);
    }
    let (front, rest) = bytes.split_at(16);
    let mut subtype = [0; 16];
    subtype.copy_from_slice(front);
    Ok((subtype, rest))
}

fn units_of(alloc: Global, count: u32, bytes: &[u8]) -> Result<(Vec<u16>, &[u8]), Stop>
    ensures { Yields (λ x. (x.0.items, x.1.now)) result (items_at n2_at count bytes.now) }
{
    let mut units = Vec::new(alloc);
    let mut rest = bytes;
    for _ in 0..count {
        let (unit, after) = n2_of(rest)?;
        units.push(unit)?;
        rest = after;
    }
    Ok((units, rest))
}

#[tactic(auto, unfolding(crate::specs::Reading::list_at))]
fn counted_units(alloc: Global, bytes: &[u8]) -> Result<(Vec<u16>, &[u8]), Stop>
    ensures { Yields (λ x. (x.0.items, x.1.now)) result (list_at n2_at bytes.now) }
{
    let (count, rest) = n4_of(bytes)?;
    units_of(alloc, count, rest)
}

/// Whether one of the units is 0.
fn has_zero(units: &[u16]) -> bool
    ensures value { result ≡ list_any (λ u. u == 0) units.now }
    ensures none { result ≡ false → HasNoZero units.now }
{
    units.iter().any(|unit| *unit == 0)
}

#[tactic(auto, unfolding(crate::specs::Reading::text_at))]
pub(crate) fn text_of(alloc: Global, bytes: &[u8]) -> Result<(WText, &[u8]), Stop>
    ensures { Yields (λ x. (x.0, x.1.now)) result (text_at bytes.now) }
{
    let (units, rest) = counted_units(alloc, bytes)?;
    if has_zero(units.as_slice()) {
        return Err(Stop::NoCode);
    }
    Ok((WText::from_vec(units), rest))
}

/// A copy of some bytes.
fn copied(alloc: Global, bytes: &[u8]) -> Result<Items<u8>, Stop>
    ensures ok { IfOk result (λ copy. copy ≡ bytes.now) }
    ensures err { IfErr result (λ stop. stop ≡ stops.OutOfMemory) }
{
    match Items::from_slice(alloc, bytes) {
        Ok(copy) => Ok(copy),
        Err(_) => Err(Stop::OutOfMemory),
    }
}

/// A count of bytes, and these.
#[tactic(auto, unfolding(crate::specs::Reading::byte_list_at))]
pub(crate) fn byte_list_of(alloc: Global, bytes: &[u8]) -> Result<(Items<u8>, &[u8]), Stop>
    ensures { Yields (λ x. (x.0, x.1.now)) result (byte_list_at bytes.now) }
{
    let (count, rest) = n4_of(bytes)?;
    let count = count as usize;
    if rest.len() < count {
        return Err(Stop::NoCode);
    }
    let (front, rest) = rest.split_at(count);
    Ok((copied(alloc, front)?, rest))
}

#[tactic(auto, unfolding(crate::specs::Reading::some_at))]
pub(crate) fn some_number_of(bytes: &[u8]) -> Result<(Option<u32>, &[u8]), Stop>
    ensures { Yields (λ x. (x.0, x.1.now)) result (some_at n4_at bytes.now) }
{
    let (present, rest) = flag_of(bytes)?;
    if !present {
        return Ok((None, rest));
    }
    let (number, rest) = n4_of(rest)?;
    Ok((Some(number), rest))
}

#[tactic(auto, unfolding(crate::specs::Reading::some_at))]
fn some_subtype_of(bytes: &[u8]) -> Result<(Option<[u8; 16]>, &[u8]), Stop>
    ensures { Yields (λ x. (x.0, x.1.now)) result (some_at subtype_at bytes.now) }
{
    let (present, rest) = flag_of(bytes)?;
    if !present {
        return Ok((None, rest));
    }
    let (subtype, rest) = subtype_of(rest)?;
    Ok((Some(subtype), rest))
}

#[tactic(auto, unfolding(crate::specs::Reading::some_at))]
pub(crate) fn some_text_of(alloc: Global, bytes: &[u8]) -> Result<(Option<WText>, &[u8]), Stop>
    ensures { Yields (λ x. (x.0, x.1.now)) result (some_at text_at bytes.now) }
{
    let (present, rest) = flag_of(bytes)?;
    if !present {
        return Ok((None, rest));
    }
    let (text, rest) = text_of(alloc, rest)?;
    Ok((Some(text), rest))
}

#[tactic(auto, unfolding(crate::specs::Reading::some_at))]
pub(crate) fn some_bytes_of(alloc: Global, bytes: &[u8]) -> Result<(Option<Items<u8>>, &[u8]), Stop>
    ensures { Yields (λ x. (x.0, x.1.now)) result (some_at byte_list_at bytes.now) }
{
    let (present, rest) = flag_of(bytes)?;
    if !present {
        return Ok((None, rest));
    }
    let (list, rest) = byte_list_of(alloc, rest)?;
    Ok((Some(list), rest))
}

fn words_of(alloc: Global, count: u32, bytes: &[u8]) -> Result<(Vec<WText>, &[u8]), Stop>
    ensures { Yields (λ x. (x.0.items, x.1.now)) result (items_at text_at count bytes.now) }
{
    let mut words = Vec::new(alloc);
    let mut rest = bytes;
    for _ in 0..count {
        let (word, after) = text_of(alloc, rest)?;
        words.push(word)?;
        rest = after;
    }
    Ok((words, rest))
}

#[tactic(auto, unfolding(crate::specs::Reading::list_at))]
fn counted_words(alloc: Global, bytes: &[u8]) -> Result<(Items<WText>, &[u8]), Stop>
    ensures { Yields (λ x. (x.0, x.1.now)) result (list_at text_at bytes.now) }
{
    let (count, rest) = n4_of(bytes)?;
    let (words, rest) = words_of(alloc, count, rest)?;
    Ok((Items::from_vec(words), rest))
}

#[tactic(auto, unfolding(crate::specs::Reading::some_at))]
pub(crate) fn some_words_of(
    alloc: Global,
    bytes: &[u8],
) -> Result<(Option<Items<WText>>, &[u8]), Stop>
    ensures { Yields (λ x. (x.0, x.1.now)) result (some_at (list_at text_at) bytes.now) }
{
    let (present, rest) = flag_of(bytes)?;
    if !present {
        return Ok((None, rest));
    }
    let (words, rest) = counted_words(alloc, rest)?;
    Ok((Some(words), rest))
}

#[tactic(auto, unfolding(crate::specs::Reading::action_at))]
pub(crate) fn action_of(bytes: &[u8]) -> Result<(Action, &[u8]), Stop>
    ensures { Yields (λ x. (x.0, x.1.now)) result (action_at bytes.now) }
{
    let (what, rest) = n4_of(bytes)?;
    let (delay, rest) = n4_of(rest)?;
    Ok((Action { what, delay }, rest))
}

fn actions_of(alloc: Global, count: u32, bytes: &[u8]) -> Result<(Vec<Action>, &[u8]), Stop>
    ensures { Yields (λ x. (x.0.items, x.1.now)) result (items_at action_at count bytes.now) }
{
    let mut actions = Vec::new(alloc);
    let mut rest = bytes;
    for _ in 0..count {
        let (action, after) = action_of(rest)?;
        actions.push(action)?;
        rest = after;
    }
    Ok((actions, rest))
}

#[tactic(auto, unfolding(crate::specs::Reading::list_at))]
fn counted_actions(alloc: Global, bytes: &[u8]) -> Result<(Items<Action>, &[u8]), Stop>
    ensures { Yields (λ x. (x.0, x.1.now)) result (list_at action_at bytes.now) }
{
    let (count, rest) = n4_of(bytes)?;
    let (actions, rest) = actions_of(alloc, count, rest)?;
    Ok((Items::from_vec(actions), rest))
}

#[tactic(auto, unfolding(crate::specs::Reading::some_at))]
pub(crate) fn some_actions_of(
    alloc: Global,
    bytes: &[u8],
) -> Result<(Option<Items<Action>>, &[u8]), Stop>
    ensures { Yields (λ x. (x.0, x.1.now)) result (some_at (list_at action_at) bytes.now) }
{
    let (present, rest) = flag_of(bytes)?;
    if !present {
        return Ok((None, rest));
    }
    let (actions, rest) = counted_actions(alloc, rest)?;
    Ok((Some(actions), rest))
}

#[tactic(auto, unfolding(crate::specs::Reading::trigger_at))]
pub(crate) fn trigger_of(bytes: &[u8]) -> Result<(TriggerIn, &[u8]), Stop>
    ensures { Yields (λ x. (x.0, x.1.now)) result (trigger_at bytes.now) }
{
    let (kind, rest) = n4_of(bytes)?;
    let (action, rest) = n4_of(rest)?;
    let (subtype, rest) = some_subtype_of(rest)?;
    let (items, rest) = n4_of(rest)?;
    let trigger = TriggerIn {
        kind,
        action,
        subtype,
        items,
    };
    Ok((trigger, rest))
}

fn triggers_of(alloc: Global, count: u32, bytes: &[u8]) -> Result<(Vec<TriggerIn>, &[u8]), Stop>
    ensures { Yields (λ x. (x.0.items, x.1.now)) result (items_at trigger_at count bytes.now) }
{
    let mut triggers = Vec::new(alloc);
    let mut rest = bytes;
    for _ in 0..count {
        let (trigger, after) = trigger_of(rest)?;
        triggers.push(trigger)?;
        rest = after;
    }
    Ok((triggers, rest))
}

#[tactic(auto, unfolding(crate::specs::Reading::list_at))]
pub(crate) fn counted_triggers(
    alloc: Global,
    bytes: &[u8],
) -> Result<(Items<TriggerIn>, &[u8]), Stop>
    ensures { Yields (λ x. (x.0, x.1.now)) result (list_at trigger_at bytes.now) }
{
    let (count, rest) = n4_of(bytes)?;
    let (triggers, rest) = triggers_of(alloc, count, rest)?;
    Ok((Items::from_vec(triggers), rest))
}

#[tactic(auto, unfolding(crate::specs::Reading::status_at))]
pub(crate) fn status_of(bytes: &[u8]) -> Result<(Status, &[u8]), Stop>
    ensures { Yields (λ x. (x.0, x.1.now)) result (status_at bytes.now) }
{
    let (kind, rest) = n4_of(bytes)?;
    let (state, rest) = n4_of(rest)?;
    let (accepted, rest) = n4_of(rest)?;
    let (win32, rest) = n4_of(rest)?;
    let (specific, rest) = n4_of(rest)?;
    let (checkpoint, rest) = n4_of(rest)?;
    let (hint, rest) = n4_of(rest)?;
    let status = Status {
        kind,
        state,
        accepted,
        win32,
        specific,
        checkpoint,
        hint,
    };
    Ok((status, rest))
}
