// The fields of a code, passed over without memory.
ghost use Rattle.std.specs.Prelude.{IfSome};
ghost use Rattle.step_code.specs.Fronts.{HasUnits, Leaves};
ghost use Rattle.step_code.specs.Reading.{action_at, byte_list_at, flag_at, items_at, list_at};
ghost use Rattle.step_code.specs.Reading.{n4_at, n8_at, some_at, status_at, text_at, trigger_at};

use crate::fields_read::{
    action_of, flag_of, n2_of, n4_of, n8_of, some_number_of, status_of, trigger_of,
};

pub(crate) fn after_n4(bytes: &[u8]) -> Option<&[u8]>
    ensures { IfSome result (λ rest. Leaves (n4_at bytes.now) rest.now) }
{
    let Ok((_, rest)) = n4_of(bytes) else {
        return None;
    };
    Some(rest)
}

pub(crate) fn after_n8(bytes: &[u8]) -> Option<&[u8]>
    ensures { IfSome result (λ rest. Leaves (n8_at bytes.now) rest.now) }
{
    let Ok((_, rest)) = n8_of(bytes) else {
        return None;
    };
    Some(rest)
}

pub(crate) fn after_flag(bytes: &[u8]) -> Option<&[u8]>
    ensures { IfSome result (λ rest. Leaves (flag_at bytes.now) rest.now) }
{
    let Ok((_, rest)) = flag_of(bytes) else {
        return None;
    };
    Some(rest)
}

pub(crate) fn after_some_n4(bytes: &[u8]) -> Option<&[u8]>
    ensures { IfSome result (λ rest. Leaves (some_at n4_at bytes.now) rest.now) }
{
    let Ok((_, rest)) = some_number_of(bytes) else {
        return None;
    };
    Some(rest)
}

pub(crate) fn after_status(bytes: &[u8]) -> Option<&[u8]>
    ensures { IfSome result (λ rest. Leaves (status_at bytes.now) rest.now) }
{
    let Ok((_, rest)) = status_of(bytes) else {
        return None;
    };
    Some(rest)
}

/// The bytes after so many units, if none of these is 0.
fn after_units(count: u32, bytes: &[u8]) -> Option<&[u8]>
    ensures { IfSome result (λ rest. HasUnits count bytes.now rest.now) }
{
    let mut rest = bytes;
    for _ in 0..count {
        let Ok((unit, after)) = n2_of(rest) else {
            return None;
        };
        if unit == 0 {
            return None;
        }
        rest = after;
    }
    Some(rest)
}

pub(crate) fn after_text(bytes: &[u8]) -> Option<&[u8]>
    ensures { IfSome result (λ rest. Leaves (text_at bytes.now) rest.now) }
{
    let Ok((count, rest)) = n4_of(bytes) else {
        return None;
    };
    after_units(count, rest)
}

pub(crate) fn after_some_text(bytes: &[u8]) -> Option<&[u8]>
    ensures { IfSome result (λ rest. Leaves (some_at text_at bytes.now) rest.now) }
{
    let Ok((present, rest)) = flag_of(bytes) else {
        return None;
    };
    if present {
        after_text(rest)
    } else {
        Some(rest)
    }
}

/// The bytes after so many texts.
fn after_words(count: u32, bytes: &[u8]) -> Option<&[u8]>
    ensures { IfSome result (λ rest. Leaves (items_at text_at count bytes.now) rest.now) }
{
    let mut rest = bytes;
    for _ in 0..count {
        rest = after_text(rest)?;
    }
    Some(rest)
}

fn after_counted_words(bytes: &[u8]) -> Option<&[u8]>
    ensures { IfSome result (λ rest. Leaves (list_at text_at bytes.now) rest.now) }
{
    let Ok((count, rest)) = n4_of(bytes) else {
        return None;
    };
    after_words(count, rest)
}

pub(crate) fn after_some_words(bytes: &[u8]) -> Option<&[u8]>
    ensures { IfSome result (λ rest. Leaves (some_at (list_at text_at) bytes.now) rest.now) }
{
    let Ok((present, rest)) = flag_of(bytes) else {
        return None;
    };
    if present {
        after_counted_words(rest)
    } else {
        Some(rest)
    }
}

pub(crate) fn after_byte_list(bytes: &[u8]) -> Option<&[u8]>
    ensures { IfSome result (λ rest. Leaves (byte_list_at bytes.now) rest.now) }
{
    let Ok((count, rest)) = n4_of(bytes) else {
        return None;
    };
    let count = count as usize;
    if rest.len() < count {
        return None;
    }
    let (_, rest) = rest.split_at(count);
    Some(rest)
}

pub(crate) fn after_some_bytes(bytes: &[u8]) -> Option<&[u8]>
    ensures { IfSome result (λ rest. Leaves (some_at byte_list_at bytes.now) rest.now) }
{
    let Ok((present, rest)) = flag_of(bytes) else {
        return None;
    };
    if present {
        after_byte_list(rest)
    } else {
        Some(rest)
    }
}

fn after_action(bytes: &[u8]) -> Option<&[u8]>
    ensures { IfSome result (λ rest. Leaves (action_at bytes.now) rest.now) }
{
    let Ok((_, rest)) = action_of(bytes) else {
        return None;
    };
    Some(rest)
}

/// The bytes after so many actions.
fn after_actions(count: u32, bytes: &[u8]) -> Option<&[u8]>
    ensures { IfSome result (λ rest. Leaves (items_at action_at count bytes.now) rest.now) }
{
    let mut rest = bytes;
    for _ in 0..count {
        rest = after_action(rest)?;
    }
    Some(rest)
}

fn after_counted_actions(bytes: &[u8]) -> Option<&[u8]>
    ensures { IfSome result (λ rest. Leaves (list_at action_at bytes.now) rest.now) }
{
    let Ok((count, rest)) = n4_of(bytes) else {
        return None;
    };
    after_actions(count, rest)
}

pub(crate) fn after_some_actions(bytes: &[u8]) -> Option<&[u8]>
    ensures { IfSome result (λ rest. Leaves (some_at (list_at action_at) bytes.now) rest.now) }
{
    let Ok((present, rest)) = flag_of(bytes) else {
        return None;
    };
    if present {
        after_counted_actions(rest)
    } else {
        Some(rest)
    }
}

fn after_trigger(bytes: &[u8]) -> Option<&[u8]>
    ensures { IfSome result (λ rest. Leaves (trigger_at bytes.now) rest.now) }
{
    let Ok((_, rest)) = trigger_of(bytes) else {
        return None;
    };
    Some(rest)
}

/// The bytes after so many triggers.
fn after_triggers(count: u32, bytes: &[u8]) -> Option<&[u8]>
    ensures { IfSome result (λ rest. Leaves (items_at trigger_at count bytes.now) rest.now) }
{
    let mut rest = bytes;
    for _ in 0..count {
        rest = after_trigger(rest)?;
    }
    Some(rest)
}

pub(crate) fn after_counted_triggers(bytes: &[u8]) -> Option<&[u8]>
    ensures { IfSome result (λ rest. Leaves (list_at trigger_at bytes.now) rest.now) }
{
    let Ok((count, rest)) = n4_of(bytes) else {
        return None;
    };
    after_triggers(count, rest)
}
