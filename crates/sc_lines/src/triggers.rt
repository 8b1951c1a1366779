ghost use Rattle.std.specs.Prelude.{◌≡◌, ◌++◌, ◌≤◌, ◌^◌, OnOk, length, map};
ghost use Rattle.std.specs.List.{flat_map};
ghost use Rattle.sc_lines.specs.Triggers.{counted_triggers, guid_at, kind_label, named_triggers};
ghost use Rattle.sc_lines.specs.Triggers.{no_triggers, subtype_note, trigger_action_name};
ghost use Rattle.sc_lines.specs.Triggers.{trigger_by, trigger_lines, trigger_text, triggers_text};
ghost use Rattle.sc_lines.specs.Triggers.{uuid_at, uuid_text};

use super::lines::{Appended, Line, add_lines};
use super::printing::printed;
use super::reading::{after, byte_at, number_at, rows};
use scm_model::codes::{
    SERVICE_TRIGGER_ACTION_SERVICE_START, SERVICE_TRIGGER_ACTION_SERVICE_STOP,
    SERVICE_TRIGGER_TYPE_CUSTOM,
};
use scm_text::{Items, OutOfMemory};
use std::alloc::Global;
use uuid::Uuid;

fn trigger_action_name(action: u32) -> &'static str
    ensures { result.now ≡ trigger_action_name action }
{
    match action {
        SERVICE_TRIGGER_ACTION_SERVICE_START => "START SERVICE",
        SERVICE_TRIGGER_ACTION_SERVICE_STOP => "STOP SERVICE",
        _ => "UNKNOWN",
    }
}

fn kind_label(kind: u32) -> &'static str
    ensures { result.now ≡ kind_label kind }
{
    match kind {
        SERVICE_TRIGGER_TYPE_CUSTOM => "CUSTOM: ",
        _ => "UNKNOWN: ",
    }
}

/// What the subtype of a type is.
fn subtype_note(kind: u32) -> &'static str
    ensures { result.now ≡ subtype_note kind }
{
    match kind {
        SERVICE_TRIGGER_TYPE_CUSTOM => " [ETW PROVIDER UUID]\n",
        _ => "\n",
    }
}

/// The sixteen bytes at a place.
fn guid_at(bytes: &[u8], at: usize) -> [u8; 16]
    requires { at ≤ 2 ^ 62 }
    ensures { result ≡ guid_at bytes.now at }
{
    [
        byte_at(bytes, at),
        byte_at(bytes, at + 1),
        byte_at(bytes, at + 2),
        byte_at(bytes, at + 3),
        byte_at(bytes, at + 4),
        byte_at(bytes, at + 5),
        byte_at(bytes, at + 6),
        byte_at(bytes, at + 7),
        byte_at(bytes, at + 8),
        byte_at(bytes, at + 9),
        byte_at(bytes, at + 10),
        byte_at(bytes, at + 11),
        byte_at(bytes, at + 12),
        byte_at(bytes, at + 13),
        byte_at(bytes, at + 14),
        byte_at(bytes, at + 15),
    ]
}

/// The UUID that lies at a place as it does in memory.
#[tactic(auto, unfolding(crate::specs::Triggers::uuid_at))]
fn uuid_at(bytes: &[u8], at: usize) -> Uuid
    requires { at ≤ 2 ^ 62 }
    ensures { result ≡ uuid_at bytes.now at }
{
    Uuid::from_bytes_le(guid_at(bytes, at))
}

/// A UUID with hyphens, in lower case.
#[tactic(auto, unfolding(crate::specs::Triggers::uuid_text))]
fn uuid_text<'b>(uuid: Uuid, buffer: &'b mut [u8]) -> &'b str
    requires { 36 ≤ length buffer.old }
    ensures { result.now ≡ uuid_text uuid }
{
    uuid.hyphenated().encode_lower(buffer)
}

/// Appends what a trigger does, and what is raised for it.
fn add_raised(
    text: &mut Items<u8>,
    action: &str,
    label: &str,
    subtype: &str,
    note: &str,
) -> Appended
    ensures { OnOk result (text.new
        ≡ text.old ++ trigger_text action.now label.now subtype.now note.now) }
{
    text.append_pair(action.as_bytes(), b"\n")?;
    text.append_pair(label.as_bytes(), subtype.as_bytes())?;
    text.append(note.as_bytes())
}

/// Appends what a trigger of a type does, and what is raised for it.
fn add_by(text: &mut Items<u8>, action: &str, kind: u32, subtype: &str) -> Appended
    ensures { OnOk result (text.new ≡ text.old ++ trigger_by action.now kind subtype.now) }
{
    add_raised(text, action, kind_label(kind), subtype, subtype_note(kind))
}

/// Appends a trigger: the type, the action and the subtype.
fn add_trigger(text: &mut Items<u8>, row: &[u8]) -> Appended
    ensures { OnOk result (text.new ≡ text.old ++ trigger_lines row.now) }
{
    let mut buffer = Uuid::encode_buffer();
    let subtype = uuid_text(uuid_at(row, 8), &mut buffer);
    let action = trigger_action_name(number_at(row, 4));
    add_by(text, action, number_at(row, 0), subtype)
}

/// Appends triggers.
fn add_rows(text: &mut Items<u8>, list: &[&[u8]]) -> Appended
    ensures { OnOk result (text.new ≡ text.old ++ flat_map trigger_lines
        (map (λ row. row.now) list.now)) }
{
    for row in list {
        add_trigger(text, row)?;
    }
    Ok(())
}

/// Appends that a service has no triggers.
fn add_none(text: &mut Items<u8>, alloc: Global, name: &[u16]) -> Appended
    ensures { OnOk result (text.new ≡ text.old ++ no_triggers name.now) }
{
    let Ok(name) = printed(alloc, name) else {
        return Err(OutOfMemory);
    };
    text.append_pair(b"The service ", name.as_bytes())?;
    text.append(b" has not registered for any start or stop triggers.\n")
}

/// Appends so many triggers, as far as they are whole.
fn add_counted(text: &mut Items<u8>, alloc: Global, count: u32, bytes: &[u8]) -> Appended
    ensures { OnOk result (text.new ≡ text.old ++ counted_triggers count bytes.now) }
{
    let list = rows(alloc, 24, count, after(bytes, 4))?;
    add_rows(text, list.as_slice())
}

/// Appends a name and so many triggers.
fn add_named(
    text: &mut Items<u8>,
    alloc: Global,
    name: &[u16],
    count: u32,
    bytes: &[u8],
) -> Appended
    ensures { OnOk result (text.new ≡ text.old ++ named_triggers name.now count bytes.now) }
{
    add_lines(text, alloc, &[Line::Text("SERVICE_NAME: ", name)])?;
    add_counted(text, alloc, count, bytes)
}

/// Appends the triggers of a service: bytes begin with their count, and each takes 24 bytes, its
/// type, its action and its subtype.
pub fn add_triggers(text: &mut Items<u8>, alloc: Global, name: &[u16], bytes: &[u8]) -> Appended
    ensures { OnOk result (text.new ≡ text.old ++ triggers_text name.now bytes.now) }
{
    let count = number_at(bytes, 0);
    if count == 0 {
        add_none(text, alloc, name)
    } else {
        add_named(text, alloc, name, count, bytes)
    }
}
