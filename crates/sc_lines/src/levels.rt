ghost use Rattle.std.specs.Prelude.{◌≡◌, ◌++◌, OnOk, map};
ghost use Rattle.std.specs.List.{flat_map};
ghost use Rattle.sc_lines.specs.Levels.{action_line, action_name, action_text, description_fields};
ghost use Rattle.sc_lines.specs.Levels.{description_text, failure_fields, failure_text};
ghost use Rattle.sc_lines.specs.Levels.{flag_fields, flag_name, flag_text, is_on, period_field};
ghost use Rattle.sc_lines.specs.Lines.{lines, seen_line};

use super::lines::{Appended, Line, add_lines};
use super::reading::{after, number_at, rows, text_at};
use scm_text::Items;
use std::alloc::Global;

/// Appends a name and a description.
fn add_described<'a>(
    text: &mut Items<u8>,
    alloc: Global,
    name: &'a [u16],
    description: &'a [u16],
) -> Appended
    ensures { OnOk result (text.new ≡ text.old ++ lines
        (description_fields name.now description.now)) }
{
    let fields = [
        Line::Text("SERVICE_NAME: ", name),
        Line::Text("DESCRIPTION: ", description),
    ];
    add_lines(text, alloc, &fields)
}

/// Appends a description: bytes begin with its offset.
pub fn add_description(text: &mut Items<u8>, alloc: Global, name: &[u16], bytes: &[u8]) -> Appended
    ensures { OnOk result (text.new ≡ text.old ++ description_text name.now bytes.now) }
{
    let description = text_at(alloc, bytes, number_at(bytes, 0))?;
    add_described(text, alloc, name, description.as_slice())
}

fn action_name(what: u32) -> &'static str
    ensures { result.now ≡ action_name what }
{
    match what {
        0 => "NONE",
        1 => "RESTART",
        2 => "REBOOT",
        3 => "RUN PROCESS",
        _ => "UNKNOWN",
    }
}

/// Appends the name of an action, and its delay in milliseconds.
fn add_delayed(text: &mut Items<u8>, name: &str, delay: &str) -> Appended
    ensures { OnOk result (text.new ≡ text.old ++ action_text name.now delay.now) }
{
    text.append_pair(b"FAILURE_ACTIONS: ", name.as_bytes())?;
    text.append_pair(b" -- Delay = ", delay.as_bytes())?;
    text.append(b" milliseconds.\n")
}

/// Appends an action and its delay.
fn add_action(text: &mut Items<u8>, row: &[u8]) -> Appended
    ensures { OnOk result (text.new ≡ text.old ++ action_line row.now) }
{
    let name = action_name(number_at(row, 0));
    add_delayed(text, name, itoa::Buffer::new().format(number_at(row, 4)))
}

/// Appends actions.
fn add_actions(text: &mut Items<u8>, list: &[&[u8]]) -> Appended
    ensures { OnOk result (text.new ≡ text.old ++ flat_map action_line
        (map (λ row. row.now) list.now)) }
{
    for row in list {
        add_action(text, row)?;
    }
    Ok(())
}

/// The line of a reset period, in seconds.
fn period_line<'a>(reset: u32) -> Line<'a>
    ensures { seen_line result ≡ period_field reset }
{
    if reset == u32::MAX {
        Line::Word("RESET_PERIOD (in seconds): ", "INFINITE")
    } else {
        Line::Number("RESET_PERIOD (in seconds): ", reset)
    }
}

/// Appends a name, a reset period, a message and a command.
fn add_failure_head<'a>(
    text: &mut Items<u8>,
    alloc: Global,
    name: &'a [u16],
    reset: u32,
    message: &'a [u16],
    command: &'a [u16],
) -> Appended
    ensures { OnOk result (text.new
        ≡ text.old ++ lines (failure_fields name.now reset message.now command.now)) }
{
    let fields = [
        Line::Text("SERVICE_NAME: ", name),
        period_line(reset),
        Line::Text("REBOOT_MESSAGE: ", message),
        Line::Text("COMMAND_LINE: ", command),
    ];
    add_lines(text, alloc, &fields)
}

/// Appends what is done after failures: bytes begin with the reset period, the offsets of the
/// message and of the command, the count of actions and their offset.
pub fn add_failure(text: &mut Items<u8>, alloc: Global, name: &[u16], bytes: &[u8]) -> Appended
    ensures { OnOk result (text.new ≡ text.old ++ failure_text name.now bytes.now) }
{
    let message = text_at(alloc, bytes, number_at(bytes, 4))?;
    let command = text_at(alloc, bytes, number_at(bytes, 8))?;
    let reset = number_at(bytes, 0);
    add_failure_head(
        text,
        alloc,
        name,
        reset,
        message.as_slice(),
        command.as_slice(),
    )?;
    let place = number_at(bytes, 16) as usize;
    let list = rows(alloc, 8, number_at(bytes, 12), after(bytes, place))?;
    add_actions(text, list.as_slice())
}

pub fn flag_name(on: bool) -> &'static str
    ensures { result.now ≡ flag_name on }
{
    if on { "TRUE" } else { "FALSE" }
}

/// Whether a flag is on: its bytes are a number other than 0.
pub fn is_on(bytes: &[u8]) -> bool
    ensures { result ≡ is_on bytes.now }
{
    number_at(bytes, 0) != 0
}

/// Appends a name, and whether a stop with an error is a failure too.
fn add_flagged<'a>(text: &mut Items<u8>, alloc: Global, name: &'a [u16], flag: &'a str) -> Appended
    ensures { OnOk result (text.new ≡ text.old ++ lines (flag_fields name.now flag.now)) }
{
    let fields = [
        Line::Text("SERVICE_NAME: ", name),
        Line::Word("FAILURE_ACTIONS_ON_NONCRASH_FAILURES: ", flag),
    ];
    add_lines(text, alloc, &fields)
}

/// Appends whether a stop with an error is a failure too: bytes are a number, which is 0 if not.
pub fn add_flag(text: &mut Items<u8>, alloc: Global, name: &[u16], bytes: &[u8]) -> Appended
    ensures { OnOk result (text.new ≡ text.old ++ flag_text name.now bytes.now) }
{
    add_flagged(text, alloc, name, flag_name(is_on(bytes)))
}
