ghost use Rattle.std.specs.Prelude.{◌≡◌, ◌++◌, ◌==◌, IfOk, OnOk, if◌then◌else◌};
ghost use Rattle.std.specs.Int.{to_le_bytes, w32};
ghost use Rattle.std.specs.List.{flat_map};
ghost use Rattle.service_listing.specs.Layout.{numbers_bytes};
ghost use Rattle.service_listing.specs.Levels.{action_bytes, description_bytes, failure_bytes};
ghost use Rattle.service_listing.specs.Levels.{failure_numbers, flag_bytes, level_bytes};
ghost use Rattle.service_listing.specs.Levels.{some_text_bytes, trigger_bytes, triggers_bytes};

use super::writing::{put_numbers, put_text};
use scm_model::codes::{
    SERVICE_CONFIG_DELAYED_AUTO_START_INFO, SERVICE_CONFIG_DESCRIPTION,
    SERVICE_CONFIG_FAILURE_ACTIONS, SERVICE_CONFIG_FAILURE_ACTIONS_FLAG,
    SERVICE_CONFIG_TRIGGER_INFO, SERVICE_TRIGGER_TYPE_CUSTOM,
};
use scm_model::{Action, Config, Trigger};
use scm_text::{Items, OutOfMemory, WText};
use std::alloc::Global;

/// As much of a number as four bytes tell, the low one first.
fn low(number: u128) -> [u8; 4]
    ensures { result ≡ to_le_bytes w32 number }
{
    let [a, b, c, d, ..] = number.to_le_bytes();
    [a, b, c, d]
}

/// Appends numbers of four bytes each, as far as these go.
#[tactic(auto, unfolding(crate::specs::Layout::numbers_bytes))]
fn put_wide(out: &mut Items<u8>, numbers: &[u128]) -> Result<(), OutOfMemory>
    ensures { OnOk result (out.new ≡ out.old ++ numbers_bytes numbers.now) }
{
    for number in numbers {
        out.append(&low(*number))?;
    }
    Ok(())
}

/// The offset of what stands at a place, or 0 where that is empty.
fn offset_of(place: u128, count: usize) -> u128
    ensures { result ≡ (if count == 0 then 0 else place) }
{
    if count == 0 { 0 } else { place }
}

/// Appends a text with its zero, unless it is empty.
fn put_some_text(out: &mut Items<u8>, text: &WText) -> Result<(), OutOfMemory>
    ensures { OnOk result (out.new ≡ out.old ++ some_text_bytes text.now) }
{
    if text.units().len() == 0 {
        return Ok(());
    }
    put_text(out, text)
}

/// An offset and the text.
fn description(text: &WText, alloc: Global) -> Result<Items<u8>, OutOfMemory>
    ensures { IfOk result (λ bytes. bytes ≡ description_bytes text.now) }
{
    let mut out = Items::new(alloc);
    put_wide(&mut out, &[offset_of(4, text.units().len())])?;
    put_some_text(&mut out, text)?;
    Ok(out)
}

/// Appends actions.
fn put_actions(out: &mut Items<u8>, actions: &[Action]) -> Result<(), OutOfMemory>
    ensures { OnOk result (out.new ≡ out.old ++ flat_map action_bytes actions.now) }
{
    for action in actions {
        put_numbers(out, &[action.what, action.delay])?;
    }
    Ok(())
}

/// Appends the five numbers of what is done after failures.
fn put_failure(out: &mut Items<u8>, config: &Config) -> Result<(), OutOfMemory>
    ensures { OnOk result (out.new ≡ out.old ++ numbers_bytes (failure_numbers config.now)) }
{
    let count = config.actions.len();
    let command = config.command.units().len();
    put_wide(
        out,
        &[
            config.reset as u128,
            0,
            offset_of(20 + 8 * count as u128, command),
            count as u128,
            offset_of(20, count),
        ],
    )
}

/// Five numbers, the actions and the command.
fn failure(config: &Config, alloc: Global) -> Result<Items<u8>, OutOfMemory>
    ensures { IfOk result (λ bytes. bytes ≡ failure_bytes config.now) }
{
    let mut out = Items::new(alloc);
    put_failure(&mut out, config)?;
    put_actions(&mut out, config.actions.as_slice())?;
    put_some_text(&mut out, &config.command)?;
    Ok(out)
}

/// One number.
fn flag(on: bool, alloc: Global) -> Result<Items<u8>, OutOfMemory>
    ensures { IfOk result (λ bytes. bytes ≡ flag_bytes on) }
{
    let mut out = Items::new(alloc);
    put_numbers(&mut out, &[if on { 1 } else { 0 }])?;
    Ok(out)
}

/// Appends a trigger.
fn put_trigger(out: &mut Items<u8>, trigger: &Trigger) -> Result<(), OutOfMemory>
    ensures { OnOk result (out.new ≡ out.old ++ trigger_bytes trigger.now) }
{
    put_numbers(out, &[SERVICE_TRIGGER_TYPE_CUSTOM, trigger.action])?;
    out.append(&trigger.subtype)
}

/// Appends triggers.
fn put_triggers(out: &mut Items<u8>, triggers: &[Trigger]) -> Result<(), OutOfMemory>
    ensures { OnOk result (out.new ≡ out.old ++ flat_map trigger_bytes triggers.now) }
{
    for trigger in triggers {
        put_trigger(out, trigger)?;
    }
    Ok(())
}

/// A count and the triggers.
fn triggers(list: &[Trigger], alloc: Global) -> Result<Items<u8>, OutOfMemory>
    ensures { IfOk result (λ bytes. bytes ≡ triggers_bytes list.now) }
{
    let mut out = Items::new(alloc);
    put_wide(&mut out, &[list.len() as u128])?;
    put_triggers(&mut out, list)?;
    Ok(out)
}

/// A level of a configuration as bytes, or none if there is no such level. Of an offset or a count
/// only the low four bytes are written.
pub fn level(level: u32, config: &Config, alloc: Global) -> Result<Option<Items<u8>>, OutOfMemory>
    ensures { IfOk result (λ bytes. bytes ≡ level_bytes level config.now) }
{
    match level {
        SERVICE_CONFIG_DESCRIPTION => Ok(Some(description(&config.description, alloc)?)),
        SERVICE_CONFIG_FAILURE_ACTIONS => Ok(Some(failure(config, alloc)?)),
        SERVICE_CONFIG_DELAYED_AUTO_START_INFO => Ok(Some(flag(config.delayed, alloc)?)),
        SERVICE_CONFIG_FAILURE_ACTIONS_FLAG => Ok(Some(flag(config.on_exit, alloc)?)),
        SERVICE_CONFIG_TRIGGER_INFO => Ok(Some(triggers(config.triggers.as_slice(), alloc)?)),
        _ => Ok(None),
    }
}
