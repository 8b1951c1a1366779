ghost use Rattle.std.specs.Prelude.{◌≡◌, ◌++◌, ◌<◌, ◌^◌, All, length, take, OnOk, OnErr, IfOk};
ghost use Rattle.std.specs.Prelude.{IsOk, Ok};
ghost use Rattle.std.specs.Int.{w16, to_le_bytes};
ghost use Rattle.std.specs.List.{flat_map};
ghost use Rattle.service_record.specs.Reading.{record_of};
ghost use Rattle.service_record.specs.Spelling.{AreItems, IsAction, FitsBack, FitsEnd, FitsFront};
ghost use Rattle.service_record.specs.Spelling.{FitsMiddle, IsConfig, IsNeed, IsTrigger};
ghost use Rattle.service_record.specs.Spelling.{FitsNumber, FitsText, IsUnit, action, back};
ghost use Rattle.service_record.specs.Spelling.{counted_items, end, flag, front, middle};
ghost use Rattle.service_record.specs.Spelling.{need_bytes, number, encoding, text, trigger_bytes};

use scm_model::{Action, Config, Need, Trigger};
use scm_text::{Items, OutOfMemory, WText};
use std::alloc::Global;

fn put_number(out: &mut Items<u8>, value: u32) -> Result<(), OutOfMemory>
    ensures ok { OnOk result (out.new ≡ out.old ++ number value) }
    ensures err { OnErr result (out.new ≡ out.old) }
{
    out.append(&value.to_le_bytes())
}

/// Appends a count in four bytes, the lowest first, or nothing. One that needs more is that of a
/// list for which no memory would do.
pub fn put_count(out: &mut Items<u8>, count: usize) -> Result<(), OutOfMemory>
    ensures count { OnOk result (out.new ≡ out.old ++ number count) }
    ensures small { OnOk result (FitsNumber count) }
    ensures err { OnErr result (out.new ≡ out.old) }
{
    if 0xFFFF_FFFF < count {
        return Err(OutOfMemory);
    }
    put_number(out, count as u32)
}

fn put_flag(out: &mut Items<u8>, value: bool) -> Result<(), OutOfMemory>
    ensures { OnOk result (out.new ≡ out.old ++ flag value) }
{
    if value {
        out.append(&[1])
    } else {
        out.append(&[0])
    }
}

fn put_units(out: &mut Items<u8>, units: &[u16]) -> Result<(), OutOfMemory>
    ensures bytes { OnOk result (out.new ≡ out.old ++ flat_map (to_le_bytes w16) units.now) }
    ensures fits { All (λ u. u < 2 ^ 16) units.now }
    // What stood there stays in front, also where only a part was appended.
    ensures front { take (length out.old) out.new ≡ out.old }
{
    for unit in units {
        out.append(&unit.to_le_bytes())?;
    }
    Ok(())
}

fn put_counted_units(out: &mut Items<u8>, value: &WText) -> Result<(), OutOfMemory>
    ensures bytes { OnOk result (out.new ≡ out.old ++ text value.now) }
    ensures fits { OnOk result (FitsText value.now) }
    ensures front { take (length out.old) out.new ≡ out.old }
{
    put_count(out, value.units().len())?;
    put_units(out, value.units())
}

/// Appends a text, or nothing: a count of units, and these, of two bytes each, the lower first.
pub fn put_text(out: &mut Items<u8>, value: &WText) -> Result<(), OutOfMemory>
    ensures bytes { OnOk result (out.new ≡ out.old ++ text value.now) }
    ensures fits { OnOk result (FitsText value.now) }
    ensures err { OnErr result (out.new ≡ out.old) }
{
    let start = out.len();
    let appended = put_counted_units(out, value);
    if appended.is_err() {
        out.truncate(start);
    }
    appended
}

fn put_need(out: &mut Items<u8>, value: &Need) -> Result<(), OutOfMemory>
    ensures bytes { OnOk result (out.new ≡ out.old ++ need_bytes value.now) }
    ensures fits { OnOk result (IsNeed value.now) }
{
    match value {
        Need::Service(name) => {
            put_flag(out, false)?;
            put_text(out, name)
        }
        Need::Group(name) => {
            put_flag(out, true)?;
            put_text(out, name)
        }
    }
}

fn put_each_need(out: &mut Items<u8>, needs: &[Need]) -> Result<(), OutOfMemory>
    ensures bytes { OnOk result (out.new ≡ out.old ++ flat_map need_bytes needs.now) }
    ensures fits { OnOk result (All IsNeed needs.now) }
{
    for value in needs {
        put_need(out, value)?;
    }
    Ok(())
}

fn put_needs(out: &mut Items<u8>, needs: &[Need]) -> Result<(), OutOfMemory>
    ensures bytes { OnOk result (out.new ≡ out.old ++ counted_items need_bytes needs.now) }
    ensures fits { OnOk result (AreItems IsNeed needs.now) }
{
    put_count(out, needs.len())?;
    put_each_need(out, needs)
}

fn put_action(out: &mut Items<u8>, value: &Action) -> Result<(), OutOfMemory>
    ensures bytes { OnOk result (out.new ≡ out.old ++ action value.now) }
    ensures fits { OnOk result (IsAction value.now) }
{
    put_number(out, value.what)?;
    put_number(out, value.delay)
}

fn put_each_action(out: &mut Items<u8>, actions: &[Action]) -> Result<(), OutOfMemory>
    ensures bytes { OnOk result (out.new ≡ out.old ++ flat_map action actions.now) }
    ensures fits { OnOk result (All IsAction actions.now) }
{
    for value in actions {
        put_action(out, value)?;
    }
    Ok(())
}

fn put_actions(out: &mut Items<u8>, actions: &[Action]) -> Result<(), OutOfMemory>
    ensures bytes { OnOk result (out.new ≡ out.old ++ counted_items action actions.now) }
    ensures fits { OnOk result (AreItems IsAction actions.now) }
{
    put_count(out, actions.len())?;
    put_each_action(out, actions)
}

fn put_trigger(out: &mut Items<u8>, value: &Trigger) -> Result<(), OutOfMemory>
    ensures bytes { OnOk result (out.new ≡ out.old ++ trigger_bytes value.now) }
    ensures fits { OnOk result (IsTrigger value.now) }
{
    put_number(out, value.action)?;
    out.append(&value.subtype)
}

fn put_each_trigger(out: &mut Items<u8>, triggers: &[Trigger]) -> Result<(), OutOfMemory>
    ensures bytes { OnOk result (out.new ≡ out.old ++ flat_map trigger_bytes triggers.now) }
    ensures fits { OnOk result (All IsTrigger triggers.now) }
{
    for value in triggers {
        put_trigger(out, value)?;
    }
    Ok(())
}

fn put_triggers(out: &mut Items<u8>, triggers: &[Trigger]) -> Result<(), OutOfMemory>
    ensures bytes { OnOk result (out.new ≡ out.old ++ counted_items trigger_bytes triggers.now) }
    ensures fits { OnOk result (AreItems IsTrigger triggers.now) }
{
    put_count(out, triggers.len())?;
    put_each_trigger(out, triggers)
}

fn put_front(out: &mut Items<u8>, config: &Config) -> Result<(), OutOfMemory>
    ensures bytes { OnOk result (out.new ≡ out.old ++ front config.now) }
    ensures fits { OnOk result (FitsFront config.now) }
{
    put_text(out, &config.name)?;
    put_text(out, &config.display)?;
    put_number(out, config.kind)?;
    put_number(out, config.start)?;
    put_number(out, config.error)?;
    put_text(out, &config.path)
}

fn put_middle(out: &mut Items<u8>, config: &Config) -> Result<(), OutOfMemory>
    ensures bytes { OnOk result (out.new ≡ out.old ++ middle config.now) }
    ensures fits { OnOk result (FitsMiddle config.now) }
{
    put_text(out, &config.group)?;
    put_number(out, config.tag)?;
    put_needs(out, config.needs.as_slice())?;
    put_text(out, &config.description)
}

fn put_back(out: &mut Items<u8>, config: &Config) -> Result<(), OutOfMemory>
    ensures bytes { OnOk result (out.new ≡ out.old ++ back config.now) }
    ensures fits { OnOk result (FitsBack config.now) }
{
    put_number(out, config.reset)?;
    put_actions(out, config.actions.as_slice())?;
    put_text(out, &config.command)?;
    put_flag(out, config.on_exit)
}

fn put_end(out: &mut Items<u8>, config: &Config) -> Result<(), OutOfMemory>
    ensures bytes { OnOk result (out.new ≡ out.old ++ end config.now) }
    ensures fits { OnOk result (FitsEnd config.now) }
{
    put_flag(out, config.delayed)?;
    put_triggers(out, config.triggers.as_slice())
}

/// The bytes of a configuration in form 2, as a journal keeps them: name, display name, type,
/// start, error control, path, group, tag, needs, description, reset period, actions, command,
/// whether a stop with an error is a failure, whether the start is delayed, and triggers. Numbers
/// are of four bytes, the lowest first, a text is a count of units and these, a list a count and
/// its items. A trigger is its action and the 16 bytes of its subtype.
pub fn record_bytes(alloc: Global, config: &Config) -> Result<Items<u8>, OutOfMemory>
    ensures bytes { IfOk result (λ bytes. bytes ≡ encoding config.now) }
    ensures fits { IsOk result → IsConfig config.now }
    // What is written is read back.
    ensures read_back { IfOk result (λ bytes. record_of bytes ≡ Ok config.now) }
{
    let mut out = Items::new(alloc);
    put_front(&mut out, config)?;
    put_middle(&mut out, config)?;
    put_back(&mut out, config)?;
    put_end(&mut out, config)?;
    Ok(out)
}
