ghost use Rattle.std.specs.Prelude.{◌≡◌, ℕ, List};
ghost use Rattle.ndr_body.specs.Reading.{Gives, text_at};
ghost use Rattle.scm_shapes.specs.Each.{each_at};
ghost use Rattle.scm_shapes.specs.Parts.{checked_at, for_each_at, if_at, made_at, nonzero_at};
ghost use Rattle.scm_shapes.specs.Parts.{same_at, unkept_at};
ghost use Rattle.scm_shapes.specs.Levels.{action_at, actions_at, failure_at, failure_head_at};
ghost use Rattle.scm_shapes.specs.Levels.{info_at, is_listed, level_at, listed_triggers_at};
ghost use Rattle.scm_shapes.specs.Levels.{referent_at, served_at, trigger_at, trigger_head_at};
ghost use Rattle.scm_shapes.specs.Levels.{trigger_heads_at, triggers_at};

use crate::handle_body::{next_place, read_within};
use ndr_body::{BodyFault, NdrReader};
use scm_model::codes::{
    SC_MAX_ACTIONS, SC_MAX_TRIGGERS, SERVICE_CONFIG_DELAYED_AUTO_START_INFO,
    SERVICE_CONFIG_DESCRIPTION, SERVICE_CONFIG_FAILURE_ACTIONS,
    SERVICE_CONFIG_FAILURE_ACTIONS_FLAG,
};
use scm_model::{Action, Info, TriggerIn, is_level};
use scm_text::{Items, WText};
use std::alloc::Global;

/// The numbers of failure actions, and which of them point to something.
#[derive(Clone, Copy)]
pub struct FailureHead {
    reset: u32,
    reboot: bool,
    command: bool,
    count: u32,
    listed: bool,
}

/// The numbers of a trigger, and whether they point to a subtype.
#[derive(Clone, Copy)]
pub struct TriggerHead {
    kind: u32,
    action: u32,
    named: bool,
    items: u32,
}

/// A number that has to be this one. Another is `BadCount` where it begins.
fn read_same(reader: &mut NdrReader, n: u32) -> Result<u32, BodyFault>
    ensures value { Gives (λ v. (v, reader.new.place)) result
        (same_at n reader.old.body reader.old.place) }
    ensures body { reader.new.body ≡ reader.old.body }
{
    let start = next_place(reader);
    let number = reader.number()?;
    if number == n {
        Ok(number)
    } else {
        Err(BodyFault::BadCount(start))
    }
}

/// Whether a number isn't 0, as a pointer that isn't null or a flag that is on.
fn read_nonzero(reader: &mut NdrReader) -> Result<bool, BodyFault>
    ensures value { Gives (λ v. (v, reader.new.place)) result
        (nonzero_at reader.old.body reader.old.place) }
    ensures body { reader.new.body ≡ reader.old.body }
{
    let number = reader.number()?;
    Ok(!(number == 0))
}

fn read_failure_head(reader: &mut NdrReader) -> Result<FailureHead, BodyFault>
    ensures value { Gives (λ v. (v, reader.new.place)) result
        (failure_head_at reader.old.body reader.old.place) }
    ensures body { reader.new.body ≡ reader.old.body }
{
    Ok(FailureHead {
        reset: reader.number()?,
        reboot: read_nonzero(reader)?,
        command: read_nonzero(reader)?,
        count: read_within(reader, SC_MAX_ACTIONS)?,
        listed: read_nonzero(reader)?,
    })
}

/// The string of a pointer that isn't null.
fn read_text_if(reader: &mut NdrReader, alloc: Global, is: bool) -> Result<Option<WText>, BodyFault>
    ensures value { Gives (λ v. (v, reader.new.place)) result
        (if_at is text_at reader.old.body reader.old.place) }
    ensures body { reader.new.body ≡ reader.old.body }
{
    if is {
        Ok(Some(reader.text(alloc)?))
    } else {
        Ok(None)
    }
}

/// Goes past the string of a pointer that isn't null.
fn skip_text_if(reader: &mut NdrReader, alloc: Global, is: bool) -> Result<(), BodyFault>
    ensures value { Gives (λ done. (done, reader.new.place)) result
        (unkept_at (if_at is text_at) reader.old.body reader.old.place) }
    ensures body { reader.new.body ≡ reader.old.body }
{
    let _text = read_text_if(reader, alloc, is)?;
    Ok(())
}

fn read_action(reader: &mut NdrReader) -> Result<Action, BodyFault>
    ensures value { Gives (λ v. (v, reader.new.place)) result
        (action_at reader.old.body reader.old.place) }
    ensures body { reader.new.body ≡ reader.old.body }
{
    Ok(Action {
        what: reader.number()?,
        delay: reader.number()?,
    })
}

/// So many actions.
fn read_each_action(
    reader: &mut NdrReader,
    alloc: Global,
    count: usize,
) -> Result<Items<Action>, BodyFault>
    ensures value { Gives (λ v. (v, reader.new.place)) result
        (each_at action_at count reader.old.body reader.old.place) }
    ensures body { reader.new.body ≡ reader.old.body }
{
    let mut actions = Items::new(alloc);
    for _ in 0..count {
        let action = read_action(reader)?;
        if actions.push(action).is_err() {
            return Err(BodyFault::OutOfMemory);
        }
    }
    Ok(actions)
}

/// The count of the actions, and then the actions.
fn read_actions_if(
    reader: &mut NdrReader,
    alloc: Global,
    head: FailureHead,
) -> Result<Option<Items<Action>>, BodyFault>
    ensures value { Gives (λ v. (v, reader.new.place)) result
        (if_at head.listed (actions_at head.count) reader.old.body reader.old.place) }
    ensures body { reader.new.body ≡ reader.old.body }
{
    if !head.listed {
        return Ok(None);
    }
    read_same(reader, head.count)?;
    Ok(Some(read_each_action(reader, alloc, head.count as usize)?))
}

/// What is done after failures. The reboot message isn't kept.
#[tactic(auto, unfolding(crate::specs::Levels::failure_at))]
fn read_failure(reader: &mut NdrReader, alloc: Global) -> Result<Info, BodyFault>
    ensures value { Gives (λ v. (v, reader.new.place)) result
        (failure_at reader.old.body reader.old.place) }
    ensures body { reader.new.body ≡ reader.old.body }
{
    let head = read_failure_head(reader)?;
    skip_text_if(reader, alloc, head.reboot)?;
    let command = read_text_if(reader, alloc, head.command)?;
    let actions = read_actions_if(reader, alloc, head)?;
    Ok(Info::Failure {
        reset: head.reset,
        command,
        actions,
    })
}

fn read_trigger_head(reader: &mut NdrReader) -> Result<TriggerHead, BodyFault>
    ensures value { Gives (λ v. (v, reader.new.place)) result
        (trigger_head_at reader.old.body reader.old.place) }
    ensures body { reader.new.body ≡ reader.old.body }
{
    let kind = reader.number()?;
    let action = reader.number()?;
    let named = read_nonzero(reader)?;
    let items = reader.number()?;
    read_same(reader, 0)?;
    Ok(TriggerHead {
        kind,
        action,
        named,
        items,
    })
}

/// So many triggers, without their subtypes.
fn read_trigger_heads(
    reader: &mut NdrReader,
    alloc: Global,
    count: usize,
) -> Result<Items<TriggerHead>, BodyFault>
    ensures value { Gives (λ v. (v, reader.new.place)) result
        (each_at trigger_head_at count reader.old.body reader.old.place) }
    ensures body { reader.new.body ≡ reader.old.body }
{
    let mut heads = Items::new(alloc);
    for _ in 0..count {
        let head = read_trigger_head(reader)?;
        if heads.push(head).is_err() {
            return Err(BodyFault::OutOfMemory);
        }
    }
    Ok(heads)
}

/// A trigger with its subtype, if it points to one.
fn read_trigger(reader: &mut NdrReader, head: TriggerHead) -> Result<TriggerIn, BodyFault>
    ensures value { Gives (λ v. (v, reader.new.place)) result
        (trigger_at head reader.old.body reader.old.place) }
    ensures body { reader.new.body ≡ reader.old.body }
{
    let subtype = if head.named {
        Some(reader.uuid()?)
    } else {
        None
    };
    Ok(TriggerIn {
        kind: head.kind,
        action: head.action,
        subtype,
        items: head.items,
    })
}

/// The triggers with their subtypes.
fn read_subtypes(
    reader: &mut NdrReader,
    alloc: Global,
    heads: &[TriggerHead],
) -> Result<Items<TriggerIn>, BodyFault>
    ensures value { Gives (λ v. (v, reader.new.place)) result
        (for_each_at trigger_at heads.now reader.old.body reader.old.place) }
    ensures body { reader.new.body ≡ reader.old.body }
{
    let mut triggers = Items::new(alloc);
    for head in heads {
        let trigger = read_trigger(reader, *head)?;
        if triggers.push(trigger).is_err() {
            return Err(BodyFault::OutOfMemory);
        }
    }
    Ok(triggers)
}

/// The count of the triggers, and then the triggers.
fn read_listed_triggers(
    reader: &mut NdrReader,
    alloc: Global,
    count: u32,
) -> Result<Items<TriggerIn>, BodyFault>
    ensures value { Gives (λ v. (v, reader.new.place)) result
        (listed_triggers_at count reader.old.body reader.old.place) }
    ensures body { reader.new.body ≡ reader.old.body }
{
    read_same(reader, count)?;
    let heads = read_trigger_heads(reader, alloc, count as usize)?;
    read_subtypes(reader, alloc, heads.as_slice())
}

/// A pointer to so many triggers, which is null only where there are none.
fn read_pointer(reader: &mut NdrReader, count: u32) -> Result<bool, BodyFault>
    ensures value { Gives (λ v. (v, reader.new.place)) result
        (checked_at (is_listed count) nonzero_at reader.old.body reader.old.place) }
    ensures body { reader.new.body ≡ reader.old.body }
{
    let start = next_place(reader);
    let listed = read_nonzero(reader)?;
    if listed || count == 0 {
        Ok(listed)
    } else {
        Err(BodyFault::BadCount(start))
    }
}

#[tactic(auto, unfolding(crate::specs::Levels::triggers_at))]
fn read_triggers(reader: &mut NdrReader, alloc: Global) -> Result<Items<TriggerIn>, BodyFault>
    ensures value { Gives (λ v. (v, reader.new.place)) result
        (triggers_at reader.old.body reader.old.place) }
    ensures body { reader.new.body ≡ reader.old.body }
{
    let count = read_within(reader, SC_MAX_TRIGGERS)?;
    let listed = read_pointer(reader, count)?;
    read_same(reader, 0)?;
    if listed {
        read_listed_triggers(reader, alloc, count)
    } else {
        Ok(Items::new(alloc))
    }
}

/// What a pointer at a level that is served points to.
#[tactic(auto, unfolding(crate::specs::Levels::referent_at))]
fn read_referent(reader: &mut NdrReader, alloc: Global, level: u32) -> Result<Info, BodyFault>
    ensures value { Gives (λ v. (v, reader.new.place)) result
        (referent_at level reader.old.body reader.old.place) }
    ensures body { reader.new.body ≡ reader.old.body }
{
    match level {
        SERVICE_CONFIG_DESCRIPTION => Ok(Info::Description(reader.some_text(alloc)?)),
        SERVICE_CONFIG_FAILURE_ACTIONS => read_failure(reader, alloc),
        SERVICE_CONFIG_DELAYED_AUTO_START_INFO => Ok(Info::Delayed(read_nonzero(reader)?)),
        SERVICE_CONFIG_FAILURE_ACTIONS_FLAG => Ok(Info::OnExit(read_nonzero(reader)?)),
        _ => Ok(Info::Triggers(read_triggers(reader, alloc)?)),
    }
}

/// What is asked at a level that is served. A null pointer asks for nothing.
#[tactic(auto, unfolding(crate::specs::Levels::served_at))]
fn read_served(reader: &mut NdrReader, alloc: Global, level: u32) -> Result<Info, BodyFault>
    ensures value { Gives (λ v. (v, reader.new.place)) result
        (served_at level reader.old.body reader.old.place) }
    ensures body { reader.new.body ≡ reader.old.body }
{
    if read_nonzero(reader)? {
        read_referent(reader, alloc, level)
    } else {
        Ok(Info::Nothing(level))
    }
}

/// What is asked to be changed at one level: the level twice, and then the arm of the union that it
/// selects. No arm is read for a level that isn't served.
#[tactic(auto, unfolding(crate::specs::Levels::info_at, crate::specs::Levels::level_at))]
pub fn read_info(reader: &mut NdrReader, alloc: Global) -> Result<Info, BodyFault>
    ensures value { Gives (λ v. (v, reader.new.place)) result
        (info_at reader.old.body reader.old.place) }
    ensures body { reader.new.body ≡ reader.old.body }
{
    let level = reader.number()?;
    read_same(reader, level)?;
    if is_level(level) {
        read_served(reader, alloc, level)
    } else {
        Ok(Info::Other(level))
    }
}
