ghost use Rattle.std.specs.Prelude.{◌≡◌, IfOk, Ok, Result, ℕ};
ghost use Rattle.scm_model.specs.declared.flat.Config.{Config};
ghost use Rattle.service_record.specs.Reading.{Yields, Tells, config_from, placed, record_of};
ghost use Rattle.service_record.specs.Reading.{record_of_1, take_action, take_back, take_config};
ghost use Rattle.service_record.specs.Reading.{take_config_1, take_counted, take_end, take_flag};
ghost use Rattle.service_record.specs.Reading.{take_front, take_items, take_middle, take_need};
ghost use Rattle.service_record.specs.Reading.{take_number, take_subtype, take_text, take_trigger};
ghost use Rattle.service_record.specs.Reading.{whole_of, whole_of_1, with_end};
ghost use Rattle.service_record.specs.Spelling.{IsConfig, IsConfig_1, encoding, encoding_1, held};
ghost use Rattle.service_record.specs.declared.reading.Stop.TheVariants as stops;

use ndr_body::{has_zero, units_of};
use scm_model::{Action, Config, Need, Trigger};
use scm_text::{Items, WText};
use std::alloc::{AllocError, AllocFailed, Global};
use std::mem::replace;
use thiserror::Error;

/// Why bytes are no configuration.
#[derive(Clone, Copy, Debug, PartialEq, Eq, Error)]
pub enum RecordFault {
    /// The first item that is wrong begins here: a number, a flag or a text, or what stands after
    /// the last of them.
    #[error("no configuration: byte {0} is wrong")]
    Bad(usize),
    #[error("out of memory")]
    OutOfMemory,
}

/// Why reading stopped.
#[derive(Clone, Copy, Debug, PartialEq, Eq)]
enum Stop {
    /// So many bytes are left where the item begins that is wrong.
    Left(usize),
    OutOfMemory,
}

impl From<AllocError> for Stop {
    ghost from_gives = { λ _ e. e ≡ stops.OutOfMemory };

    fn from(_e: AllocError) -> Stop {
        Stop::OutOfMemory
    }
}

impl<T: Drop> From<AllocFailed<T>> for Stop {
    ghost from_gives = { λ _ e. e ≡ stops.OutOfMemory };

    fn from(_e: AllocFailed<T>) -> Stop {
        Stop::OutOfMemory
    }
}

fn number_of(bytes: &[u8]) -> Result<(u32, &[u8]), Stop>
    ensures { Yields (λ x. (x.0, x.1.now)) result (take_number bytes.now) }
{
    if bytes.len() < 4 {
        return Err(Stop::Left(bytes.len()));
    }
    let (front, rest) = bytes.split_at(4);
    let number = u32::from_le_bytes([front[0], front[1], front[2], front[3]]);
    Ok((number, rest))
}

#[tactic(auto, unfolding(crate::specs::Reading::take_flag))]
fn flag_of(bytes: &[u8]) -> Result<(bool, &[u8]), Stop>
    ensures { Yields (λ x. (x.0, x.1.now)) result (take_flag bytes.now) }
{
    match bytes {
        [0, rest @ ..] => Ok((false, rest)),
        [1, rest @ ..] => Ok((true, rest)),
        _ => Err(Stop::Left(bytes.len())),
    }
}

#[tactic(auto, unfolding(crate::specs::Reading::take_text))]
fn text_of(alloc: Global, bytes: &[u8]) -> Result<(WText, &[u8]), Stop>
    ensures { Yields (λ x. (x.0, x.1.now)) result (take_text bytes.now) }
{
    let (count, rest) = number_of(bytes)?;
    let count = count as usize;
    if rest.len() < 2 * count {
        return Err(Stop::Left(bytes.len()));
    }
    let units = units_of(alloc, rest, count)?;
    if has_zero(units.as_slice()) {
        return Err(Stop::Left(bytes.len()));
    }
    let (_, rest) = rest.split_at(2 * count);
    Ok((WText::from_vec(units), rest))
}

#[tactic(auto, unfolding(crate::specs::Reading::take_need))]
fn need_of(alloc: Global, bytes: &[u8]) -> Result<(Need, &[u8]), Stop>
    ensures { Yields (λ x. (x.0, x.1.now)) result (take_need bytes.now) }
{
    let (group, rest) = flag_of(bytes)?;
    let (name, rest) = text_of(alloc, rest)?;
    if group {
        Ok((Need::Group(name), rest))
    } else {
        Ok((Need::Service(name), rest))
    }
}

#[tactic(auto, unfolding(crate::specs::Reading::take_action))]
fn action_of(bytes: &[u8]) -> Result<(Action, &[u8]), Stop>
    ensures { Yields (λ x. (x.0, x.1.now)) result (take_action bytes.now) }
{
    let (what, rest) = number_of(bytes)?;
    let (delay, rest) = number_of(rest)?;
    Ok((Action { what, delay }, rest))
}

/// The 16 bytes of a subtype.
fn subtype_of(bytes: &[u8]) -> Result<([u8; 16], &[u8]), Stop>
    ensures { Yields (λ x. (x.0, x.1.now)) result (take_subtype bytes.now) }
{
    if bytes.len() < 16 {
        return Err(Stop::Left(bytes.len()));
    }
    let (front, rest) = bytes.split_at(16);
    let mut subtype = [0; 16];
    subtype.copy_from_slice(front);
    Ok((subtype, rest))
}

#[tactic(auto, unfolding(crate::specs::Reading::take_trigger))]
fn trigger_of(bytes: &[u8]) -> Result<(Trigger, &[u8]), Stop>
    ensures { Yields (λ x. (x.0, x.1.now)) result (take_trigger bytes.now) }
{
    let (action, rest) = number_of(bytes)?;
    let (subtype, rest) = subtype_of(rest)?;
    Ok((Trigger { action, subtype }, rest))
}

fn needs_of(alloc: Global, count: u32, bytes: &[u8]) -> Result<(Vec<Need>, &[u8]), Stop>
    ensures { Yields (λ x. (x.0.items, x.1.now)) result (take_items take_need count bytes.now) }
{
    let mut needs = Vec::new(alloc);
    let mut rest = bytes;
    for _ in 0..count {
        let (need, after) = need_of(alloc, rest)?;
        needs.push(need)?;
        rest = after;
    }
    Ok((needs, rest))
}

fn actions_of(alloc: Global, count: u32, bytes: &[u8]) -> Result<(Vec<Action>, &[u8]), Stop>
    ensures { Yields (λ x. (x.0.items, x.1.now)) result (take_items take_action count bytes.now) }
{
    let mut actions = Vec::new(alloc);
    let mut rest = bytes;
    for _ in 0..count {
        let (action, after) = action_of(rest)?;
        actions.push(action)?;
        rest = after;
    }
    Ok((actions, rest))
}

fn triggers_of(alloc: Global, count: u32, bytes: &[u8]) -> Result<(Vec<Trigger>, &[u8]), Stop>
    ensures { Yields (λ x. (x.0.items, x.1.now)) result (take_items take_trigger count bytes.now) }
{
    let mut triggers = Vec::new(alloc);
    let mut rest = bytes;
    for _ in 0..count {
        let (trigger, after) = trigger_of(rest)?;
        triggers.push(trigger)?;
        rest = after;
    }
    Ok((triggers, rest))
}

#[tactic(auto, unfolding(crate::specs::Reading::take_counted))]
fn counted_needs(alloc: Global, bytes: &[u8]) -> Result<(Items<Need>, &[u8]), Stop>
    ensures { Yields (λ x. (x.0, x.1.now)) result (take_counted take_need bytes.now) }
{
    let (count, rest) = number_of(bytes)?;
    let (needs, rest) = needs_of(alloc, count, rest)?;
    Ok((Items::from_vec(needs), rest))
}

#[tactic(auto, unfolding(crate::specs::Reading::take_counted))]
fn counted_actions(alloc: Global, bytes: &[u8]) -> Result<(Items<Action>, &[u8]), Stop>
    ensures { Yields (λ x. (x.0, x.1.now)) result (take_counted take_action bytes.now) }
{
    let (count, rest) = number_of(bytes)?;
    let (actions, rest) = actions_of(alloc, count, rest)?;
    Ok((Items::from_vec(actions), rest))
}

#[tactic(auto, unfolding(crate::specs::Reading::take_counted))]
fn counted_triggers(alloc: Global, bytes: &[u8]) -> Result<(Items<Trigger>, &[u8]), Stop>
    ensures { Yields (λ x. (x.0, x.1.now)) result (take_counted take_trigger bytes.now) }
{
    let (count, rest) = number_of(bytes)?;
    let (triggers, rest) = triggers_of(alloc, count, rest)?;
    Ok((Items::from_vec(triggers), rest))
}

/// A configuration up to its path.
#[derive(Drop)]
struct Front {
    name: WText,
    display: WText,
    kind: u32,
    start: u32,
    error: u32,
    path: WText,
}

#[tactic(auto, unfolding(crate::specs::Reading::take_front))]
fn front_of(alloc: Global, bytes: &[u8]) -> Result<(Front, &[u8]), Stop>
    ensures { Yields (λ x. (x.0, x.1.now)) result (take_front bytes.now) }
{
    let (name, rest) = text_of(alloc, bytes)?;
    let (display, rest) = text_of(alloc, rest)?;
    let (kind, rest) = number_of(rest)?;
    let (start, rest) = number_of(rest)?;
    let (error, rest) = number_of(rest)?;
    let (path, rest) = text_of(alloc, rest)?;
    let front = Front {
        name,
        display,
        kind,
        start,
        error,
        path,
    };
    Ok((front, rest))
}

/// A configuration from its group to its description.
#[derive(Drop)]
struct Middle {
    group: WText,
    tag: u32,
    needs: Items<Need>,
    description: WText,
}

#[tactic(auto, unfolding(crate::specs::Reading::take_middle))]
fn middle_of(alloc: Global, bytes: &[u8]) -> Result<(Middle, &[u8]), Stop>
    ensures { Yields (λ x. (x.0, x.1.now)) result (take_middle bytes.now) }
{
    let (group, rest) = text_of(alloc, bytes)?;
    let (tag, rest) = number_of(rest)?;
    let (needs, rest) = counted_needs(alloc, rest)?;
    let (description, rest) = text_of(alloc, rest)?;
    let middle = Middle {
        group,
        tag,
        needs,
        description,
    };
    Ok((middle, rest))
}

/// What a configuration has on failures.
#[derive(Drop)]
struct Back {
    reset: u32,
    actions: Items<Action>,
    command: WText,
    on_exit: bool,
}

#[tactic(auto, unfolding(crate::specs::Reading::take_back))]
fn back_of(alloc: Global, bytes: &[u8]) -> Result<(Back, &[u8]), Stop>
    ensures { Yields (λ x. (x.0, x.1.now)) result (take_back bytes.now) }
{
    let (reset, rest) = number_of(bytes)?;
    let (actions, rest) = counted_actions(alloc, rest)?;
    let (command, rest) = text_of(alloc, rest)?;
    let (on_exit, rest) = flag_of(rest)?;
    let back = Back {
        reset,
        actions,
        command,
        on_exit,
    };
    Ok((back, rest))
}

fn config_from(alloc: Global, front: Front, middle: Middle, back: Back) -> Config
    ensures { result ≡ config_from front middle back }
{
    Config {
        name: front.name,
        display: front.display,
        kind: front.kind,
        start: front.start,
        error: front.error,
        path: front.path,
        group: middle.group,
        tag: middle.tag,
        needs: middle.needs,
        description: middle.description,
        reset: back.reset,
        actions: back.actions,
        command: back.command,
        on_exit: back.on_exit,
        delayed: false,
        triggers: Items::new(alloc),
    }
}

/// What a configuration has that form 1 doesn't hold.
#[derive(Drop)]
struct End {
    delayed: bool,
    triggers: Items<Trigger>,
}

#[tactic(auto, unfolding(crate::specs::Reading::take_end))]
fn end_of(alloc: Global, bytes: &[u8]) -> Result<(End, &[u8]), Stop>
    ensures { Yields (λ x. (x.0, x.1.now)) result (take_end bytes.now) }
{
    let (delayed, rest) = flag_of(bytes)?;
    let (triggers, rest) = counted_triggers(alloc, rest)?;
    Ok((End { delayed, triggers }, rest))
}

fn with_end(mut config: Config, end: End) -> Config
    ensures { result ≡ with_end config end }
{
    config.delayed = end.delayed;
    drop(replace(&mut config.triggers, end.triggers));
    config
}

/// A configuration of form 1 at the front.
#[tactic(auto, unfolding(crate::specs::Reading::take_config_1))]
fn config_of_1(alloc: Global, bytes: &[u8]) -> Result<(Config, &[u8]), Stop>
    ensures { Yields (λ x. (x.0, x.1.now)) result (take_config_1 bytes.now) }
{
    let (front, rest) = front_of(alloc, bytes)?;
    let (middle, rest) = middle_of(alloc, rest)?;
    let (back, rest) = back_of(alloc, rest)?;
    Ok((config_from(alloc, front, middle, back), rest))
}

/// A configuration of form 2 at the front.
#[tactic(auto, unfolding(crate::specs::Reading::take_config))]
fn config_of(alloc: Global, bytes: &[u8]) -> Result<(Config, &[u8]), Stop>
    ensures { Yields (λ x. (x.0, x.1.now)) result (take_config bytes.now) }
{
    let (config, rest) = config_of_1(alloc, bytes)?;
    let (end, rest) = end_of(alloc, rest)?;
    Ok((with_end(config, end), rest))
}

#[tactic(auto, unfolding(crate::specs::Reading::whole_of_1))]
fn whole_of_1(alloc: Global, bytes: &[u8]) -> Result<Config, Stop>
    ensures { Yields (λ config. config) result (whole_of_1 bytes.now) }
{
    let (config, rest) = config_of_1(alloc, bytes)?;
    if !rest.is_empty() {
        return Err(Stop::Left(rest.len()));
    }
    Ok(config)
}

#[tactic(auto, unfolding(crate::specs::Reading::whole_of))]
fn whole_of(alloc: Global, bytes: &[u8]) -> Result<Config, Stop>
    ensures { Yields (λ config. config) result (whole_of bytes.now) }
{
    let (config, rest) = config_of(alloc, bytes)?;
    if !rest.is_empty() {
        return Err(Stop::Left(rest.len()));
    }
    Ok(config)
}

/// What was read of so many bytes, with the place of the item that is wrong.
fn placed(size: usize, whole: Result<Config, Stop>) -> Result<Config, RecordFault>
    ensures { (read : Result Config ℕ) → Yields (λ config. config) whole read
        → Tells result (placed size read) }
{
    match whole {
        Ok(config) => Ok(config),
        Err(Stop::Left(left)) => Err(RecordFault::Bad(size.saturating_sub(left))),
        Err(Stop::OutOfMemory) => Err(RecordFault::OutOfMemory),
    }
}

/// Reads the bytes of a configuration in form 1, all of them; the start isn't delayed and there are
/// no triggers, since form 1 holds neither. `Bad` comes as in `read_record`.
pub fn read_record_1(alloc: Global, bytes: &[u8]) -> Result<Config, RecordFault>
    // What is read has these bytes, and nothing that they don't hold.
    ensures found { IfOk result (λ config.
        IsConfig_1 config × (held config ≡ config) × (bytes.now ≡ encoding_1 config)) }
    // Of what has these bytes that is read which they hold, unless memory runs out.
    ensures only { (config : Config) → IsConfig_1 config → bytes.now ≡ encoding_1 config
        → Tells result (Ok (held config)) }
    // Which place it is.
    ensures place { Tells result (record_of_1 bytes.now) }
{
    placed(bytes.len(), whole_of_1(alloc, bytes))
}

/// Reads the bytes of a configuration in form 2, all of them.
/// `Bad` comes exactly where no configuration has these bytes: none of its rules is asked for, but
/// a text has no unit that is 0.
pub fn read_record(alloc: Global, bytes: &[u8]) -> Result<Config, RecordFault>
    // What is read has these bytes.
    ensures found { IfOk result (λ config. IsConfig config × (bytes.now ≡ encoding config)) }
    // What has these bytes is read, unless memory runs out.
    ensures only { (config : Config) → IsConfig config → bytes.now ≡ encoding config
        → Tells result (Ok config) }
    // Which place it is.
    ensures place { Tells result (record_of bytes.now) }
{
    placed(bytes.len(), whole_of(alloc, bytes))
}
