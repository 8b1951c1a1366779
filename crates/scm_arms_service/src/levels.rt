ghost use Rattle.std.specs.Prelude.{◌≡◌, map, unwrap_or, IfOk};
ghost use Rattle.scm_model.specs.declared.calls.Info.TheVariants as info;
ghost use Rattle.scm_rules.specs.Change2.{config_at, trigger_of};
ghost use Rattle.scm_arms_service.specs.Leveled.{failing_of, reset_or, with_failing};

use super::replacing::text_or;
use scm_model::{Action, Config, Info, Trigger, TriggerIn};
use scm_text::{Items, OutOfMemory, WText};
use std::alloc::Global;
use std::mem::replace;

/// A configuration with another description.
fn with_description(mut old: Config, description: WText) -> Config
    ensures { result ≡ record old { description = description } }
{
    drop(replace(&mut old.description, description));
    old
}

/// A configuration with the description that is asked for, or the old one.
fn described(old: &Config, text: &Option<WText>, alloc: Global) -> Result<Config, OutOfMemory>
    ensures { IfOk result (λ config. config ≡ config_at (info.Description text.now) old.now) }
{
    let description = text_or(&old.description, text).copy(alloc)?;
    let old = old.copy(alloc)?;
    Ok(with_description(old, description))
}

/// What is done after failures.
#[derive(Drop)]
struct Failing {
    reset: u32,
    command: WText,
    actions: Items<Action>,
}

/// The reset period that is asked for with actions; 0 with no actions, and the old one where they
/// are absent.
fn reset_or(old: u32, asked: u32, actions: &Option<Items<Action>>) -> u32
    ensures { result ≡ reset_or old asked actions.now }
{
    match actions {
        Some(actions) => match actions.as_slice() {
            [] => 0,
            _ => asked,
        },
        None => old,
    }
}

/// The actions that are asked for, or the old ones.
fn actions_or<'a>(old: &'a Items<Action>, asked: &'a Option<Items<Action>>) -> &'a [Action]
    ensures { result.now ≡ unwrap_or asked.now old.now }
{
    match asked {
        Some(actions) => actions.as_slice(),
        None => old.as_slice(),
    }
}

/// A copy of actions.
fn copy_actions(actions: &[Action], alloc: Global) -> Result<Items<Action>, OutOfMemory>
    ensures { IfOk result (λ copy. copy ≡ actions.now) }
{
    match Vec::from_slice(alloc, actions) {
        Ok(copy) => Ok(Items::from_vec(copy)),
        Err(_) => Err(OutOfMemory),
    }
}

/// What is asked to be done after failures, or what was.
fn failing_of(
    old: &Config,
    reset: u32,
    command: &Option<WText>,
    actions: &Option<Items<Action>>,
    alloc: Global,
) -> Result<Failing, OutOfMemory>
    ensures { IfOk result (λ failing. failing ≡ failing_of old.now reset command.now actions.now) }
{
    Ok(Failing {
        reset: reset_or(old.reset, reset, actions),
        command: text_or(&old.command, command).copy(alloc)?,
        actions: copy_actions(actions_or(&old.actions, actions), alloc)?,
    })
}

/// A configuration with something else that is done after failures.
fn with_failing(mut old: Config, failing: Failing) -> Config
    ensures { result ≡ with_failing old failing }
{
    let Failing {
        reset,
        command,
        actions,
    } = failing;
    old.reset = reset;
    drop(replace(&mut old.command, command));
    drop(replace(&mut old.actions, actions));
    old
}

/// A configuration with what is asked to be done after failures.
#[tactic(auto, using(crate::proofs::Leveling::failing_is))]
fn failed(
    old: &Config,
    reset: u32,
    command: &Option<WText>,
    actions: &Option<Items<Action>>,
    alloc: Global,
) -> Result<Config, OutOfMemory>
    ensures { IfOk result (λ config. config ≡ config_at
        (info.Failure reset command.now actions.now) old.now) }
{
    let failing = failing_of(old, reset, command, actions, alloc)?;
    let old = old.copy(alloc)?;
    Ok(with_failing(old, failing))
}

/// A configuration whose automatic start is delayed, or isn't.
fn delayed(old: &Config, on: bool, alloc: Global) -> Result<Config, OutOfMemory>
    ensures { IfOk result (λ config. config ≡ config_at (info.Delayed on) old.now) }
{
    let mut config = old.copy(alloc)?;
    config.delayed = on;
    Ok(config)
}

/// A configuration by which a stop with an error is a failure too, or isn't.
fn failing_on_exit(old: &Config, on: bool, alloc: Global) -> Result<Config, OutOfMemory>
    ensures { IfOk result (λ config. config ≡ config_at (info.OnExit on) old.now) }
{
    let mut config = old.copy(alloc)?;
    config.on_exit = on;
    Ok(config)
}

/// The trigger that is asked for. A subtype that is absent is zero.
fn trigger_of(asked: &TriggerIn) -> Trigger
    ensures { result ≡ trigger_of asked.now }
{
    Trigger {
        action: asked.action,
        subtype: asked.subtype.unwrap_or([0; 16]),
    }
}

/// The triggers that are asked for.
fn triggers_of(list: &[TriggerIn], alloc: Global) -> Result<Items<Trigger>, OutOfMemory>
    ensures { IfOk result (λ triggers. triggers ≡ map trigger_of list.now) }
{
    let mut triggers = Items::new(alloc);
    for asked in list {
        if triggers.push(trigger_of(asked)).is_err() {
            return Err(OutOfMemory);
        }
    }
    Ok(triggers)
}

/// A configuration with other triggers.
fn with_triggers(mut old: Config, triggers: Items<Trigger>) -> Config
    ensures { result ≡ record old { triggers = triggers } }
{
    drop(replace(&mut old.triggers, triggers));
    old
}

/// A configuration with the triggers that are asked for.
fn triggered(old: &Config, list: &[TriggerIn], alloc: Global) -> Result<Config, OutOfMemory>
    ensures { IfOk result (λ config. config ≡ config_at (info.Triggers list.now) old.now) }
{
    let triggers = triggers_of(list, alloc)?;
    let old = old.copy(alloc)?;
    Ok(with_triggers(old, triggers))
}

/// The configuration that has what is asked for in place of what was there.
pub fn config_at(info: &Info, old: &Config, alloc: Global) -> Result<Config, OutOfMemory>
    ensures { IfOk result (λ config. config ≡ config_at info.now old.now) }
{
    match info {
        Info::Description(text) => described(old, text, alloc),
        Info::Failure {
            reset,
            command,
            actions,
        } => failed(old, *reset, command, actions, alloc),
        Info::Delayed(on) => delayed(old, *on, alloc),
        Info::OnExit(on) => failing_on_exit(old, *on, alloc),
        Info::Triggers(list) => triggered(old, list.as_slice(), alloc),
        Info::Other(_) | Info::Nothing(_) => old.copy(alloc),
    }
}
