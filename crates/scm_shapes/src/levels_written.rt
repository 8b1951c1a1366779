ghost use Rattle.std.specs.Prelude.{◌≡◌, ◌≤◌, IsOk, OnOk, is_some, length};
ghost use Rattle.ndr_body.specs.Writing.{put_text};
ghost use Rattle.scm_shapes.specs.Parts.{put_all, put_flag, put_if, put_pointer};
ghost use Rattle.scm_shapes.specs.Levels.{count_of, level_of, put_action, put_actions, put_failure};
ghost use Rattle.scm_shapes.specs.Levels.{put_failure_head, put_info, put_level};
ghost use Rattle.scm_shapes.specs.Levels.{put_trigger_list, put_listing, put_referent_of};
ghost use Rattle.scm_shapes.specs.Levels.{put_subtype, put_trigger_head, put_triggers};

use ndr_body::NdrWriter;
use scm_model::codes::{
    SERVICE_CONFIG_DELAYED_AUTO_START_INFO, SERVICE_CONFIG_DESCRIPTION,
    SERVICE_CONFIG_FAILURE_ACTIONS, SERVICE_CONFIG_FAILURE_ACTIONS_FLAG,
    SERVICE_CONFIG_TRIGGER_INFO,
};
use scm_model::{Action, Info, TriggerIn};
use scm_text::{Items, OutOfMemory, WText};

/// The next referent, or a null pointer.
#[tactic(auto, unfolding(crate::specs::Parts::put_pointer))]
fn put_pointer(writer: &mut NdrWriter, points: bool) -> Result<(), OutOfMemory>
    ensures front { writer.new.front ≡ writer.old.front }
    ensures ok { OnOk result (writer.new.draft ≡ put_pointer points writer.old.draft) }
    ensures space { writer.old.space ≤ writer.new.space }
    ensures enough { length (put_pointer points writer.old.draft).bytes ≤ writer.old.space
        → IsOk result }
{
    if points {
        writer.referent()
    } else {
        writer.number(0)
    }
}

#[tactic(auto, unfolding(crate::specs::Parts::put_flag))]
fn put_flag(writer: &mut NdrWriter, on: bool) -> Result<(), OutOfMemory>
    ensures front { writer.new.front ≡ writer.old.front }
    ensures ok { OnOk result (writer.new.draft ≡ put_flag on writer.old.draft) }
    ensures space { writer.old.space ≤ writer.new.space }
    ensures enough { length (put_flag on writer.old.draft).bytes ≤ writer.old.space → IsOk result }
{
    if on {
        writer.number(1)
    } else {
        writer.number(0)
    }
}

/// How many actions there are, if there are any.
fn count_of(actions: &Option<Items<Action>>) -> usize
    ensures { result ≡ count_of actions.now }
{
    match actions {
        Some(actions) => actions.len(),
        None => 0,
    }
}

/// The numbers of failure actions. The reboot message is left out.
#[tactic(auto, using(crate::proofs::Grown::all), unfolding(crate::specs::Levels::put_failure_head))]
fn put_failure_head(
    writer: &mut NdrWriter,
    reset: u32,
    command: &Option<WText>,
    actions: &Option<Items<Action>>,
) -> Result<(), OutOfMemory>
    ensures front { writer.new.front ≡ writer.old.front }
    ensures ok { OnOk result (writer.new.draft ≡ put_failure_head reset command.now actions.now
        writer.old.draft) }
    ensures space { writer.old.space ≤ writer.new.space }
    ensures enough { length (put_failure_head reset command.now actions.now
        writer.old.draft).bytes ≤ writer.old.space → IsOk result }
{
    writer.number(reset)?;
    put_pointer(writer, false)?;
    put_pointer(writer, command.is_some())?;
    writer.count(count_of(actions))?;
    put_pointer(writer, actions.is_some())
}

fn put_text_if(writer: &mut NdrWriter, text: &Option<WText>) -> Result<(), OutOfMemory>
    ensures front { writer.new.front ≡ writer.old.front }
    ensures ok { OnOk result (writer.new.draft ≡ put_if put_text text.now writer.old.draft) }
    ensures space { writer.old.space ≤ writer.new.space }
    ensures enough { length (put_if put_text text.now writer.old.draft).bytes ≤ writer.old.space
        → IsOk result }
{
    match text {
        Some(text) => writer.text(text),
        None => Ok(()),
    }
}

#[tactic(auto, using(crate::proofs::Grown::all), unfolding(crate::specs::Levels::put_action))]
fn put_action(writer: &mut NdrWriter, action: Action) -> Result<(), OutOfMemory>
    ensures front { writer.new.front ≡ writer.old.front }
    ensures ok { OnOk result (writer.new.draft ≡ put_action action writer.old.draft) }
    ensures space { writer.old.space ≤ writer.new.space }
    ensures enough { length (put_action action writer.old.draft).bytes ≤ writer.old.space
        → IsOk result }
{
    writer.number(action.what)?;
    writer.number(action.delay)
}

fn put_each_action(writer: &mut NdrWriter, actions: &[Action]) -> Result<(), OutOfMemory>
    ensures front { writer.new.front ≡ writer.old.front }
    ensures ok { OnOk result (writer.new.draft ≡ put_all put_action actions.now writer.old.draft) }
    ensures space { writer.old.space ≤ writer.new.space }
    ensures enough { length (put_all put_action actions.now writer.old.draft).bytes ≤
        writer.old.space → IsOk result }
{
    for action in actions {
        put_action(writer, *action)?;
    }
    Ok(())
}

/// The count of the actions, and then the actions.
#[tactic(auto, using(crate::proofs::Grown::all), unfolding(crate::specs::Levels::put_actions))]
fn put_actions_if(
    writer: &mut NdrWriter,
    actions: &Option<Items<Action>>,
) -> Result<(), OutOfMemory>
    ensures front { writer.new.front ≡ writer.old.front }
    ensures ok { OnOk result (writer.new.draft ≡ put_if put_actions actions.now writer.old.draft) }
    ensures space { writer.old.space ≤ writer.new.space }
    ensures enough { length (put_if put_actions actions.now writer.old.draft).bytes ≤
        writer.old.space → IsOk result }
{
    let Some(actions) = actions else {
        return Ok(());
    };
    writer.count(actions.len())?;
    put_each_action(writer, actions.as_slice())
}

#[tactic(auto, using(crate::proofs::Grown::all), unfolding(crate::specs::Levels::put_failure))]
fn put_failure(
    writer: &mut NdrWriter,
    reset: u32,
    command: &Option<WText>,
    actions: &Option<Items<Action>>,
) -> Result<(), OutOfMemory>
    ensures front { writer.new.front ≡ writer.old.front }
    ensures ok { OnOk result (writer.new.draft ≡ put_failure reset command.now actions.now
        writer.old.draft) }
    ensures space { writer.old.space ≤ writer.new.space }
    ensures enough { length (put_failure reset command.now actions.now writer.old.draft).bytes ≤
        writer.old.space → IsOk result }
{
    put_failure_head(writer, reset, command, actions)?;
    put_text_if(writer, command)?;
    put_actions_if(writer, actions)
}

/// A trigger without its subtype.
#[tactic(auto, using(crate::proofs::Grown::all), unfolding(crate::specs::Levels::put_trigger_head))]
fn put_trigger_head(writer: &mut NdrWriter, trigger: &TriggerIn) -> Result<(), OutOfMemory>
    ensures front { writer.new.front ≡ writer.old.front }
    ensures ok { OnOk result (writer.new.draft ≡ put_trigger_head trigger.now writer.old.draft) }
    ensures space { writer.old.space ≤ writer.new.space }
    ensures enough { length (put_trigger_head trigger.now writer.old.draft).bytes ≤ writer.old.space
        → IsOk result }
{
    writer.number(trigger.kind)?;
    writer.number(trigger.action)?;
    put_pointer(writer, trigger.subtype.is_some())?;
    writer.number(trigger.items)?;
    writer.number(0)
}

fn put_trigger_heads(writer: &mut NdrWriter, triggers: &[TriggerIn]) -> Result<(), OutOfMemory>
    ensures front { writer.new.front ≡ writer.old.front }
    ensures ok { OnOk result (writer.new.draft ≡ put_all put_trigger_head triggers.now
        writer.old.draft) }
    ensures space { writer.old.space ≤ writer.new.space }
    ensures enough { length (put_all put_trigger_head triggers.now writer.old.draft).bytes ≤
        writer.old.space → IsOk result }
{
    for trigger in triggers {
        put_trigger_head(writer, trigger)?;
    }
    Ok(())
}

#[tactic(auto, unfolding(crate::specs::Levels::put_subtype))]
fn put_subtype(writer: &mut NdrWriter, trigger: &TriggerIn) -> Result<(), OutOfMemory>
    ensures front { writer.new.front ≡ writer.old.front }
    ensures ok { OnOk result (writer.new.draft ≡ put_subtype trigger.now writer.old.draft) }
    ensures space { writer.old.space ≤ writer.new.space }
    ensures enough { length (put_subtype trigger.now writer.old.draft).bytes ≤ writer.old.space
        → IsOk result }
{
    match &trigger.subtype {
        Some(subtype) => writer.uuid(subtype),
        None => Ok(()),
    }
}

fn put_subtypes(writer: &mut NdrWriter, triggers: &[TriggerIn]) -> Result<(), OutOfMemory>
    ensures front { writer.new.front ≡ writer.old.front }
    ensures ok { OnOk result (writer.new.draft ≡
        put_all put_subtype triggers.now writer.old.draft) }
    ensures space { writer.old.space ≤ writer.new.space }
    ensures enough { length (put_all put_subtype triggers.now writer.old.draft).bytes ≤
        writer.old.space → IsOk result }
{
    for trigger in triggers {
        put_subtype(writer, trigger)?;
    }
    Ok(())
}

/// A count, a pointer to the triggers, and a null pointer.
#[tactic(auto, using(crate::proofs::Grown::all), unfolding(crate::specs::Levels::put_listing))]
fn put_listing(writer: &mut NdrWriter, count: usize, listed: bool) -> Result<(), OutOfMemory>
    ensures front { writer.new.front ≡ writer.old.front }
    ensures ok { OnOk result (writer.new.draft ≡ put_listing count listed writer.old.draft) }
    ensures space { writer.old.space ≤ writer.new.space }
    ensures enough { length (put_listing count listed writer.old.draft).bytes ≤ writer.old.space
        → IsOk result }
{
    writer.count(count)?;
    put_pointer(writer, listed)?;
    writer.number(0)
}

/// The count of the triggers, the triggers, and then their subtypes.
#[tactic(auto, using(crate::proofs::Grown::all), unfolding(crate::specs::Levels::put_trigger_list))]
fn put_trigger_list(writer: &mut NdrWriter, triggers: &[TriggerIn]) -> Result<(), OutOfMemory>
    ensures front { writer.new.front ≡ writer.old.front }
    ensures ok { OnOk result (writer.new.draft ≡
        put_trigger_list triggers.now writer.old.draft) }
    ensures space { writer.old.space ≤ writer.new.space }
    ensures enough { length (put_trigger_list triggers.now writer.old.draft).bytes ≤
        writer.old.space → IsOk result }
{
    writer.count(triggers.len())?;
    put_trigger_heads(writer, triggers)?;
    put_subtypes(writer, triggers)
}

/// Triggers. No trigger needs no list.
#[tactic(auto, using(crate::proofs::Grown::all), unfolding(crate::specs::Levels::put_triggers))]
fn put_triggers(writer: &mut NdrWriter, triggers: &[TriggerIn]) -> Result<(), OutOfMemory>
    ensures front { writer.new.front ≡ writer.old.front }
    ensures ok { OnOk result (writer.new.draft ≡ put_triggers triggers.now writer.old.draft) }
    ensures space { writer.old.space ≤ writer.new.space }
    ensures enough { length (put_triggers triggers.now writer.old.draft).bytes ≤ writer.old.space
        → IsOk result }
{
    if triggers.len() == 0 {
        return put_listing(writer, 0, false);
    }
    put_listing(writer, triggers.len(), true)?;
    put_trigger_list(writer, triggers)
}

/// What a pointer points to.
#[tactic(auto, unfolding(crate::specs::Levels::put_referent_of))]
fn put_referent_of(writer: &mut NdrWriter, asked: &Info) -> Result<(), OutOfMemory>
    ensures front { writer.new.front ≡ writer.old.front }
    ensures ok { OnOk result (writer.new.draft ≡ put_referent_of asked.now writer.old.draft) }
    ensures space { writer.old.space ≤ writer.new.space }
    ensures enough { length (put_referent_of asked.now writer.old.draft).bytes ≤ writer.old.space
        → IsOk result }
{
    match asked {
        Info::Description(text) => writer.some_text(text.as_ref()),
        Info::Failure {
            reset,
            command,
            actions,
        } => put_failure(writer, *reset, command, actions),
        Info::Delayed(on) | Info::OnExit(on) => put_flag(writer, *on),
        Info::Triggers(list) => put_triggers(writer, list.as_slice()),
        Info::Other(_) | Info::Nothing(_) => Ok(()),
    }
}

/// The arm of the union that the level selects.
#[tactic(auto, using(crate::proofs::Grown::all), unfolding(crate::specs::Levels::put_level))]
fn put_level(writer: &mut NdrWriter, asked: &Info) -> Result<(), OutOfMemory>
    ensures front { writer.new.front ≡ writer.old.front }
    ensures ok { OnOk result (writer.new.draft ≡ put_level asked.now writer.old.draft) }
    ensures space { writer.old.space ≤ writer.new.space }
    ensures enough { length (put_level asked.now writer.old.draft).bytes ≤ writer.old.space
        → IsOk result }
{
    match asked {
        Info::Other(_) => Ok(()),
        Info::Nothing(_) => put_pointer(writer, false),
        _ => {
            put_pointer(writer, true)?;
            put_referent_of(writer, asked)
        }
    }
}

/// The level of what is asked.
fn level_of(asked: &Info) -> u32
    ensures { result ≡ level_of asked.now }
{
    match asked {
        Info::Description(_) => SERVICE_CONFIG_DESCRIPTION,
        Info::Failure { .. } => SERVICE_CONFIG_FAILURE_ACTIONS,
        Info::Delayed(_) => SERVICE_CONFIG_DELAYED_AUTO_START_INFO,
        Info::OnExit(_) => SERVICE_CONFIG_FAILURE_ACTIONS_FLAG,
        Info::Triggers(_) => SERVICE_CONFIG_TRIGGER_INFO,
        Info::Other(level) | Info::Nothing(level) => *level,
    }
}

/// What is asked to be changed at one level.
#[tactic(auto, using(crate::proofs::Grown::all), unfolding(crate::specs::Levels::put_info))]
pub fn put_info(writer: &mut NdrWriter, asked: &Info) -> Result<(), OutOfMemory>
    ensures front { writer.new.front ≡ writer.old.front }
    ensures ok { OnOk result (writer.new.draft ≡ put_info asked.now writer.old.draft) }
    ensures space { writer.old.space ≤ writer.new.space }
    ensures enough { length (put_info asked.now writer.old.draft).bytes ≤ writer.old.space
        → IsOk result }
{
    let level = level_of(asked);
    writer.number(level)?;
    writer.number(level)?;
    put_level(writer, asked)
}
