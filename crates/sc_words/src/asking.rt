ghost use Rattle.std.specs.Prelude.{◌≡◌, ◌++◌, [], ◌-◌, IfOk, OnOk, length, option_map, slice_get};
ghost use Rattle.std.specs.Prelude.{unwrap_or};
ghost use Rattle.sc_words.specs.Asks.{asks, utf16_bytes, change, close, config_asks};
ghost use Rattle.sc_words.specs.Asks.{control_right, creation, is_delayed, level_number};
ghost use Rattle.sc_words.specs.Asks.{manager_right, method_asks, needs_bytes, page_asks};
ghost use Rattle.sc_words.specs.Asks.{query_asks, resume_heard, service_right, start_code};
ghost use Rattle.sc_words.specs.Asks.{tag_asked, task_asks, write_asks};
ghost use Rattle.scm_model.specs.declared.calls.Info.TheVariants as info;
ghost use Rattle.scm_model.specs.declared.calls.Request.TheVariants as request;

use super::calls::{Heard, Method, Stage, closed, given, handle_before, stage_of};
use super::command::{Command, Level, Task};
use super::security::right_of_parts;
use super::settings::Settings;
use super::values::StartType;
use scm_model::codes::{
    DELETE, MAX_CONFIG_SIZE, MAX_ENUM_SIZE, MAX_LOCK_STATUS_SIZE, SC_MANAGER_CONNECT,
    SC_MANAGER_CREATE_SERVICE, SC_MANAGER_ENUMERATE_SERVICE, SC_MANAGER_QUERY_LOCK_STATUS,
    SC_STATUS_PROCESS_INFO, SERVICE_ALL_ACCESS, SERVICE_AUTO_START, SERVICE_CHANGE_CONFIG,
    SERVICE_CONFIG_DELAYED_AUTO_START_INFO, SERVICE_CONFIG_DESCRIPTION,
    SERVICE_CONFIG_FAILURE_ACTIONS, SERVICE_CONFIG_FAILURE_ACTIONS_FLAG,
    SERVICE_CONFIG_TRIGGER_INFO, SERVICE_CONTROL_CONTINUE, SERVICE_CONTROL_INTERROGATE,
    SERVICE_CONTROL_NETBINDDISABLE, SERVICE_CONTROL_PARAMCHANGE, SERVICE_CONTROL_PAUSE,
    SERVICE_CONTROL_STOP, SERVICE_DEMAND_START, SERVICE_DISABLED, SERVICE_ENUMERATE_DEPENDENTS,
    SERVICE_ERROR_NORMAL, SERVICE_INTERROGATE, SERVICE_NO_CHANGE, SERVICE_PAUSE_CONTINUE,
    SERVICE_QUERY_CONFIG, SERVICE_QUERY_STATUS, SERVICE_START, SERVICE_STATE_ALL, SERVICE_STOP,
    SERVICE_USER_DEFINED_CONTROL, SERVICE_WIN32_OWN_PROCESS, SERVICE_WIN32_SHARE_PROCESS,
};
use scm_model::{
    Action, Apart, ChangeService, Info, NewService, Reply, Request, TriggerIn, copy_texts,
};
use scm_text::{Items, OutOfMemory, WText};
use sec_desc::codes::{DACL_SECURITY_INFORMATION, READ_CONTROL};
use std::alloc::Global;

/// How many units a name may have that is asked for, with its zero.
const NAME_SIZE: u32 = 4096;

/// How many bytes a descriptor of a list has at most: 20, and those of the list.
const SECURITY_SIZE: u32 = 65555;

/// How many bytes a page of services has.
const PAGE_SIZE: u32 = 65536;

/// The right that is asked for on the manager.
fn manager_right(task: &Task) -> u32
    ensures { result ≡ manager_right task.now }
{
    match task {
        Task::Create(_) => SC_MANAGER_CREATE_SERVICE,
        Task::QueryAll => SC_MANAGER_ENUMERATE_SERVICE,
        Task::QueryLock => SC_MANAGER_QUERY_LOCK_STATUS,
        _ => SC_MANAGER_CONNECT,
    }
}

/// The right that sending a control needs.
fn control_right(code: u32) -> u32
    ensures { result ≡ control_right code }
{
    if code == SERVICE_CONTROL_STOP {
        SERVICE_STOP
    } else if code == SERVICE_CONTROL_PAUSE {
        SERVICE_PAUSE_CONTINUE
    } else if code == SERVICE_CONTROL_CONTINUE {
        SERVICE_PAUSE_CONTINUE
    } else if code == SERVICE_CONTROL_INTERROGATE {
        SERVICE_INTERROGATE
    } else if SERVICE_CONTROL_PARAMCHANGE <= code && code <= SERVICE_CONTROL_NETBINDDISABLE {
        SERVICE_PAUSE_CONTINUE
    } else {
        SERVICE_USER_DEFINED_CONTROL
    }
}

/// The rights that are asked for on the service, or none where it isn't opened.
fn service_right(task: &Task) -> u32
    ensures { result ≡ service_right task.now }
{
    match task {
        Task::Create(_) => SERVICE_ALL_ACCESS,
        Task::Config(_) | Task::Description(_) => SERVICE_CHANGE_CONFIG,
        Task::Failure(_) => SERVICE_CHANGE_CONFIG + SERVICE_START,
        Task::Start(_) => SERVICE_START,
        Task::Control(code) => control_right(*code),
        Task::Query => SERVICE_QUERY_STATUS,
        Task::Delete => DELETE,
        Task::QueryConfig | Task::QueryLevel(_) => SERVICE_QUERY_CONFIG,
        Task::QueryEx => SERVICE_QUERY_STATUS,
        Task::FailureFlag(_) | Task::Triggers(_) => SERVICE_CHANGE_CONFIG,
        Task::EnumDepend => SERVICE_ENUMERATE_DEPENDENTS,
        Task::QuerySecurity => READ_CONTROL,
        Task::SetSecurity(new) => right_of_parts(new.parts),
        _ => 0,
    }
}

/// The number of a start type; that it is delayed is said elsewhere.
fn start_code(start: StartType) -> u32
    ensures { result ≡ start_code start }
{
    match start {
        StartType::Auto | StartType::DelayedAuto => SERVICE_AUTO_START,
        StartType::Demand => SERVICE_DEMAND_START,
        StartType::Disabled => SERVICE_DISABLED,
    }
}

/// The number of a start type, or another.
fn start_or(start: Option<StartType>, other: u32) -> u32
    ensures { result ≡ unwrap_or (option_map start_code start) other }
{
    match start {
        Some(start) => start_code(start),
        None => other,
    }
}

fn is_delayed(start: Option<StartType>) -> bool
    ensures { result ≡ is_delayed start }
{
    matches!(start, Some(StartType::DelayedAuto))
}

/// What asks for a tag.
fn tag_asked(asked: Option<bool>) -> Option<u32>
    ensures { result ≡ tag_asked asked }
{
    match asked {
        Some(true) => Some(0),
        _ => None,
    }
}

/// Appends units as bytes, the low one first.
fn append_units(bytes: &mut Items<u8>, units: &[u16]) -> Result<(), OutOfMemory>
    ensures { OnOk result (bytes.new ≡ bytes.old ++ utf16_bytes units.now) }
{
    for unit in units {
        bytes.append(&[(*unit % 256) as u8, (*unit / 256) as u8])?;
    }
    Ok(())
}

/// Names, each ended by a 0 and all by one more.
#[tactic(auto, unfolding(crate::specs::Asks::needs_bytes))]
fn needs_bytes(alloc: Global, names: &[WText]) -> Result<Items<u8>, OutOfMemory>
    ensures { IfOk result (λ bytes. bytes ≡ needs_bytes names.now) }
{
    let mut bytes = Items::new(alloc);
    for name in names {
        append_units(&mut bytes, name.units())?;
        bytes.append(&[0, 0])?;
    }
    bytes.append(&[0, 0])?;
    Ok(bytes)
}

/// The bytes of names that may be absent.
fn some_needs(alloc: Global, names: &Option<Items<WText>>) -> Result<Option<Items<u8>>, OutOfMemory>
    ensures { IfOk result (λ bytes. bytes ≡ option_map needs_bytes names.now) }
{
    match names {
        Some(names) => Ok(Some(needs_bytes(alloc, names.as_slice())?)),
        None => Ok(None),
    }
}

/// A copy of a text that may be absent.
fn copy_of_text(alloc: Global, text: &Option<WText>) -> Result<Option<WText>, OutOfMemory>
    ensures { IfOk result (λ copy. copy ≡ text.now) }
{
    match text {
        Some(text) => Ok(Some(text.copy(alloc)?)),
        None => Ok(None),
    }
}

/// A copy of actions that may be absent.
fn copy_of_actions(
    alloc: Global,
    actions: &Option<Items<Action>>,
) -> Result<Option<Items<Action>>, OutOfMemory>
    ensures { IfOk result (λ copy. copy ≡ actions.now) }
{
    match actions {
        Some(actions) => match Vec::from_slice(alloc, actions.as_slice()) {
            Ok(copy) => Ok(Some(Items::from_vec(copy))),
            Err(_) => Err(OutOfMemory),
        },
        None => Ok(None),
    }
}

/// A copy of triggers.
fn copy_of_triggers(alloc: Global, triggers: &[TriggerIn]) -> Result<Items<TriggerIn>, OutOfMemory>
    ensures { IfOk result (λ copy. copy ≡ triggers.now) }
{
    match Vec::from_slice(alloc, triggers) {
        Ok(copy) => Ok(Items::from_vec(copy)),
        Err(_) => Err(OutOfMemory),
    }
}

/// What a change asks.
fn change(alloc: Global, settings: &Settings, handle: u64) -> Result<ChangeService, OutOfMemory>
    ensures { IfOk result (λ asked. asked ≡ change settings.now handle) }
{
    let display = copy_of_text(alloc, &settings.display)?;
    let path = copy_of_text(alloc, &settings.path)?;
    let group = copy_of_text(alloc, &settings.group)?;
    let needs = some_needs(alloc, &settings.needs)?;
    let account = copy_of_text(alloc, &settings.account)?;
    Ok(ChangeService {
        handle,
        kind: settings.kind.unwrap_or(SERVICE_NO_CHANGE),
        start: start_or(settings.start, SERVICE_NO_CHANGE),
        error: settings.error.unwrap_or(SERVICE_NO_CHANGE),
        path,
        group,
        tag: tag_asked(settings.tag),
        needs,
        account,
        display,
    })
}

/// What a creation asks: what a change asks, under a name and with defaults.
fn creation(
    alloc: Global,
    name: &WText,
    settings: &Settings,
    handle: u64,
) -> Result<NewService, OutOfMemory>
    ensures { IfOk result (λ new. new ≡ creation name.now settings.now handle) }
{
    let name = name.copy(alloc)?;
    let ChangeService {
        display,
        path,
        group,
        needs,
        account,
        tag,
        ..
    } = change(alloc, settings, handle)?;
    Ok(NewService {
        handle,
        name,
        display,
        access: SERVICE_ALL_ACCESS,
        kind: settings.kind.unwrap_or(SERVICE_WIN32_OWN_PROCESS),
        start: start_or(settings.start, SERVICE_DEMAND_START),
        error: settings.error.unwrap_or(SERVICE_ERROR_NORMAL),
        path: path.unwrap_or(WText::new(alloc)),
        group,
        tag,
        needs,
        account,
    })
}

/// What failure actions ask.
fn failure(alloc: Global, settings: &Settings) -> Result<Info, OutOfMemory>
    ensures { IfOk result (λ change. change ≡ info.Failure
        (unwrap_or settings.now.reset 0) settings.now.command settings.now.actions) }
{
    let command = copy_of_text(alloc, &settings.command)?;
    let actions = copy_of_actions(alloc, &settings.actions)?;
    Ok(Info::Failure {
        reset: settings.reset.unwrap_or(0),
        command,
        actions,
    })
}

/// Whether the service starts delayed is asked by a call of its own.
fn delay(handle: u64, settings: &Settings) -> Request
    ensures { result ≡ request.Change2 handle (info.Delayed (is_delayed settings.now.start)) }
{
    Request::Change2 {
        handle,
        info: Info::Delayed(is_delayed(settings.start)),
    }
}

impl Level {
    /// Its number.
    fn number(self) -> u32
        ensures { result ≡ level_number self }
    {
        match self {
            Level::Description => SERVICE_CONFIG_DESCRIPTION,
            Level::Failure => SERVICE_CONFIG_FAILURE_ACTIONS,
            Level::FailureFlag => SERVICE_CONFIG_FAILURE_ACTIONS_FLAG,
            Level::Triggers => SERVICE_CONFIG_TRIGGER_INFO,
        }
    }
}

/// The number after which the next page of services begins.
fn resume_after(heard: &[Heard]) -> Option<u32>
    ensures { result ≡ resume_heard (slice_get heard.now (length heard.now - 1)) }
{
    match heard.get(heard.len().saturating_sub(1)) {
        Some(Heard::Reply(Reply::Page { resume, .. })) => *resume,
        _ => Some(0),
    }
}

/// What asks for the services after those that were given.
fn page_asks(handle: u64, heard: &[Heard]) -> Request
    ensures { result ≡ page_asks handle heard.now }
{
    Request::EnumServices {
        handle,
        kinds: SERVICE_WIN32_OWN_PROCESS + SERVICE_WIN32_SHARE_PROCESS,
        states: SERVICE_STATE_ALL,
        size: PAGE_SIZE,
        resume: resume_after(heard),
    }
}

/// What asks for a configuration, or, by a call of its own, whether the service starts delayed.
fn config_asks(method: Method, handle: u64) -> Request
    ensures { result ≡ config_asks method handle }
{
    if method == Method::QueryServiceConfig2 {
        Request::QueryConfig2 {
            handle,
            level: SERVICE_CONFIG_DELAYED_AUTO_START_INFO,
            size: MAX_CONFIG_SIZE,
        }
    } else {
        Request::QueryConfig {
            handle,
            size: MAX_CONFIG_SIZE,
        }
    }
}

impl Command {
    /// What a task of reading asks by a handle.
    fn query_asks(&self, alloc: Global, method: Method, handle: u64) -> Result<Request, OutOfMemory>
        ensures { IfOk result (λ asked. asked ≡ query_asks self.now self.now.task method handle) }
    {
        match &self.task {
            Task::QueryConfig => Ok(config_asks(method, handle)),
            Task::QueryLevel(level) => Ok(Request::QueryConfig2 {
                handle,
                level: level.number(),
                size: MAX_CONFIG_SIZE,
            }),
            Task::QueryEx => Ok(Request::QueryStatusEx {
                handle,
                level: SC_STATUS_PROCESS_INFO,
                size: MAX_CONFIG_SIZE,
            }),
            Task::EnumDepend => Ok(Request::EnumDependents {
                handle,
                states: SERVICE_STATE_ALL,
                size: MAX_ENUM_SIZE,
            }),
            Task::DisplayName => Ok(Request::DisplayName {
                handle,
                name: self.name.copy(alloc)?,
                size: NAME_SIZE,
            }),
            Task::KeyName => Ok(Request::KeyName {
                handle,
                name: self.name.copy(alloc)?,
                size: NAME_SIZE,
            }),
            Task::QuerySecurity => Ok(Request::QuerySecurity {
                handle,
                parts: DACL_SECURITY_INFORMATION,
                size: SECURITY_SIZE,
            }),
            _ => Ok(Request::QueryLock {
                handle,
                size: MAX_LOCK_STATUS_SIZE,
            }),
        }
    }

    /// What a task that writes a configuration asks by a handle.
    fn write_asks(&self, alloc: Global, method: Method, handle: u64) -> Result<Request, OutOfMemory>
        ensures { IfOk result (λ asked. asked ≡ write_asks self.now self.now.task method handle) }
    {
        match &self.task {
            Task::Create(settings) => {
                if method == Method::ChangeServiceConfig2 {
                    return Ok(delay(handle, settings));
                }
                let new = creation(alloc, &self.name, settings, handle)?;
                Ok(Request::Create(Apart::new(alloc, new)?))
            }
            Task::Config(settings) => {
                if method == Method::ChangeServiceConfig2 {
                    return Ok(delay(handle, settings));
                }
                let change = change(alloc, settings, handle)?;
                Ok(Request::Change(Apart::new(alloc, change)?))
            }
            Task::Description(text) => Ok(Request::Change2 {
                handle,
                info: Info::Description(Some(text.copy(alloc)?)),
            }),
            Task::Failure(settings) => Ok(Request::Change2 {
                handle,
                info: failure(alloc, settings)?,
            }),
            Task::FailureFlag(on) => Ok(Request::Change2 {
                handle,
                info: Info::OnExit(*on),
            }),
            Task::Triggers(triggers) => Ok(Request::Change2 {
                handle,
                info: Info::Triggers(copy_of_triggers(alloc, triggers.as_slice())?),
            }),
            Task::SetSecurity(new) => Ok(Request::SetSecurity {
                handle,
                parts: new.parts,
                bytes: Items::from_slice(alloc, new.bytes.as_slice())?,
            }),
            _ => self.query_asks(alloc, method, handle),
        }
    }

    /// What a task asks by a handle.
    fn task_asks(&self, alloc: Global, method: Method, handle: u64) -> Result<Request, OutOfMemory>
        ensures { IfOk result (λ asked. asked ≡ task_asks self.now self.now.task method handle) }
    {
        match &self.task {
            Task::Start(words) => Ok(Request::Start {
                handle,
                words: Some(copy_texts(words.as_slice(), alloc)?),
            }),
            Task::Control(code) => Ok(Request::Control {
                handle,
                control: *code,
            }),
            Task::Query => Ok(Request::QueryStatus { handle }),
            Task::Delete => Ok(Request::Delete { handle }),
            _ => self.write_asks(alloc, method, handle),
        }
    }
}

/// What a call asks by the handle that was given last.
fn method_asks(
    alloc: Global,
    command: &Command,
    method: Method,
    heard: &[Heard],
    handle: u64,
) -> Result<Request, OutOfMemory>
    ensures { IfOk result (λ asked. asked ≡ method_asks command.now method heard.now handle) }
{
    match method {
        Method::OpenSCManager => Ok(Request::OpenManager {
            database: None,
            access: manager_right(&command.task),
        }),
        Method::OpenService => Ok(Request::OpenService {
            handle,
            name: command.name.copy(alloc)?,
            access: service_right(&command.task),
        }),
        Method::EnumServicesStatus => Ok(page_asks(handle, heard)),
        _ => command.task_asks(alloc, method, handle),
    }
}

/// The close of the handle that was given last among those that aren't closed.
fn close(command: &Command, heard: &[Heard]) -> Option<Request>
    ensures { result ≡ close command.now heard.now }
{
    let task = &command.task;
    let closed = closed(task, heard);
    if closed < given(task, heard) {
        let handle = handle_before(closed, task, heard);
        Some(Request::Close { handle })
    } else {
        None
    }
}

/// The next request of a command after these replies, or none where all is asked: the calls in
/// order, each by the handle that was given last, up to the first that doesn't succeed; and then
/// the closes, the handle that was given last first.
#[tactic(auto, unfolding(crate::specs::Asks::asks))]
pub fn next_request(
    alloc: Global,
    command: &Command,
    heard: &[Heard],
) -> Result<Option<Request>, OutOfMemory>
    ensures { IfOk result (λ asked. asked ≡ asks command.now heard.now) }
{
    let Stage::Asks(method) = stage_of(&command.task, heard) else {
        return Ok(close(command, heard));
    };
    let handle = handle_before(0, &command.task, heard);
    Ok(Some(method_asks(alloc, command, method, heard, handle)?))
}
