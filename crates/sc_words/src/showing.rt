ghost use Rattle.std.specs.Prelude.{◌≡◌, ◌++◌, IfOk, OnOk, slice_get};
ghost use Rattle.sc_words.specs.Told.{told_bytes, call_line, config_lines, count_line};
ghost use Rattle.sc_words.specs.Told.{dependents_at};
ghost use Rattle.sc_words.specs.Told.{dependents_text, done_text, failed_line, failure_of};
ghost use Rattle.sc_words.specs.Told.{level_text, lock_lines, method_name, name_line_at, page_text};
ghost use Rattle.sc_words.specs.Told.{pages_text, read_text, shown_text, status_lines, success};
ghost use Rattle.sc_words.specs.Told.{told_text};
ghost use Rattle.sc_words.specs.declared.calls.Method.TheVariants.{QueryServiceConfig};
ghost use Rattle.sc_words.specs.declared.calls.Method.TheVariants.{QueryServiceConfig2};
ghost use Rattle.sc_words.specs.declared.calls.Method.TheVariants.{QueryServiceLockStatus};

use super::calls::{Failure, Heard, Method, Stage, code_heard, stage_of};
use super::command::{Command, Level, Task};
use sc_lines::{
    Appended, Line, add_config, add_description, add_failure, add_flag, add_lines, add_listing,
    add_lock, add_process, add_security, add_status, add_triggers, is_on,
};
use scm_model::{Apart, Reply, Shown};
use scm_text::{Items, OutOfMemory, WText};
use std::alloc::Global;

/// The name of a call as it is printed.
fn method_name(method: Method) -> &'static str
    ensures { result.now ≡ method_name method }
{
    match method {
        Method::OpenSCManager => "OpenSCManager",
        Method::OpenService => "OpenService",
        Method::CreateService => "CreateService",
        Method::ChangeServiceConfig => "ChangeServiceConfig",
        Method::ChangeServiceConfig2 => "ChangeServiceConfig2",
        Method::StartService => "StartService",
        Method::ControlService => "ControlService",
        Method::QueryServiceStatus => "QueryServiceStatus",
        Method::DeleteService => "DeleteService",
        Method::QueryServiceConfig => "QueryServiceConfig",
        Method::QueryServiceConfig2 => "QueryServiceConfig2",
        Method::QueryServiceStatusEx => "QueryServiceStatusEx",
        Method::EnumDependentServices => "EnumDependentServices",
        Method::GetServiceDisplayName => "GetServiceDisplayName",
        Method::GetServiceKeyName => "GetServiceKeyName",
        Method::EnumServicesStatus => "EnumServicesStatus",
        Method::QueryServiceLockStatus => "QueryServiceLockStatus",
        Method::QueryServiceObjectSecurity => "QueryServiceObjectSecurity",
        Method::SetServiceObjectSecurity => "SetServiceObjectSecurity",
    }
}

/// Appends `[SC] CALL` and what became of it.
fn add_call(text: &mut Items<u8>, method: Method, front: &str, rest: &str) -> Appended
    ensures { OnOk result (text.new ≡ text.old ++ call_line method (front.now ++ rest.now)) }
{
    text.append_pair(b"[SC] ", method_name(method).as_bytes())?;
    text.append_pair(front.as_bytes(), rest.as_bytes())?;
    text.append(b"\n")
}

/// Appends that a call was refused, or met a fault.
fn add_failed(text: &mut Items<u8>, method: Method, heard: &Heard) -> Appended
    ensures { OnOk result (text.new ≡ text.old ++ failed_line method heard.now) }
{
    match heard {
        Heard::Reply(reply) => {
            let code = code_heard(reply);
            add_call(text, method, " FAILED ", itoa::Buffer::new().format(code))
        }
        Heard::Fault(status) => {
            add_call(text, method, " FAULT ", itoa::Buffer::new().format(*status))
        }
    }
}

/// Appends that a call succeeded.
fn add_success(text: &mut Items<u8>, method: Method) -> Appended
    ensures { OnOk result (text.new ≡ text.old ++ success method) }
{
    add_call(text, method, " SUCCESS", "")
}

/// Appends the status in the reply to the third call.
fn add_told(text: &mut Items<u8>, alloc: Global, name: &WText, heard: &[Heard]) -> Appended
    ensures { OnOk result (text.new ≡ text.old ++ status_lines name.now (slice_get heard.now 2)) }
{
    let Some(Heard::Reply(Reply::State { status, .. })) = heard.get(2) else {
        return Ok(());
    };
    add_status(text, alloc, name.units(), status)
}

/// The bytes in the answer at a place.
fn bytes_at(heard: &[Heard], place: usize) -> &[u8]
    ensures { result.now ≡ told_bytes (slice_get heard.now place) }
{
    match heard.get(place) {
        Some(Heard::Reply(Reply::Bytes { bytes, .. })) => bytes.as_slice(),
        _ => &[],
    }
}

/// Appends a configuration, if one was given. Bytes say whether its start is delayed.
fn add_some_config(
    text: &mut Items<u8>,
    alloc: Global,
    name: &WText,
    config: &Option<Apart<Shown>>,
    bytes: &[u8],
) -> Appended
    ensures { OnOk result (text.new ≡ text.old ++ shown_text name.now config.now bytes.now) }
{
    match config {
        Some(config) => add_config(text, alloc, name.units(), config, is_on(bytes)),
        None => Ok(()),
    }
}

/// Appends the configuration in the reply to the third call, and whether its start is delayed,
/// which is in the next one.
fn add_shown(text: &mut Items<u8>, alloc: Global, name: &WText, heard: &[Heard]) -> Appended
    ensures { OnOk result (text.new
        ≡ text.old ++ config_lines name.now (slice_get heard.now 2) (slice_get heard.now 3)) }
{
    let Some(Heard::Reply(Reply::Shown { config, .. })) = heard.get(2) else {
        return Ok(());
    };
    add_some_config(text, alloc, name, config, bytes_at(heard, 3))
}

/// Appends a configuration, after that its call succeeded.
fn add_config_told(text: &mut Items<u8>, alloc: Global, name: &WText, heard: &[Heard]) -> Appended
    ensures { OnOk result (text.new ≡ text.old ++ (success QueryServiceConfig
        ++ config_lines name.now (slice_get heard.now 2) (slice_get heard.now 3))) }
{
    add_success(text, Method::QueryServiceConfig)?;
    add_shown(text, alloc, name, heard)
}

/// Appends a part of a configuration, after that its call succeeded.
fn add_level(
    text: &mut Items<u8>,
    alloc: Global,
    level: Level,
    name: &[u16],
    bytes: &[u8],
) -> Appended
    ensures { OnOk result (text.new ≡ text.old ++ (success QueryServiceConfig2
        ++ level_text level name.now bytes.now)) }
{
    add_success(text, Method::QueryServiceConfig2)?;
    match level {
        Level::Description => add_description(text, alloc, name, bytes),
        Level::Failure => add_failure(text, alloc, name, bytes),
        Level::FailureFlag => add_flag(text, alloc, name, bytes),
        Level::Triggers => add_triggers(text, alloc, name, bytes),
    }
}

/// Appends how many services a call read.
fn add_count(text: &mut Items<u8>, method: Method, count: u32) -> Appended
    ensures { OnOk result (text.new ≡ text.old ++ count_line method count) }
{
    add_call(
        text,
        method,
        ": entriesread = ",
        itoa::Buffer::new().format(count),
    )
}

/// Appends how many services need one, and each of them.
fn add_listed(text: &mut Items<u8>, alloc: Global, returned: u32, bytes: &[u8]) -> Appended
    ensures { OnOk result (text.new ≡ text.old ++ dependents_text returned bytes.now) }
{
    add_count(text, Method::EnumDependentServices, returned)?;
    add_listing(text, alloc, returned, bytes)
}

/// Appends the services that need one, of the reply to the third call.
fn add_dependents(text: &mut Items<u8>, alloc: Global, heard: &[Heard]) -> Appended
    ensures { OnOk result (text.new ≡ text.old ++ dependents_at (slice_get heard.now 2)) }
{
    let Some(
        Heard::Reply(
            Reply::Listing {
                bytes,
                returned,
                ..
            },
        ),
    ) = heard.get(2)
    else {
        return Ok(());
    };
    add_listed(text, alloc, *returned, bytes.as_slice())
}

/// Appends the services of a page.
fn add_page(text: &mut Items<u8>, alloc: Global, heard: &Heard) -> Appended
    ensures { OnOk result (text.new ≡ text.old ++ page_text heard.now) }
{
    match heard {
        Heard::Reply(
            Reply::Page {
                bytes,
                returned,
                ..
            },
        ) => add_listing(text, alloc, *returned, bytes.as_slice()),
        _ => Ok(()),
    }
}

/// Appends the services of every page.
fn add_pages(text: &mut Items<u8>, alloc: Global, heard: &[Heard]) -> Appended
    ensures { OnOk result (text.new ≡ text.old ++ pages_text heard.now) }
{
    for page in heard {
        add_page(text, alloc, page)?;
    }
    Ok(())
}

/// Appends the name in the reply to the second call.
fn add_name_line(text: &mut Items<u8>, alloc: Global, heard: &[Heard]) -> Appended
    ensures { OnOk result (text.new ≡ text.old ++ name_line_at (slice_get heard.now 1)) }
{
    match heard.get(1) {
        Some(Heard::Reply(Reply::Name { name, .. })) => {
            add_lines(text, alloc, &[Line::Text("Name = ", name.units())])
        }
        _ => Ok(()),
    }
}

/// Appends a name that was asked for, after that its call succeeded.
fn add_name(text: &mut Items<u8>, alloc: Global, method: Method, heard: &[Heard]) -> Appended
    ensures { OnOk result (text.new
        ≡ text.old ++ (success method ++ name_line_at (slice_get heard.now 1))) }
{
    add_success(text, method)?;
    add_name_line(text, alloc, heard)
}

/// Appends who holds the lock of the database, after that its call succeeded.
fn add_lock_told(text: &mut Items<u8>, alloc: Global, heard: &[Heard]) -> Appended
    ensures { OnOk result (text.new
        ≡ text.old ++ (success QueryServiceLockStatus ++ lock_lines (slice_get heard.now 1))) }
{
    add_success(text, Method::QueryServiceLockStatus)?;
    match heard.get(1) {
        Some(
            Heard::Reply(
                Reply::LockState {
                    held,
                    owner,
                    seconds,
                    ..
                },
            ),
        ) => {
            let owner = match owner {
                Some(owner) => owner.units(),
                None => &[],
            };
            add_lock(text, alloc, *held, owner, *seconds)
        }
        _ => Ok(()),
    }
}

/// Appends what is printed of a task that reads.
fn add_read(text: &mut Items<u8>, alloc: Global, command: &Command, heard: &[Heard]) -> Appended
    ensures { OnOk result (text.new ≡ text.old ++ read_text command.now.name command.now.task
        heard.now) }
{
    let name = &command.name;
    match &command.task {
        Task::QueryConfig => add_config_told(text, alloc, name, heard),
        Task::QueryLevel(level) => {
            add_level(text, alloc, *level, name.units(), bytes_at(heard, 2))
        }
        Task::QueryEx => add_process(text, alloc, name.units(), bytes_at(heard, 2)),
        Task::EnumDepend => add_dependents(text, alloc, heard),
        Task::DisplayName => add_name(text, alloc, Method::GetServiceDisplayName, heard),
        Task::KeyName => add_name(text, alloc, Method::GetServiceKeyName, heard),
        Task::QueryAll => add_pages(text, alloc, heard),
        Task::QuerySecurity => add_security(text, alloc, bytes_at(heard, 2)),
        _ => add_lock_told(text, alloc, heard),
    }
}

/// Appends what is printed where all calls succeeded.
fn add_done(text: &mut Items<u8>, alloc: Global, command: &Command, heard: &[Heard]) -> Appended
    ensures { OnOk result (text.new ≡ text.old ++ done_text command.now.name command.now.task
        heard.now) }
{
    match &command.task {
        Task::Create(_) => add_success(text, Method::CreateService),
        Task::Config(_) => add_success(text, Method::ChangeServiceConfig),
        Task::Description(_) | Task::Failure(_) => {
            add_success(text, Method::ChangeServiceConfig2)
        }
        Task::FailureFlag(_) | Task::Triggers(_) => {
            add_success(text, Method::ChangeServiceConfig2)
        }
        Task::SetSecurity(_) => add_success(text, Method::SetServiceObjectSecurity),
        Task::Start(_) => add_success(text, Method::StartService),
        Task::Control(_) | Task::Query => add_told(text, alloc, &command.name, heard),
        Task::Delete => add_success(text, Method::DeleteService),
        _ => add_read(text, alloc, command, heard),
    }
}

/// The text of a command's replies: that it succeeded, what was asked for, or the first call that
/// didn't succeed. It is empty while a call is still to be made.
#[tactic(auto, unfolding(crate::specs::Told::told_text))]
pub fn show_reply(
    alloc: Global,
    command: &Command,
    heard: &Items<Heard>,
) -> Result<Items<u8>, OutOfMemory>
    ensures { IfOk result (λ text. text ≡ told_text command.now heard.now) }
{
    let mut text = Items::new(alloc);
    let heard = heard.as_slice();
    match stage_of(&command.task, heard) {
        Stage::Asks(_) => {}
        Stage::Failed(method, failed) => add_failed(&mut text, method, failed)?,
        Stage::Done => add_done(&mut text, alloc, command, heard)?,
    }
    Ok(text)
}

/// Why a call didn't succeed, if one didn't.
#[tactic(auto, unfolding(crate::specs::Told::failure_of))]
pub fn failure_of(command: &Command, heard: &Items<Heard>) -> Option<Failure>
    ensures { result ≡ failure_of command.now heard.now }
{
    match stage_of(&command.task, heard.as_slice()) {
        Stage::Failed(_, failed) => Some(failed.failure()),
        _ => None,
    }
}
