ghost use Rattle.std.specs.Prelude.{◌≡◌, ◌≢◌, IfOk, IfSome, None, Some};
ghost use Rattle.std.specs.List.{list_any};
ghost use Rattle.scm_model.specs.Refused.{first_refusal};
ghost use Rattle.scm_model.specs.declared.steps.Kept.TheVariants as appended;
ghost use Rattle.scm_rules.specs.Change2.{asked_level, asks_restart, change2_change};
ghost use Rattle.scm_rules.specs.Change2.{change2_outcome, change2_verdict, has_bad_trigger};
ghost use Rattle.scm_rules.specs.Change2.{is_bad_trigger, is_other, is_refused, is_restart};
ghost use Rattle.scm_rules.specs.Change2.{level_changed, level_config};
ghost use Rattle.scm_rules.specs.Verdicts.{unless_refused};
ghost use Rattle.scm_tables.specs.Tabled.{HasNeedRoom};
ghost use Rattle.scm_arms_service.specs.Leveled.{level_refusals};

use super::changing::changed_from;
use super::deleting::code_once_kept;
use super::levels::config_at;
use scm_model::codes::{
    ERROR_ACCESS_DENIED, ERROR_INVALID_HANDLE, ERROR_INVALID_LEVEL, ERROR_INVALID_PARAMETER,
    ERROR_SERVICE_MARKED_FOR_DELETE, SC_ACTION_RESTART, SERVICE_CHANGE_CONFIG, SERVICE_START,
    SERVICE_TRIGGER_ACTION_SERVICE_START, SERVICE_TRIGGER_ACTION_SERVICE_STOP,
    SERVICE_TRIGGER_TYPE_CUSTOM,
};
use scm_model::{Action, Change, Config, Info, Kept, Reply, Service, TriggerIn};
use scm_tables::{Tables, mask_lacks};
use scm_text::OutOfMemory;
use service_record::check_change;
use std::alloc::Global;

/// The new configuration that is asked for, where the service is there.
pub fn asked_level(
    tables: &Tables,
    caller: u64,
    handle: u64,
    info: &Info,
    alloc: Global,
) -> Result<Option<Config>, OutOfMemory>
    ensures { IfOk result (λ config. config ≡ asked_level tables.now.flat caller handle info.now) }
{
    match tables.held_service(caller, handle) {
        Some(row) => Ok(Some(config_at(info, &row.config, alloc)?)),
        None => Ok(None),
    }
}

/// Whether one of some actions is a restart.
fn has_restart(actions: &[Action]) -> bool
    ensures { result ≡ list_any is_restart actions.now }
{
    actions
        .iter()
        .any(|action| action.what == SC_ACTION_RESTART)
}

/// Whether a restart is asked for, which takes the right to start.
fn asks_restart(info: &Info) -> bool
    ensures { result ≡ asks_restart info.now }
{
    match info {
        Info::Failure {
            actions: Some(actions),
            ..
        } => has_restart(actions.as_slice()),
        _ => false,
    }
}

/// Whether a trigger is of another type, does something else, has data or has no subtype.
fn is_bad_trigger(asked: &TriggerIn) -> bool
    ensures { result ≡ is_bad_trigger asked.now }
{
    asked.kind != SERVICE_TRIGGER_TYPE_CUSTOM
        || !(asked.action == SERVICE_TRIGGER_ACTION_SERVICE_START
            || asked.action == SERVICE_TRIGGER_ACTION_SERVICE_STOP)
        || asked.subtype.is_none()
        || asked.items != 0
}

/// Whether one of some triggers is such a trigger.
fn has_bad(list: &[TriggerIn]) -> bool
    ensures { result ≡ list_any is_bad_trigger list.now }
{
    list.iter().any(|asked| is_bad_trigger(asked))
}

/// Whether such a trigger is asked for.
fn has_bad_trigger(info: &Info) -> bool
    ensures { result ≡ has_bad_trigger info.now }
{
    match info {
        Info::Triggers(list) => has_bad(list.as_slice()),
        _ => false,
    }
}

/// Whether the new configuration of a service isn't accepted.
fn is_refused(info: &Info, service: &Service, alloc: Global) -> Result<bool, OutOfMemory>
    ensures { IfOk result (λ refused. refused ≡ is_refused info.now (Some service.now)) }
{
    let new = config_at(info, &service.config, alloc)?;
    Ok(check_change(&service.config, &new, None) != 0)
}

/// Whether the level isn't served.
fn is_other(info: &Info) -> bool
    ensures { result ≡ is_other info.now }
{
    matches!(info, Info::Other(_))
}

/// What a level of a service that is there is refused with, or 0, where the caller may change it.
fn row_verdict(info: &Info, service: &Service, alloc: Global) -> Result<u32, OutOfMemory>
    ensures { IfOk result (λ code. code ≡ first_refusal
        (level_refusals info.now (Some service.now))) }
{
    if service.marked {
        return Ok(ERROR_SERVICE_MARKED_FOR_DELETE);
    }
    if is_other(info) {
        return Ok(ERROR_INVALID_LEVEL);
    }
    if has_bad_trigger(info) {
        return Ok(ERROR_INVALID_PARAMETER);
    }
    if is_refused(info, service, alloc)? {
        return Ok(ERROR_INVALID_PARAMETER);
    }
    Ok(0)
}

/// The same of a service that isn't there.
fn absent_verdict(info: &Info) -> u32
    ensures { result ≡ first_refusal (level_refusals info.now None) }
{
    if is_other(info) {
        return ERROR_INVALID_LEVEL;
    }
    if has_bad_trigger(info) {
        return ERROR_INVALID_PARAMETER;
    }
    0
}

/// What `RChangeServiceConfig2W` is refused with before anything is kept, or 0:
/// `ERROR_INVALID_HANDLE` (6), `ERROR_ACCESS_DENIED` (5),
/// `ERROR_SERVICE_MARKED_FOR_DELETE` (1072), `ERROR_INVALID_LEVEL` (124) or
/// `ERROR_INVALID_PARAMETER` (87).
pub fn change2_verdict(
    tables: &Tables,
    caller: u64,
    handle: u64,
    info: &Info,
    alloc: Global,
) -> Result<u32, OutOfMemory>
    ensures { IfOk result (λ code. code ≡ change2_verdict tables.now.flat caller handle info.now
        appended.Kept) }
{
    let Some(opened) = tables.opened(caller, handle) else {
        return Ok(ERROR_INVALID_HANDLE);
    };
    if mask_lacks(opened.granted, SERVICE_CHANGE_CONFIG)
        || asks_restart(info) && mask_lacks(opened.granted, SERVICE_START)
    {
        return Ok(ERROR_ACCESS_DENIED);
    }
    match tables.held_service(caller, handle) {
        Some(row) => row_verdict(info, row, alloc),
        None => Ok(absent_verdict(info)),
    }
}

/// The change of a service's configuration, if it is one.
fn level_changed(
    info: &Info,
    service: &Service,
    alloc: Global,
) -> Result<Option<Change>, OutOfMemory>
    ensures { IfOk result (λ told. told ≡ level_changed info.now service.now) }
{
    let config = config_at(info, &service.config, alloc)?;
    changed_from(&service.config, &config, alloc)
}

/// The change of the configurations that a call makes, unless it is refused.
pub fn changed2(
    tables: &Tables,
    caller: u64,
    handle: u64,
    info: &Info,
    alloc: Global,
) -> Result<Option<Change>, OutOfMemory>
    ensures { IfOk result (λ told. told ≡ unless_refused
        (change2_verdict tables.now.flat caller handle info.now appended.Kept)
        (change2_change tables.now.flat caller handle info.now)) }
{
    let code = change2_verdict(tables, caller, handle, info, alloc)?;
    if code != 0 {
        return Ok(None);
    }
    match tables.held_service(caller, handle) {
        Some(row) => level_changed(info, row, alloc),
        None => Ok(None),
    }
}

/// The change of the configurations that a call makes whose configuration and code were made,
/// unless it is refused.
pub fn judged2(
    tables: &Tables,
    caller: u64,
    handle: u64,
    info: &Info,
    code: u32,
    config: &Option<Config>,
    alloc: Global,
) -> Result<Option<Change>, OutOfMemory>
    requires verdict { code ≡ change2_verdict tables.now.flat caller handle info.now appended.Kept }
    requires made { config.now ≡ asked_level tables.now.flat caller handle info.now }
    ensures { IfOk result (λ told. told ≡ unless_refused
        (change2_verdict tables.now.flat caller handle info.now appended.Kept)
        (change2_change tables.now.flat caller handle info.now)) }
{
    if code != 0 {
        return Ok(None);
    }
    match (tables.held_service(caller, handle), config) {
        (Some(row), Some(config)) => changed_from(&row.config, config, alloc),
        (Some(_), None) | (None, _) => Ok(None),
    }
}

/// Gives a service the configuration that was made for it. The code is what the call is refused
/// with before anything is kept; where that fails it is `ERROR_CANTWRITE` (1013). It takes no
/// memory.
pub fn change2(
    tables: &mut Tables,
    caller: u64,
    handle: u64,
    info: &Info,
    code: u32,
    config: Option<Config>,
    kept: Kept,
) -> Reply
    requires verdict { code ≡ change2_verdict tables.old.flat caller handle info.now appended.Kept }
    requires made { config ≡ asked_level tables.old.flat caller handle info.now }
    requires needs { IfSome config (HasNeedRoom tables.old.spare) }
    ensures reply { result ≡ (change2_outcome tables.old.flat caller handle info.now kept).reply }
    ensures flat { tables.new.flat ≡ (change2_outcome tables.old.flat caller handle info.now
        kept).flat }
    ensures limits { tables.new.limits ≡ tables.old.limits }
    ensures refused { change2_verdict tables.old.flat caller handle info.now kept ≢ 0
        → tables.new ≡ tables.old }
{
    let code = code_once_kept(code, kept);
    if code != 0 {
        return Reply::Code(code);
    }
    let service = tables.held_service(caller, handle);
    if let (Some(row), Some(config)) = (service, config) {
        let number = row.number;
        tables.configure(number, config);
    }
    Reply::Code(0)
}
