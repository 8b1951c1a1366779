ghost use Rattle.std.specs.Prelude.{◌≡◌, ◌≢◌, IfOk, IfSome, option_copied, false};
ghost use Rattle.std.specs.Prelude.{Some, if◌then◌else◌};
ghost use Rattle.scm_model.specs.Refused.{first_refusal, outcome};
ghost use Rattle.scm_model.specs.declared.calls.Request.TheVariants as request;
ghost use Rattle.scm_model.specs.declared.steps.Kept.TheVariants as appended;
ghost use Rattle.scm_rules.specs.Change.{
  asked_refusals,
  clash_refusals,
  row_refusals,
  asked_config,
};
ghost use Rattle.scm_rules.specs.Change.{change_change, change_done, change_verdict, changed_from};
ghost use Rattle.scm_rules.specs.Change.{changed_row, new_config, new_tag, tags_no_group};
ghost use Rattle.scm_rules.specs.Change.{takes_name, change_outcome};
ghost use Rattle.scm_rules.specs.Needs.{are_unreadable};
ghost use Rattle.scm_rules.specs.Verdicts.{unless_refused};
ghost use Rattle.scm_tables.specs.Tabled.{HasNeedRoom};

use super::deleting::code_once_kept;
use super::making::told_tag;
use super::needing::are_unreadable;
use super::replacing::{are_alike, config_with, tag_or, text_or};
use scm_model::codes::{
    ERROR_ACCESS_DENIED, ERROR_CIRCULAR_DEPENDENCY, ERROR_DUPLICATE_SERVICE_NAME,
    ERROR_INVALID_HANDLE, ERROR_INVALID_NAME, ERROR_INVALID_PARAMETER,
    ERROR_INVALID_SERVICE_ACCOUNT, ERROR_SERVICE_MARKED_FOR_DELETE, SERVICE_CHANGE_CONFIG,
};
use scm_model::{Change, ChangeService, Config, Kept, Reply, Service};
use scm_tables::{Tables, mask_lacks};
use scm_text::OutOfMemory;
use service_record::check_change;
use std::alloc::Global;

/// The new configuration of a service.
fn new_config(
    tables: &Tables,
    change: &ChangeService,
    service: &Service,
    alloc: Global,
) -> Result<Config, OutOfMemory>
    ensures { IfOk result (λ config. config ≡ new_config tables.now.flat change.now service.now) }
{
    let tag = tag_or(tables, &service.config, change);
    config_with(&service.config, change, tag, alloc)
}

/// The new configuration that is asked for, where the service is there.
pub fn asked_config(
    tables: &Tables,
    caller: u64,
    change: &ChangeService,
    alloc: Global,
) -> Result<Option<Config>, OutOfMemory>
    ensures { IfOk result (λ config. config ≡ asked_config tables.now.flat caller change.now) }
{
    match tables.held_service(caller, change.handle) {
        Some(row) => Ok(Some(new_config(tables, change, row, alloc)?)),
        None => Ok(None),
    }
}

/// Whether a tag is asked for without a group.
fn tags_no_group(change: &ChangeService, service: &Service) -> bool
    ensures { result ≡ tags_no_group change.now (Some service.now) }
{
    change.tag.is_some() && text_or(&service.config.group, &change.group).units().len() == 0
}

/// Whether a display name is given that another service has as its name or display name.
fn takes_name(tables: &Tables, change: &ChangeService, service: &Service, new: &Config) -> bool
    requires { new.now ≡ new_config tables.now.flat change.now service.now }
    ensures { result ≡ takes_name tables.now.flat change.now (Some service.now) }
{
    change.display.is_some() && tables.is_shown_by_another(service.number, &new.display)
}

/// What a change of a service is refused with for what is asked, or 0.
fn asked_verdict(
    tables: &Tables,
    change: &ChangeService,
    service: &Service,
    new: &Config,
    alloc: Global,
) -> Result<u32, OutOfMemory>
    requires { new.now ≡ new_config tables.now.flat change.now service.now }
    ensures { IfOk result (λ code. code ≡ first_refusal
        (asked_refusals tables.now.flat change.now (Some service.now))) }
{
    let checked = check_change(&service.config, new, change.account.as_ref());
    if checked == ERROR_INVALID_NAME {
        return Ok(ERROR_INVALID_NAME);
    }
    if checked == ERROR_INVALID_PARAMETER || tags_no_group(change, service) {
        return Ok(ERROR_INVALID_PARAMETER);
    }
    if are_unreadable(&change.needs, alloc)? {
        return Ok(ERROR_INVALID_PARAMETER);
    }
    if checked == ERROR_INVALID_SERVICE_ACCOUNT {
        return Ok(ERROR_INVALID_SERVICE_ACCOUNT);
    }
    Ok(0)
}

/// What a change of a service is refused with for the services that there are, or 0.
fn clash_verdict(
    tables: &Tables,
    change: &ChangeService,
    service: &Service,
    new: &Config,
    alloc: Global,
) -> Result<u32, OutOfMemory>
    requires { new.now ≡ new_config tables.now.flat change.now service.now }
    ensures { IfOk result (λ code. code ≡ first_refusal
        (clash_refusals tables.now.flat change.now (Some service.now))) }
{
    if takes_name(tables, change, service, new) {
        return Ok(ERROR_DUPLICATE_SERVICE_NAME);
    }
    if tables.makes_cycle(service.number, new, alloc)? {
        return Ok(ERROR_CIRCULAR_DEPENDENCY);
    }
    Ok(0)
}

/// What a change of a service that isn't marked is refused with, or 0, where the caller may change
/// it.
fn unmarked_verdict(
    tables: &Tables,
    change: &ChangeService,
    service: &Service,
    new: &Config,
    alloc: Global,
) -> Result<u32, OutOfMemory>
    requires made { new.now ≡ new_config tables.now.flat change.now service.now }
    requires unmarked { service.now.marked ≡ false }
    ensures { IfOk result (λ code. code ≡ first_refusal
        (row_refusals tables.now.flat change.now (Some service.now))) }
{
    let wrong = asked_verdict(tables, change, service, new, alloc)?;
    if wrong != 0 {
        return Ok(wrong);
    }
    clash_verdict(tables, change, service, new, alloc)
}

/// What a change of a service that is there is refused with, or 0, where the caller may change it.
fn row_verdict(
    tables: &Tables,
    change: &ChangeService,
    service: &Service,
    alloc: Global,
) -> Result<u32, OutOfMemory>
    ensures { IfOk result (λ code. code ≡ first_refusal
        (row_refusals tables.now.flat change.now (Some service.now))) }
{
    if service.marked {
        return Ok(ERROR_SERVICE_MARKED_FOR_DELETE);
    }
    let new = new_config(tables, change, service, alloc)?;
    unmarked_verdict(tables, change, service, &new, alloc)
}

/// The same of a service that isn't there.
fn absent_verdict(change: &ChangeService, alloc: Global) -> Result<u32, OutOfMemory>
    ensures { IfOk result (λ code. code ≡ (if are_unreadable change.now.needs
        then ERROR_INVALID_PARAMETER else 0)) }
{
    if are_unreadable(&change.needs, alloc)? {
        return Ok(ERROR_INVALID_PARAMETER);
    }
    Ok(0)
}

/// What `RChangeServiceConfigW` is refused with before anything is kept, or 0:
/// `ERROR_INVALID_HANDLE` (6), `ERROR_ACCESS_DENIED` (5),
/// `ERROR_SERVICE_MARKED_FOR_DELETE` (1072), `ERROR_INVALID_NAME` (123), `ERROR_INVALID_PARAMETER`
/// (87),
/// `ERROR_INVALID_SERVICE_ACCOUNT` (1057), `ERROR_DUPLICATE_SERVICE_NAME` (1078) or
/// `ERROR_CIRCULAR_DEPENDENCY` (1059).
pub fn change_verdict(
    tables: &Tables,
    caller: u64,
    change: &ChangeService,
    alloc: Global,
) -> Result<u32, OutOfMemory>
    ensures { IfOk result (λ code. code ≡ change_verdict tables.now.flat caller change.now
        appended.Kept) }
{
    let Some(opened) = tables.opened(caller, change.handle) else {
        return Ok(ERROR_INVALID_HANDLE);
    };
    if mask_lacks(opened.granted, SERVICE_CHANGE_CONFIG) {
        return Ok(ERROR_ACCESS_DENIED);
    }
    match tables.held_service(caller, change.handle) {
        Some(row) => row_verdict(tables, change, row, alloc),
        None => absent_verdict(change, alloc),
    }
}

/// The change from one configuration to another, if they differ.
pub fn changed_from(
    old: &Config,
    new: &Config,
    alloc: Global,
) -> Result<Option<Change>, OutOfMemory>
    ensures { IfOk result (λ told. told ≡ changed_from old.now new.now) }
{
    if are_alike(old, new) {
        return Ok(None);
    }
    Ok(Some(Change::Changed(new.copy(alloc)?)))
}

/// The change of a service's configuration, if it is one.
fn changed_row(
    tables: &Tables,
    change: &ChangeService,
    service: &Service,
    alloc: Global,
) -> Result<Option<Change>, OutOfMemory>
    ensures { IfOk result (λ told. told ≡ changed_row tables.now.flat change.now service.now) }
{
    let config = new_config(tables, change, service, alloc)?;
    changed_from(&service.config, &config, alloc)
}

/// The change of the configurations that a call makes, unless it is refused.
pub fn changed(
    tables: &Tables,
    caller: u64,
    change: &ChangeService,
    alloc: Global,
) -> Result<Option<Change>, OutOfMemory>
    ensures { IfOk result (λ told. told ≡ unless_refused
        (change_verdict tables.now.flat caller change.now appended.Kept)
        (change_change tables.now.flat caller change.now)) }
{
    let code = change_verdict(tables, caller, change, alloc)?;
    if code != 0 {
        return Ok(None);
    }
    match tables.held_service(caller, change.handle) {
        Some(row) => changed_row(tables, change, row, alloc),
        None => Ok(None),
    }
}

/// The change of the configurations that a call makes whose configuration and code were made,
/// unless it is refused.
pub fn judged(
    tables: &Tables,
    caller: u64,
    change: &ChangeService,
    code: u32,
    config: &Option<Config>,
    alloc: Global,
) -> Result<Option<Change>, OutOfMemory>
    requires verdict { code ≡ change_verdict tables.now.flat caller change.now appended.Kept }
    requires made { config.now ≡ asked_config tables.now.flat caller change.now }
    ensures { IfOk result (λ told. told ≡ unless_refused
        (change_verdict tables.now.flat caller change.now appended.Kept)
        (change_change tables.now.flat caller change.now)) }
{
    if code != 0 {
        return Ok(None);
    }
    match (tables.held_service(caller, change.handle), config) {
        (Some(row), Some(config)) => changed_from(&row.config, config, alloc),
        (Some(_), None) | (None, _) => Ok(None),
    }
}

/// The tag of a new configuration, where one was asked for.
fn new_tag(change: &ChangeService, config: &Option<Config>) -> Option<u32>
    ensures { result ≡ new_tag change.now config.now }
{
    match config {
        Some(config) => told_tag(config.tag, change.tag),
        None => None,
    }
}

/// Gives a service the configuration that was made for it. The code is what the call is refused
/// with before anything is kept; where that fails it is `ERROR_CANTWRITE` (1013). It takes no
/// memory.
pub fn change(
    tables: &mut Tables,
    caller: u64,
    change: &ChangeService,
    code: u32,
    config: Option<Config>,
    kept: Kept,
) -> Reply
    requires verdict { code ≡ change_verdict tables.old.flat caller change.now appended.Kept }
    requires made { config ≡ asked_config tables.old.flat caller change.now }
    requires needs { IfSome config (HasNeedRoom tables.old.spare) }
    ensures reply { result ≡ (change_outcome tables.old.flat caller change.now kept).reply }
    ensures flat { tables.new.flat ≡ (change_outcome tables.old.flat caller change.now kept).flat }
    ensures limits { tables.new.limits ≡ tables.old.limits }
    ensures refused { change_verdict tables.old.flat caller change.now kept ≢ 0
        → tables.new ≡ tables.old }
{
    let code = code_once_kept(code, kept);
    if code != 0 {
        return Reply::Tag {
            tag: change.tag,
            code,
        };
    }
    let tag = new_tag(change, &config);
    let service = tables.held_service(caller, change.handle);
    if let (Some(row), Some(config)) = (service, config) {
        let number = row.number;
        tables.configure(number, config);
    }
    Reply::Tag { tag, code: 0 }
}
