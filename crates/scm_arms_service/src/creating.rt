ghost use Rattle.std.specs.Prelude.{◌≡◌, ◌≢◌, ◌<◌, ◌≤◌, ◌^◌, ◌||◌, Some, nat_le, length};
ghost use Rattle.std.specs.Prelude.{IfOk, IfSome};
ghost use Rattle.std.specs.Prelude.{is_some};
ghost use Rattle.scm_model.specs.Refused.{first_refusal, outcome};
ghost use Rattle.scm_model.specs.Changes.{with_handle};
ghost use Rattle.scm_model.specs.Rows.{held_by};
ghost use Rattle.scm_model.specs.declared.calls.Request.TheVariants as request;
ghost use Rattle.scm_model.specs.declared.flat.HandleKind.TheVariants as kinds;
ghost use Rattle.scm_model.specs.declared.steps.Kept.TheVariants as appended;
ghost use Rattle.scm_rules.specs.Create.{config_refusals, new_status, place_refusals};
ghost use Rattle.scm_rules.specs.Create.{
  right_refusals,
  created_config,
  create_change,
  create_done,
};
ghost use Rattle.scm_rules.specs.Create.{create_verdict, tags_nothing, create_outcome};
ghost use Rattle.scm_rules.specs.Create.{with_creation};
ghost use Rattle.scm_rules.specs.OpenService.{service_granted};
ghost use Rattle.scm_rules.specs.Verdicts.{unless_refused};
ghost use Rattle.scm_tables.specs.Tabled.{HasNeedRoom, HasShortTexts};

use super::deleting::code_once_kept;
use super::making::{config_of, told_tag};
use super::needing::are_unreadable;
use access_mask::granted;
use scm_model::codes::{
    ERROR_ACCESS_DENIED, ERROR_CIRCULAR_DEPENDENCY, ERROR_DUPLICATE_SERVICE_NAME,
    ERROR_INVALID_HANDLE, ERROR_INVALID_NAME, ERROR_INVALID_PARAMETER,
    ERROR_INVALID_SERVICE_ACCOUNT, ERROR_NOT_ENOUGH_QUOTA, ERROR_SERVICE_EXISTS,
    ERROR_SERVICE_MARKED_FOR_DELETE, SC_MANAGER_CREATE_SERVICE,
};
use scm_model::{Change, Config, HandleKind, Kept, Limits, NewService, Reply, Status};
use scm_tables::{Tables, is_marked, mask_lacks};
use scm_text::OutOfMemory;
use service_record::check_new;
use std::alloc::Global;

/// The rights that a caller is granted on a service.
fn service_granted(tables: &Tables, caller: u64, access: u32) -> Option<u32>
    ensures { result ≡ service_granted tables.now.flat caller access }
{
    granted(tables.principal_of(caller), false, access)
}

/// What a creation is refused with for the caller's rights, or 0.
fn right_verdict(tables: &Tables, caller: u64, new: &NewService) -> u32
    ensures { result ≡ first_refusal (right_refusals tables.now.flat caller new.now) }
{
    let Some(granted) = tables.manager_mask(caller, new.handle) else {
        return ERROR_INVALID_HANDLE;
    };
    if mask_lacks(granted, SC_MANAGER_CREATE_SERVICE)
        || service_granted(tables, caller, new.access).is_none()
    {
        return ERROR_ACCESS_DENIED;
    }
    0
}

/// Whether a tag is asked for without a group.
fn tags_nothing(new: &NewService) -> bool
    ensures { result ≡ tags_nothing new.now }
{
    match &new.group {
        Some(group) => new.tag.is_some() && group.units().len() == 0,
        None => new.tag.is_some(),
    }
}

/// What a new service is refused with for what is asked, or 0.
fn config_verdict(new: &NewService, config: &Config, alloc: Global) -> Result<u32, OutOfMemory>
    ensures { IfOk result (λ code. code ≡ first_refusal (config_refusals new.now config.now)) }
{
    let checked = check_new(config, new.account.as_ref());
    if checked == ERROR_INVALID_NAME {
        return Ok(ERROR_INVALID_NAME);
    }
    if checked == ERROR_INVALID_PARAMETER || tags_nothing(new) {
        return Ok(ERROR_INVALID_PARAMETER);
    }
    if are_unreadable(&new.needs, alloc)? {
        return Ok(ERROR_INVALID_PARAMETER);
    }
    if checked == ERROR_INVALID_SERVICE_ACCOUNT {
        return Ok(ERROR_INVALID_SERVICE_ACCOUNT);
    }
    Ok(0)
}

/// Whether there are as many services, or handles of the caller, as there may be.
fn is_full(tables: &Tables, limits: &Limits, caller: u64) -> bool
    ensures { result ≡ nat_le limits.now.services (length tables.now.flat.services)
        || nat_le limits.now.handles (held_by tables.now.flat caller) }
{
    limits.services as usize <= tables.services()
        || limits.handles as usize <= tables.handles_of(caller)
}

/// What a new service is refused with for the services that there are, or 0.
fn place_verdict(
    tables: &Tables,
    limits: &Limits,
    caller: u64,
    config: &Config,
    alloc: Global,
) -> Result<u32, OutOfMemory>
    ensures { IfOk result (λ code. code ≡ first_refusal
        (place_refusals limits.now tables.now.flat caller config.now)) }
{
    if is_marked(tables.named(&config.name)) {
        return Ok(ERROR_SERVICE_MARKED_FOR_DELETE);
    }
    if tables.named(&config.name).is_some() {
        return Ok(ERROR_SERVICE_EXISTS);
    }
    if tables.is_shown(&config.display) {
        return Ok(ERROR_DUPLICATE_SERVICE_NAME);
    }
    if tables.makes_cycle(tables.next_service(), config, alloc)? {
        return Ok(ERROR_CIRCULAR_DEPENDENCY);
    }
    if is_full(tables, limits, caller) {
        return Ok(ERROR_NOT_ENOUGH_QUOTA);
    }
    Ok(0)
}

/// What `RCreateServiceW` is refused with before anything is kept, or 0: `ERROR_INVALID_HANDLE`
/// (6), `ERROR_ACCESS_DENIED` (5),
/// `ERROR_INVALID_NAME` (123), `ERROR_INVALID_PARAMETER` (87), `ERROR_INVALID_SERVICE_ACCOUNT`
/// (1057),
/// `ERROR_SERVICE_MARKED_FOR_DELETE` (1072), `ERROR_SERVICE_EXISTS` (1073),
/// `ERROR_DUPLICATE_SERVICE_NAME` (1078),
/// `ERROR_CIRCULAR_DEPENDENCY` (1059) or `ERROR_NOT_ENOUGH_QUOTA` (1816).
pub fn create_verdict(
    tables: &Tables,
    limits: &Limits,
    caller: u64,
    new: &NewService,
    config: &Config,
    alloc: Global,
) -> Result<u32, OutOfMemory>
    requires { config.now ≡ created_config tables.now.flat new.now }
    ensures { IfOk result (λ code. code ≡ create_verdict limits.now tables.now.flat caller new.now
        appended.Kept) }
{
    let denied = right_verdict(tables, caller, new);
    if denied != 0 {
        return Ok(denied);
    }
    let wrong = config_verdict(new, config, alloc)?;
    if wrong != 0 {
        return Ok(wrong);
    }
    place_verdict(tables, limits, caller, config, alloc)
}

/// The change of the configurations that a call makes, unless it is refused.
pub fn created(
    tables: &Tables,
    limits: &Limits,
    caller: u64,
    new: &NewService,
    alloc: Global,
) -> Result<Option<Change>, OutOfMemory>
    ensures { IfOk result (λ change. change ≡ unless_refused
        (create_verdict limits.now tables.now.flat caller new.now appended.Kept)
        (create_change tables.now.flat new.now)) }
{
    let config = config_of(tables, new, alloc)?;
    let code = create_verdict(tables, limits, caller, new, &config, alloc)?;
    if code != 0 {
        return Ok(None);
    }
    Ok(Some(Change::Created(config)))
}

/// Adds a service that has this configuration, and opens a handle of it with these rights, whose
/// number it answers.
fn add_opened(tables: &mut Tables, caller: u64, config: Config, kind: u32, rights: u32) -> u64
    requires texts { HasShortTexts config }
    requires services { 1 ≤ tables.old.spare.services }
    requires needs { HasNeedRoom tables.old.spare config }
    requires handles { 1 ≤ tables.old.spare.handles }
    requires next_service { tables.old.flat.next.service < 2 ^ 63 }
    requires next_handle { tables.old.flat.next.handle < 2 ^ 63 }
    ensures number { result ≡ tables.old.flat.next.handle }
    ensures flat { tables.new.flat ≡ with_handle (with_creation tables.old.flat config
        (new_status kind)) caller (kinds.Service tables.old.flat.next.service) rights }
    ensures limits { tables.new.limits ≡ tables.old.limits }
{
    let service = tables.add_service(config, Status::never_run(kind));
    tables.add_handle(caller, HandleKind::Service(service), rights)
}

/// Creates a service that has the configuration that was made for it, and opens a handle of it.
fn create_done(tables: &mut Tables, caller: u64, new: &NewService, config: Config) -> Reply
    requires made { config ≡ created_config tables.old.flat new.now }
    requires texts { HasShortTexts config }
    requires services { 1 ≤ tables.old.spare.services }
    requires needs { HasNeedRoom tables.old.spare config }
    requires handles { 1 ≤ tables.old.spare.handles }
    requires next_service { tables.old.flat.next.service < 2 ^ 63 }
    requires next_handle { tables.old.flat.next.handle < 2 ^ 63 }
    ensures reply { result ≡ (create_done tables.old.flat caller new.now).reply }
    ensures flat { tables.new.flat ≡ (create_done tables.old.flat caller new.now).flat }
    ensures limits { tables.new.limits ≡ tables.old.limits }
{
    let rights = service_granted(tables, caller, new.access).unwrap_or(0);
    let tag = told_tag(config.tag, new.tag);
    let handle = add_opened(tables, caller, config, new.kind, rights);
    Reply::Made {
        tag,
        handle,
        code: 0,
    }
}

/// Creates a service that has the configuration that was made for it, and opens a handle of it. The
/// code is what the call is refused with before anything is kept; where that fails it is
/// `ERROR_CANTWRITE` (1013). It takes no memory.
pub fn create(
    tables: &mut Tables,
    limits: &Limits,
    caller: u64,
    new: NewService,
    code: u32,
    config: Option<Config>,
    kept: Kept,
) -> Reply
    requires verdict { code ≡ create_verdict limits.now tables.old.flat caller new appended.Kept }
    requires made { config ≡ Some (created_config tables.old.flat new) }
    requires services { 1 ≤ tables.old.spare.services }
    requires needs { IfSome config (HasNeedRoom tables.old.spare) }
    requires handles { 1 ≤ tables.old.spare.handles }
    requires next_service { tables.old.flat.next.service < 2 ^ 63 }
    requires next_handle { tables.old.flat.next.handle < 2 ^ 63 }
    ensures reply { result ≡ (create_outcome limits.now tables.old.flat caller new kept).reply }
    ensures flat { tables.new.flat ≡ (create_outcome limits.now tables.old.flat caller new
        kept).flat }
    ensures limits { tables.new.limits ≡ tables.old.limits }
    ensures refused { create_verdict limits.now tables.old.flat caller new kept ≢ 0
        → tables.new ≡ tables.old }
{
    let code = code_once_kept(code, kept);
    if code != 0 {
        return Reply::Made {
            tag: new.tag,
            handle: 0,
            code,
        };
    }
    create_done(tables, caller, &new, config.unwrap())
}
