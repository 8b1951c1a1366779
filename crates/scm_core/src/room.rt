ghost use Rattle.std.specs.Prelude.{◌≡◌, IfOk, IsTrue, Some, ◌≤◌, length, IfSome, IsFalse, IsOk};
ghost use Rattle.std.specs.Prelude.{OnErr, OnOk};
ghost use Rattle.scm_model.specs.declared.calls.Request.TheVariants as request;
ghost use Rattle.scm_model.specs.declared.steps.Change.TheVariants.{Created};
ghost use Rattle.scm_rules.specs.Verdicts.{unless_refused};
ghost use Rattle.scm_core.specs.Room.{prepared_for, nothing_made, HasRoomForStep, HasRoomForCall};
ghost use Rattle.scm_core.specs.Room.{IsMadeFor, call_needs_memory, made_with, needs_memory};
ghost use Rattle.std.specs.Borrow.{ftrue};
ghost use Rattle.scm_model.specs.declared.steps.Step.{Step};
ghost use Rattle.scm_tables.specs.Promised.{KeepsRooms};
ghost use Rattle.scm_tables.specs.Tabled.{HasNeedRoom};

use scm_arms_enum::{enum_dependents, enum_services, query_config2, query_status_ex};
use scm_arms_handle::lock_owner;
use scm_arms_process::raise_starts;
use scm_arms_secure::{asked_security, descriptor_in, query_security, set_security_verdict};
use scm_arms_service::{
    asked_config, asked_level, change_verdict, change2_verdict, config_of, create_verdict,
    display_name, judged, judged2, key_name, query_config, removed,
};
use scm_arms_start::start_entries;
use scm_model::{Change, ChangeService, Config, Info, NewService, Reply, Request, Step};
use scm_tables::Tables;
use scm_text::{Items, OutOfMemory, WText};
use std::alloc::Global;
use std::marker::Model;

/// What is made for a step beforehand, so that the step itself takes no memory.
pub struct Prepared {
    /// The name of who holds the lock.
    pub name: Option<WText>,
    /// The configuration that a service gets.
    pub config: Option<Config>,
    /// What a creation or a change is refused with if it is kept, or what a call that sets a
    /// security descriptor is refused with, or 0.
    pub code: u32,
    /// The change of the configurations that the call makes if it is kept.
    pub change: Option<Change>,
    /// The services that a start goes by.
    pub entries: Option<Items<u64>>,
    /// The reply to a call that only reads.
    pub reply: Option<Reply>,
    /// The security descriptor that a service gets, in its written form.
    pub security: Option<Items<u8>>,
}

/// A drop of its own: a function that owns one drops it by a call, which is proved once.
impl Drop for Prepared {
    fn drop(self) {
        let Prepared {
            name,
            config,
            code: _code,
            change,
            entries,
            reply,
            security,
        } = self;
        drop(name);
        drop(config);
        drop(change);
        drop(entries);
        drop(reply);
        drop(security);
    }
}

/// What is made for at most one of a lock's question, a start and a call that only reads.
#[inline(always)]
fn made_of(name: Option<WText>, entries: Option<Items<u64>>, reply: Option<Reply>) -> Prepared
    ensures { result ≡ record nothing_made { name = name; entries = entries; reply = reply } }
{
    Prepared {
        name,
        config: None,
        code: 0,
        change: None,
        entries,
        reply,
        security: None,
    }
}

#[inline(always)]
pub fn nothing_made() -> Prepared
    ensures { result ≡ nothing_made }
{
    made_of(None, None, None)
}

/// What is made of the name of who holds the lock.
fn made_of_name(name: Result<WText, OutOfMemory>) -> Result<Prepared, OutOfMemory>
    ensures { result ≡ made_with (λ owner. record nothing_made { name = Some owner }) name }
{
    match name {
        Ok(name) => Ok(made_of(Some(name), None, None)),
        Err(fault) => Err(fault),
    }
}

fn made_of_config(config: Option<Config>, code: u32, change: Option<Change>) -> Prepared
    ensures { result ≡ record nothing_made { config = config; code = code; change = change } }
{
    Prepared {
        name: None,
        config,
        code,
        change,
        entries: None,
        reply: None,
        security: None,
    }
}

/// What is made of the change that a deletion makes.
fn made_of_removal(change: Result<Option<Change>, OutOfMemory>) -> Result<Prepared, OutOfMemory>
    ensures { result ≡ made_with (λ removal. record nothing_made { change = removal }) change }
{
    match change {
        Ok(change) => Ok(made_of_config(None, 0, change)),
        Err(fault) => Err(fault),
    }
}

/// What is made of the services that a start goes by.
fn made_of_entries(entries: Result<Items<u64>, OutOfMemory>) -> Result<Prepared, OutOfMemory>
    ensures { result ≡ made_with (λ list. record nothing_made { entries = Some list }) entries }
{
    match entries {
        Ok(entries) => Ok(made_of(None, Some(entries), None)),
        Err(fault) => Err(fault),
    }
}

/// What is made of the reply to a call that only reads.
fn made_of_reply(reply: Result<Reply, OutOfMemory>) -> Result<Prepared, OutOfMemory>
    ensures { result ≡ made_with (λ told. record nothing_made { reply = Some told }) reply }
{
    match reply {
        Ok(reply) => Ok(made_of(None, None, Some(reply))),
        Err(fault) => Err(fault),
    }
}

/// What is made of the security descriptor that a service gets.
fn made_of_security(
    code: u32,
    security: Result<Option<Items<u8>>, OutOfMemory>,
) -> Result<Prepared, OutOfMemory>
    ensures { result ≡ made_with
        (λ kept. record nothing_made { code = code; security = kept }) security }
{
    match security {
        Ok(security) => Ok(Prepared {
            name: None,
            config: None,
            code,
            change: None,
            entries: None,
            reply: None,
            security,
        }),
        Err(fault) => Err(fault),
    }
}

/// The change that a creation makes, unless it is refused.
fn creation(code: u32, config: &Config, alloc: Global) -> Result<Option<Change>, OutOfMemory>
    ensures { IfOk result (λ change. change ≡ unless_refused code (Some (Created config.now))) }
{
    if code != 0 {
        return Ok(None);
    }
    Ok(Some(Change::Created(config.copy(alloc)?)))
}

/// Makes what a creation needs.
fn make_for_create(
    tables: &Tables,
    caller: u64,
    new: &NewService,
    alloc: Global,
) -> Result<Prepared, OutOfMemory>
    ensures { IfOk result (λ made. made ≡ prepared_for tables.now.limits tables.now.flat caller
        (request.Create new.now)) }
{
    let config = config_of(tables, new, alloc)?;
    let code = create_verdict(tables, &tables.limits(), caller, new, &config, alloc)?;
    let change = creation(code, &config, alloc)?;
    Ok(made_of_config(Some(config), code, change))
}

/// Makes what a change needs.
fn make_for_change(
    tables: &Tables,
    caller: u64,
    change: &ChangeService,
    alloc: Global,
) -> Result<Prepared, OutOfMemory>
    ensures { IfOk result (λ made. made ≡ prepared_for tables.now.limits tables.now.flat caller
        (request.Change change.now)) }
{
    let config = asked_config(tables, caller, change, alloc)?;
    let code = change_verdict(tables, caller, change, alloc)?;
    let told = judged(tables, caller, change, code, &config, alloc)?;
    Ok(made_of_config(config, code, told))
}

/// Makes what a change of a level needs.
fn make_for_change2(
    tables: &Tables,
    caller: u64,
    handle: u64,
    info: &Info,
    alloc: Global,
) -> Result<Prepared, OutOfMemory>
    ensures { IfOk result (λ made. made ≡ prepared_for tables.now.limits tables.now.flat caller
        (request.Change2 handle info.now)) }
{
    let config = asked_level(tables, caller, handle, info, alloc)?;
    let code = change2_verdict(tables, caller, handle, info, alloc)?;
    let told = judged2(tables, caller, handle, info, code, &config, alloc)?;
    Ok(made_of_config(config, code, told))
}

/// Makes what a call that sets a security descriptor needs. All that is read is read here.
fn make_for_security(
    tables: &Tables,
    caller: u64,
    handle: u64,
    parts: u32,
    bytes: &Items<u8>,
    alloc: Global,
) -> Result<Prepared, OutOfMemory>
    ensures { IfOk result (λ made. made ≡ prepared_for tables.now.limits tables.now.flat caller
        (request.SetSecurity handle parts bytes.now)) }
{
    let mut given = descriptor_in(bytes.as_slice(), alloc)?;
    let code = set_security_verdict(tables, caller, handle, parts, &given);
    let security = asked_security(tables, caller, handle, parts, &mut given, alloc);
    drop(given);
    made_of_security(code, security)
}

/// Makes what a call needs.
pub fn make_for_call(
    tables: &Tables,
    caller: u64,
    request: &Request,
    alloc: Global,
) -> Result<Prepared, OutOfMemory>
    ensures { IfOk result (λ made. made ≡ prepared_for tables.now.limits tables.now.flat caller
        request.now) }
{
    match request {
        Request::Create(new) => make_for_create(tables, caller, new, alloc),
        Request::Delete { handle } => made_of_removal(removed(tables, caller, *handle, alloc)),
        Request::QueryLock { .. } => made_of_name(lock_owner(tables, alloc)),
        Request::Change(change) => make_for_change(tables, caller, change, alloc),
        Request::Change2 { handle, info } => {
            make_for_change2(tables, caller, *handle, info, alloc)
        }
        Request::QueryConfig { handle, size } => {
            made_of_reply(query_config(tables, caller, *handle, *size, alloc))
        }
        Request::Start { handle, words } => {
            made_of_entries(start_entries(tables, caller, *handle, words, alloc))
        }
        Request::EnumDependents {
            handle,
            states,
            size,
        } => made_of_reply(enum_dependents(tables, caller, *handle, *states, *size, alloc)),
        Request::EnumServices {
            handle,
            kinds,
            states,
            size,
            resume,
        } => made_of_reply(enum_services(
            tables, caller, *handle, *kinds, *states, *size, *resume, alloc,
        )),
        Request::QueryConfig2 {
            handle,
            level,
            size,
        } => made_of_reply(query_config2(tables, caller, *handle, *level, *size, alloc)),
        Request::QueryStatusEx {
            handle,
            level,
            size,
        } => made_of_reply(query_status_ex(tables, caller, *handle, *level, *size, alloc)),
        Request::DisplayName { handle, name, size } => {
            made_of_reply(display_name(tables, caller, *handle, name, *size, alloc))
        }
        Request::KeyName { handle, name, size } => {
            made_of_reply(key_name(tables, caller, *handle, name, *size, alloc))
        }
        Request::QuerySecurity {
            handle,
            parts,
            size,
        } => made_of_reply(query_security(tables, caller, *handle, *parts, *size, alloc)),
        Request::SetSecurity {
            handle,
            parts,
            bytes,
        } => make_for_security(tables, caller, *handle, *parts, bytes, alloc),
        _ => Ok(nothing_made()),
    }
}

/// Keeps what was made for a step.
#[inline(always)]
pub fn keep(made: &mut Prepared, now: Prepared)
    ensures { made.new ≡ now }
{
    *made = now;
}

/// Whether nothing was made.
fn is_nothing(made: &Prepared) -> bool
    ensures { IsTrue result → made.now ≡ nothing_made }
{
    matches!(
        made,
        Prepared {
            name: None,
            config: None,
            code: 0,
            change: None,
            entries: None,
            reply: None,
            security: None,
        }
    )
}

/// Lets go what was made before.
#[inline(never)]
fn discard(made: &mut Prepared)
    ensures { made.new ≡ nothing_made }
{
    keep(made, nothing_made());
}

/// The same. Mostly nothing was made, and then nothing is written.
pub fn clear(made: &mut Prepared)
    ensures { made.new ≡ nothing_made }
{
    if !is_nothing(made) {
        discard(made);
    }
}

/// The step that room was made for. Only contracts see it, so no request is copied for it, and the
/// value has no bytes and owns nothing. The library's `Snapshot` would say as much, but a type that
/// holds one gets no proof that it may go to another thread.
#[derive(Drop)]
pub struct Reservation {
    pub ghost step: { Step },
}

impl Model for Reservation {
    ghost also_owns = { λ _. ftrue };
}

// SAFETY: it owns nothing, so it may go to any thread, and any thread may share it.
unsafe impl Send for Reservation {}

unsafe impl Sync for Reservation {}

impl Reservation {
    /// The step as it now is.
    pub fn of(step: &Step) -> Reservation
        ensures { result.step ≡ step.now }
    {
        let _ = step;
        Reservation {}
    }
}

/// Makes room for a plan that goes by some services.
fn reserve_plan(tables: &mut Tables, entries: &Option<Items<u64>>) -> Result<(), OutOfMemory>
    ensures flat { tables.new.flat ≡ tables.old.flat }
    ensures limits { tables.new.limits ≡ tables.old.limits }
    ensures plans { OnOk result (1 ≤ tables.new.spare.plans) }
    ensures dues { OnOk result (1 ≤ tables.new.spare.dues) }
    ensures tried { OnOk result (IfSome entries.now (λ list.
        length list ≤ tables.new.spare.tried)) }
    ensures keeps { KeepsRooms tables.old tables.new }
    ensures needs { tables.new.spare.needs ≡ tables.old.spare.needs }
{
    match entries {
        Some(entries) => tables.reserve_plan(entries.len()),
        None => tables.reserve_plan(0),
    }
}

#[tactic(auto, using(crate::proofs::Promising::all_stay))]
/// Makes room for the texts and needs of a service that gets a configuration.
fn reserve_needs(tables: &mut Tables, config: &Option<Config>) -> Result<(), OutOfMemory>
    ensures flat { tables.new.flat ≡ tables.old.flat }
    ensures limits { tables.new.limits ≡ tables.old.limits }
    ensures room { OnOk result (IfSome config.now (HasNeedRoom tables.new.spare)) }
    ensures others { (tables.new.spare.services ≡ tables.old.spare.services)
        × (tables.new.spare.handles ≡ tables.old.spare.handles) }
    ensures keeps { KeepsRooms tables.old tables.new }
    ensures needs { OnErr result (tables.new.spare.needs ≡ tables.old.spare.needs) }
{
    match config {
        Some(config) => tables.reserve_needs(config),
        None => Ok(()),
    }
}

#[tactic(auto, using(crate::proofs::Promising::both_stay))]
/// Makes room for the row of a service that is created with a configuration, for its needs, and for
/// its handle.
fn reserve_creation(tables: &mut Tables, config: &Option<Config>) -> Result<(), OutOfMemory>
    ensures flat { tables.new.flat ≡ tables.old.flat }
    ensures limits { tables.new.limits ≡ tables.old.limits }
    ensures handle { OnOk result (1 ≤ tables.new.spare.handles) }
    ensures service { OnOk result (1 ≤ tables.new.spare.services) }
    ensures room { OnOk result (IfSome config.now (HasNeedRoom tables.new.spare)) }
    ensures keeps { KeepsRooms tables.old tables.new }
    ensures needs { OnErr result (tables.new.spare.needs ≡ tables.old.spare.needs) }
{
    tables.reserve_service()?;
    tables.reserve_handle()?;
    reserve_needs(tables, config)
}

#[tactic(auto, using(crate::proofs::Promising::both_stay))]
/// Makes room for a registration and its handle.
fn reserve_notify(tables: &mut Tables) -> Result<(), OutOfMemory>
    ensures flat { tables.new.flat ≡ tables.old.flat }
    ensures limits { tables.new.limits ≡ tables.old.limits }
    ensures handle { OnOk result (1 ≤ tables.new.spare.handles) }
    ensures registration { OnOk result (1 ≤ tables.new.spare.registrations) }
    ensures keeps { KeepsRooms tables.old tables.new }
    ensures needs { tables.new.spare.needs ≡ tables.old.spare.needs }
{
    tables.reserve_handle()?;
    tables.reserve_registration()
}

#[tactic(auto, using(crate::proofs::Promising::all_stay))]
/// Makes room for the rows that a call may add, for which this was made.
fn reserve_call(
    tables: &mut Tables,
    caller: u64,
    request: &Request,
    made: &Prepared,
) -> Result<(), OutOfMemory>
    requires { made.now ≡ prepared_for tables.old.limits tables.old.flat caller request.now }
    ensures flat { tables.new.flat ≡ tables.old.flat }
    ensures limits { tables.new.limits ≡ tables.old.limits }
    ensures room { OnOk result (HasRoomForCall tables.new caller request.now) }
    ensures keeps { KeepsRooms tables.old tables.new }
    ensures needs { OnErr result (tables.new.spare.needs ≡ tables.old.spare.needs) }
{
    match request {
        Request::Lock { .. } | Request::OpenManager { .. } | Request::OpenService { .. } => {
            tables.reserve_handle()
        }
        Request::Create(_) => reserve_creation(tables, &made.config),
        Request::Change(_) | Request::Change2 { .. } => reserve_needs(tables, &made.config),
        Request::Notify { .. } => reserve_notify(tables),
        Request::Start { .. } => reserve_plan(tables, &made.entries),
        _ => Ok(()),
    }
}

/// Prepares for a call for which something may have to be made. It stands alone because of its
/// frame, which is large.
#[inline(never)]
fn prepare_anew(
    tables: &mut Tables,
    caller: u64,
    request: &Request,
    alloc: Global,
    made: &mut Prepared,
) -> Result<(), OutOfMemory>
    ensures flat { tables.new.flat ≡ tables.old.flat }
    ensures limits { tables.new.limits ≡ tables.old.limits }
    ensures room { OnOk result (HasRoomForCall tables.new caller request.now) }
    ensures made { OnOk result (made.new ≡ prepared_for tables.old.limits tables.old.flat caller
        request.now) }
    ensures keeps { KeepsRooms tables.old tables.new }
    ensures needs { OnErr result (tables.new.spare.needs ≡ tables.old.spare.needs) }
    ensures err { OnErr result (made.new ≡ made.old) }
{
    let now = make_for_call(tables, caller, request, alloc)?;
    if reserve_call(tables, caller, request, &now).is_err() {
        drop(now);
        return Err(OutOfMemory);
    }
    keep(made, now);
    Ok(())
}

/// Prepares for a call that adds a handle at most, and for which nothing has to be made.
fn prepare_handle(tables: &mut Tables, made: &mut Prepared) -> Result<(), OutOfMemory>
    ensures flat { tables.new.flat ≡ tables.old.flat }
    ensures limits { tables.new.limits ≡ tables.old.limits }
    ensures room { OnOk result (1 ≤ tables.new.spare.handles) }
    ensures made { OnOk result (made.new ≡ nothing_made) }
    ensures keeps { KeepsRooms tables.old tables.new }
    ensures needs { tables.new.spare.needs ≡ tables.old.spare.needs }
    ensures err { OnErr result (made.new ≡ made.old) }
{
    tables.reserve_handle()?;
    clear(made);
    Ok(())
}

#[tactic(auto, using(crate::proofs::Promising::all_stay))]
/// Prepares for a call. Mostly nothing has to be made.
fn prepare_call(
    tables: &mut Tables,
    caller: u64,
    request: &Request,
    alloc: Global,
    made: &mut Prepared,
) -> Result<(), OutOfMemory>
    ensures flat { tables.new.flat ≡ tables.old.flat }
    ensures limits { tables.new.limits ≡ tables.old.limits }
    ensures room { OnOk result (HasRoomForCall tables.new caller request.now) }
    ensures made { OnOk result (made.new ≡ prepared_for tables.old.limits tables.old.flat caller
        request.now) }
    ensures keeps { KeepsRooms tables.old tables.new }
    ensures quiet { IsFalse (call_needs_memory request.now) → IsOk result }
    ensures needs { OnErr result (tables.new.spare.needs ≡ tables.old.spare.needs) }
    ensures err { OnErr result (made.new ≡ made.old) }
{
    match request {
        Request::Lock { .. } | Request::OpenManager { .. } | Request::OpenService { .. } => {
            prepare_handle(tables, made)
        }
        Request::Close { .. }
        | Request::CloseNotify { .. }
        | Request::Control { .. }
        | Request::GetNotify { .. }
        | Request::QueryStatus { .. }
        | Request::SetStatus { .. }
        | Request::Unlock { .. } => {
            clear(made);
            Ok(())
        }
        _ => prepare_anew(tables, caller, request, alloc, made),
    }
}

#[tactic(auto, using(crate::proofs::Promising::all_stay))]
/// Makes room for the rows that a step may add and for what it begins, and whatever else it needs,
/// in place of what was made before. Where there is no memory, that stays, and no room goes.
pub fn prepare(
    tables: &mut Tables,
    step: &Step,
    alloc: Global,
    made: &mut Prepared,
) -> Result<(), OutOfMemory>
    ensures flat { tables.new.flat ≡ tables.old.flat }
    ensures limits { tables.new.limits ≡ tables.old.limits }
    ensures room { OnOk result (HasRoomForStep tables.new step.now) }
    ensures made { OnOk result (IsMadeFor tables.old.limits tables.old.flat made.new step.now) }
    ensures keeps { KeepsRooms tables.old tables.new }
    ensures quiet { IsFalse (needs_memory tables.old.flat step.now) → IsOk result }
    ensures needs { OnErr result (tables.new.spare.needs ≡ tables.old.spare.needs) }
    ensures err { OnErr result (made.new ≡ made.old) }
{
    match step {
        Step::Joined { .. } => tables.reserve_caller(),
        Step::Call {
            caller,
            request,
            kept: _,
        } => prepare_call(tables, *caller, request, alloc, made),
        Step::Tick => tables.reserve_tick(),
        Step::Raised { caller, subtype } => {
            let starts = raise_starts(tables, *caller, subtype);
            tables.reserve_starts(starts)
        }
        _ => Ok(()),
    }
}
