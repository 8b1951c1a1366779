ghost use Rattle.std.specs.Prelude.{ℕ, ◌≡◌, ◌≢◌, IfOk, IsTrue, option_copied, ◌≤◌, ◌<◌, ◌^◌};
ghost use Rattle.scm_rules.specs.Steps.{may_come, at_moment, effect_of, finished, step_of};
ghost use Rattle.scm_core.specs.Judged.{change_if_kept, told_in};
ghost use Rattle.scm_rules.specs.Verdicts.{change_of, change_of_call, tells_right};
ghost use Rattle.scm_model.specs.declared.steps.Step.TheVariants.{Call};
ghost use Rattle.scm_core.specs.Room.{HasNumbers, HasRoomForStep, HasRoomForCall, IsMadeFor};
ghost use Rattle.scm_core.specs.Room.{IsCreation, prepared_for, uses_made};
ghost use Rattle.scm_model.specs.declared.calls.Request.{Request};
ghost use Rattle.scm_model.specs.declared.calls.Request.TheVariants as request;
ghost use Rattle.scm_model.specs.declared.calls.Request.TheVariants.{QueryStatus};
ghost use Rattle.scm_model.specs.declared.steps.Answer.TheVariants as answers;
ghost use Rattle.scm_model.specs.declared.steps.Kept.{Kept};
ghost use Rattle.scm_rules.specs.Query.{query_outcome};

use super::room::Prepared;
use scm_arms_handle::{close, join, leave, lock, open_manager, open_service, query_lock, unlock};
use scm_arms_notify::{close_notify, get_notify, notify};
use scm_arms_process::{control, end, raise, report, set_status, take_control};
use scm_arms_secure::set_security;
use scm_arms_service::{
    change, change2, changed, changed2, create, created, delete, query, removed,
};
use scm_arms_start::{end_start, fail_launch, finish, launched, start, take_launch, tick};
use scm_model::{Answer, Change, Kept, NewService, Reply, Request, Step};
use scm_tables::Tables;
use scm_text::OutOfMemory;
use std::alloc::Global;
use std::mem::replace;

/// Whether a step may be done, whatever it tells of what was kept.
pub fn may_come(tables: &Tables, moment: u64, step: &Step) -> bool
    ensures { result ≡ may_come tables.now.limits tables.now.flat moment step.now }
{
    match step {
        Step::Joined { .. } => tables.callers() < tables.limits().callers as usize,
        Step::Call {
            caller,
            request,
            kept: _,
        } => tables.is_caller(*caller) && request.in_range(),
        Step::EndStart { caller, plan } => {
            tables.is_caller(*caller) && tables.can_end(*caller, *plan)
        }
        Step::LaunchTaken => tables.is_wanted(),
        Step::Launched { process, pid: _ } => tables.is_taken(*process),
        Step::LaunchFailed { process, code } => tables.is_taken(*process) && *code != 0,
        Step::Report {
            process,
            service: _,
            status: _,
        } => tables.is_running(*process),
        Step::Ended { process } => tables.is_running(*process),
        Step::ControlTaken { process } => tables.next_order(*process).is_some(),
        Step::Tick => tables.is_due(tables.moment().max(moment)),
        Step::Raised { caller, subtype: _ } => tables.is_caller(*caller),
        Step::Gone { caller } => tables.is_caller(*caller),
        Step::NoMemory { caller } => tables.is_caller(*caller),
    }
}

/// The change of the configurations that a step for which this was made makes, if it is kept.
pub fn change_in<'a>(step: &Step, made: &'a Prepared) -> Option<&'a Change>
    ensures { option_copied result ≡ change_if_kept made.now step.now }
{
    match step {
        Step::Call { .. } => made.change.as_ref(),
        _ => None,
    }
}

/// Whether the outcome of a change is given if, and only if, there is a change.
fn tells_right(changes: bool, kept: Kept) -> bool
    ensures { result ≡ tells_right changes kept }
{
    match kept {
        Kept::NotAsked => !changes,
        Kept::Kept | Kept::Failed => changes,
    }
}

/// Whether a step for which this was made tells that a change was kept or not exactly where it
/// makes one.
pub fn is_told(step: &Step, made: &Prepared) -> bool
    ensures { result ≡ told_in made.now step.now }
{
    match step {
        Step::Call {
            caller: _,
            request: _,
            kept,
        } => tells_right(made.change.is_some(), *kept),
        _ => true,
    }
}

/// The change of the configurations that a call makes if it is kept.
fn change_of_call(
    tables: &Tables,
    caller: u64,
    request: &Request,
    alloc: Global,
) -> Result<Option<Change>, OutOfMemory>
    ensures { IfOk result (λ change. change ≡ change_of_call tables.now.limits tables.now.flat
        caller request.now) }
{
    match request {
        Request::Create(new) => created(tables, &tables.limits(), caller, new, alloc),
        Request::Delete { handle } => removed(tables, caller, *handle, alloc),
        Request::Change(change) => changed(tables, caller, change, alloc),
        Request::Change2 { handle, info } => changed2(tables, caller, *handle, info, alloc),
        _ => Ok(None),
    }
}

/// The change of the configurations that a step makes if it is kept.
pub fn change_of(tables: &Tables, step: &Step, alloc: Global) -> Result<Option<Change>, OutOfMemory>
    ensures { IfOk result (λ change. change
        ≡ change_of tables.now.limits tables.now.flat step.now) }
{
    match step {
        Step::Call {
            caller,
            request,
            kept: _,
        } => change_of_call(tables, *caller, request, alloc),
        _ => Ok(None),
    }
}

/// Puts an answer in its place.
#[inline(always)]
fn put(answer: &mut Answer, now: Answer)
    ensures { answer.new ≡ now }
{
    *answer = now;
}

/// Puts a reply in the place of an answer.
#[inline(always)]
fn put_reply(answer: &mut Answer, now: Reply)
    ensures { answer.new ≡ answers.Reply now }
{
    put(answer, Answer::Reply(now));
}

/// Takes what a creation asks out of its request.
fn taken(asked: &mut Request) -> NewService
    requires { IsCreation asked.old }
    ensures { asked.old ≡ request.Create result }
{
    let request = replace(asked, Request::Close { handle: 0 });
    match request {
        Request::Create(new) => new.into_inner(),
        other => {
            drop(other);
            unreachable!()
        }
    }
}

/// Does a call that goes by what was made for it.
fn call_made(
    tables: &mut Tables,
    alloc: Global,
    caller: u64,
    request: &mut Request,
    kept: Kept,
    made: &mut Prepared,
    answer: &mut Answer,
)
    requires made { made.old ≡ prepared_for tables.old.limits tables.old.flat caller request.old }
    requires room { HasRoomForCall tables.old caller request.old }
    requires numbers { HasNumbers tables.old.flat }
    requires controls { tables.old.limits.controls ≤ 16 }
    requires uses { IsTrue (uses_made request.old) }
    ensures answer { answer.new ≡ (effect_of tables.old.limits tables.old.flat
        (Call caller request.old kept)).answer }
    ensures flat { tables.new.flat ≡ (effect_of tables.old.limits tables.old.flat
        (Call caller request.old kept)).flat }
    ensures limits { tables.new.limits ≡ tables.old.limits }
{
    let limits = tables.limits();
    let code = made.code;
    match request {
        Request::Change(asked) => {
            let config = made.config.take();
            put_reply(answer, change(tables, caller, asked, code, config, kept))
        }
        Request::Change2 { handle, info } => {
            let config = made.config.take();
            put_reply(
                answer,
                change2(tables, caller, *handle, info, code, config, kept),
            )
        }
        Request::Create(_) => {
            let new = taken(request);
            let config = made.config.take();
            put_reply(
                answer,
                create(tables, &limits, caller, new, code, config, kept),
            )
        }
        Request::QueryLock { handle, size } => {
            let owner = made.name.take().unwrap();
            put_reply(answer, query_lock(tables, caller, *handle, *size, owner))
        }
        Request::Start { handle, words } => {
            let words = words.take();
            put(
                answer,
                start(tables, alloc, caller, *handle, words, made.entries.take()),
            )
        }
        Request::SetSecurity {
            handle,
            parts,
            bytes,
        } => {
            let security = made.security.take();
            let (handle, parts) = (*handle, *parts);
            put_reply(
                answer,
                set_security(tables, caller, handle, parts, bytes, code, security),
            )
        }
        Request::QueryConfig { .. }
        | Request::QuerySecurity { .. }
        | Request::DisplayName { .. }
        | Request::KeyName { .. }
        | Request::EnumDependents { .. }
        | Request::EnumServices { .. }
        | Request::QueryConfig2 { .. }
        | Request::QueryStatusEx { .. } => put_reply(answer, made.reply.take().unwrap()),
        _ => unreachable!(),
    }
}

/// Does a call that isn't the query of a status. It stands alone because of its frame, which is
/// large.
#[inline(never)]
fn call_other(
    tables: &mut Tables,
    alloc: Global,
    caller: u64,
    request: &mut Request,
    kept: Kept,
    made: &mut Prepared,
    answer: &mut Answer,
)
    requires other { (handle : ℕ) → request.old ≢ QueryStatus handle }
    requires made { made.old ≡ prepared_for tables.old.limits tables.old.flat caller request.old }
    requires room { HasRoomForCall tables.old caller request.old }
    requires numbers { HasNumbers tables.old.flat }
    requires controls { tables.old.limits.controls ≤ 16 }
    ensures answer { answer.new ≡ (effect_of tables.old.limits tables.old.flat
        (Call caller request.old kept)).answer }
    ensures flat { tables.new.flat ≡ (effect_of tables.old.limits tables.old.flat
        (Call caller request.old kept)).flat }
    ensures limits { tables.new.limits ≡ tables.old.limits }
{
    let limits = tables.limits();
    match request {
        Request::Close { handle } => put_reply(answer, close(tables, caller, *handle)),
        Request::Control {
            handle,
            control: code,
        } => put_reply(answer, control(tables, caller, *handle, *code)),
        Request::Delete { handle } => put_reply(answer, delete(tables, caller, *handle, kept)),
        Request::Lock { handle } => put_reply(answer, lock(tables, &limits, caller, *handle)),
        Request::SetStatus { handle, status } => {
            put_reply(answer, set_status(tables, caller, *handle, status))
        }
        Request::Unlock { handle } => put_reply(answer, unlock(tables, caller, *handle)),
        Request::OpenManager { database, access } => {
            put_reply(
                answer,
                open_manager(tables, &limits, caller, database, *access),
            )
        }
        Request::OpenService {
            handle,
            name,
            access,
        } => put_reply(
            answer,
            open_service(tables, &limits, caller, *handle, name, *access),
        ),
        Request::Notify { handle, mask } => {
            put_reply(answer, notify(tables, &limits, caller, *handle, *mask))
        }
        Request::GetNotify { handle } => put_reply(answer, get_notify(tables, caller, *handle)),
        Request::CloseNotify { handle } => put_reply(answer, close_notify(tables, caller, *handle)),
        _ => call_made(tables, alloc, caller, request, kept, made, answer),
    }
}

/// Answers the query of a status. It stands alone, so that no other call's frame is cleared for it.
#[inline(never)]
fn answer_status(tables: &Tables, caller: u64, handle: u64, answer: &mut Answer)
    ensures answer { answer.new ≡ answers.Reply
        (query_outcome tables.now.flat caller handle).reply }
    ensures flat { tables.now.flat ≡ (query_outcome tables.now.flat caller handle).flat }
{
    put_reply(answer, query(tables, caller, handle));
}

/// Does a call.
#[inline(always)]
fn call(
    tables: &mut Tables,
    alloc: Global,
    caller: u64,
    request: &mut Request,
    kept: Kept,
    made: &mut Prepared,
    answer: &mut Answer,
)
    requires made { made.old ≡ prepared_for tables.old.limits tables.old.flat caller request.old }
    requires room { HasRoomForCall tables.old caller request.old }
    requires numbers { HasNumbers tables.old.flat }
    requires controls { tables.old.limits.controls ≤ 16 }
    ensures answer { answer.new ≡ (effect_of tables.old.limits tables.old.flat
        (Call caller request.old kept)).answer }
    ensures flat { tables.new.flat ≡ (effect_of tables.old.limits tables.old.flat
        (Call caller request.old kept)).flat }
    ensures limits { tables.new.limits ≡ tables.old.limits }
{
    match request {
        Request::QueryStatus { handle } => answer_status(tables, caller, *handle, answer),
        _ => call_other(tables, alloc, caller, request, kept, made, answer),
    }
}

/// Moves on to the step's moment, unless nothing is done.
fn begin(tables: &mut Tables, moment: u64, step: &Step)
    ensures flat { tables.new.flat ≡ at_moment tables.old.flat moment step.now }
    ensures limits { tables.new.limits ≡ tables.old.limits }
    ensures spare { tables.new.spare ≡ tables.old.spare }
{
    match step {
        Step::NoMemory { .. } => {}
        Step::Joined { .. }
        | Step::Call { .. }
        | Step::EndStart { .. }
        | Step::LaunchTaken
        | Step::Launched { .. }
        | Step::LaunchFailed { .. }
        | Step::Report { .. }
        | Step::Ended { .. }
        | Step::ControlTaken { .. }
        | Step::Tick
        | Step::Raised { .. }
        | Step::Gone { .. } => tables.move_to(moment),
    }
}

/// Does what a step that isn't a call does before the plans are settled and marked services leave.
/// It stands alone because of its frame, which is large.
#[inline(never)]
fn effect_other(tables: &mut Tables, step: &Step, answer: &mut Answer)
    requires other { (caller : ℕ) (asked : Request) (kept : Kept)
        → step.now ≢ Call caller asked kept }
    requires room { HasRoomForStep tables.old step.now }
    requires numbers { HasNumbers tables.old.flat }
    requires limit { tables.old.limits.processes < 2 ^ 32 }
    requires controls { tables.old.limits.controls ≤ 16 }
    requires processes { tables.old.flat.next.process ≤ 2 ^ 62 }
    ensures answer { answer.new ≡ (effect_of tables.old.limits tables.old.flat step.now).answer }
    ensures flat { tables.new.flat ≡ (effect_of tables.old.limits tables.old.flat step.now).flat }
    ensures limits { tables.new.limits ≡ tables.old.limits }
{
    match step {
        Step::Joined { principal } => put(answer, join(tables, *principal)),
        Step::EndStart { caller: _, plan } => put(answer, end_start(tables, *plan)),
        Step::LaunchTaken => put(answer, take_launch(tables)),
        Step::Launched { process, pid } => put(answer, launched(tables, *process, *pid)),
        Step::LaunchFailed { process, code } => {
            put(answer, fail_launch(tables, *process, *code))
        }
        Step::Report {
            process,
            service,
            status,
        } => put(answer, report(tables, *process, *service, status)),
        Step::Ended { process } => put(answer, end(tables, *process)),
        Step::ControlTaken { process } => put(answer, take_control(tables, *process)),
        Step::Tick => put(answer, tick(tables)),
        Step::Raised { caller, subtype } => put(answer, raise(tables, *caller, subtype)),
        Step::Gone { caller } => put(answer, leave(tables, *caller)),
        Step::NoMemory { caller: _ } => put(answer, Answer::Done),
        Step::Call { .. } => unreachable!(),
    }
}

/// Does what a step does before the plans are settled and marked services leave.
#[inline(always)]
fn effect(
    tables: &mut Tables,
    alloc: Global,
    step: &mut Step,
    made: &mut Prepared,
    answer: &mut Answer,
)
    requires made { IsMadeFor tables.old.limits tables.old.flat made.old step.old }
    requires room { HasRoomForStep tables.old step.old }
    requires numbers { HasNumbers tables.old.flat }
    requires limit { tables.old.limits.processes < 2 ^ 32 }
    requires controls { tables.old.limits.controls ≤ 16 }
    requires processes { tables.old.flat.next.process ≤ 2 ^ 62 }
    ensures answer { answer.new ≡ (effect_of tables.old.limits tables.old.flat step.old).answer }
    ensures flat { tables.new.flat ≡ (effect_of tables.old.limits tables.old.flat step.old).flat }
    ensures limits { tables.new.limits ≡ tables.old.limits }
{
    match step {
        Step::Call {
            caller,
            request,
            kept,
        } => call(tables, alloc, *caller, request, *kept, made, answer),
        other => effect_other(tables, other, answer),
    }
}

/// A start that settling decided is answered at once. Each other answer stays where it lies.
fn finish_begun(tables: &mut Tables, answer: &mut Answer)
    ensures answer { answer.new ≡ (finished tables.old.flat answer.old).answer }
    ensures flat { tables.new.flat ≡ (finished tables.old.flat answer.old).flat }
    ensures limits { tables.new.limits ≡ tables.old.limits }
{
    if let Answer::Begun(plan) = answer {
        let begun = Answer::Begun(*plan);
        put(answer, finish(tables, begun));
    }
}

#[tactic(auto, using(crate::proofs::Beforehand::before_moment))]
/// Does a step: its effect, then the plans are settled, a start that this decided is answered, and
/// marked services leave. `made` was made for it beforehand.
pub fn act(
    tables: &mut Tables,
    alloc: Global,
    moment: u64,
    step: &mut Step,
    made: &mut Prepared,
    answer: &mut Answer,
)
    requires made { IsMadeFor tables.old.limits tables.old.flat made.old step.old }
    requires room { HasRoomForStep tables.old step.old }
    requires numbers { HasNumbers tables.old.flat }
    requires limit { tables.old.limits.processes < 2 ^ 32 }
    requires controls { tables.old.limits.controls ≤ 16 }
    requires processes { tables.old.flat.next.process ≤ 2 ^ 62 }
    ensures answer { answer.new ≡ (step_of tables.old.limits tables.old.flat moment
        step.old).answer }
    ensures flat { tables.new.flat ≡ (step_of tables.old.limits tables.old.flat moment
        step.old).flat }
    ensures limits { tables.new.limits ≡ tables.old.limits }
{
    begin(tables, moment, step);
    effect(tables, alloc, step, made, answer);
    tables.settle();
    finish_begun(tables, answer);
    tables.purge();
}
