ghost use Rattle.std.specs.Prelude.{◌≡◌, ◌≢◌, ◌≤◌, ◌<◌, ◌==◌, ◌^◌, Some, IfOk, [], length};
ghost use Rattle.std.specs.Prelude.{option_copied, option_map, unwrap_or};
ghost use Rattle.std.specs.List.{list_any};
ghost use Rattle.std.specs.Char.Utf16.{has_unpaired_surrogate};
ghost use Rattle.scm_model.specs.Refused.{first_refusal, outcome};
ghost use Rattle.scm_model.specs.declared.calls.Request.TheVariants as request;
ghost use Rattle.scm_model.specs.Rows.{held_service};
ghost use Rattle.scm_rules.specs.Delete.{is_marked};
ghost use Rattle.scm_rules.specs.Start.{service_refusals, are_bad_words, is_aimed_at, is_disabled};
ghost use Rattle.scm_rules.specs.Start.{is_missing, lacks_need, new_plan, start_done};
ghost use Rattle.scm_rules.specs.Start.{start_verdict, start_outcome, ended};
ghost use Rattle.scm_rules.specs.Steps.{call_answer, finished};
ghost use Rattle.scm_model.specs.Ready.{state_in};
ghost use Rattle.scm_arms_start.specs.Entries.{start_entries};
ghost use Rattle.scm_model.specs.declared.steps.Answer.TheVariants as answer;
ghost use Rattle.scm_rules.specs.Launches.{launch_failed, launch_taken, launched};
ghost use Rattle.scm_model.specs.declared.calls.Reply.TheVariants as reply;
ghost use Rattle.scm_rules.specs.Ticks.{ticked};
ghost use Rattle.scm_tables.specs.Firing.{CanFire};
ghost use Rattle.start_plan.specs.Decided.{code_of};

use scm_model::codes::{
    ERROR_ACCESS_DENIED, ERROR_INVALID_HANDLE, ERROR_INVALID_PARAMETER,
    ERROR_SERVICE_ALREADY_RUNNING, ERROR_SERVICE_DATABASE_LOCKED, ERROR_SERVICE_DEPENDENCY_DELETED,
    ERROR_SERVICE_DISABLED, ERROR_SERVICE_MARKED_FOR_DELETE, SERVICE_DISABLED, SERVICE_START,
    SERVICE_STOPPED,
};
use scm_model::{Answer, Need, Plan, Reply, Service};
use scm_tables::{Tables, mask_lacks};
use scm_text::{Items, OutOfMemory, WText};
use service_record::is_broken;
use std::alloc::Global;

/// Whether one of the words is no well-formed UTF-16.
fn is_one_broken(words: &[WText]) -> bool
    ensures { result ≡ list_any has_unpaired_surrogate words.now }
{
    for word in words {
        if is_broken(word.units()) {
            return true;
        }
    }
    false
}

/// Whether the words are absent, or one of them is no well-formed UTF-16.
fn are_bad_words(words: &Option<Items<WText>>) -> bool
    ensures { result ≡ are_bad_words words.now }
{
    match words {
        Some(words) => is_one_broken(words.as_slice()),
        None => true,
    }
}

/// Whether a service that is there is marked.
fn is_marked(service: Option<&Service>) -> bool
    ensures { result ≡ is_marked (option_copied service.entry) }
{
    match service {
        Some(row) => row.marked,
        None => false,
    }
}

/// The state of a service, or 0 where there is none.
fn state_in(service: Option<&Service>) -> u32
    ensures { result ≡ state_in (option_copied service.entry) }
{
    match service {
        Some(row) => row.status.state,
        None => 0,
    }
}

/// Whether a service that is there is disabled.
fn is_disabled(service: Option<&Service>) -> bool
    ensures { result ≡ is_disabled (option_copied service.entry) }
{
    match service {
        Some(row) => row.config.start == SERVICE_DISABLED,
        None => false,
    }
}

/// Whether a service that is needed by name isn't there or is marked.
fn is_missing(tables: &Tables, need: &Need) -> bool
    ensures { result ≡ is_missing tables.now.flat need.now }
{
    match need {
        Need::Service(name) => tables.named(name).is_none() || is_marked(tables.named(name)),
        Need::Group(_) => false,
    }
}

/// Whether one of the needs is missing.
fn is_one_missing(tables: &Tables, needs: &[Need]) -> bool
    ensures { result ≡ list_any (is_missing tables.now.flat) needs.now }
{
    for need in needs {
        if is_missing(tables, need) {
            return true;
        }
    }
    false
}

/// Whether a service that is there names one that is missing.
fn lacks_need(tables: &Tables, service: Option<&Service>) -> bool
    ensures { result ≡ lacks_need tables.now.flat (option_copied service.entry) }
{
    match service {
        Some(row) => is_one_missing(tables, row.config.needs.as_slice()),
        None => false,
    }
}

/// Whether an undecided plan aims at a service that is there.
fn is_aimed_at(tables: &Tables, service: Option<&Service>) -> bool
    ensures { result ≡ is_aimed_at tables.now.flat (option_copied service.entry) }
{
    match service {
        Some(row) => tables.is_target(row.number),
        None => false,
    }
}

/// What a start of a service is refused with for how the service stands, or 0.
fn service_verdict(tables: &Tables, service: Option<&Service>) -> u32
    ensures { result ≡ first_refusal (service_refusals tables.now.flat
        (option_copied service.entry)) }
{
    if is_marked(service) {
        return ERROR_SERVICE_MARKED_FOR_DELETE;
    }
    if tables.lock().is_some() {
        return ERROR_SERVICE_DATABASE_LOCKED;
    }
    if state_in(service) != SERVICE_STOPPED || is_aimed_at(tables, service) {
        return ERROR_SERVICE_ALREADY_RUNNING;
    }
    if is_disabled(service) {
        return ERROR_SERVICE_DISABLED;
    }
    if lacks_need(tables, service) {
        return ERROR_SERVICE_DEPENDENCY_DELETED;
    }
    0
}

/// What `RStartServiceW` is refused with, or 0: `ERROR_INVALID_HANDLE` (6),
/// `ERROR_INVALID_PARAMETER` (87), `ERROR_ACCESS_DENIED` (5),
/// `ERROR_SERVICE_MARKED_FOR_DELETE` (1072), `ERROR_SERVICE_DATABASE_LOCKED` (1055),
/// `ERROR_SERVICE_ALREADY_RUNNING` (1056),
/// `ERROR_SERVICE_DISABLED` (1058) or `ERROR_SERVICE_DEPENDENCY_DELETED` (1075).
pub fn start_verdict(tables: &Tables, caller: u64, handle: u64, words: &Option<Items<WText>>) -> u32
    ensures { result ≡ start_verdict tables.now.flat caller handle words.now }
{
    let Some(opened) = tables.opened(caller, handle) else {
        return ERROR_INVALID_HANDLE;
    };
    if are_bad_words(words) {
        return ERROR_INVALID_PARAMETER;
    }
    if mask_lacks(opened.granted, SERVICE_START) {
        return ERROR_ACCESS_DENIED;
    }
    service_verdict(tables, tables.service(opened.service))
}

/// The services that a start goes by, in order, where it isn't refused.
pub fn start_entries(
    tables: &Tables,
    caller: u64,
    handle: u64,
    words: &Option<Items<WText>>,
    alloc: Global,
) -> Result<Items<u64>, OutOfMemory>
    ensures { IfOk result (λ entries. entries ≡ start_entries tables.now.flat caller handle
        words.now) }
{
    if start_verdict(tables, caller, handle, words) != 0 {
        return Ok(Items::new(alloc));
    }
    match tables.held_service(caller, handle) {
        Some(row) => tables.start_order(row.number, alloc),
        None => Ok(Items::new(alloc)),
    }
}

/// The words, or none.
fn words_or_none(words: Option<Items<WText>>, alloc: Global) -> Items<WText>
    ensures { result ≡ unwrap_or words [] }
{
    match words {
        Some(words) => words,
        None => Items::new(alloc),
    }
}

/// The number of the service that a caller's handle is of.
fn held_number(tables: &Tables, caller: u64, handle: u64) -> Option<u64>
    ensures { result ≡ option_map (λ row. row.number) (held_service tables.now.flat caller handle) }
{
    match tables.held_service(caller, handle) {
        Some(row) => Some(row.number),
        None => None,
    }
}

/// Begins a plan to start a service after what it needs. It takes no memory. `entries` are the
/// services that it goes by.
pub fn start(
    tables: &mut Tables,
    alloc: Global,
    caller: u64,
    handle: u64,
    words: Option<Items<WText>>,
    entries: Option<Items<u64>>,
) -> Answer
    requires made { entries ≡ Some (start_entries tables.old.flat caller handle words) }
    requires plans { 1 ≤ tables.old.spare.plans }
    requires dues { 1 ≤ tables.old.spare.dues }
    requires tried { length (start_entries tables.old.flat caller handle words) ≤
        tables.old.spare.tried }
    requires next_plan { tables.old.flat.next.plan < 2 ^ 63 }
    requires next_due { tables.old.flat.next.due < 2 ^ 63 }
    ensures answer { result ≡ call_answer (start_verdict tables.old.flat caller handle words == 0)
        tables.old.flat.next.plan (start_outcome tables.old.flat caller handle words).reply }
    ensures flat { tables.new.flat ≡ (start_outcome tables.old.flat caller handle words).flat }
    ensures limits { tables.new.limits ≡ tables.old.limits }
    ensures refused { start_verdict tables.old.flat caller handle words ≢ 0
        → tables.new ≡ tables.old }
{
    let code = start_verdict(tables, caller, handle, &words);
    if code != 0 {
        return Answer::Reply(Reply::Code(code));
    }
    let number = tables.next_plan();
    let Some(target) = held_number(tables, caller, handle) else {
        return Answer::Begun(number);
    };
    let plan = Plan {
        number,
        caller,
        target,
        entries: entries.unwrap(),
        tried: Items::new(alloc),
        words: words_or_none(words, alloc),
        code: None,
    };
    tables.begin_plan(plan);
    Answer::Begun(number)
}

/// The first launch that is wanted is taken.
pub fn take_launch(tables: &mut Tables) -> Answer
    ensures answer { result ≡ (launch_taken tables.old.flat).answer }
    ensures flat { tables.new.flat ≡ (launch_taken tables.old.flat).flat }
    ensures limits { tables.new.limits ≡ tables.old.limits }
    ensures none { result ≡ answer.Done → tables.new ≡ tables.old }
{
    match tables.first_wanted() {
        Some(process) => {
            tables.take_launch(process);
            Answer::Launch(process)
        }
        None => Answer::Done,
    }
}

/// A process is launched, and the starts of its services succeed.
pub fn launched(tables: &mut Tables, process: u64, pid: u32) -> Answer
    ensures answer { result ≡ answer.Done }
    ensures flat { tables.new.flat ≡ launched tables.old.flat process pid }
    ensures limits { tables.new.limits ≡ tables.old.limits }
{
    tables.launch(process, pid);
    tables.decide_for(process, 0);
    Answer::Done
}

/// A launch failed: the starts of its services fail with the code, the services fall, and the
/// process leaves.
pub fn fail_launch(tables: &mut Tables, process: u64, code: u32) -> Answer
    ensures answer { result ≡ answer.Done }
    ensures flat { tables.new.flat ≡ launch_failed tables.old.flat process code }
    ensures limits { tables.new.limits ≡ tables.old.limits }
{
    tables.decide_for(process, code);
    tables.fall(process, code);
    tables.remove_process(process);
    Answer::Done
}

/// Answers a start that is decided. Its plan leaves.
pub fn end_start(tables: &mut Tables, plan: u64) -> Answer
    ensures answer { result ≡ answer.Reply (reply.Code
        (unwrap_or (code_of tables.old.flat.plans plan) 0)) }
    ensures flat { tables.new.flat ≡ ended tables.old.flat plan }
    ensures limits { tables.new.limits ≡ tables.old.limits }
{
    let code = tables.decided(plan).unwrap_or(0);
    tables.remove_plan(plan);
    Answer::Reply(Reply::Code(code))
}

/// A start that settling decided is answered at once, and its plan leaves.
pub fn finish(tables: &mut Tables, answer: Answer) -> Answer
    ensures answer { result ≡ (finished tables.old.flat answer).answer }
    ensures flat { tables.new.flat ≡ (finished tables.old.flat answer).flat }
    ensures limits { tables.new.limits ≡ tables.old.limits }
{
    match answer {
        Answer::Begun(plan) => match tables.decided(plan) {
            Some(code) => {
                tables.remove_plan(plan);
                Answer::Reply(Reply::Code(code))
            }
            None => Answer::Begun(plan),
        },
        Answer::Caller(_)
        | Answer::Reply(_)
        | Answer::Launch(_)
        | Answer::Control(_)
        | Answer::Refused(_)
        | Answer::Stale
        | Answer::Done => answer,
    }
}

/// What is due takes place. It takes no memory.
pub fn tick(tables: &mut Tables) -> Answer
    requires { CanFire tables.old }
    ensures answer { result ≡ answer.Done }
    ensures flat { tables.new.flat ≡ ticked tables.old.limits tables.old.flat }
    ensures limits { tables.new.limits ≡ tables.old.limits }
{
    tables.tick();
    Answer::Done
}
