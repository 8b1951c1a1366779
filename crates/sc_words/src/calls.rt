ghost use Rattle.std.specs.Prelude.{◌≡◌, ◌≤◌, ◌∷◌, IfSome, Some, length};
ghost use Rattle.sc_words.specs.Calls.{and_delay, methods_called, closed, code_heard, completes};
ghost use Rattle.sc_words.specs.Calls.{delay_of_change, delay_of_creation, failure_heard, given};
ghost use Rattle.sc_words.specs.Calls.{handle_before, handle_in, handle_heard, handles_of, is_good};
ghost use Rattle.sc_words.specs.Calls.{is_part, progress_of, stage_of};
ghost use Rattle.sc_words.specs.Seen.{seen_standing};
ghost use Rattle.sc_words.specs.declared.calls.Method.TheVariants.{ChangeServiceConfig};
ghost use Rattle.sc_words.specs.declared.calls.Method.TheVariants.{CreateService, OpenSCManager};
ghost use Rattle.sc_words.specs.declared.calls.Method.TheVariants.{OpenService};

use super::command::Task;
use super::values::StartType;
use scm_model::Reply;
use scm_model::codes::{ERROR_MORE_DATA, ERROR_SUCCESS};

/// A call of the manager, under the name that is printed.
#[derive(Clone, Copy, PartialEq, Eq)]
pub enum Method {
    OpenSCManager,
    OpenService,
    CreateService,
    ChangeServiceConfig,
    ChangeServiceConfig2,
    StartService,
    ControlService,
    QueryServiceStatus,
    DeleteService,
    QueryServiceConfig,
    QueryServiceConfig2,
    QueryServiceStatusEx,
    EnumDependentServices,
    GetServiceDisplayName,
    GetServiceKeyName,
    EnumServicesStatus,
    QueryServiceLockStatus,
    QueryServiceObjectSecurity,
    SetServiceObjectSecurity,
}

/// What the peer answered a request.
pub enum Heard {
    Reply(Reply),
    /// The status of a fault (C706, appendix E).
    Fault(u32),
}

impl Drop for Heard {
    fn drop(self) {
        match self {
            Heard::Reply(reply) => drop(reply),
            Heard::Fault(_) => {}
        }
    }
}

/// Why a call didn't succeed.
#[derive(Clone, Copy, PartialEq, Eq)]
pub enum Failure {
    /// It was refused with this code (MS-ERREF).
    Refused(u32),
    /// It met a fault of this status (C706, appendix E).
    Fault(u32),
}

/// Where the calls of a task stand.
#[derive(Clone, Copy)]
pub enum Stage<'a> {
    /// This call is to be made.
    Asks(Method),
    /// This call was refused, or met a fault.
    Failed(Method, &'a Heard),
    /// All succeeded.
    Done,
}

static CREATE: [Method; 2] = [Method::OpenSCManager, Method::CreateService];

static CREATE_DELAYED: [Method; 3] = [
    Method::OpenSCManager,
    Method::CreateService,
    Method::ChangeServiceConfig2,
];

static CONFIG: [Method; 3] = [
    Method::OpenSCManager,
    Method::OpenService,
    Method::ChangeServiceConfig,
];

static CONFIG_DELAY: [Method; 4] = [
    Method::OpenSCManager,
    Method::OpenService,
    Method::ChangeServiceConfig,
    Method::ChangeServiceConfig2,
];

static CONFIG2: [Method; 3] = [
    Method::OpenSCManager,
    Method::OpenService,
    Method::ChangeServiceConfig2,
];

static START: [Method; 3] = [
    Method::OpenSCManager,
    Method::OpenService,
    Method::StartService,
];

static CONTROL: [Method; 3] = [
    Method::OpenSCManager,
    Method::OpenService,
    Method::ControlService,
];

static QUERY: [Method; 3] = [
    Method::OpenSCManager,
    Method::OpenService,
    Method::QueryServiceStatus,
];

static DELETE: [Method; 3] = [
    Method::OpenSCManager,
    Method::OpenService,
    Method::DeleteService,
];

static QUERY_CONFIG: [Method; 4] = [
    Method::OpenSCManager,
    Method::OpenService,
    Method::QueryServiceConfig,
    Method::QueryServiceConfig2,
];

static QUERY_LEVEL: [Method; 3] = [
    Method::OpenSCManager,
    Method::OpenService,
    Method::QueryServiceConfig2,
];

static QUERY_EX: [Method; 3] = [
    Method::OpenSCManager,
    Method::OpenService,
    Method::QueryServiceStatusEx,
];

static ENUM_DEPEND: [Method; 3] = [
    Method::OpenSCManager,
    Method::OpenService,
    Method::EnumDependentServices,
];

static DISPLAY_NAME: [Method; 2] = [Method::OpenSCManager, Method::GetServiceDisplayName];

static KEY_NAME: [Method; 2] = [Method::OpenSCManager, Method::GetServiceKeyName];

static QUERY_ALL: [Method; 2] = [Method::OpenSCManager, Method::EnumServicesStatus];

static QUERY_LOCK: [Method; 2] = [Method::OpenSCManager, Method::QueryServiceLockStatus];

static QUERY_SECURITY: [Method; 3] = [
    Method::OpenSCManager,
    Method::OpenService,
    Method::QueryServiceObjectSecurity,
];

static SET_SECURITY: [Method; 3] = [
    Method::OpenSCManager,
    Method::OpenService,
    Method::SetServiceObjectSecurity,
];

/// The calls of a creation.
fn creation_calls(start: Option<StartType>) -> &'static [Method]
    ensures { result.now ≡ OpenSCManager ∷ CreateService ∷ and_delay (delay_of_creation start) }
{
    match start {
        Some(StartType::DelayedAuto) => &CREATE_DELAYED,
        _ => &CREATE,
    }
}

/// The calls of a change.
fn change_calls(start: Option<StartType>) -> &'static [Method]
    ensures { result.now ≡ OpenSCManager ∷ OpenService ∷ ChangeServiceConfig ∷ and_delay
        (delay_of_change start) }
{
    match start {
        Some(StartType::Auto | StartType::DelayedAuto) => &CONFIG_DELAY,
        _ => &CONFIG,
    }
}

/// The calls of a task, before its handles are closed.
fn calls_of(task: &Task) -> &'static [Method]
    ensures { result.now ≡ methods_called task.now }
{
    match task {
        Task::Create(settings) => creation_calls(settings.start),
        Task::Config(settings) => change_calls(settings.start),
        Task::Description(_) | Task::Failure(_) => &CONFIG2,
        Task::Start(_) => &START,
        Task::Control(_) => &CONTROL,
        Task::Query => &QUERY,
        Task::Delete => &DELETE,
        Task::QueryConfig => &QUERY_CONFIG,
        Task::QueryLevel(_) => &QUERY_LEVEL,
        Task::QueryEx => &QUERY_EX,
        Task::FailureFlag(_) | Task::Triggers(_) => &CONFIG2,
        Task::EnumDepend => &ENUM_DEPEND,
        Task::DisplayName => &DISPLAY_NAME,
        Task::KeyName => &KEY_NAME,
        Task::QueryAll => &QUERY_ALL,
        Task::QueryLock => &QUERY_LOCK,
        Task::QuerySecurity => &QUERY_SECURITY,
        Task::SetSecurity(_) => &SET_SECURITY,
    }
}

/// The code of a reply.
pub fn code_heard(reply: &Reply) -> u32
    ensures { result ≡ code_heard reply.now }
{
    match reply {
        Reply::Code(code) => *code,
        Reply::Handle { code, .. } => *code,
        Reply::State { code, .. } => *code,
        Reply::Made { code, .. } => *code,
        Reply::Tag { code, .. } => *code,
        Reply::Shown { code, .. } => *code,
        Reply::LockState { code, .. } => *code,
        Reply::Name { code, .. } => *code,
        Reply::Listing { code, .. } => *code,
        Reply::Page { code, .. } => *code,
        Reply::Bytes { code, .. } => *code,
        Reply::Notice { code, .. } => *code,
    }
}

/// The handle that a reply gives, or 0.
fn handle_heard(reply: &Reply) -> u64
    ensures { result ≡ handle_heard reply.now }
{
    match reply {
        Reply::Handle { handle, .. } => *handle,
        Reply::Made { handle, .. } => *handle,
        _ => 0,
    }
}

impl Heard {
    /// Whether the call succeeded.
    fn is_good(&self) -> bool
        ensures { result ≡ is_good self.now }
    {
        match self {
            Heard::Reply(reply) => code_heard(reply) == ERROR_SUCCESS,
            Heard::Fault(_) => false,
        }
    }

    /// Whether it is a page of services after which there is another.
    fn is_part(&self) -> bool
        ensures { result ≡ is_part self.now }
    {
        match self {
            Heard::Reply(Reply::Page { returned, code, .. }) => {
                *code == ERROR_MORE_DATA && *returned > 0
            }
            _ => false,
        }
    }

    /// How many calls it completes, unless it is a failure.
    fn completes(&self) -> Option<usize>
        ensures value { result ≡ completes self.now }
        ensures bound { IfSome result (λ n. n ≤ 1) }
    {
        if self.is_part() {
            Some(0)
        } else if self.is_good() {
            Some(1)
        } else {
            None
        }
    }

    /// Why a call didn't succeed that was answered so.
    pub fn failure(&self) -> Failure
        ensures { result ≡ failure_heard self.now }
    {
        match self {
            Heard::Reply(reply) => Failure::Refused(code_heard(reply)),
            Heard::Fault(status) => Failure::Fault(*status),
        }
    }

    /// The handle that was given, or 0.
    fn handle(&self) -> u64
        ensures { result ≡ handle_in (Some self.now) }
    {
        match self {
            Heard::Reply(reply) => handle_heard(reply),
            Heard::Fault(_) => 0,
        }
    }
}

/// How far the calls of a task came.
#[derive(Clone, Copy)]
pub struct Progress {
    /// How many are done.
    pub done: usize,
    /// How many answers these and the parts of one more took.
    pub taken: usize,
}

/// How far calls came, up to the first that didn't succeed, or that isn't answered yet.
fn progress_of(methods: &[Method], heard: &[Heard]) -> Progress
    ensures value { result ≡ progress_of methods.now heard.now }
    ensures bound { result.done ≤ length methods.now }
{
    let mut done = 0;
    for taken in 0..heard.len() {
        if done == methods.len() {
            return Progress { done, taken };
        }
        let Some(more) = heard[taken].completes() else {
            return Progress { done, taken };
        };
        done += more;
    }
    Progress {
        done,
        taken: heard.len(),
    }
}

/// Where the calls of a task stand.
#[tactic(auto, unfolding(crate::specs::Calls::stage_of))]
pub fn stage_of<'a>(task: &Task, heard: &'a [Heard]) -> Stage<'a>
    ensures { seen_standing result ≡ stage_of task.now heard.now }
{
    let methods = calls_of(task);
    let progress = progress_of(methods, heard);
    if progress.done == methods.len() {
        return Stage::Done;
    }
    match heard.get(progress.taken) {
        Some(heard) => Stage::Failed(methods[progress.done], heard),
        None => Stage::Asks(methods[progress.done]),
    }
}

/// How many calls of a task give a handle: the manager's is first, and the service's is second.
fn handles_of(task: &Task) -> usize
    ensures { result ≡ handles_of task.now }
{
    match task {
        Task::DisplayName | Task::KeyName | Task::QueryAll | Task::QueryLock => 1,
        _ => 2,
    }
}

/// How many handles were given.
#[tactic(auto, unfolding(crate::specs::Calls::given))]
pub fn given(task: &Task, heard: &[Heard]) -> usize
    ensures { result ≡ given task.now heard.now }
{
    handles_of(task).min(progress_of(calls_of(task), heard).done)
}

/// The handle that was given before the last so many.
#[tactic(auto, unfolding(crate::specs::Calls::handle_before))]
pub fn handle_before(last: usize, task: &Task, heard: &[Heard]) -> u64
    ensures { result ≡ handle_before last task.now heard.now }
{
    let place = given(task, heard).saturating_sub(1).saturating_sub(last);
    match heard.get(place) {
        Some(heard) => heard.handle(),
        None => 0,
    }
}

/// How many replies came to the closes.
#[tactic(auto, unfolding(crate::specs::Calls::closed))]
pub fn closed(task: &Task, heard: &[Heard]) -> usize
    ensures { result ≡ closed task.now heard.now }
{
    let taken = progress_of(calls_of(task), heard).taken;
    let left = heard.len().saturating_sub(taken);
    match stage_of(task, heard) {
        Stage::Asks(_) => 0,
        Stage::Failed(_, _) => left.saturating_sub(1),
        Stage::Done => left,
    }
}
