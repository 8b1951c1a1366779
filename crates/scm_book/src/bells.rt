// The bells of a book, and which of them a step rings.
ghost use Rattle.std.specs.Prelude.{◌≡◌, false};
ghost use Rattle.scm_book.specs.Called.{is_start};
ghost use Rattle.scm_book.specs.Ringing.{AsksNoOther, StirsNoOther, StirsNobody};
ghost use Rattle.scm_book.specs.Ringing.{begins_plans, children_rung, controls_rung, effect_rung};
ghost use Rattle.scm_book.specs.Ringing.{is_quiet, may_host, one_or_nobody, ring_of, rings_common};
ghost use Rattle.scm_book.specs.Ringing.{shared_or_nobody};
ghost use Rattle.scm_book.specs.Steps.{owed_step};

use crate::held::Owed;
use scm_core::Manager;
use scm_model::codes::SERVICE_STOPPED;
use scm_model::{Request, Step};
use std::array;
use std::sync::atomic::{AtomicBool, AtomicU64, Ordering};
use std::sync::{Condvar, Mutex, Wait};

/// Counts entries that somebody waits for, and carries the wish to end. Nothing is claimed of
/// wake-ups.
#[derive(Drop)]
pub struct Bell {
    count: AtomicU64,
    /// Whether the count was asked for since the last ring that was counted.
    is_asked: AtomicBool,
    sleepers: AtomicU64,
    is_shut: AtomicBool,
    door: Mutex<u64>,
    rung: Condvar,
}

impl Bell {
    pub(crate) fn new() -> Bell {
        Bell {
            count: AtomicU64::new(0),
            is_asked: AtomicBool::new(false),
            sleepers: AtomicU64::new(0),
            is_shut: AtomicBool::new(false),
            door: Mutex::new(0),
            rung: Condvar::new(),
        }
    }

    /// The count. The next ring after this call is counted: a ring clears the asking before it
    /// counts, and one that did so between the two lines is asked again.
    pub fn count(&self) -> u64 {
        for _ in 0..u64::MAX {
            self.is_asked.store(true, Ordering::SeqCst);
            let count = self.count.load(Ordering::SeqCst);
            if self.is_asked.load(Ordering::SeqCst) {
                return count;
            }
        }
        self.count.load(Ordering::SeqCst)
    }

    /// Whether it was shut.
    pub fn is_shut(&self) -> bool {
        self.is_shut.load(Ordering::SeqCst)
    }

    /// Waits until the count isn't `seen`, or the bell is shut, and answers the count.
    pub fn wait<R: Wait>(&self, rt: &R, seen: u64) -> u64 {
        self.sleepers.fetch_add(1, Ordering::SeqCst);
        let mut door = self.door.lock(rt);
        for _ in rt.forever() {
            if self.count.load(Ordering::SeqCst) != seen || self.is_shut() {
                break;
            }
            door = self.rung.wait(rt, door);
        }
        drop(door);
        self.sleepers.fetch_sub(1, Ordering::SeqCst);
        self.count()
    }

    /// An entry was made that this bell counts. It costs a load where nobody asked, and the lock is
    /// taken only where somebody sleeps.
    #[inline(always)]
    pub(crate) fn ring<R: Wait>(&self, rt: &R) {
        if !self.is_asked.load(Ordering::SeqCst) {
            return;
        }
        self.is_asked.store(false, Ordering::SeqCst);
        self.count.fetch_add(1, Ordering::SeqCst);
        if self.sleepers.load(Ordering::SeqCst) != 0 {
            self.wake(rt);
        }
    }

    /// Wakes all that wait, now and from now on.
    pub fn shut<R: Wait>(&self, rt: &R) {
        self.is_shut.store(true, Ordering::SeqCst);
        self.wake(rt);
    }

    fn wake<R: Wait>(&self, rt: &R) {
        let door = self.door.lock(rt);
        drop(door);
        self.rung.notify_all();
    }
}

/// How many bells the processes share. At most 128 processes are listed at a time.
const CHILDREN: usize = 256;

/// The bells of a book: a common one, and one for each process. Processes share one if their
/// numbers are the same modulo 256.
#[derive(Drop)]
pub struct Bells {
    pub common: Bell,
    children: [Bell; CHILDREN],
}

impl Bells {
    pub fn new() -> Bells {
        Bells {
            common: Bell::new(),
            children: array::from_fn(|_| Bell::new()),
        }
    }

    /// The bell of a process.
    pub fn child(&self, process: u64) -> &Bell {
        &self.children[(process % CHILDREN as u64) as usize]
    }

    /// A step was made that rings these.
    #[inline(always)]
    pub fn ring<R: Wait>(&self, rt: &R, ring: Ring) {
        if ring.common {
            self.common.ring(rt);
        }
        match ring.children {
            Children::Nobody => {}
            Children::One(process) => self.child(process).ring(rt),
            Children::All => self.ring_children(rt),
        }
    }

    fn ring_children<R: Wait>(&self, rt: &R) {
        for bell in self.children.iter() {
            bell.ring(rt);
        }
    }

    /// Shuts all bells. A thread that is woken by one finds the common bell shut.
    pub fn shut<R: Wait>(&self, rt: &R) {
        self.common.shut(rt);
        for bell in self.children.iter() {
            bell.shut(rt);
        }
    }
}

/// The processes whose bells a step rings.
#[derive(Clone, Copy)]
pub enum Children {
    Nobody,
    One(u64),
    All,
}

/// The bells that a step rings.
#[derive(Clone, Copy)]
pub struct Ring {
    /// Whether it rings the common bell.
    pub common: bool,
    pub children: Children,
}

/// Whether a call only reads, opens a handle, or looks for a notification.
fn is_quiet(request: &Request) -> bool
    ensures { result ≡ is_quiet request.now }
{
    match request {
        Request::QuerySecurity { .. }
        | Request::QueryStatus { .. }
        | Request::EnumDependents { .. }
        | Request::EnumServices { .. }
        | Request::OpenManager { .. }
        | Request::OpenService { .. }
        | Request::QueryConfig { .. }
        | Request::QueryLock { .. }
        | Request::DisplayName { .. }
        | Request::KeyName { .. }
        | Request::QueryConfig2 { .. }
        | Request::QueryStatusEx { .. }
        | Request::GetNotify { .. } => true,
        _ => false,
    }
}

/// Whether a step rings the common bell. A step that doesn't decides no plan, and no launch is
/// wanted after it if none was before. If it takes nothing either, plans, wanted launches and
/// processes are as they were.
#[tactic(auto, using(crate::proofs::Stirring::stirs_nobody))]
pub fn rings_common(step: &Step) -> bool
    ensures rings { result ≡ rings_common step.now }
    ensures quiet { result ≡ false → StirsNobody step.now }
{
    match step {
        Step::Call { request, .. } => !is_quiet(request),
        Step::Joined { .. }
        | Step::EndStart { .. }
        | Step::LaunchTaken
        | Step::ControlTaken { .. }
        | Step::NoMemory { .. } => false,
        _ => true,
    }
}

/// The one process, if there is one.
fn one_or_nobody(process: Option<u64>) -> Children
    ensures { result ≡ one_or_nobody process }
{
    match process {
        Some(process) => Children::One(process),
        None => Children::Nobody,
    }
}

/// The one process, if there is one and other services may live in it too.
fn shared_or_nobody(manager: &Manager, process: Option<u64>) -> Children
    ensures { result ≡ shared_or_nobody manager.now.flat process }
{
    match process {
        Some(process) if manager.shares(process) => Children::One(process),
        _ => Children::Nobody,
    }
}

/// The processes whose bells a call rings: of calls only a control rings one, that of the service's
/// process, and a report that stops a service, where other services may live in its process too.
fn controls_rung(manager: &Manager, caller: u64, request: &Request) -> Children
    ensures { result ≡ controls_rung manager.now.flat caller request.now }
{
    match request {
        Request::Control { handle, .. } => one_or_nobody(manager.process_held(caller, *handle)),
        Request::SetStatus { handle, status } if status.state == SERVICE_STOPPED => {
            shared_or_nobody(manager, manager.process_held(caller, *handle))
        }
        _ => Children::Nobody,
    }
}

/// The processes whose bells the effect of a step rings when it is made next.
fn effect_rung(manager: &Manager, step: &Step) -> Children
    ensures { result ≡ effect_rung manager.now.flat step.now }
{
    match step {
        Step::Call {
            caller,
            request,
            ..
        } => controls_rung(manager, *caller, request),
        Step::Report {
            process,
            status,
            ..
        } if status.state == SERVICE_STOPPED => shared_or_nobody(manager, Some(*process)),
        Step::LaunchFailed { process, code: _ }
        | Step::Ended { process }
        | Step::ControlTaken { process } => Children::One(*process),
        Step::Raised { .. } => Children::All,
        _ => Children::Nobody,
    }
}

/// Whether a call asks for a start.
fn is_start(request: &Request) -> bool
    ensures { result ≡ is_start request.now }
{
    matches!(request, Request::Start { .. })
}

/// Whether plans may begin by a step.
fn begins_plans(step: &Step) -> bool
    ensures { result ≡ begins_plans step.now }
{
    match step {
        Step::Call { request, .. } => is_start(request),
        Step::Tick | Step::Raised { .. } => true,
        _ => false,
    }
}

/// Whether a step may ask a service to start in a process that is listed.
fn may_host(manager: &Manager, step: &Step) -> bool
    ensures { result ≡ may_host manager.now.flat step.now }
{
    manager.is_any_shared() && (begins_plans(step) || manager.is_any_undecided())
}

/// The processes whose bells a step rings when it is made next. No other process gets or loses an
/// order by it, is asked to start another service, or ends.
#[inline(always)]
#[tactic(auto, using(crate::proofs::Asked::no_other))]
pub fn children_rung(manager: &Manager, step: &Step) -> Children
    ensures rung { result ≡ children_rung manager.now.flat step.now }
    ensures others { StirsNoOther manager.now.flat step.now result }
    ensures asked { AsksNoOther manager.now.flat step.now result }
{
    if rings_common(step) && may_host(manager, step) {
        Children::All
    } else {
        effect_rung(manager, step)
    }
}

/// The bells that a step rings when it is made next.
#[inline(always)]
pub fn ring_of(manager: &Manager, step: &Step) -> Ring
    ensures { result ≡ ring_of manager.now.flat step.now }
{
    Ring {
        common: rings_common(step),
        children: children_rung(manager, step),
    }
}

impl Owed {
    /// The bells that the step rings when it is made next.
    #[inline(always)]
    pub fn ring(self, manager: &Manager) -> Ring
        ensures { result ≡ ring_of manager.now.flat (owed_step self) }
    {
        let step = self.step();
        let ring = ring_of(manager, &step);
        drop(step);
        ring
    }
}
