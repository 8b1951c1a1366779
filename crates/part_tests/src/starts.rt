ghost use Rattle.std.specs.Prelude.{◌≡◌, ◌<◌, ◌+◌, [], All, OnOk};
ghost use Rattle.start_plan.specs.Asleep.{ArePending};

use crate::bench::Bench;
use crate::values::{Needed, add, config, needs, stopped};
use Event::{Expired, Failed, Freed, Gone, Launched, Locked, Put, Settled};
use Fate::{Absent, Decided, Undecided};
use Setup::{Full, Group, Pair, Shared};
use scm_model::{Config, LockRow, Need, Plan, Service};
use scm_text::{Items, OutOfMemory, WText};
use start_plan::Plans;
use std::alloc::Global;
use std::test::Fail;
use test_values::{append_ascii, text};

const STOPPED: u32 = 1;

const START_PENDING: u32 = 2;

const RUNNING: u32 = 4;

const ON_DEMAND: u32 = 3;

const DISABLED: u32 = 4;

const OWN_PROCESS: u32 = 0x10;

const SHARE_PROCESS: u32 = 0x20;

/// Two stopped services of the group `g`: 1 is `a`, which needs nothing, and 2 is `b`.
#[derive(Clone, Copy)]
enum Setup {
    /// `b` needs `a`.
    Pair,
    /// The same, and `a` is disabled.
    Disabled,
    /// The same, and no process may be listed.
    Full,
    /// `b` needs the group.
    Group,
    /// `b` needs nothing. Both share their processes, have the same path, and `a` is in a process
    /// that was launched.
    Shared,
}

/// What befalls the services and the plans.
#[derive(Clone, Copy)]
enum Event {
    Settled,
    /// The service at a place is put into a state.
    Put(usize, u32),
    Locked,
    Freed,
    Launched(u64),
    Failed(u64, u32),
    Expired,
    Gone(u64),
}

/// What a plan has come to.
#[derive(Clone, Copy, PartialEq, Eq)]
enum Fate {
    Undecided,
    Decided(u32),
    Absent,
}

/// The texts of a service in the group.
fn set_texts(config: &mut Config, name: &str) -> Result<(), OutOfMemory> {
    append_ascii(&mut config.name, name)?;
    append_ascii(&mut config.display, name)?;
    append_ascii(&mut config.path, "p")?;
    append_ascii(&mut config.group, "g")
}

/// The configuration of a service of this type, in the group.
fn named(
    alloc: Global,
    name: &str,
    kind: u32,
    start: u32,
    needs: Items<Need>,
) -> Result<Config, OutOfMemory> {
    let mut config = config(alloc, start, needs);
    config.kind = kind;
    match set_texts(&mut config, name) {
        Ok(()) => Ok(config),
        Err(why) => {
            drop(config);
            Err(why)
        }
    }
}

/// What `b` needs.
fn needed(setup: Setup) -> &'static [Needed] {
    match setup {
        Setup::Group => &[Needed::Group("g")],
        Setup::Pair | Setup::Disabled | Setup::Full => &[Needed::Service("a")],
        Setup::Shared => &[],
    }
}

/// How `a` is started.
fn start(setup: Setup) -> u32 {
    match setup {
        Setup::Pair | Setup::Full | Setup::Group | Setup::Shared => ON_DEMAND,
        Setup::Disabled => DISABLED,
    }
}

/// The type of both.
fn kind(setup: Setup) -> u32 {
    match setup {
        Setup::Pair | Setup::Disabled | Setup::Full | Setup::Group => OWN_PROCESS,
        Setup::Shared => SHARE_PROCESS,
    }
}

fn add_both(alloc: Global, services: &mut Items<Service>, setup: Setup) -> Result<(), OutOfMemory> {
    let kind = kind(setup);
    let first = named(alloc, "a", kind, start(setup), Items::new(alloc))?;
    add(services, stopped(alloc, 1, first))?;
    let needs = needs(alloc, needed(setup))?;
    add(
        services,
        stopped(alloc, 2, named(alloc, "b", kind, ON_DEMAND, needs)?),
    )
}

fn services(alloc: Global, setup: Setup) -> Result<Items<Service>, OutOfMemory> {
    let mut services = Items::new(alloc);
    match add_both(alloc, &mut services, setup) {
        Ok(()) => Ok(services),
        Err(why) => {
            drop(services);
            Err(why)
        }
    }
}

fn bench(alloc: Global, setup: Setup) -> Result<Bench, OutOfMemory> {
    let limit = match setup {
        Setup::Pair | Setup::Disabled | Setup::Group | Setup::Shared => 8,
        Setup::Full => 0,
    };
    Bench::new(alloc, services(alloc, setup)?.into_vec(), limit)
}

/// The one word `x`.
fn words(alloc: Global) -> Result<Items<WText>, OutOfMemory> {
    match Vec::from_array(alloc, [text(alloc, "x")?]) {
        Ok(words) => Ok(Items::from_vec(words)),
        Err(_) => Err(OutOfMemory),
    }
}

#[tactic(auto, using(crate::proofs::Begun::below_next))]
/// Begins a plan of a caller, for the last of its entries, with the word `x`.
fn begin(
    alloc: Global,
    plans: &mut Plans,
    number: u64,
    caller: u64,
    entries: &[u64],
) -> Result<(), OutOfMemory>
    requires { All (λ plan. plan.number < number) plans.old.plans }
    ensures numbers { OnOk result (All (λ plan. plan.number < number + 1) plans.new.plans) }
    ensures awaited { plans.new.awaited ≡ plans.old.awaited }
{
    plans.reserve(1)?;
    let (Ok(words), Ok(listed), Ok(tried)) = (
        words(alloc),
        entries.to_vec(alloc),
        Vec::with_capacity(alloc, entries.len()),
    ) else {
        return Err(OutOfMemory);
    };
    let plan = Plan {
        number,
        caller,
        target: entries.last().copied().unwrap_or(0),
        entries: Items::from_vec(listed),
        tried: Items::new(alloc),
        words,
        code: None,
    };
    plans.begin(plan, tried);
    Ok(())
}

fn befall(plans: &mut Plans, bench: &mut Bench, event: Event)
    requires { ArePending bench.old.0.services plans.old.awaited }
    ensures { ArePending bench.new.0.services plans.new.awaited }
{
    match event {
        Event::Settled => {
            bench.has_numbers();
            plans.settle(bench);
        }
        Event::Put(place, state) => bench.put(plans, place, state),
        Event::Locked => bench.set_lock(Some(LockRow {
            handle: 5,
            since: 0,
        })),
        Event::Freed => bench.set_lock(None),
        Event::Launched(service) => plans.launched(service),
        Event::Failed(service, code) => plans.failed(service, code),
        Event::Expired => plans.expire(7),
        Event::Gone(caller) => plans.gone(caller),
    }
}

fn befall_all(plans: &mut Plans, bench: &mut Bench, events: &[Event])
    requires { ArePending bench.old.0.services plans.old.awaited }
{
    for event in events {
        befall(plans, bench, *event);
    }
}

fn fate_of(plans: &Plans, plan: u64) -> Fate {
    match plans.decided(plan) {
        Some(code) => Fate::Decided(code),
        None if plans.undecided(plan) => Fate::Undecided,
        None => Fate::Absent,
    }
}

/// The services, the plan's caller and entries, what befalls them; what becomes of the plan, and
/// the states.
type Row = (Setup, u64, &'static [u64], &'static [Event], Fate, [u32; 2]);

/// Whether a row results in what it states.
fn is_come_to(alloc: Global, plans: &mut Plans, bench: &mut Bench, row: &Row) -> bool
    requires plans { plans.old.plans ≡ [] }
    requires awaited { plans.old.awaited ≡ [] }
{
    let (_, caller, entries, events, fate, states) = row;
    if begin(alloc, plans, 7, *caller, entries).is_err() {
        return false;
    }
    befall_all(plans, bench, events);
    fate_of(plans, 7) == *fate && bench.states() == *states
}

/// The same of new services and no other plans.
fn comes_to(alloc: Global, row: &Row) -> bool {
    let mut plans = Plans::none(alloc);
    let is_so = match bench(alloc, row.0) {
        Ok(mut bench) => {
            let is_so = is_come_to(alloc, &mut plans, &mut bench, row);
            drop(bench);
            is_so
        }
        Err(OutOfMemory) => false,
    };
    drop(plans);
    is_so
}

const BOTH: &[u64] = &[1, 2];

const ROWS: [Row; 18] = [
    // A service starts after what it needs.
    (
        Pair,
        3,
        BOTH,
        &[Settled],
        Undecided,
        [START_PENDING, STOPPED],
    ),
    (
        Pair,
        3,
        BOTH,
        &[Settled, Put(0, RUNNING), Settled],
        Undecided,
        [RUNNING, START_PENDING],
    ),
    (
        Pair,
        3,
        BOTH,
        &[Put(0, RUNNING), Settled, Launched(2)],
        Decided(0),
        [RUNNING, START_PENDING],
    ),
    (
        Pair,
        3,
        BOTH,
        &[Settled, Put(0, STOPPED), Settled],
        Decided(1068),
        [STOPPED, STOPPED],
    ),
    (
        Pair,
        3,
        &[2],
        &[Put(1, RUNNING), Settled],
        Decided(0),
        [STOPPED, RUNNING],
    ),
    // Why a target fails: its need, no process for it, or that it isn't there.
    (
        Setup::Disabled,
        3,
        BOTH,
        &[Settled],
        Decided(1068),
        [STOPPED, STOPPED],
    ),
    (
        Full,
        3,
        &[2],
        &[Put(0, RUNNING), Settled],
        Decided(1054),
        [RUNNING, STOPPED],
    ),
    (Pair, 3, &[9], &[Settled], Decided(1072), [STOPPED, STOPPED]),
    // A group needs a running member.
    (
        Group,
        3,
        &[2],
        &[Settled],
        Decided(1068),
        [STOPPED, STOPPED],
    ),
    (
        Group,
        3,
        &[2],
        &[Put(0, RUNNING), Settled],
        Undecided,
        [RUNNING, START_PENDING],
    ),
    // A start waits while the database is locked.
    (
        Pair,
        3,
        BOTH,
        &[Locked, Settled],
        Undecided,
        [STOPPED, STOPPED],
    ),
    (
        Pair,
        3,
        BOTH,
        &[Locked, Settled, Freed, Settled],
        Undecided,
        [START_PENDING, STOPPED],
    ),
    // A decision stays, and is the target's own.
    (
        Pair,
        3,
        &[2],
        &[Failed(1, 2)],
        Undecided,
        [STOPPED, STOPPED],
    ),
    (
        Pair,
        3,
        &[2],
        &[Failed(2, 2), Launched(2), Expired],
        Decided(2),
        [STOPPED, STOPPED],
    ),
    (Pair, 3, &[2], &[Expired], Decided(1053), [STOPPED, STOPPED]),
    // Plans leave with their caller, and those of none as they are decided.
    (Pair, 3, &[2], &[Gone(4)], Undecided, [STOPPED, STOPPED]),
    (Pair, 3, &[2], &[Gone(3)], Absent, [STOPPED, STOPPED]),
    (Pair, 0, &[2], &[Launched(2)], Absent, [STOPPED, STOPPED]),
];

#[test]
fn plans_come_to_their_ends(rt: HostRuntime) {
    for (place, row) in ROWS.iter().enumerate() {
        assert!(rt; comes_to(rt.alloc(), row), "row {place}");
    }
}

/// The processes that are to be launched, and how many words each has.
fn wanted(bench: &Bench) -> [(u64, usize); 2] {
    let mut each = [(0, 0); 2];
    for (place, row) in bench.wanted().iter().enumerate() {
        if place < 2 {
            each[place] = (row.process, row.words.len());
        }
    }
    each
}

/// Whether plan 7 is what it should be by then.
fn is_expected(plan: &Plan) -> bool {
    (plan.number, plan.caller, plan.target, plan.code) == (7, 3, 2, None)
        && plan.entries.as_slice() == [2].as_slice()
        && plan.tried.as_slice() == [1, 2].as_slice()
        && plan.words.len() == 0
}

/// Whether plan 7 is taken with what it should have by then.
fn is_taken(plans: &mut Plans) -> bool {
    let taken = plans.take(7);
    let is_so = match &taken {
        Some(plan) => is_expected(plan),
        None => false,
    };
    drop(taken);
    is_so
}

/// Whether the words go with the target, and the plan is taken once.
fn is_taken_once(alloc: Global, plans: &mut Plans, bench: &mut Bench) -> bool
    requires plans { plans.old.plans ≡ [] }
    requires awaited { plans.old.awaited ≡ [] }
{
    let events = [Settled, Put(0, RUNNING), Settled];
    if begin(alloc, plans, 7, 3, BOTH).is_err() {
        return false;
    }
    befall_all(plans, bench, &events);
    wanted(bench) == [(1, 0), (2, 1)]
        && (plans.is_target(1), plans.is_target(2)) == (false, true)
        && (plans.caller_of(7), plans.caller_of(8)) == (Some(3), None)
        && is_taken(plans)
        && !is_taken(plans)
}

#[test]
fn the_words_go_with_the_target_and_a_plan_is_taken_once(rt: HostRuntime) -> Result<(), Fail> {
    let mut plans = Plans::new(rt.alloc())?;
    let is_so = match bench(rt.alloc(), Pair) {
        Ok(mut bench) => {
            let is_so = is_taken_once(rt.alloc(), &mut plans, &mut bench);
            drop(bench);
            is_so
        }
        Err(OutOfMemory) => false,
    };
    drop(plans);
    assert!(rt; is_so);
    Ok(())
}

/// Plan 7 is to start `a` and then `b`, plan 8 `b` and then `a`, and plan 9 `b` alone.
fn begin_three(alloc: Global, plans: &mut Plans) -> Result<(), OutOfMemory>
    requires { plans.old.plans ≡ [] }
    ensures { plans.new.awaited ≡ plans.old.awaited }
{
    begin(alloc, plans, 7, 3, BOTH)?;
    begin(alloc, plans, 8, 3, &[2, 1])?;
    begin(alloc, plans, 9, 3, &[2])
}

/// Whether plans 7 and 9 succeed at once: while `a` is starting and plan 7 waits for it, plan 8
/// enters `b` into the process of `a`.
fn is_met(alloc: Global, plans: &mut Plans, bench: &mut Bench) -> bool
    requires plans { plans.old.plans ≡ [] }
    requires awaited { plans.old.awaited ≡ [] }
{
    let events = [Put(0, START_PENDING), Settled];
    if begin_three(alloc, plans).is_err() {
        return false;
    }
    bench.launch_shared(0);
    befall_all(plans, bench, &events);
    let fates = (fate_of(plans, 7), fate_of(plans, 8), fate_of(plans, 9));
    fates == (Decided(0), Undecided, Decided(0))
        && bench.states() == [START_PENDING, START_PENDING]
        && wanted(bench) == [(0, 0), (0, 0)]
}

#[test]
fn plans_before_and_after_succeed_as_their_target_enters_a_launched_process(rt: HostRuntime) {
    let alloc = rt.alloc();
    let mut plans = Plans::none(alloc);
    let is_so = match bench(alloc, Shared) {
        Ok(mut bench) => {
            let is_so = is_met(alloc, &mut plans, &mut bench);
            drop(bench);
            is_so
        }
        Err(OutOfMemory) => false,
    };
    drop(plans);
    assert!(rt; is_so);
}
