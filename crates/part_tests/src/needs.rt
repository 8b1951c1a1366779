ghost use Rattle.std.specs.Prelude.{◌≡◌, [], OnOk};
ghost use Rattle.scm_model.specs.Needs.{needs_of};
ghost use Rattle.scm_model.specs.Walks.{IsAcyclic};

use crate::values::{Needed, needs};
use Needed::{Group, Service};
use dependency_index::{DependencyIndex, StateLook, StateOf, Steps};
use scm_model::Need;
use scm_text::{Buffer, Items, OutOfMemory, WText};
use std::alloc::Global;
use std::marker::Brand;
use std::sync::ledger::{Blank, Ledger};
use std::test::Fail;
use test_values::text;

/// Services in list order: each with its number, its name, its group and its needs.
type Row = (u64, &'static str, &'static str, &'static [Needed]);

/// `c` needs `b`, `b` needs the group of `a` and `d`, which need nothing.
const GROUPED: [Row; 4] = [
    (1, "c", "", &[Service("b")]),
    (2, "a", "g", &[]),
    (3, "b", "", &[Group("g")]),
    (4, "d", "g", &[]),
];

/// `b` needs `a`, and `c` needs `d` and `b`.
const CHAINED: [Row; 4] = [
    (1, "a", "", &[]),
    (2, "d", "", &[]),
    (3, "b", "", &[Service("a")]),
    (4, "c", "", &[Service("d"), Service("b")]),
];

/// The texts and the needs of a row in memory.
#[derive(Drop)]
struct Parts {
    name: WText,
    group: WText,
    needs: Items<Need>,
}

fn in_memory(
    alloc: Global,
    name: &str,
    group: &str,
    needed: &[Needed],
) -> Result<Parts, OutOfMemory> {
    match (text(alloc, name), text(alloc, group), needs(alloc, needed)) {
        (Ok(name), Ok(group), Ok(needs)) => Ok(Parts { name, group, needs }),
        _ => Err(OutOfMemory),
    }
}

/// Puts a service in, unless it would close a cycle.
fn put_parts(
    alloc: Global,
    index: &mut DependencyIndex,
    number: u64,
    parts: &Parts,
    room: &mut Buffer<u64>,
) -> Result<(), Fail>
    requires items { room.old.items ≡ [] }
    requires room { room.old.room ≡ 8 }
    ensures { OnOk result (IsAcyclic (needs_of index.new.rows)) }
{
    index.prepare(alloc, &parts.name, &parts.group, &parts.needs)?;
    index.commit();
    if 7 < index.len() || index.would_cycle(number, &parts.name, &parts.group, &parts.needs, room) {
        return Err("a cycle".into());
    }
    if !index.is_next(number) {
        return Err("a number that is too small".into());
    }
    index.set_needs(number, &parts.name, &parts.group, &parts.needs);
    Ok(())
}

/// Puts a row in, unless it would close a cycle.
fn put(alloc: Global, index: &mut DependencyIndex, row: Row) -> Result<(), Fail>
    ensures { OnOk result (IsAcyclic (needs_of index.new.rows)) }
{
    let (number, name, group, needed) = row;
    match (
        in_memory(alloc, name, group, needed),
        Buffer::with_room(alloc, 8),
    ) {
        (Ok(parts), Ok(mut room)) => {
            let put = put_parts(alloc, index, number, &parts, &mut room);
            drop(parts);
            drop(room);
            put
        }
        _ => Err("memory".into()),
    }
}

/// A service is RUNNING and all others are STOPPED.
#[derive(Drop)]
struct OneRuns {
    service: u64,
}

impl StateOf for OneRuns {
    ghost use Rattle.std.specs.Prelude.{◌==◌, if◌then◌else◌};

    ghost state_of = { λ self service. if service == self.service then 4 else 1 };

    fn state_of(&self, service: u64) -> u32 {
        if service == self.service { 4 } else { 1 }
    }
}

impl StateLook for OneRuns {
    ghost use Rattle.std.specs.Prelude.{◌==◌, if◌then◌else◌};

    ghost state_of = { λ self service. if service == self.service then 4 else 1 };

    fn state_of<L: Ledger>(&self, service: u64, steps: &mut Steps<L>) -> u32 {
        steps.tick();
        if service == self.service { 4 } else { 1 }
    }
}

/// Whether these services are started for one, in this order, where another runs.
fn is_order(alloc: Global, index: &DependencyIndex, service: u64, runs: u64, want: &[u64]) -> bool {
    let Ok(mut room) = Buffer::with_room(alloc, 8) else {
        return false;
    };
    if index.is_listed(service) && index.len() <= 8 {
        index.order_of(service, &OneRuns { service: runs }, &mut room);
    }
    room.as_slice() == want
}

/// What a service needs is started before it.
fn are_ordered(alloc: Global, index: &mut DependencyIndex) -> bool {
    // A service that leaves, one that is started, which other one runs, and what is started.
    let rows = [
        (0, 1, 0, [2, 4, 3, 1].as_slice()),
        (0, 1, 3, &[1]),
        (0, 3, 0, &[2, 4, 3]),
        (2, 3, 0, &[4, 3]),
    ];
    for (leaves, service, runs, want) in rows {
        index.drop_service(leaves);
        if !is_order(alloc, index, service, runs, want) {
            return false;
        }
    }
    true
}

/// Whether a service would close a cycle. `None` if there are more than 7 services.
fn would_cycle(
    index: &DependencyIndex,
    number: u64,
    parts: &Parts,
    room: &mut Buffer<u64>,
) -> Option<bool>
    requires items { room.old.items ≡ [] }
    requires room { room.old.room ≡ 8 }
{
    if 7 < index.len() {
        return None;
    }
    Some(index.would_cycle(number, &parts.name, &parts.group, &parts.needs, room))
}

/// Whether a service of the group with these needs would close a cycle.
fn closes(
    alloc: Global,
    index: &DependencyIndex,
    number: u64,
    name: &str,
    needed: &[Needed],
) -> Option<bool> {
    match (
        in_memory(alloc, name, "g", needed),
        Buffer::with_room(alloc, 8),
    ) {
        (Ok(parts), Ok(mut room)) => {
            let closes = would_cycle(index, number, &parts, &mut room);
            drop(parts);
            drop(room);
            closes
        }
        _ => None,
    }
}

/// A row that closes a cycle is found.
fn are_cycles(alloc: Global, index: &DependencyIndex) -> bool {
    // A new configuration of `a`, which `c` needs by way of the group, and a new member of it.
    let rows = [
        (2, "a", [Service("c")].as_slice(), true),
        (5, "e", &[Service("c")], true),
        (5, "e", &[Group("g")], true),
        (5, "e", &[], false),
    ];
    for (number, name, needed, want) in rows {
        if closes(alloc, index, number, name, needed) != Some(want) {
            return false;
        }
    }
    true
}

/// How many services need this one by name and don't run, where one runs.
fn active<L: Ledger>(index: &DependencyIndex, service: u64, runs: u64, blank: Blank) -> u32
    requires name { blank.name ≡ L.name }
    requires parts { blank.parts ≡ L.parts }
    requires one { blank.parts ≡ 1 }
{
    let mut steps = Steps::<L>::open(blank);
    index.active_dependents(service, &OneRuns { service: runs }, &mut steps)
}

/// Only a service that names another counts.
fn are_counted(index: &DependencyIndex) -> bool {
    // A service, which other one runs, and how many keep a STOP of it away: 1 names 3, and 3 needs
    // the group of 2.
    for (service, runs, want) in [(3, 1, 1), (3, 0, 0), (2, 3, 0)] {
        if active::<Brand>(index, service, runs, Blank::new(1)) != want {
            return false;
        }
    }
    true
}

fn told_of_groups(alloc: Global, index: &mut DependencyIndex) -> Result<(), Fail> {
    for row in GROUPED {
        put(alloc, index, row)?;
    }
    if !are_cycles(alloc, index) {
        return Err("another row closes a cycle".into());
    }
    if !are_counted(index) {
        return Err("another count".into());
    }
    if !are_ordered(alloc, index) {
        return Err("another order".into());
    }
    Ok(())
}

#[test]
fn a_group_is_needed_and_its_members_are_not_named(rt: HostRuntime) -> Result<(), Fail> {
    let mut index = DependencyIndex::new(rt.alloc())?;
    let told = told_of_groups(rt.alloc(), &mut index);
    drop(index);
    told
}

fn chain(alloc: Global, index: &mut DependencyIndex) -> Result<(), Fail>
    ensures { OnOk result (IsAcyclic (needs_of index.new.rows)) }
{
    put(alloc, index, CHAINED[0])?;
    put(alloc, index, CHAINED[1])?;
    put(alloc, index, CHAINED[2])?;
    put(alloc, index, CHAINED[3])
}

/// Whether these services need one, in this order.
fn is_needed_by(alloc: Global, index: &DependencyIndex, service: u64, want: &[u64]) -> bool
    requires { IsAcyclic (needs_of index.now.rows) }
{
    let Ok(mut room) = Buffer::with_room(alloc, 8) else {
        return false;
    };
    if index.len() <= 8 {
        index.dependents(service, &mut room);
    }
    room.as_slice() == want
}

fn told_of_names(alloc: Global, index: &mut DependencyIndex) -> Result<(), Fail> {
    chain(alloc, index)?;
    for (service, want) in [(1, [4, 3].as_slice()), (2, &[4]), (4, &[])] {
        if !is_needed_by(alloc, index, service, want) {
            return Err("other dependents".into());
        }
    }
    Ok(())
}

#[test]
fn what_needs_a_service_is_stopped_before_it(rt: HostRuntime) -> Result<(), Fail> {
    let mut index = DependencyIndex::new(rt.alloc())?;
    let told = told_of_names(rt.alloc(), &mut index);
    drop(index);
    told
}
