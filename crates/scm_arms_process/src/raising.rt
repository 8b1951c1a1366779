ghost use Rattle.std.specs.Prelude.{ℕ, ◌≡◌, ◌≢◌, ◌≤◌, ◌+◌, option_and_then};
ghost use Rattle.std.specs.Prelude.{option_copied, slice_get};
ghost use Rattle.scm_model.specs.Found.{if_found};
ghost use Rattle.scm_model.specs.declared.calls.Reply.TheVariants as reply;
ghost use Rattle.scm_model.specs.declared.steps.Answer.TheVariants as answer;
ghost use Rattle.scm_rules.specs.Raise.{all_triggered, raise_verdict, raised, with_stop};
ghost use Rattle.scm_rules.specs.Room.{is_started_at};
ghost use Rattle.scm_tables.specs.Firing.{HasPlanNumbers, HasStarts};
ghost use Rattle.scm_arms_process.specs.Raised.{acted, action_in, raise_starts, started_among};
ghost use Rattle.scm_arms_process.specs.Raised.{started_at, starts_by, stopped_by, triggered_if};

use super::controlling::{active_needing, waiting_for};
use control_dispatch::judge;
use scm_model::codes::{
    ERROR_ACCESS_DENIED, SERVICE_CONTROL_STOP, SERVICE_STOP, SERVICE_TRIGGER_ACTION_SERVICE_START,
};
use scm_model::{Answer, Order, Principal, Reply, Service};
use scm_tables::Tables;
use start_triggers::matching;

/// What a raise is refused with, or 0: `ERROR_ACCESS_DENIED` (5).
pub fn raise_verdict(tables: &Tables, caller: u64) -> u32
    ensures { result ≡ raise_verdict tables.now.flat caller }
{
    match tables.principal_of(caller) {
        Principal::Admin => 0,
        Principal::User => ERROR_ACCESS_DENIED,
    }
}

/// Whether a trigger of a service starts it.
fn is_started_at(row: &Service, subtype: &[u8; 16]) -> bool
    ensures { result ≡ is_started_at subtype.now row.now }
{
    match matching(&row.config, subtype) {
        Some(action) => action == SERVICE_TRIGGER_ACTION_SERVICE_START,
        None => false,
    }
}

/// How many services have a trigger that starts them.
pub fn started_in(tables: &Tables, subtype: &[u8; 16]) -> usize
    ensures { result ≡ started_among subtype.now tables.now.flat.services }
{
    tables
        .rows()
        .filter(|row| is_started_at(row, subtype))
        .count()
}

/// How many plans a raise may begin.
pub fn raise_starts(tables: &Tables, caller: u64, subtype: &[u8; 16]) -> usize
    ensures { result ≡ raise_starts tables.now.flat caller subtype.now }
{
    if raise_verdict(tables, caller) == 0 {
        started_in(tables, subtype)
    } else {
        0
    }
}

/// An order, and the process that is to get it.
#[derive(Clone, Copy)]
struct Addressed {
    process: u64,
    order: Order,
}

/// The STOP of the service at a place, if it gets one from a sender that may stop it.
fn stopped_at(tables: &Tables, place: usize) -> Option<Addressed>
    ensures { result ≡ option_and_then (stopped_by tables.now.limits tables.now.flat)
        (slice_get tables.now.flat.services place) }
{
    let row = tables.row_at(place)?;
    let code = judge(
        Some(SERVICE_STOP),
        SERVICE_CONTROL_STOP,
        &row.status,
        active_needing(tables, row.number),
        waiting_for(tables, Some(row)),
        tables.limits().controls,
    );
    if code != 0 {
        return None;
    }
    let order = Order {
        service: row.number,
        code: SERVICE_CONTROL_STOP,
    };
    Some(Addressed {
        process: row.process,
        order,
    })
}

#[tactic(auto, using(crate::proofs::Triggers::stopped_as))]
/// A STOP waits for the process of the service at a place, where it gets one.
fn stop_at(tables: &mut Tables, place: usize)
    requires { tables.old.limits.controls ≤ 16 }
    ensures flat { tables.new.flat ≡ if_found (with_stop tables.old.limits)
        (slice_get tables.old.flat.services place) tables.old.flat }
    ensures limits { tables.new.limits ≡ tables.old.limits }
    ensures spare { tables.new.spare ≡ tables.old.spare }
{
    match stopped_at(tables, place) {
        Some(stop) => tables.control(stop.process, stop.order),
        None => {}
    }
}

/// The action of a service's trigger.
fn action_of(service: Option<&Service>, subtype: &[u8; 16]) -> Option<u32>
    ensures { result ≡ action_in subtype.now (option_copied service.entry) }
{
    match service {
        Some(row) => matching(&row.config, subtype),
        None => None,
    }
}

#[tactic(auto, using(crate::proofs::Triggers::acting))]
/// The service at a place starts or gets a STOP, by the action of its trigger.
fn act_at(tables: &mut Tables, place: usize, action: u32)
    requires room { HasStarts (starts_by action) tables.old }
    requires numbers { HasPlanNumbers (starts_by action) tables.old.flat }
    requires controls { tables.old.limits.controls ≤ 16 }
    ensures flat { tables.new.flat ≡ if_found (acted tables.old.limits action)
        (slice_get tables.old.flat.services place) tables.old.flat }
    ensures limits { tables.new.limits ≡ tables.old.limits }
    ensures left { (count : ℕ) → HasStarts (starts_by action + count) tables.old
        → HasStarts count tables.new }
{
    if action == SERVICE_TRIGGER_ACTION_SERVICE_START {
        tables.restart_at(place);
    } else {
        stop_at(tables, place);
    }
}

/// The service at a place starts or gets a STOP, where it has a trigger.
fn trigger_at(tables: &mut Tables, place: usize, subtype: &[u8; 16])
    requires room { HasStarts (started_at subtype.now tables.old.flat.services place) tables.old }
    requires numbers { HasPlanNumbers (started_at subtype.now tables.old.flat.services place)
        tables.old.flat }
    requires controls { tables.old.limits.controls ≤ 16 }
    ensures flat { tables.new.flat ≡ if_found (triggered_if tables.old.limits subtype.now)
        (slice_get tables.old.flat.services place) tables.old.flat }
    ensures limits { tables.new.limits ≡ tables.old.limits }
    ensures left { (count : ℕ) → HasStarts (started_at subtype.now tables.old.flat.services place
        + count) tables.old → HasStarts count tables.new }
{
    match action_of(tables.row_at(place), subtype) {
        Some(action) => act_at(tables, place, action),
        None => {}
    }
}

#[tactic(auto, using(crate::proofs::Triggers::going))]
/// Each service that has a trigger starts or gets a STOP, in order.
fn trigger_all(tables: &mut Tables, subtype: &[u8; 16])
    requires room { HasStarts (started_among subtype.now tables.old.flat.services) tables.old }
    requires numbers { HasPlanNumbers (started_among subtype.now tables.old.flat.services)
        tables.old.flat }
    requires controls { tables.old.limits.controls ≤ 16 }
    ensures flat { tables.new.flat ≡ all_triggered tables.old.limits subtype.now
        tables.old.flat.services tables.old.flat }
    ensures limits { tables.new.limits ≡ tables.old.limits }
{
    for place in 0..tables.services() {
        trigger_at(tables, place, subtype);
    }
}

/// A trigger is raised: each service that has it starts, or gets a STOP. It takes no memory.
pub fn raise(tables: &mut Tables, caller: u64, subtype: &[u8; 16]) -> Answer
    requires room { HasStarts (raise_starts tables.old.flat caller subtype.now) tables.old }
    requires numbers { HasPlanNumbers (raise_starts tables.old.flat caller subtype.now)
        tables.old.flat }
    requires controls { tables.old.limits.controls ≤ 16 }
    ensures answer { result ≡ answer.Reply (reply.Code (raise_verdict tables.old.flat caller)) }
    ensures flat { tables.new.flat ≡ raised tables.old.limits tables.old.flat caller subtype.now }
    ensures limits { tables.new.limits ≡ tables.old.limits }
    ensures refused { raise_verdict tables.old.flat caller ≢ 0 → tables.new ≡ tables.old }
{
    let code = raise_verdict(tables, caller);
    if code == 0 {
        trigger_all(tables, subtype);
    }
    Answer::Reply(Reply::Code(code))
}
