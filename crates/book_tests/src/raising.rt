// Triggers that are raised beside the calls.
ghost use Rattle.std.specs.Prelude.{◌≡◌, ◌≢◌, false, IfOk, IsTrue};
ghost use Rattle.scm_model.specs.Ranges.{in_range};
ghost use Rattle.scm_book.specs.Called.{is_start};
ghost use Rattle.scm_book.specs.Passes.{IsOf};

use crate::rows::come;
use crate::starts::{Sight, is_seen, launch, look, report, service, take};
use book_calls::{Site, Told, call, raise};
use record_journal::MemoryKeeper;
use scm_book::{Book, ControlLook, Pass, ReportEnd};
use scm_model::codes::{
    ERROR_ACCESS_DENIED, SERVICE_CONTROL_STOP, SERVICE_RUNNING,
    SERVICE_TRIGGER_ACTION_SERVICE_START, SERVICE_TRIGGER_ACTION_SERVICE_STOP,
    SERVICE_TRIGGER_TYPE_CUSTOM,
};
use scm_model::{Info, Order, Principal, Request, TriggerIn};
use scm_text::{Items, OutOfMemory};
use std::alloc::Global;
use std::sync::Wait;
use std::test::Fail;

/// The STOP of the first service.
const STOP: Order = Order {
    service: 1,
    code: SERVICE_CONTROL_STOP,
};

/// A subtype that starts a caller's service, and one that stops it.
const STARTS: [u8; 16] = [1; 16];

const STOPS: [u8; 16] = [2; 16];

fn trigger(action: u32, subtype: [u8; 16]) -> TriggerIn {
    TriggerIn {
        kind: SERVICE_TRIGGER_TYPE_CUSTOM,
        action,
        subtype: Some(subtype),
        items: 0,
    }
}

/// What gives the service its triggers.
fn triggers(alloc: Global) -> Result<Request, OutOfMemory>
    ensures start { IfOk result (λ request. is_start request ≡ false) }
    ensures ranged { IfOk result (λ request. IsTrue (in_range request)) }
{
    let list = [
        trigger(SERVICE_TRIGGER_ACTION_SERVICE_START, STARTS),
        trigger(SERVICE_TRIGGER_ACTION_SERVICE_STOP, STOPS),
    ];
    match Vec::from_array(alloc, list) {
        Ok(list) => Ok(Request::Change2 {
            handle: 2,
            info: Info::Triggers(Items::from_vec(list)),
        }),
        Err(_) => Err(OutOfMemory),
    }
}

/// Whether the service is given them.
fn prepare<R: Wait>(at: &Site<'_, R>, pass: &mut Pass) -> bool
    requires book { IsOf at.now.book.now pass.old }
    requires caller { pass.old.caller ≢ 0 }
    ensures book { IsOf at.now.book.now pass.new }
    ensures caller { pass.new.caller ≢ 0 }
{
    match triggers(at.alloc) {
        Ok(request) => call(at.rt, at.book, pass, 0, request).ok()
            == Some(Told { code: 0, number: 0 }),
        Err(_) => false,
    }
}

/// Whether a raise is answered with this code.
fn is_told<R: Wait>(
    rt: &R,
    book: &Book<MemoryKeeper>,
    pass: &mut Pass,
    subtype: [u8; 16],
    code: u32,
) -> bool
    requires book { IsOf book.now pass.old }
    requires caller { pass.old.caller ≢ 0 }
    ensures book { IsOf book.now pass.new }
    ensures caller { pass.new.caller ≢ 0 }
{
    raise(rt, book, pass, 0, subtype).ok() == Some(Told { code, number: 0 })
}

/// Whether the service starts and gets a STOP by its own triggers alone.
fn obeys<R: Wait>(at: &Site<'_, R>, pass: &mut Pass, other: &mut Pass) -> bool
    requires book { IsOf at.now.book.now pass.old }
    requires caller { pass.old.caller ≢ 0 }
    requires other { IsOf at.now.book.now other.old }
    ensures { IsOf at.now.book.now other.new }
{
    let is_nothing = is_told(at.rt, at.book, pass, [3; 16], 0);
    let is_idle = take(at, other).is_none();
    let is_raised = is_told(at.rt, at.book, pass, STARTS, 0);
    let Some(process) = launch(at, other) else {
        return false;
    };
    let runs = [(SERVICE_RUNNING, ReportEnd::Taken)];
    let is_running = report(at.rt, at.book, other, process, &runs);
    let is_stopped = is_told(at.rt, at.book, pass, STOPS, 0);
    let control = look(at.rt, at.alloc, at.book, other, process);
    is_nothing
        && is_idle
        && is_raised
        && is_running
        && is_stopped
        && control
            == ControlLook::Control {
                order: STOP,
                shared: false,
            }
}

/// Whether a user may not raise what it has.
fn is_refused<R: Wait>(rt: &R, book: &Book<MemoryKeeper>, root: &mut Pass) -> bool
    requires { IsOf book.now root.old }
    ensures { IsOf book.now root.new }
{
    match book.join(rt, root, 0, Principal::User) {
        Ok(mut user) => {
            let is_refused = is_told(rt, book, &mut user, STARTS, ERROR_ACCESS_DENIED);
            drop(user);
            is_refused
        }
        Err(_) => false,
    }
}

/// Whether it does so for an administrator, and nobody else may raise what it has.
pub fn raises<R: Wait>(at: &Site<'_, R>, pass: &mut Pass, root: &mut Pass) -> bool
    requires book { IsOf at.now.book.now pass.old }
    requires caller { pass.old.caller ≢ 0 }
    requires root { IsOf at.now.book.now root.old }
    ensures { IsOf at.now.book.now root.new }
{
    let is_made = come(at, pass, &service());
    let is_given = prepare(at, pass);
    let is_refused = is_refused(at.rt, at.book, root);
    let is_obeyed = obeys(at, pass, root);
    is_made && is_given && is_refused && is_obeyed
}

#[test]
fn a_raise_starts_and_stops_what_has_its_trigger(rt: HostRuntime) -> Result<(), Fail> {
    assert!(rt; is_seen(&rt, rt.alloc(), Sight::Raising));
    Ok(())
}
