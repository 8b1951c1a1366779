ghost use Rattle.std.specs.Prelude.{◌≡◌, ◌==◌, ◌≤◌, ◌++◌, ◌∷◌, [], Err, IfErr, IfOk, OnOk};
ghost use Rattle.std.specs.Prelude.{filter, not};
ghost use Rattle.std.specs.Io.KnownBytes.{Appends};
ghost use Rattle.demo_service.specs.Doing.{IsFaultCaused, IsOfOutput, ObeysOne, Shares};
ghost use Rattle.demo_service.specs.Doing.{WearsLine, WearsShared, answer_to, is_answered};
ghost use Rattle.demo_service.specs.Doing.{is_running, obeyed, point_at, running_after, shared_at};
ghost use Rattle.demo_service.specs.Doing.{state_of};
ghost use Rattle.demo_service.specs.declared.fault.DemoFault.TheVariants as faults;

use super::fault::DemoFault;
use super::reporting::report_service;
use super::waiting::{WORN, read_line};
use child_link::{LineCutter, read_order_line};
use outside::{Sink, Source};
use scm_model::Order;
use scm_model::codes::{
    SERVICE_CONTROL_INTERROGATE, SERVICE_CONTROL_STOP, SERVICE_RUNNING, SERVICE_STOPPED,
};
use scm_text::OutOfMemory;
use std::alloc::Global;

/// A service that is to start runs.
fn start(running: &mut Vec<u64>, service: u64) -> Result<(), OutOfMemory>
    ensures { OnOk result (running.new.items ≡ running.old.items ++ service ∷ []) }
{
    if running.push(service).is_err() {
        return Err(OutOfMemory);
    }
    Ok(())
}

/// A service that is to stop runs no longer.
fn stop(running: &mut Vec<u64>, service: u64)
    ensures { running.new.items ≡ filter (λ number. not (number == service)) running.old.items }
{
    running.retain(|number| !(*number == service));
}

/// Changes which services run, as an order asks for it.
fn change(running: &mut Vec<u64>, order: &Order) -> Result<(), OutOfMemory>
    ensures { OnOk result (running.new.items ≡ running_after running.old.items order.now) }
{
    match order.code {
        0 => start(running, order.service),
        SERVICE_CONTROL_STOP => {
            stop(running, order.service);
            Ok(())
        }
        _ => Ok(()),
    }
}

/// Whether a service runs.
fn is_running(running: &[u64], service: u64) -> bool
    ensures { result ≡ is_running running.now service }
{
    running.iter().any(|number| *number == service)
}

/// The state of a service.
fn state_of(running: &[u64], service: u64) -> u32
    ensures { result ≡ state_of running.now service }
{
    if is_running(running, service) {
        SERVICE_RUNNING
    } else {
        SERVICE_STOPPED
    }
}

/// Whether an order is answered with the state of its service.
fn is_answered(code: u32) -> bool
    ensures { result ≡ is_answered code }
{
    code == 0 || code == SERVICE_CONTROL_STOP || code == SERVICE_CONTROL_INTERROGATE
}

/// Reports the state of a service after an order for it, where the order is answered.
fn answer<O: Sink>(
    alloc: Global,
    running: &[u64],
    order: &Order,
    output: &mut O,
) -> Result<(), DemoFault>
    ensures told { OnOk result
        (Appends (O.held output.old) (O.held output.new) (answer_to running.now order.now)) }
    ensures cause { IfErr result (IsOfOutput (O.faults output.old) (O.faults output.new)) }
    ensures output { O.faults output.old ≤ O.faults output.new }
{
    if is_answered(order.code) {
        let state = state_of(running, order.service);
        report_service(alloc, order.service, state, output)
    } else {
        Ok(())
    }
}

/// Obeys an order, and passes over a line that is none.
fn obey<O: Sink>(
    alloc: Global,
    running: &mut Vec<u64>,
    order: Option<Order>,
    output: &mut O,
) -> Result<(), DemoFault>
    ensures runs { OnOk result (running.new.items ≡ (obeyed running.old.items order).running) }
    ensures told { OnOk result
        (Appends (O.held output.old) (O.held output.new) (obeyed running.old.items order).told) }
    ensures cause { IfErr result (IsOfOutput (O.faults output.old) (O.faults output.new)) }
    ensures output { O.faults output.old ≤ O.faults output.new }
{
    let Some(order) = order else {
        return Ok(());
    };
    if change(running, &order).is_err() {
        return Err(DemoFault::OutOfMemory);
    }
    answer(alloc, running.as_slice(), &order, output)
}

/// Reads a line, and obeys it. Whether there was one before the input ended.
fn obey_next<I: Source, O: Sink>(
    alloc: Global,
    line: &mut LineCutter,
    running: &mut Vec<u64>,
    input: &mut I,
    output: &mut O,
) -> Result<bool, DemoFault>
    ensures obeys { IfOk result (λ on. ObeysOne
        (shared_at running.old.items (point_at (I.left input.old) (O.held output.old))) on
        (shared_at running.new.items (point_at (I.left input.new) (O.held output.new)))) }
    ensures worn { result ≡ Err faults.Worn → WearsLine (I.left input.old) (I.left input.new)
        × (O.held output.new ≡ O.held output.old) }
    ensures cause { IfErr result (IsFaultCaused (I.faults input.old) (I.faults input.new)
        (O.faults output.old) (O.faults output.new)) }
    ensures input { I.faults input.old ≤ I.faults input.new }
    ensures output { O.faults output.old ≤ O.faults output.new }
{
    line.clear();
    if !read_line(line, input)? {
        return Ok(false);
    }
    obey(alloc, running, read_order_line(line.line()), output)?;
    Ok(true)
}

/// Obeys the orders of a shared process, until the input ends.
pub fn share<I: Source, O: Sink>(
    alloc: Global,
    input: &mut I,
    output: &mut O,
) -> Result<(), DemoFault>
    ensures shares { OnOk result (Shares (point_at (I.left input.old) (O.held output.old))
        (point_at (I.left input.new) (O.held output.new))) }
    ensures worn { result ≡ Err faults.Worn → WearsShared
        (point_at (I.left input.old) (O.held output.old))
        (point_at (I.left input.new) (O.held output.new)) }
    ensures cause { IfErr result (IsFaultCaused (I.faults input.old) (I.faults input.new)
        (O.faults output.old) (O.faults output.new)) }
    ensures input { I.faults input.old ≤ I.faults input.new }
    ensures output { O.faults output.old ≤ O.faults output.new }
{
    let Ok(mut line) = LineCutter::new(alloc) else {
        return Err(DemoFault::OutOfMemory);
    };
    let mut running = Vec::new(alloc);
    for _ in 0..WORN {
        match obey_next(alloc, &mut line, &mut running, input, output) {
            Ok(true) => {}
            Ok(false) => return Ok(()),
            Err(fault) => return Err(fault),
        }
    }
    Err(DemoFault::Worn)
}
