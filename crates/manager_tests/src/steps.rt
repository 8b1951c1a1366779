ghost use Rattle.std.specs.Prelude.{◌+◌, ◌<◌, ◌^◌, IsTrue};
ghost use Rattle.scm_rules.specs.Steps.{may};
ghost use Rattle.scm_model.specs.Texts.{text_of};
ghost use Rattle.scm_core.specs.Managed.{WasMadeFor};

use crate::limits::{LIMITS, new_manager};
use scm_core::Manager;
use scm_model::{
    Answer, Apart, Kept, NewService, Principal, Reply, Request, Status, Step, zero_status,
};
use scm_text::{Items, OutOfMemory, TextRoom, WText};
use std::alloc::Global;
use std::test::Fail;

/// An event, with the letters of services for their names and paths.
#[derive(Clone, Copy)]
enum Event {
    /// An administrator joins.
    Joins,
    /// A caller opens the manager.
    OpensManager(u64),
    /// A caller creates a service by the first handle, which needs the services of these letters.
    Creates(u8, &'static str),
    /// A caller opens a service by a handle of the manager.
    Opens(u64, u64, u8),
    /// Caller 1 closes a handle.
    Closes(u64),
    Deletes(u64),
    Starts(u64),
    /// Caller 1 sends STOP by a handle.
    Stops(u64),
    Takes,
    Launched(u64),
    Unlaunched(u64),
    /// A process reports a state, in which it accepts STOP.
    Reports(u64, u32),
    TakesControl(u64),
    Ends(u64),
    /// Caller 1 asks what became of its start.
    EndsStart(u64),
    Ticks,
    Goes(u64),
}

/// What an event is answered.
#[derive(Clone, Copy, PartialEq, Eq)]
enum Told {
    Caller(u64),
    /// The code of a reply.
    Code(u32),
    Plan(u64),
    Launch(u64),
    /// A service and a control.
    Control(u64, u32),
    Refused(u32),
    Stale,
    Done,
}

fn letter(alloc: Global, letter: u8) -> Result<WText, OutOfMemory> {
    match WText::from_units(alloc, &[u16::from(letter)]) {
        Ok(text) => Ok(text),
        Err(_) => Err(OutOfMemory),
    }
}

fn append_each(bytes: &mut Items<u8>, letters: &str) -> Result<(), OutOfMemory> {
    for letter in letters.as_bytes() {
        bytes.append(&[*letter, 0, 0, 0])?;
    }
    bytes.append(&[0, 0])
}

/// The services of these letters, as a body has them.
fn needs(alloc: Global, letters: &str) -> Result<Items<u8>, OutOfMemory> {
    let mut bytes = Items::new(alloc);
    match append_each(&mut bytes, letters) {
        Ok(()) => Ok(bytes),
        Err(why) => {
            drop(bytes);
            Err(why)
        }
    }
}

fn creation(alloc: Global, name: u8, needed: &str) -> Result<Request, OutOfMemory> {
    let (Ok(name), Ok(path), Ok(needs)) = (
        letter(alloc, name),
        letter(alloc, name),
        needs(alloc, needed),
    ) else {
        return Err(OutOfMemory);
    };
    let new = NewService {
        handle: 1,
        name,
        display: None,
        access: 0x10030,
        kind: 0x10,
        start: 3,
        error: 1,
        path,
        group: None,
        tag: None,
        needs: Some(needs),
        account: None,
    };
    Ok(Request::Create(Apart::new(alloc, new)?))
}

fn opening(alloc: Global, handle: u64, name: u8) -> Result<Request, OutOfMemory> {
    Ok(Request::OpenService {
        handle,
        name: letter(alloc, name)?,
        access: 0,
    })
}

fn call(caller: u64, request: Request) -> Step {
    Step::Call {
        caller,
        request,
        kept: Kept::NotAsked,
    }
}

fn in_state(state: u32) -> Status {
    Status {
        kind: 0x10,
        state,
        accepted: 1,
        ..zero_status()
    }
}

/// The step of an event that is no call.
fn step_of(event: Event) -> Step {
    match event {
        Event::Joins => Step::Joined {
            principal: Principal::Admin,
        },
        Event::Launched(process) => Step::Launched { process, pid: 7 },
        Event::Unlaunched(process) => Step::LaunchFailed { process, code: 2 },
        Event::Reports(process, state) => Step::Report {
            process,
            service: 0,
            status: in_state(state),
        },
        Event::TakesControl(process) => Step::ControlTaken { process },
        Event::Ends(process) => Step::Ended { process },
        Event::EndsStart(plan) => Step::EndStart { caller: 1, plan },
        Event::Goes(caller) => Step::Gone { caller },
        Event::Ticks => Step::Tick,
        _ => Step::LaunchTaken,
    }
}

/// The step of an event.
fn made(alloc: Global, event: Event) -> Result<Step, OutOfMemory> {
    Ok(match event {
        Event::OpensManager(caller) => call(
            caller,
            Request::OpenManager {
                database: None,
                access: 0xF003F,
            },
        ),
        Event::Creates(name, needed) => call(1, creation(alloc, name, needed)?),
        Event::Opens(caller, handle, name) => call(caller, opening(alloc, handle, name)?),
        Event::Closes(handle) => call(1, Request::Close { handle }),
        Event::Deletes(handle) => call(1, Request::Delete { handle }),
        Event::Starts(handle) => call(
            1,
            Request::Start {
                handle,
                words: Some(Items::new(alloc)),
            },
        ),
        Event::Stops(handle) => call(1, Request::Control { handle, control: 1 }),
        other => step_of(other),
    })
}

fn code_of(reply: &Reply) -> u32 {
    match reply {
        Reply::Code(code)
        | Reply::Handle { code, .. }
        | Reply::State { code, .. }
        | Reply::Made { code, .. }
        | Reply::Tag { code, .. }
        | Reply::Shown { code, .. }
        | Reply::LockState { code, .. }
        | Reply::Name { code, .. }
        | Reply::Listing { code, .. }
        | Reply::Page { code, .. }
        | Reply::Bytes { code, .. }
        | Reply::Notice { code, .. } => *code,
    }
}

fn told_by(answer: &Answer) -> Told {
    match answer {
        Answer::Caller(number) => Told::Caller(*number),
        Answer::Reply(reply) => Told::Code(code_of(reply)),
        Answer::Begun(plan) => Told::Plan(*plan),
        Answer::Launch(process) => Told::Launch(*process),
        Answer::Control(order) => Told::Control(order.service, order.code),
        Answer::Refused(code) => Told::Refused(*code),
        Answer::Stale => Told::Stale,
        Answer::Done => Told::Done,
    }
}

/// Whether the step makes a change. Without memory it makes none.
fn makes_change(manager: &mut Manager, step: &Step) -> bool {
    if manager.reserve_for(step).is_err() {
        return false;
    }
    manager.makes_change(step)
}

/// Makes the room for a step, and says whether it may then be made.
fn is_admitted(manager: &mut Manager, moment: u64, step: &Step) -> bool
    ensures may { IsTrue result → IsTrue (may manager.new.limits manager.new.flat moment step.now) }
    ensures room { IsTrue result → WasMadeFor manager.new.room step.now }
    ensures steps { IsTrue result → manager.new.steps < 2 ^ 50 }
    ensures text { IsTrue result → manager.new.text + text_of step.now < 2 ^ 63 }
{
    if manager.reserve_for(step).is_err() {
        return false;
    }
    manager.admits(moment, step) && manager.fits(step)
}

/// Makes a step, whose change is kept if it makes one, where it may be made.
fn done(manager: &mut Manager, moment: u64, step: Step) -> Result<Told, Fail> {
    let is_kept = makes_change(manager, &step);
    let step = step.with_kept(if is_kept { Kept::Kept } else { Kept::NotAsked });
    if !is_admitted(manager, moment, &step) {
        drop(step);
        return Err("the step may not be made".into());
    }
    let answer = manager.step(moment, step);
    let told = told_by(&answer);
    drop(answer);
    Ok(told)
}

/// Takes the launch that is wanted first, which has the one letter of a service for its path, and
/// no words.
fn take(alloc: Global, manager: &mut Manager, moment: u64) -> Result<Told, Fail> {
    if !manager.fits(&Step::LaunchTaken) {
        return Err("too many steps".into());
    }
    let Ok(mut path) = TextRoom::new(alloc, 2048) else {
        return Err("no memory".into());
    };
    let launch = manager.take_launch(moment, &mut path);
    let told = match &launch {
        Some((process, words)) if path.units().len() == 1 && words.len() == 0 => {
            Ok(Told::Launch(*process))
        }
        _ => Err("another launch".into()),
    };
    drop(launch);
    drop(path);
    told
}

/// What an event is answered at a moment.
fn answered(alloc: Global, manager: &mut Manager, moment: u64, event: Event) -> Result<Told, Fail> {
    match event {
        Event::Takes => take(alloc, manager, moment),
        event => done(manager, moment, made(alloc, event)?),
    }
}

/// An event at a moment, what it is answered, and how many services there are then and run.
type Row = (u64, Event, Told, (u64, u64));

fn run(alloc: Global, manager: &mut Manager, rows: &[Row]) -> Result<(), Fail> {
    for (moment, event, want, counts) in rows {
        let told = answered(alloc, manager, *moment, *event)?;
        if told != *want || (manager.services(), manager.running()) != *counts {
            return Err("another answer".into());
        }
    }
    Ok(())
}

fn expect(alloc: Global, rows: &[Row]) -> Result<(), Fail> {
    match new_manager(alloc, LIMITS) {
        Ok(mut manager) => {
            let told = run(alloc, &mut manager, rows);
            manager.close();
            told
        }
        Err(_) => Err("no memory".into()),
    }
}

/// A deleted service stays while another caller has a handle of it.
const DELETED: [Row; 9] = [
    (0, Event::Joins, Told::Caller(1), (0, 0)),
    (0, Event::OpensManager(1), Told::Code(0), (0, 0)),
    (0, Event::Creates(b'a', ""), Told::Code(0), (1, 0)),
    (0, Event::Joins, Told::Caller(2), (1, 0)),
    (0, Event::OpensManager(2), Told::Code(0), (1, 0)),
    (0, Event::Opens(2, 3, b'a'), Told::Code(0), (1, 0)),
    (0, Event::Deletes(2), Told::Code(0), (1, 0)),
    (0, Event::Closes(2), Told::Code(0), (1, 0)),
    (0, Event::Goes(2), Told::Done, (0, 0)),
];

/// A start fails with what it needs.
const FAILED: [Row; 9] = [
    (0, Event::Joins, Told::Caller(1), (0, 0)),
    (0, Event::OpensManager(1), Told::Code(0), (0, 0)),
    (0, Event::Creates(b'a', ""), Told::Code(0), (1, 0)),
    (0, Event::Creates(b'b', "a"), Told::Code(0), (2, 0)),
    (0, Event::Starts(3), Told::Plan(1), (2, 0)),
    (0, Event::Starts(3), Told::Code(1056), (2, 0)),
    (0, Event::Takes, Told::Launch(1), (2, 0)),
    (0, Event::Unlaunched(1), Told::Done, (2, 0)),
    (0, Event::EndsStart(1), Told::Code(1068), (2, 0)),
];

/// A start is given up after two minutes.
const GIVEN_UP: [Row; 6] = [
    (0, Event::Joins, Told::Caller(1), (0, 0)),
    (0, Event::OpensManager(1), Told::Code(0), (0, 0)),
    (0, Event::Creates(b'a', ""), Told::Code(0), (1, 0)),
    (0, Event::Starts(2), Told::Plan(1), (1, 0)),
    (120_000, Event::Ticks, Told::Done, (1, 0)),
    (120_000, Event::EndsStart(1), Told::Code(1053), (1, 0)),
];

/// A STOP is taken, and a stopping service doesn't run again.
const STOPPED: [Row; 13] = [
    (0, Event::Joins, Told::Caller(1), (0, 0)),
    (0, Event::OpensManager(1), Told::Code(0), (0, 0)),
    (0, Event::Creates(b'a', ""), Told::Code(0), (1, 0)),
    (0, Event::Starts(2), Told::Plan(1), (1, 0)),
    (0, Event::Takes, Told::Launch(1), (1, 0)),
    (0, Event::Launched(1), Told::Done, (1, 0)),
    (0, Event::Reports(1, 4), Told::Done, (1, 1)),
    (0, Event::EndsStart(1), Told::Code(0), (1, 1)),
    (0, Event::Stops(2), Told::Code(0), (1, 1)),
    (0, Event::TakesControl(1), Told::Control(1, 1), (1, 1)),
    (0, Event::Reports(1, 3), Told::Done, (1, 0)),
    (0, Event::Reports(1, 4), Told::Refused(13), (1, 0)),
    (0, Event::Ends(1), Told::Done, (1, 0)),
];

#[test]
fn events_have_their_answers(rt: HostRuntime) -> Result<(), Fail> {
    let rows = [
        DELETED.as_slice(),
        FAILED.as_slice(),
        GIVEN_UP.as_slice(),
        STOPPED.as_slice(),
    ];
    for row in rows {
        expect(rt.alloc(), row)?;
    }
    Ok(())
}
