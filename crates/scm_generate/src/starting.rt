ghost use Rattle.std.specs.Prelude.{◌≡◌, ◌<◌, ◌≤◌, ◌+◌, ◌^◌, ◌∷◌, [], IfOk, OnOk};
ghost use Rattle.scm_generate.specs.Listed.{asked_start, down, downs, depth_of, run_of, all_runs};
ghost use Rattle.scm_generate.specs.Listed.{told, up, ups};
ghost use Rattle.scm_generate.specs.Progress.{IsOpenTo, Makes};

use super::creating::CALLER;
use super::run::Run;
use scm_model::codes::{
    SERVICE_ACCEPT_STOP, SERVICE_RUNNING, SERVICE_STOPPED, SERVICE_WIN32_OWN_PROCESS,
};
use scm_model::{Kept, Request, Status, Step};
use scm_text::{Items, OutOfMemory};
use std::alloc::Global;

/// How many services are started with the one of this number: it and all that it needs, as many as
/// the number has binary digits.
fn line_of(number: u32) -> u32
    ensures value { result ≡ depth_of number }
    ensures small { result ≤ 32 }
{
    let mut count = 0;
    let mut rest = number;
    while rest > 0 {
        rest /= 2;
        count += 1;
    }
    count
}

/// A status that accepts these controls, without an error.
fn told(state: u32, accepted: u32) -> Status
    ensures { result ≡ told state accepted }
{
    Status {
        kind: SERVICE_WIN32_OWN_PROCESS,
        state,
        accepted,
        win32: 0,
        specific: 0,
        checkpoint: 0,
        hint: 0,
    }
}

/// Launches a process, which then runs.
fn up(run: &mut Run, number: u32) -> Result<(), OutOfMemory>
    requires { IsOpenTo run.old (up number) }
    ensures { OnOk result (Makes run.old (up number) run.new) }
{
    let process = number as u64;
    run.make(Step::LaunchTaken)?;
    run.make(Step::Launched {
        process,
        pid: number,
    })?;
    run.make(Step::Report {
        process,
        service: 0,
        status: told(SERVICE_RUNNING, SERVICE_ACCEPT_STOP),
    })
}

/// Launches so many processes from a first one on.
fn ups(run: &mut Run, first: u32, count: u32) -> Result<(), OutOfMemory>
    requires small { first + count < 2 ^ 32 }
    requires open { IsOpenTo run.old (ups first count) }
    ensures { OnOk result (Makes run.old (ups first count) run.new) }
{
    for before in 0..count {
        match up(run, first + before) {
            Ok(()) => {}
            Err(fault) => return Err(fault),
        }
    }
    Ok(())
}

/// Stops a process, which then ends.
fn down(run: &mut Run, number: u32) -> Result<(), OutOfMemory>
    requires { IsOpenTo run.old (down number) }
    ensures { OnOk result (Makes run.old (down number) run.new) }
{
    let process = number as u64;
    run.make(Step::Report {
        process,
        service: 0,
        status: told(SERVICE_STOPPED, 0),
    })?;
    run.make(Step::Ended { process })
}

/// Ends so many processes from a first one on, the last one first.
fn downs(run: &mut Run, first: u32, count: u32) -> Result<(), OutOfMemory>
    requires small { first + count < 2 ^ 32 }
    requires open { IsOpenTo run.old (downs first count) }
    ensures { OnOk result (Makes run.old (downs first count) run.new) }
{
    let mut left = count;
    while left > 0 {
        left -= 1;
        match down(run, first + left) {
            Ok(()) => {}
            Err(fault) => return Err(fault),
        }
    }
    Ok(())
}

/// Asks for the start of the service with this number.
fn ask(run: &mut Run, alloc: Global, number: u32) -> Result<(), OutOfMemory>
    requires { IsOpenTo run.old (asked_start number ∷ []) }
    ensures { OnOk result (Makes run.old (asked_start number ∷ []) run.new) }
{
    run.make(Step::Call {
        caller: CALLER,
        request: Request::Start {
            handle: number as u64 + 1,
            words: Some(Items::new(alloc)),
        },
        kept: Kept::NotAsked,
    })
}

/// Starts the service with this number and what it needs, and ends their processes, of which the
/// first has the number `process`. Gives the number of the next process.
fn start(
    run: &mut Run,
    alloc: Global,
    number: u32,
    process: u32,
    plan: u64,
) -> Result<u32, OutOfMemory>
    requires small { process + depth_of number < 2 ^ 32 }
    requires open { IsOpenTo run.old (run_of number process plan) }
    ensures made { OnOk result (Makes run.old (run_of number process plan) run.new) }
    ensures next { IfOk result (λ next. next ≡ process + depth_of number) }
{
    let count = line_of(number);
    ask(run, alloc, number)?;
    ups(run, process, count)?;
    run.make(Step::EndStart {
        caller: CALLER,
        plan,
    })?;
    downs(run, process, count)?;
    Ok(process + count)
}

/// Starts and ends the services from the last one to the first.
pub fn start_all(run: &mut Run, alloc: Global, services: u32) -> Result<(), OutOfMemory>
    requires few { services ≤ 512 }
    requires open { IsOpenTo run.old (all_runs services 1 1) }
    ensures { OnOk result (Makes run.old (all_runs services 1 1) run.new) }
{
    let mut process = 1;
    for before in 0..services {
        match start(run, alloc, services - before, process, before as u64 + 1) {
            Ok(next) => process = next,
            Err(fault) => return Err(fault),
        }
    }
    Ok(())
}
