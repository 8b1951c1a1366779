//! Lines and what answers them. Those that the program's limits allow stand among its rows.
ghost use Rattle.scm_core.specs.Managed.{AreSmall};
ghost use Rattle.scm_replay.specs.Replay.{IsFresh};

use crate::limits::{GREATEST, LIMITS, SIX_STEPS, new_manager};
use outside::{MemorySink, MemorySource};
use scm_core::Manager;
use scm_model::Limits;
use scm_replay::{Replayed, replay};
use std::alloc::{AllocError, Global};
use std::test::Fail;

/// A line, and the line that answers it.
type Row = (&'static str, &'static str);

/// Two callers may be there at once.
const CALLERS: [Row; 6] = [
    ("0 join admin", "caller 1"),
    ("0 join user", "caller 2"),
    ("0 join user", "toomany"),
    ("0 gone 1", "done"),
    ("0 join user", "caller 3"),
    ("0 nomem 3", "done"),
];

/// Only an administrator raises triggers, which no service has here.
const RAISES: [Row; 4] = [
    ("0 join admin", "caller 1"),
    ("0 join user", "caller 2"),
    (
        "0 raise 1 000102030405060708090a0b0c0d0e0f",
        "reply 00000000",
    ),
    (
        "0 raise 2 000102030405060708090a0b0c0d0e0f",
        "reply 05000000",
    ),
];

/// Six steps may be made, and each caller's going is owed from its joining on.
const FULL: [Row; 9] = [
    ("0 join admin", "caller 1"),
    ("0 nomem 1", "done"),
    ("0 nomem 1", "done"),
    ("0 join user", "caller 2"),
    ("0 nomem 2", "full"),
    ("0 take", "empty"),
    ("0 gone 1", "done"),
    ("0 gone 2", "done"),
    ("0 join admin", "full"),
];

/// What is wrong with a line, and the line.
const BAD: [Row; 17] = [
    ("no moment", ""),
    ("a zero before the moment", "00 gone 1"),
    ("a sign", "+0 gone 1"),
    ("two spaces", "0 gone  1"),
    ("a word too many", "0 take 1"),
    ("a word too few", "0 end 1"),
    ("a verb that there is not", "0 rise 1"),
    ("a moment of 65 bits", "18446744073709551616 tick"),
    ("a number of 33 bits", "0 launched 1 4294967296"),
    ("hex in upper case", "0 call 1 15 00000000000000000F000000"),
    (
        "a body that is too short",
        "0 call 1 15 0000000000000000000000",
    ),
    (
        "a subtype that is too short",
        "0 raise 1 000000000000000000000000000000",
    ),
    ("a caller that is not there", "0 gone 2"),
    ("the same", "0 raise 2 00000000000000000000000000000000"),
    ("a plan that is not there", "0 end 1 1"),
    ("a process that was not taken", "0 launched 1 4294967295"),
    ("the same", "0 unlaunched 1 2"),
];

/// How a manager's run over these lines ends, whose answers go into a sink.
pub fn run(
    alloc: Global,
    manager: &mut Manager,
    lines: &str,
    output: &mut MemorySink,
) -> Result<Replayed, AllocError>
    requires { IsFresh manager.old }
{
    let bytes = Vec::from_slice(alloc, lines.as_bytes())?;
    let mut input = MemorySource::new(bytes, Vec::new(alloc));
    let ended = replay(alloc, manager, &mut input, output);
    drop(input);
    Ok(ended)
}

/// Whether a manager's run over these lines ends so with these answers.
fn is_run(
    alloc: Global,
    manager: &mut Manager,
    lines: &str,
    how: Replayed,
    answers: &str,
) -> Result<bool, AllocError>
    requires { IsFresh manager.old }
{
    let mut output = MemorySink::new(alloc, Vec::new(alloc));
    let ended = run(alloc, manager, lines, &mut output);
    let are_so = output.bytes() == answers.as_bytes();
    drop(output);
    Ok(ended? == how && are_so)
}

fn so(is_run: Result<bool, AllocError>) -> Result<(), Fail> {
    match is_run {
        Ok(true) => Ok(()),
        Ok(false) => Err("another end, or other lines".into()),
        Err(_) => Err("no memory".into()),
    }
}

/// Fails unless a new manager's run does so.
fn expect(
    alloc: Global,
    limits: Limits,
    lines: &str,
    how: Replayed,
    answers: &str,
) -> Result<(), Fail>
    requires { AreSmall limits }
{
    match new_manager(alloc, limits) {
        Ok(mut manager) => {
            let ended = is_run(alloc, &mut manager, lines, how, answers);
            manager.close();
            so(ended)
        }
        Err(_) => Err("no memory".into()),
    }
}

/// The lines of the rows, or what answers them.
fn column(alloc: Global, rows: &[Row], answers: bool) -> Result<String, Fail> {
    let mut all = String::new(alloc);
    for (line, answer) in rows {
        all.push_str(if answers { answer } else { line })?;
        all.push_str("\n")?;
    }
    Ok(all)
}

/// Fails unless the lines of the rows are answered so.
fn talks(alloc: Global, limits: Limits, rows: &[Row]) -> Result<(), Fail>
    requires { AreSmall limits }
{
    let lines = column(alloc, rows, false)?;
    let answers = column(alloc, rows, true)?;
    expect(
        alloc,
        limits,
        lines.as_str(),
        Replayed::Ended,
        answers.as_str(),
    )
}

#[test]
fn lines_have_their_answers(rt: HostRuntime) -> Result<(), Fail> {
    talks(rt.alloc(), LIMITS, CALLERS.as_slice())?;
    talks(rt.alloc(), LIMITS, RAISES.as_slice())?;
    talks(rt.alloc(), GREATEST, CALLERS.as_slice())?;
    talks(rt.alloc(), SIX_STEPS, FULL.as_slice())
}

#[test]
fn bad_lines_end_the_run(rt: HostRuntime) -> Result<(), Fail> {
    let alloc = rt.alloc();
    let answers = "caller 1\nbad line 2\n";
    for (_, line) in BAD {
        let lines = format!(in alloc; "0 join admin\n{line}\n0 gone 1\n")?;
        expect(alloc, LIMITS, lines.as_str(), Replayed::BadLine, answers)?;
    }
    Ok(())
}
