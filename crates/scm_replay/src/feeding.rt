ghost use Rattle.std.specs.Prelude.{◌≡◌, ◌+◌, ◌++◌, ◌≤◌, ◌<◌, ◌^◌, ◌∷◌, [], IfErr, IfNone, IfSome};
ghost use Rattle.std.specs.Prelude.{OnOk, length, slice_index, take};
ghost use Rattle.scm_replay.specs.Along.{FrontFed, LinesFed, HasStopCause, IsFit, Keeps, Lined};
ghost use Rattle.scm_replay.specs.Along.{point, line_stopped};
ghost use Rattle.scm_replay.specs.declared.stop.Stop.TheVariants as stop;
ghost use Rattle.scm_replay.specs.Outcomes.{standing};
ghost use Rattle.scm_replay.specs.Replay.{IsOneLine};

use super::answers::put_answer;
use super::making::outcome_at;
use super::outcome::Outcome;
use super::stop::Stop;
use memchr::memchr;
use outside::{Failed, Sink, write_all};
use scm_core::Manager;
use scm_shapes::Values;
use std::alloc::Global;

/// What was read of the next line, and its number, counted from 1.
#[derive(Drop)]
pub struct Reading {
    pub pending: Vec<u8>,
    pub number: u64,
    /// The values of the body that was read last.
    pub values: Values,
    /// The last answer.
    pub text: Vec<u8>,
}

/// Why writing stopped.
fn stopped(written: Result<(), Failed>) -> Result<(), Stop>
    ensures { result ≡ line_stopped written }
{
    match written {
        Ok(()) => Ok(()),
        Err(Failed) => Err(Stop::WriteFault),
    }
}

/// Answers a line. A bad one is answered too. The answer is put into `text` first.
fn answer<O: Sink>(
    alloc: Global,
    manager: &mut Manager,
    number: u64,
    line: &[u8],
    values: &mut Values,
    text: &mut Vec<u8>,
    output: &mut O,
) -> Result<(), Stop>
    requires { IsFit manager.old 0 1 }
    ensures lined { Lined manager.old.limits number line.now
        (standing manager.old) (standing manager.new)
        (O.held output.old) (O.held output.new) result }
    ensures keeps { Keeps manager.old manager.new 1 }
    ensures cause { HasStopCause (O.faults output.old) (O.faults output.new) result }
{
    let mut outcome = Outcome::Bad;
    let Ok(()) = outcome_at(alloc, manager, line, values, &mut outcome) else {
        return Err(Stop::OutOfMemory);
    };
    let Ok(()) = put_answer(alloc, text, number, &outcome) else {
        return Err(Stop::OutOfMemory);
    };
    stopped(write_all(output, text.as_slice()))?;
    if outcome.goes_on() {
        Ok(())
    } else {
        Err(Stop::BadLine)
    }
}

/// Begins the next line.
fn next_line(reading: &mut Reading)
    requires { reading.old.number < 2 ^ 63 }
    ensures pending { reading.new.pending.items ≡ [] }
    ensures number { reading.new.number ≡ reading.old.number + 1 }
{
    reading.pending.clear();
    reading.number += 1;
}

/// Keeps bytes of the line that is read.
fn hold(reading: &mut Reading, bytes: &[u8]) -> Result<(), Stop>
    ensures ok { OnOk result (reading.new.pending.items ≡ reading.old.pending.items ++ bytes.now) }
    ensures err { IfErr result (λ why. (why ≡ stop.OutOfMemory)
        × (reading.new.pending.items ≡ reading.old.pending.items)) }
    ensures number { reading.new.number ≡ reading.old.number }
{
    match reading.pending.extend_from_slice(bytes) {
        Ok(()) => Ok(()),
        Err(_) => Err(Stop::OutOfMemory),
    }
}

/// Answers the line that was read, and begins the next one.
fn end_line<O: Sink>(
    alloc: Global,
    manager: &mut Manager,
    reading: &mut Reading,
    output: &mut O,
) -> Result<(), Stop>
    requires fit { IsFit manager.old reading.old.number 1 }
    requires clean { IsOneLine reading.old.pending.items }
    ensures fed { LinesFed manager.old.limits (10 ∷ [])
        (point manager.old reading.old (O.held output.old))
        (point manager.new reading.new (O.held output.new))
        result }
    ensures keeps { Keeps manager.old manager.new 1 }
    ensures number { reading.new.number ≤ reading.old.number + 1 }
    ensures cause { HasStopCause (O.faults output.old) (O.faults output.new) result }
{
    match answer(
        alloc,
        manager,
        reading.number,
        reading.pending.as_slice(),
        &mut reading.values,
        &mut reading.text,
        output,
    ) {
        Ok(()) => {
            next_line(reading);
            Ok(())
        }
        Err(stop) => Err(stop),
    }
}

/// The place of the first line feed.
fn first_feed(bytes: &[u8]) -> Option<usize>
    ensures feed { IfSome result (λ place. (slice_index bytes.now place ≡ 10)
        × IsOneLine (take place bytes.now)) }
    ensures none { IfNone result (IsOneLine bytes.now) }
    ensures bound { IfSome result (λ place. place < length bytes.now) }
{
    memchr(b'\n', bytes)
}

/// Takes the bytes up to the first line feed and answers the line that it ends, or keeps them all
/// where there is none. It tells how many it took.
fn take<O: Sink>(
    alloc: Global,
    manager: &mut Manager,
    reading: &mut Reading,
    bytes: &[u8],
    output: &mut O,
) -> Result<usize, Stop>
    requires fit { IsFit manager.old reading.old.number 1 }
    requires clean { IsOneLine reading.old.pending.items }
    requires some { 0 < length bytes.now }
    ensures fed { FrontFed manager.old.limits bytes.now
        (point manager.old reading.old (O.held output.old))
        (point manager.new reading.new (O.held output.new))
        result }
    ensures keeps { Keeps manager.old manager.new 1 }
    ensures number { reading.new.number ≤ reading.old.number + 1 }
    ensures cause { HasStopCause (O.faults output.old) (O.faults output.new) result }
{
    match first_feed(bytes) {
        Some(place) => {
            hold(reading, &bytes[..place])?;
            end_line(alloc, manager, reading, output)?;
            Ok(place + 1)
        }
        None => {
            hold(reading, bytes)?;
            Ok(bytes.len())
        }
    }
}

/// Takes a piece, and answers the lines that end in it.
pub fn feed<O: Sink>(
    alloc: Global,
    manager: &mut Manager,
    reading: &mut Reading,
    piece: &[u8],
    output: &mut O,
) -> Result<(), Stop>
    requires fit { IsFit manager.old reading.old.number (length piece.now) }
    requires clean { IsOneLine reading.old.pending.items }
    ensures fed { LinesFed manager.old.limits piece.now
        (point manager.old reading.old (O.held output.old))
        (point manager.new reading.new (O.held output.new))
        result }
    ensures keeps { Keeps manager.old manager.new (length piece.now) }
    ensures number { reading.new.number ≤ reading.old.number + length piece.now }
    ensures cause { HasStopCause (O.faults output.old) (O.faults output.new) result }
{
    let mut taken = 0;
    while taken < piece.len() {
        match take(alloc, manager, reading, &piece[taken..], output) {
            Ok(more) => taken += more,
            Err(stop) => return Err(stop),
        }
    }
    Ok(())
}
