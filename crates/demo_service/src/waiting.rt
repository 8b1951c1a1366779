ghost use Rattle.std.specs.Prelude.{◌≡◌, ◌≤◌, [], Err, IfErr, IfOk, OnOk, length};
ghost use Rattle.std.specs.Io.KnownBytes.{Appends};
ghost use Rattle.demo_service.specs.Doing.{HearsOne, IsFaultCaused, IsOfByte, IsOfInput};
ghost use Rattle.demo_service.specs.Doing.{IsOfOutput};
ghost use Rattle.demo_service.specs.Doing.{ReadsByte, ReadsLine, Waits, WearsLine, WearsOut};
ghost use Rattle.demo_service.specs.Doing.{report_to, waits_on, point_at};
ghost use Rattle.demo_service.specs.declared.fault.DemoFault.TheVariants as faults;

use super::fault::DemoFault;
use super::reporting::report;
use child_link::{LineCutter, read_control_line};
use outside::{Failed, Sink, Source};
use scm_model::codes::{
    SERVICE_CONTROL_CONTINUE, SERVICE_CONTROL_PAUSE, SERVICE_CONTROL_STOP, SERVICE_PAUSED,
    SERVICE_RUNNING,
};
use std::alloc::Global;

/// How many bytes a line may have, and how many lines may be read for one word.
pub const WORN: u64 = 1 << 40;

/// What came of the input.
#[derive(Clone, Copy, Debug, PartialEq, Eq)]
pub enum Came {
    /// A byte of the line.
    Byte,
    /// The line's feed.
    Feed,
    /// The end of the input.
    End,
}

/// Reads a byte of a line.
fn read_byte<I: Source>(line: &mut LineCutter, input: &mut I) -> Result<Came, DemoFault>
    requires { length line.old ≤ 4096 }
    ensures read { IfOk result (ReadsByte (I.left input.old) (I.left input.new) line.old line.new) }
    ensures cause { IfErr result (IsOfByte (I.faults input.old) (I.faults input.new)) }
    ensures input { I.faults input.old ≤ I.faults input.new }
{
    let mut byte = [0u8; 1];
    match input.read(&mut byte) {
        Ok(0) => Ok(Came::End),
        Ok(_) => {
            if line.take(byte[0]) {
                Ok(Came::Feed)
            } else {
                Ok(Came::Byte)
            }
        }
        Err(Failed) => Err(DemoFault::Read),
    }
}

/// Reads a line. Whether there was one before the input ended.
pub fn read_line<I: Source>(line: &mut LineCutter, input: &mut I) -> Result<bool, DemoFault>
    requires { line.old ≡ [] }
    ensures read { IfOk result (ReadsLine (I.left input.old) (I.left input.new) line.new) }
    ensures worn { result ≡ Err faults.Worn → WearsLine (I.left input.old) (I.left input.new) }
    ensures cause { IfErr result (IsOfInput (I.faults input.old) (I.faults input.new)) }
    ensures input { I.faults input.old ≤ I.faults input.new }
{
    for _ in 0..WORN {
        match read_byte(line, input) {
            Ok(Came::Byte) => {}
            Ok(Came::Feed) => return Ok(true),
            Ok(Came::End) => return Ok(false),
            Err(fault) => return Err(fault),
        }
    }
    Err(DemoFault::Worn)
}

/// Answers a control, and a line that is none. Whether to wait on.
fn answer<O: Sink>(alloc: Global, control: Option<u32>, output: &mut O) -> Result<bool, DemoFault>
    ensures on { IfOk result (λ on. on ≡ waits_on control) }
    ensures told { OnOk result
        (Appends (O.held output.old) (O.held output.new) (report_to control)) }
    ensures cause { IfErr result (IsOfOutput (O.faults output.old) (O.faults output.new)) }
    ensures output { O.faults output.old ≤ O.faults output.new }
{
    match control {
        Some(SERVICE_CONTROL_STOP) => Ok(false),
        Some(SERVICE_CONTROL_PAUSE) => {
            report(alloc, SERVICE_PAUSED, output)?;
            Ok(true)
        }
        Some(SERVICE_CONTROL_CONTINUE) => {
            report(alloc, SERVICE_RUNNING, output)?;
            Ok(true)
        }
        _ => Ok(true),
    }
}

/// Reads a line, and answers it. Whether to wait on.
fn answer_next<I: Source, O: Sink>(
    alloc: Global,
    line: &mut LineCutter,
    input: &mut I,
    output: &mut O,
) -> Result<bool, DemoFault>
    ensures hears { IfOk result (λ on. HearsOne (point_at (I.left input.old) (O.held output.old))
        on (point_at (I.left input.new) (O.held output.new))) }
    ensures worn { result ≡ Err faults.Worn → WearsLine (I.left input.old) (I.left input.new)
        × (O.held output.new ≡ O.held output.old) }
    ensures cause { IfErr result (IsFaultCaused (I.faults input.old) (I.faults input.new)
        (O.faults output.old) (O.faults output.new)) }
    ensures input { I.faults input.old ≤ I.faults input.new }
    ensures output { O.faults output.old ≤ O.faults output.new }
{
    line.clear();
    if !read_line(line, input)? {
        return Ok(false);
    }
    answer(alloc, read_control_line(line.line()), output)
}

/// Waits for the control that stops or the end of the input, and answers the controls before.
pub fn wait<I: Source, O: Sink>(
    alloc: Global,
    input: &mut I,
    output: &mut O,
) -> Result<(), DemoFault>
    ensures waits { OnOk result (Waits (point_at (I.left input.old) (O.held output.old))
        (point_at (I.left input.new) (O.held output.new))) }
    ensures worn { result ≡ Err faults.Worn → WearsOut
        (point_at (I.left input.old) (O.held output.old))
        (point_at (I.left input.new) (O.held output.new)) }
    ensures cause { IfErr result (IsFaultCaused (I.faults input.old) (I.faults input.new)
        (O.faults output.old) (O.faults output.new)) }
    ensures input { I.faults input.old ≤ I.faults input.new }
    ensures output { O.faults output.old ≤ O.faults output.new }
{
    let Ok(mut line) = LineCutter::new(alloc) else {
        return Err(DemoFault::OutOfMemory);
    };
    for _ in 0..WORN {
        match answer_next(alloc, &mut line, input, output) {
            Ok(true) => {}
            Ok(false) => return Ok(()),
            Err(fault) => return Err(fault),
        }
    }
    Err(DemoFault::Worn)
}
