//! `scmd audit`, which may not wait: it returns.
ghost use Rattle.std.specs.Prelude.{◌≡◌, ◌≤◌, IfOk};
ghost use Rattle.scm_summary.specs.Lines.{numbered};
ghost use Rattle.scmd_top.specs.Auditing.{HasAllAudited, HasAudited, HasVerdict, IsPrinted};
ghost use Rattle.scmd_top.specs.Sides.{LeavesPorts, side, sides_of};

use crate::world::JobWorld;
use outside::{Clock, Failed, Sink, Source, write_all};
use process_runner::Spawner;
use record_journal::Keeper;
use scm_listener::Listener;
use scm_summary::add_numbered;
use scm_text::{Items, OutOfMemory};
use std::alloc::Global;
use trail_audit::{Audited, audit};

/// A line of a word and a number.
fn numbered(alloc: Global, word: &str, number: u64) -> Result<Items<u8>, OutOfMemory>
    ensures { IfOk result (λ text. text ≡ numbered word.now number) }
{
    let mut text = Items::new(alloc);
    match add_numbered(&mut text, word, number) {
        Ok(()) => Ok(text),
        Err(fault) => {
            drop(text);
            Err(fault)
        }
    }
}

/// Prints a line of a word and a number, and gives this status of the program, 2 where the output
/// failed, or 8 where there was no memory for the line.
fn print_numbered<O: Sink>(alloc: Global, word: &str, number: u64, status: u8, output: &mut O) -> u8
    ensures printed { IsPrinted (numbered word.now number) status
        (side O.held O.faults output.old output.new) result }
    ensures output { O.faults output.old ≤ O.faults output.new }
{
    let Ok(text) = numbered(alloc, word, number) else {
        return 8;
    };
    let how = write_all(output, text.as_slice());
    drop(text);
    match how {
        Ok(()) => status,
        Err(Failed) => 2,
    }
}

/// Prints what an audit says, and gives the status of the program.
fn print_verdict<O: Sink>(alloc: Global, how: Audited, output: &mut O) -> u8
    ensures verdict { HasVerdict how (side O.held O.faults output.old output.new) result }
    ensures output { O.faults output.old ≤ O.faults output.new }
{
    match how {
        Audited::Legal { entries } => print_numbered(alloc, "legal ", entries, 0, output),
        Audited::NotLegal { line } => print_numbered(alloc, "line ", line, 14, output),
        Audited::ReadFault => 1,
        Audited::Truncated => 6,
        Audited::OutOfMemory => 8,
        Audited::Worn => 12,
    }
}

/// Reads a history from the input, prints whether it is legal, and gives the status of the program.
pub fn audit_main<I: Source, O: Sink, K: Keeper, N: Listener, P: Spawner, C: Clock>(
    alloc: Global,
    world: JobWorld<I, O, K, N, P, C>,
) -> (u8, JobWorld<I, O, K, N, P, C>)
    ensures keeper { result.1.keeper ≡ world.keeper }
    ensures clock { result.1.clock ≡ world.clock }
    ensures ports { LeavesPorts world result.1 }
    ensures input { I.faults world.input ≤ I.faults result.1.input }
    ensures output { O.faults world.output ≤ O.faults result.1.output }
    // What was read and printed, and why the run ended.
    ensures run { HasAudited
        (sides_of I.left I.faults O.held O.faults K.held K.faults world result.1) result.0 }
    // Nothing else ends a run without faults.
    ensures complete { HasAllAudited
        (sides_of I.left I.faults O.held O.faults K.held K.faults world result.1) result.0 }
{
    let mut world = world;
    let how = audit(alloc, &mut world.input);
    let status = print_verdict(alloc, how, &mut world.output);
    (status, world)
}
