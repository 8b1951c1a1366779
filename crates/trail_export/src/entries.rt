// The entries, each with the line that tells its answer.
ghost use Rattle.std.specs.Prelude.{◌≡◌, ◌+◌, ◌<◌, ◌≤◌, ◌^◌, All, IsTrue, OnOk, length};
ghost use Rattle.scm_rules.specs.Runs.{IsLegal};
ghost use Rattle.scm_rules.specs.Steps.{may};
ghost use Rattle.scm_trail.specs.Segments.{IsCoded};
ghost use Rattle.trail_text.specs.Histories.{answer_line, ended, entry_lines};
ghost use Rattle.trail_export.specs.Exports.{HasExportCause, HasStepped, entry_text};
ghost use Rattle.trail_export.specs.Gathered.{Gathers, held_size};

use super::fault::ExportFault;
use super::writing::write_line;
use outside::Sink;
use scm_core::Manager;
use scm_lines::put_entry;
use scm_model::Step;
use scm_replay::makes_room;
use scm_text::OutOfMemory;
use scm_trail::Trail;
use std::alloc::Global;
use trail_text::answer_entry;

/// Makes the step of an entry where it lies, and puts the line that tells its answer in place of
/// another.
fn make_entry(
    alloc: Global,
    manager: &mut Manager,
    moment: u64,
    step: &mut Step,
    line: &mut Vec<u8>,
) -> Result<(), OutOfMemory>
    requires may { IsTrue (may manager.old.limits manager.old.flat moment step.old) }
    requires steps { manager.old.steps < 2 ^ 50 }
    ensures line { OnOk result (line.new.items
        ≡ answer_line manager.old.limits manager.old.flat (moment, step.old)) }
    ensures stepped { OnOk result (HasStepped manager.old (moment, step.old) manager.new) }
{
    if !makes_room(manager, step) {
        return Err(OutOfMemory);
    }
    answer_entry(alloc, manager, moment, step, line)
}

/// Writes an entry and its answer, in the line's room. The step is used up.
fn write_entry<T: Sink>(
    alloc: Global,
    manager: &mut Manager,
    moment: u64,
    step: &mut Step,
    line: &mut Vec<u8>,
    buffer: &mut Vec<u8>,
    sink: &mut T,
) -> Result<(), ExportFault>
    requires may { IsTrue (may manager.old.limits manager.old.flat moment step.old) }
    requires steps { manager.old.steps < 2 ^ 50 }
    ensures written { Gathers (T.held sink.old) buffer.old.items
        (T.held sink.new) buffer.new.items result
        (entry_text manager.old.limits manager.old.flat (moment, step.old)) }
    ensures stepped { OnOk result (HasStepped manager.old (moment, step.old) manager.new) }
    ensures longer { held_size (T.held sink.old) ≤ held_size (T.held sink.new) }
    ensures cause { HasExportCause (T.faults sink.old) (T.faults sink.new) result }
{
    put_entry(alloc, line, moment, step)?;
    write_line(line, buffer, sink)?;
    make_entry(alloc, manager, moment, step, line)?;
    write_line(line, buffer, sink)
}

/// Writes the entries of a history that a manager can make, each with its answer, in the line's
/// room. The manager then stands after the last one.
pub fn write_entries<T: Sink>(
    alloc: Global,
    manager: &mut Manager,
    trail: &Trail,
    line: &mut Vec<u8>,
    buffer: &mut Vec<u8>,
    sink: &mut T,
) -> Result<(), ExportFault>
    requires legal { IsLegal manager.old.limits manager.old.flat trail.now.entries }
    requires steps { manager.old.steps + length trail.now.entries ≤ 2 ^ 50 }
    ensures written { Gathers (T.held sink.old) buffer.old.items
        (T.held sink.new) buffer.new.items result
        (ended (entry_lines manager.old.limits manager.old.flat trail.now.entries)) }
    ensures longer { held_size (T.held sink.old) ≤ held_size (T.held sink.new) }
    ensures cause { HasExportCause (T.faults sink.old) (T.faults sink.new) result }
    ensures coded { All IsCoded trail.now.entries }
{
    let mut entries = trail.entries();
    while let Some((moment, mut step)) = entries.next()? {
        let written = write_entry(alloc, manager, moment, &mut step, line, buffer, sink);
        drop(step);
        written?;
    }
    Ok(())
}
