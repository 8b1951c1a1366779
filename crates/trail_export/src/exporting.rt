ghost use Rattle.std.specs.Prelude.{[], All, OnOk, ◌+◌, ◌<◌, ◌≡◌, ◌≤◌, ◌^◌, length};
ghost use Rattle.outside.specs.Written.{Writes};
ghost use Rattle.scm_model.specs.Entries.{text_in};
ghost use Rattle.scm_rules.specs.Histories.{Legal};
ghost use Rattle.scm_rules.specs.Opening.{CanOpen};
ghost use Rattle.scm_rules.specs.Runs.{IsLegal};
ghost use Rattle.scm_trail.specs.Segments.{IsCoded};
ghost use Rattle.trail_export.specs.Exports.{HasExportCause, IsExportCaused};
ghost use Rattle.trail_export.specs.Gathered.{Gathers, held_size};
ghost use Rattle.trail_export.specs.Readable.{IsFitting};
ghost use Rattle.trail_text.specs.Histories.{AreAuditable, TellsLegal, first_of, told};

use super::beginning::manager_from;
use super::entries::write_entries;
use super::fault::ExportFault;
use super::gathering::{pass_on, reserve_piece};
use super::head::write_head;
use opening_lines::Opening;
use outside::{Failed, Sink};
use scm_core::Manager;
use scm_text::OutOfMemory;
use scm_trail::Trail;
use std::alloc::Global;

/// Lines can say what a history holds: they count in 32 bits. No limits allow a history as much
/// text as that.
fn fits_lines(trail: &Trail) -> Result<(), OutOfMemory>
    ensures { OnOk result (text_in trail.now.entries < 2 ^ 32) }
{
    if trail.text() > u64::from(u32::MAX) {
        return Err(OutOfMemory);
    }
    Ok(())
}

/// Writes a history with a manager that stands where it begins, in the line's room, by way of the
/// buffer.
fn write_told<T: Sink>(
    alloc: Global,
    manager: &mut Manager,
    trail: &Trail,
    opening: &Opening,
    line: &mut Vec<u8>,
    buffer: &mut Vec<u8>,
    sink: &mut T,
) -> Result<(), ExportFault>
    requires flat { manager.old.flat ≡ first_of opening.now }
    requires limits { manager.old.limits ≡ opening.now.limits }
    requires steps { manager.old.steps + length trail.now.entries ≤ 2 ^ 50 }
    requires legal { IsLegal opening.now.limits (first_of opening.now) trail.now.entries }
    ensures written { Gathers (T.held sink.old) buffer.old.items
        (T.held sink.new) buffer.new.items result
        (told opening.now trail.now.entries) }
    ensures longer { held_size (T.held sink.old) ≤ held_size (T.held sink.new) }
    ensures cause { HasExportCause (T.faults sink.old) (T.faults sink.new) result }
    ensures fitting { OnOk result (IsFitting opening.now) }
    ensures coded { OnOk result (All IsCoded trail.now.entries) }
{
    write_head(alloc, opening, line, buffer, sink)?;
    write_entries(alloc, manager, trail, line, buffer, sink)
}

/// The same into a sink, by way of an empty buffer. What is gathered when memory is out is passed
/// on too.
fn write_and_pass<T: Sink>(
    alloc: Global,
    manager: &mut Manager,
    trail: &Trail,
    opening: &Opening,
    line: &mut Vec<u8>,
    buffer: &mut Vec<u8>,
    sink: &mut T,
) -> Result<(), ExportFault>
    requires flat { manager.old.flat ≡ first_of opening.now }
    requires limits { manager.old.limits ≡ opening.now.limits }
    requires steps { manager.old.steps + length trail.now.entries ≤ 2 ^ 50 }
    requires legal { IsLegal opening.now.limits (first_of opening.now) trail.now.entries }
    requires none { buffer.old.items ≡ [] }
    ensures written { Writes (T.held sink.old) (T.held sink.new) result
        (told opening.now trail.now.entries) }
    ensures cause { HasExportCause (T.faults sink.old) (T.faults sink.new) result }
    ensures fitting { OnOk result (IsFitting opening.now) }
    ensures coded { OnOk result (All IsCoded trail.now.entries) }
{
    let written = write_told(alloc, manager, trail, opening, line, buffer, sink);
    if let Err(ExportFault::WriteFault) = written {
        return Err(ExportFault::WriteFault);
    }
    match pass_on(buffer, sink) {
        Ok(()) => written,
        Err(Failed) => Err(ExportFault::WriteFault),
    }
}

/// Writes a history in large pieces, with a manager that stands where it begins.
fn write_gathered<T: Sink>(
    alloc: Global,
    manager: &mut Manager,
    trail: &Trail,
    opening: &Opening,
    line: &mut Vec<u8>,
    sink: &mut T,
) -> Result<(), ExportFault>
    requires flat { manager.old.flat ≡ first_of opening.now }
    requires limits { manager.old.limits ≡ opening.now.limits }
    requires steps { manager.old.steps + length trail.now.entries ≤ 2 ^ 50 }
    requires legal { IsLegal opening.now.limits (first_of opening.now) trail.now.entries }
    ensures written { Writes (T.held sink.old) (T.held sink.new) result
        (told opening.now trail.now.entries) }
    ensures cause { HasExportCause (T.faults sink.old) (T.faults sink.new) result }
    ensures fitting { OnOk result (IsFitting opening.now) }
    ensures coded { OnOk result (All IsCoded trail.now.entries) }
{
    match reserve_piece(alloc) {
        Ok(mut buffer) => {
            let written = write_and_pass(alloc, manager, trail, opening, line, &mut buffer, sink);
            drop(buffer);
            written
        }
        Err(OutOfMemory) => Err(ExportFault::OutOfMemory),
    }
}

/// Writes a legal history as text: the opening, then for each entry its line and that of its
/// answer. Beside a manager that makes the steps anew this holds one line, one entry and the piece
/// of 64 KiB that goes to the sink next. No entry of the history was let go. A history with 4 GB of
/// text or more finds no memory.
pub fn export<T: Sink>(
    alloc: Global,
    trail: &Trail,
    opening: &Opening,
    sink: &mut T,
) -> Result<(), ExportFault>
    requires small { AreAuditable opening.now.limits }
    requires can { CanOpen opening.now.limits opening.now.configs }
    requires whole { trail.now.past ≡ 0 }
    requires legal { Legal opening.now.limits (first_of opening.now) trail.now.entries }
    ensures written { Writes (T.held sink.old) (T.held sink.new) result
        (told opening.now trail.now.entries) }
    // What is written tells that the history is legal, from its opening on.
    ensures legal { OnOk result (TellsLegal opening.now trail.now.entries
        (told opening.now trail.now.entries)) }
    ensures grows { T.faults sink.old ≤ T.faults sink.new }
    ensures cause { IsExportCaused result (T.faults sink.old) (T.faults sink.new) }
{
    fits_lines(trail)?;
    let mut manager = manager_from(alloc, opening)?;
    let mut line = Vec::new(alloc);
    let written = write_gathered(alloc, &mut manager, trail, opening, &mut line, sink);
    drop(line);
    manager.close();
    written
}
