ghost use Rattle.std.specs.Prelude.{◌≤◌, ◌++◌, ◌∷◌, []};
ghost use Rattle.trail_export.specs.Exports.{HasExportCause};
ghost use Rattle.trail_export.specs.Gathered.{Gathers, held_size};

use super::fault::ExportFault;
use super::gathering::put;
use outside::{Failed, Sink};

/// Ends a line with its line feed, and writes it by way of the buffer.
pub fn write_line<T: Sink>(
    line: &mut Vec<u8>,
    buffer: &mut Vec<u8>,
    sink: &mut T,
) -> Result<(), ExportFault>
    ensures written { Gathers (T.held sink.old) buffer.old.items
        (T.held sink.new) buffer.new.items result
        (line.old.items ++ 10 ∷ []) }
    ensures longer { held_size (T.held sink.old) ≤ held_size (T.held sink.new) }
    ensures cause { HasExportCause (T.faults sink.old) (T.faults sink.new) result }
{
    if line.push(b'\n').is_err() {
        return Err(ExportFault::OutOfMemory);
    }
    match put(line.as_slice(), buffer, sink) {
        Ok(()) => Ok(()),
        Err(Failed) => Err(ExportFault::WriteFault),
    }
}
