//! What a server writes at its end: its history, if it is to be exported, and its summary.
ghost use Rattle.std.specs.Prelude.{◌≡◌, ◌≤◌, ◌++◌, IsErrOf, IsSome, OnOk};
ghost use Rattle.outside.specs.Written.{Writes};
ghost use Rattle.trail_export.specs.Exports.{IsExportCaused};
ghost use Rattle.scmd_top.specs.Serving.{CanEnd, CanExport, HasSummary, IsPut, TellsExport};
ghost use Rattle.scmd_top.specs.Serving.{exported};
ghost use Rattle.scmd_top.specs.Sides.{side};

use opening_lines::Opening;
use outside::{Failed, Sink, write_all};
use scm_serving::BookEnd;
use scm_trail::Trail;
use std::alloc::Global;
use trail_export::{ExportFault, export};

/// Writes a history as text, if what its manager began with is known.
fn export_from<O: Sink>(
    alloc: Global,
    opening: &Option<Opening>,
    history: &Trail,
    output: &mut O,
) -> Result<(), ExportFault>
    requires legal { CanExport opening.now history.now }
    ensures written { Writes (O.held output.old) (O.held output.new) result
        (exported opening.now history.now.entries) }
    ensures tells { OnOk result (TellsExport opening.now history.now.entries) }
    ensures grows { O.faults output.old ≤ O.faults output.new }
    ensures cause { IsExportCaused result (O.faults output.old) (O.faults output.new) }
    ensures lacks { IsErrOf result ExportFault.OutOfMemory → IsSome opening.now }
{
    match opening {
        Some(opening) => export(alloc, history, opening, output),
        None => Ok(()),
    }
}

/// Writes a history as text, if what its manager began with is known, and then its summary, and
/// gives the status of the program.
fn put_history<O: Sink>(
    alloc: Global,
    opening: &Option<Opening>,
    history: &Trail,
    summary: &[u8],
    output: &mut O,
) -> u8
    requires legal { CanExport opening.now history.now }
    ensures put { IsPut (exported opening.now history.now.entries ++ summary.now) opening.now
        (side O.held O.faults output.old output.new) result }
    ensures tells { result ≡ 0 → TellsExport opening.now history.now.entries }
    ensures output { O.faults output.old ≤ O.faults output.new }
{
    match export_from(alloc, opening, history, output) {
        Ok(()) => match write_all(output, summary) {
            Ok(()) => 0,
            Err(Failed) => 2,
        },
        Err(ExportFault::WriteFault) => 2,
        Err(ExportFault::OutOfMemory) => 8,
    }
}

/// Writes what a server that ended is to write, and gives the status of the program.
pub fn put_end<O: Sink>(alloc: Global, opening: Option<Opening>, end: BookEnd, output: &mut O) -> u8
    requires legal { CanEnd opening end }
    ensures written { HasSummary opening end
        (side O.held O.faults output.old output.new) result }
    ensures output { O.faults output.old ≤ O.faults output.new }
{
    let status = match end {
        BookEnd::Ended { summary, history } => {
            let status = put_history(alloc, &opening, &history, summary.as_slice(), output);
            drop(history);
            drop(summary);
            status
        }
        BookEnd::OutOfMemory => 8,
        BookEnd::ListenFault => 10,
    };
    drop(opening);
    status
}
