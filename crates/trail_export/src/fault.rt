ghost use Rattle.std.specs.Prelude.{◌≡◌};
ghost use Rattle.trail_export.specs.declared.fault.ExportFault.TheVariants as faults;

use scm_text::OutOfMemory;

/// Why a history wasn't written to its end.
#[derive(Clone, Copy, PartialEq, Eq)]
pub enum ExportFault {
    /// The sink failed.
    WriteFault,
    /// There was no memory for what comes next.
    OutOfMemory,
}

impl From<OutOfMemory> for ExportFault {
    ghost from_gives = { λ _ e. e ≡ faults.OutOfMemory };

    fn from(_fault: OutOfMemory) -> ExportFault {
        ExportFault::OutOfMemory
    }
}
