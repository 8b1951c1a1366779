// A trail that holds the end of a history, whose codes go to a log.
ghost use Rattle.std.specs.Prelude.{◌≡◌, ℕ, false, IfOk, List, OnOk, Option};
ghost use Rattle.std.specs.List.{flat_map};
ghost use Rattle.std.specs.Io.KnownBytes.{Keeps, append_known};
ghost use Rattle.outside.specs.Causes.{HasCause};
ghost use Rattle.scm_model.specs.Entries.{Entry};
ghost use Rattle.step_code.specs.Codes.{code_of};
ghost use Rattle.trail_log.specs.Recording.{IsWithin, LetsFrontGo, Stands};

use crate::recording::{record, record_segment};
use outside::{Failed, Sink};
use scm_trail::Trail;

/// Writes what the log lacks of the first segment, lets that segment go if a later one has the last
/// entry, and says whether it did. If it didn't, the log has the codes of the whole history.
pub fn write_segment<T: Sink>(
    trail: &mut Trail,
    at: &mut usize,
    sink: &mut T,
) -> Result<bool, Failed>
    requires { IsWithin at.old trail.old.parts }
    ensures stands { (was : Option (List ℕ)) (log : List Entry)
        → Stands was log trail.old at.old (T.held sink.old)
        → Stands was log trail.new at.new (T.held sink.new) }
    ensures all { IfOk result (λ more. more ≡ false → (was : Option (List ℕ)) (log : List Entry)
        → Stands was log trail.old at.old (T.held sink.old)
        → Keeps (append_known was (flat_map code_of log)) (T.held sink.new)) }
    ensures goes { LetsFrontGo trail.old trail.new }
    ensures cause { HasCause (T.faults sink.old) (T.faults sink.new) result }
{
    let _before = trail.segments();
    let written = record_segment(trail, at, sink);
    let _after = trail.segments();
    written
}

/// Writes to the log what it lacks, and lets go what it has. At `Ok` it has the codes of the whole
/// history.
pub fn write_log<T: Sink>(trail: &mut Trail, at: &mut usize, sink: &mut T) -> Result<(), Failed>
    requires { IsWithin at.old trail.old.parts }
    ensures stands { (was : Option (List ℕ)) (log : List Entry)
        → Stands was log trail.old at.old (T.held sink.old)
        → Stands was log trail.new at.new (T.held sink.new) }
    ensures all { OnOk result ((was : Option (List ℕ)) (log : List Entry)
        → Stands was log trail.old at.old (T.held sink.old)
        → Keeps (append_known was (flat_map code_of log)) (T.held sink.new)) }
    ensures goes { LetsFrontGo trail.old trail.new }
    ensures cause { HasCause (T.faults sink.old) (T.faults sink.new) result }
{
    let _before = trail.segments();
    let written = record(trail, at, sink);
    let _after = trail.segments();
    written
}
