ghost use Rattle.std.specs.Prelude.{◌≡◌, ◌≤◌, ◌==◌, None, if◌then◌else◌, length};
ghost use Rattle.feed_loop.specs.declared.fed.ReadEnd.{ReadEnd};
ghost use Rattle.trail_text.specs.Audits.{entries_at};
ghost use Rattle.trail_audit.specs.Along.{at_of, audited_as};
ghost use Rattle.trail_audit.specs.Audited.{IsAuditCaused, IsAudited};

use super::audited::Audited;
use super::auditor::Auditor;
use super::feeding::Reading;
use super::stop::Stop;
use feed_loop::{ReadEnd, feed_all};
use outside::Source;
use std::alloc::Global;

/// How many entries the text has that was read, if it is whole.
fn whole_entries(auditor: &Auditor, reading: &Reading) -> Option<u64>
    ensures { result ≡ (if length reading.now.pending.items == 0 then
        entries_at (at_of auditor.now) else None) }
{
    if reading.pending.is_empty() {
        auditor.entries()
    } else {
        None
    }
}

/// What is said at the end, by how many entries the text has that was read, if it is whole.
fn audited_as(fed: ReadEnd<Stop>, entries: Option<u64>) -> Audited
    ensures { result ≡ audited_as fed entries }
{
    match fed {
        ReadEnd::Ended => match entries {
            Some(entries) => Audited::Legal { entries },
            None => Audited::Truncated,
        },
        ReadEnd::ReadFault => Audited::ReadFault,
        ReadEnd::Worn => Audited::Worn,
        ReadEnd::Stopped(Stop::Wrong(line)) => Audited::NotLegal { line },
        ReadEnd::Stopped(Stop::OutOfMemory) => Audited::OutOfMemory,
    }
}

/// Reads a text, line by line, and says whether it tells a legal history from its opening on.
/// Beside the manager that makes its steps this holds one line, its entry and its answer, and one
/// piece of 4,096 bytes; before the first entry also the opening.
pub fn audit<S: Source>(alloc: Global, source: &mut S) -> Audited
    ensures audited { IsAudited (S.left source.old) (S.left source.new) result }
    ensures grows { S.faults source.old ≤ S.faults source.new }
    ensures cause { IsAuditCaused result (S.faults source.old) (S.faults source.new) }
{
    let Ok(mut auditor) = Auditor::new(alloc) else {
        return Audited::OutOfMemory;
    };
    let mut reading = Reading {
        pending: Vec::new(alloc),
        number: 1,
    };
    let mut read = 0u64;
    let fed = feed_all(&mut reading, &mut auditor, &mut (), source, &mut read);
    let entries = whole_entries(&auditor, &reading);
    drop(reading);
    drop(auditor);
    audited_as(fed, entries)
}
