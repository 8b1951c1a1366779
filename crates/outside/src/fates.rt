ghost use Rattle.std.specs.Prelude.{◌≡◌, ◌≤◌};
ghost use Rattle.outside.specs.Fates.{fails_next, later, one_more};

use super::Failed;

/// Whether the call is to fail, by the end of what becomes of the calls to come.
pub fn is_to_fail(fails: &mut Vec<bool>) -> bool
    ensures next { result ≡ fails_next fails.old.items }
    ensures later { fails.new.items ≡ later fails.old.items }
{
    fails.pop().unwrap_or(false)
}

/// Counts a fault.
pub fn fail(faults: &mut u64) -> Failed
    ensures counted { faults.new ≡ one_more faults.old }
    ensures grows { faults.old ≤ faults.new }
{
    *faults = faults.saturating_add(1);
    Failed
}
