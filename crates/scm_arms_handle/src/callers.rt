ghost use Rattle.std.specs.Prelude.{◌≡◌, ◌≤◌, ◌<◌, ◌^◌};
ghost use Rattle.scm_model.specs.declared.steps.Answer.TheVariants as answer;
ghost use Rattle.scm_model.specs.Changes.{with_caller};
ghost use Rattle.scm_rules.specs.Steps.{gone};

use scm_model::{Answer, Principal};
use scm_tables::Tables;

/// A caller joins.
pub fn join(tables: &mut Tables, principal: Principal) -> Answer
    requires room { 1 ≤ tables.old.spare.callers }
    requires next { tables.old.flat.next.caller < 2 ^ 63 }
    ensures answer { result ≡ answer.Caller tables.old.flat.next.caller }
    ensures flat { tables.new.flat ≡ with_caller tables.old.flat principal }
    ensures limits { tables.new.limits ≡ tables.old.limits }
{
    Answer::Caller(tables.add_caller(principal))
}

/// A caller leaves, with all that it holds.
pub fn leave(tables: &mut Tables, caller: u64) -> Answer
    ensures answer { result ≡ answer.Done }
    ensures flat { tables.new.flat ≡ gone tables.old.flat caller }
    ensures limits { tables.new.limits ≡ tables.old.limits }
{
    tables.free_lock_of(caller);
    tables.remove_handles_of(caller);
    tables.remove_registrations_of(caller);
    tables.remove_plans_of(caller);
    tables.remove_caller(caller);
    Answer::Done
}
