ghost use Rattle.std.specs.Prelude.{◌≡◌};
ghost use Rattle.scm_tables.specs.Firing.{commands_in, starts_in};
ghost use Rattle.scm_tables.specs.Places.{still_due};

use due_list::DueList;
use scm_model::{Due, DueKind};
use start_plan::Plans;

/// Drops the deadlines of plans that are decided or gone.
pub fn keep_due(dues: &mut DueList, plans: &Plans)
    ensures { dues.new ≡ still_due plans.now.plans dues.old }
{
    dues.keep_plans(|plan| plans.undecided(plan));
}

/// How many rows are starts.
pub fn starts_in(rows: &[Due]) -> usize
    ensures { result ≡ starts_in rows.now }
{
    rows.iter()
        .filter(|row| matches!(row.kind, DueKind::Start(_)))
        .count()
}

/// How many rows are commands.
pub fn commands_in(rows: &[Due]) -> usize
    ensures { result ≡ commands_in rows.now }
{
    rows.iter()
        .filter(|row| matches!(row.kind, DueKind::Command(_)))
        .count()
}
