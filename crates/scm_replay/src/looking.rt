ghost use Rattle.std.specs.Prelude.{◌≡◌};
ghost use Rattle.scm_replay.specs.Outcomes.{is_awaited, missed_by, missed_control, when};

use super::missed::Missed;
use scm_core::Manager;
use scm_model::Step;

/// Whether a plan is there and undecided.
fn is_awaited(manager: &Manager, plan: u64) -> bool
    ensures { result ≡ is_awaited manager.now.flat plan }
{
    manager.owner_of(plan).is_some() && manager.decided(plan).is_none()
}

/// What is missed, where it is lacking.
fn when(lacking: bool, missed: Missed) -> Option<Missed>
    ensures { result ≡ when lacking missed }
{
    if lacking { Some(missed) } else { None }
}

/// What is missed of what is sent to a process, by how much that is.
fn missed_control(waiting: Option<usize>) -> Option<Missed>
    ensures { result ≡ missed_control waiting }
{
    match waiting {
        Some(most) => when(most == 0, Missed::Empty),
        None => Some(Missed::Over),
    }
}

/// What a step that only looks doesn't find.
pub fn missed_by(manager: &Manager, moment: u64, step: &Step) -> Option<Missed>
    ensures { result ≡ missed_by manager.now.flat moment step.now }
{
    match step {
        Step::EndStart { caller: _, plan } => when(is_awaited(manager, *plan), Missed::Again),
        Step::LaunchTaken => when(!manager.wanted(), Missed::Empty),
        Step::ControlTaken { process } => missed_control(manager.waiting(*process)),
        Step::Tick => when(!manager.due(moment), Missed::Idle),
        _ => None,
    }
}
