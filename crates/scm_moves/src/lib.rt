//! Laws of how services move and of the controls that they get, over every run.
#![tactic(auto)]

ghost use Rattle.scm_moves.specs.Controls.{LawOfControls};
ghost use Rattle.scm_moves.specs.Deadlines.{LawOfDeadlines};
ghost use Rattle.scm_moves.specs.Moves.{LawOfMoves};
ghost use Rattle.scm_moves.specs.Stale.{LawOfStale};
ghost use Rattle.scm_moves.specs.Ticks.{LawOfTicks};
ghost use Rattle.scm_rules.specs.Opening.{IsOpening};
ghost use Rattle.scm_rules.specs.Runs.{EachStep, IsLegal};

use scm_model::{Flat, Limits, Step};
use scm_text::Items;

/// The law of moves: in each step a service's status stays as it is but for its type, or its
/// current process reports another one that the table allows from there, or that process ends and
/// the service is STOPPED; then it may be entered if it is STOPPED, by a process that none had
/// before or by the shared process of another service of its path. The answer to a report is that
/// it is stale exactly if it names no service whose current process it is, and to an end exactly if
/// its process is no service's current one, and then the step changes no service; a report that is
/// refused changes none: a process's own with 13, one by a call with any code. A process that
/// ended, or whose launch failed, is no service's current one.
pub fn law_of_moves(limits: &Limits, steps: &Items<(u64, Step)>, opening: &Flat)
    requires begins { IsOpening limits.now opening.now }
    requires legal { IsLegal limits.now opening.now steps.now }
    ensures moves { EachStep (LawOfMoves limits.now) limits.now opening.now steps.now }
    ensures stale { EachStep LawOfStale limits.now opening.now steps.now }
{}

/// The law of controls: a Control returns its verdict on the state before, whatever the moment, and
/// changes no service. At code 0 the control waits after those that waited for the service's
/// process, and at any other nothing more waits. A STOP gets 1051 exactly if no earlier code
/// applies and a service that isn't STOPPED names this one as a need. A raise puts only STOPs after
/// what waits, for the services that have such a trigger. A process is sent first, with code 0,
/// each service that it is to start, and then what waits is taken from the front. A report that
/// stops a service takes its orders away from a process that is shared. A process that ends has
/// none, nor has one that is new, and no other step changes what waits for a process.
pub fn law_of_controls(limits: &Limits, steps: &Items<(u64, Step)>, opening: &Flat)
    requires begins { IsOpening limits.now opening.now }
    requires legal { IsLegal limits.now opening.now steps.now }
    ensures { EachStep (LawOfControls limits.now) limits.now opening.now steps.now }
{}

/// The law of ticks: after a tick nothing is due up to its moment, or up to the moment that the
/// state had reached before. It takes neither an opening nor a legal history.
pub fn law_of_ticks(limits: &Limits, steps: &Items<(u64, Step)>, opening: &Flat)
    ensures { EachStep LawOfTicks limits.now opening.now steps.now }
{}

/// The law of deadlines: a start, which a call or the manager itself began, is decided by the first
/// tick that comes 120 seconds later, at its deadline, or after that, and is never undecided again.
/// The deadline of a start that begins in the last 120 seconds of moments is the last moment.
pub fn law_of_deadlines(limits: &Limits, steps: &Items<(u64, Step)>, opening: &Flat)
    requires begins { IsOpening limits.now opening.now }
    requires legal { IsLegal limits.now opening.now steps.now }
    ensures { LawOfDeadlines limits.now opening.now steps.now }
{}
