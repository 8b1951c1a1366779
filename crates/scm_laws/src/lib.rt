//! The laws of the service manager, over every run, whatever the limits.
#![tactic(auto)]

ghost use Rattle.scm_moves.specs.Controls.{LawOfControls};
ghost use Rattle.scm_moves.specs.Moves.{LawOfMoves};
ghost use Rattle.scm_moves.specs.Stale.{LawOfStale};
ghost use Rattle.scm_replies.specs.Replies.{LawOfReplies};
ghost use Rattle.scm_rules.specs.Opening.{IsOpening};
ghost use Rattle.scm_rules.specs.Runs.{EachStep, IsLegal};
ghost use Rattle.scm_runs.specs.Creation.{LawOfCreation};
ghost use Rattle.scm_runs.specs.Entering.{LawOfEntering};
ghost use Rattle.scm_runs.specs.Handles.{LawOfHandles};
ghost use Rattle.scm_runs.specs.Leaving.{LawOfLeaving};
ghost use Rattle.scm_runs.specs.Plans.{LawOfPlans};
ghost use Rattle.scm_runs.specs.Starts.{LawOfStarts};
ghost use Rattle.scm_secured.specs.Opened.{LawOfSecurity};

use scm_model::{Flat, Limits, Step};
use scm_moves::{law_of_controls, law_of_moves};
use scm_replies::law_of_replies;
use scm_runs::{law_of_handles, law_of_leaving, law_of_plans, law_of_starts};
use scm_secured::law_of_security;
use scm_text::Items;

/// Of moves: a service's state changes only as its current process reports or ends, or as it is
/// started where it is STOPPED; what a process tells that is no service's current one is stale.
pub fn law_1(limits: &Limits, steps: &Items<(u64, Step)>, opening: &Flat)
    requires begins { IsOpening limits.now opening.now }
    requires legal { IsLegal limits.now opening.now steps.now }
    ensures moves { EachStep (LawOfMoves limits.now) limits.now opening.now steps.now }
    ensures stale { EachStep LawOfStale limits.now opening.now steps.now }
{
    law_of_moves(limits, steps, opening)
}

/// Of starts: a service is entered, by a new process or by one of another service, only where all
/// that it needs is up and nothing is in its way.
pub fn law_2(limits: &Limits, steps: &Items<(u64, Step)>, opening: &Flat)
    requires begins { IsOpening limits.now opening.now }
    requires legal { IsLegal limits.now opening.now steps.now }
    ensures { EachStep (LawOfStarts limits.now) limits.now opening.now steps.now }
{
    law_of_starts(limits, steps, opening)
}

/// Of controls: what a Control returns, and which controls wait for a process.
pub fn law_3(limits: &Limits, steps: &Items<(u64, Step)>, opening: &Flat)
    requires begins { IsOpening limits.now opening.now }
    requires legal { IsLegal limits.now opening.now steps.now }
    ensures { EachStep (LawOfControls limits.now) limits.now opening.now steps.now }
{
    law_of_controls(limits, steps, opening)
}

/// Of leaving: which services a step adds, which leave with it, and that all others stay.
pub fn law_4(limits: &Limits, steps: &Items<(u64, Step)>, opening: &Flat)
    requires begins { IsOpening limits.now opening.now }
    requires legal { IsLegal limits.now opening.now steps.now }
    ensures leaving { EachStep (LawOfLeaving limits.now) limits.now opening.now steps.now }
    ensures created { EachStep LawOfCreation limits.now opening.now steps.now }
{
    law_of_leaving(limits, steps, opening)
}

/// Of handles: their numbers and their rights, and that nothing is left of a caller that is gone.
pub fn law_5(limits: &Limits, steps: &Items<(u64, Step)>, opening: &Flat)
    requires begins { IsOpening limits.now opening.now }
    requires legal { IsLegal limits.now opening.now steps.now }
    ensures { EachStep (LawOfHandles limits.now) limits.now opening.now steps.now }
{
    law_of_handles(limits, steps, opening)
}

/// Of replies: the code of each, and that a refused call changes nothing.
pub fn law_6(limits: &Limits, steps: &Items<(u64, Step)>, opening: &Flat)
    requires begins { IsOpening limits.now opening.now }
    requires legal { IsLegal limits.now opening.now steps.now }
    ensures { EachStep (LawOfReplies limits.now) limits.now opening.now steps.now }
{
    law_of_replies(limits, steps, opening)
}

/// Of plans and needs: needs have no cycle, and no plan enters a service twice.
pub fn law_7(limits: &Limits, steps: &Items<(u64, Step)>, opening: &Flat)
    requires begins { IsOpening limits.now opening.now }
    requires legal { IsLegal limits.now opening.now steps.now }
    ensures plans { EachStep (LawOfPlans limits.now) limits.now opening.now steps.now }
    ensures entered { EachStep (LawOfEntering limits.now) limits.now opening.now steps.now }
{
    law_of_plans(limits, steps, opening)
}

/// Of security: each right of a service's handle that is opened is one that the rules grant and
/// that the service's security descriptor allows.
pub fn law_8(limits: &Limits, steps: &Items<(u64, Step)>, opening: &Flat)
    requires begins { IsOpening limits.now opening.now }
    requires legal { IsLegal limits.now opening.now steps.now }
    ensures { EachStep LawOfSecurity limits.now opening.now steps.now }
{
    law_of_security(limits, steps, opening)
}
