//! What every run of the service manager keeps: states, starts, services that leave, handles,
//! plans.
#![tactic(auto)]

ghost use Rattle.std.specs.Prelude.{All};
ghost use Rattle.scm_runs.specs.Creation.{LawOfCreation};
ghost use Rattle.scm_runs.specs.Entering.{LawOfEntering};
ghost use Rattle.scm_runs.specs.Handles.{LawOfHandles};
ghost use Rattle.scm_runs.specs.Histories.{LawOfAnswers, LawOfStates};
ghost use Rattle.scm_runs.specs.Leaving.{LawOfLeaving};
ghost use Rattle.scm_runs.specs.Plans.{LawOfPlans};
ghost use Rattle.scm_runs.specs.Sizes.{IsToldWhole};
ghost use Rattle.scm_runs.specs.Starts.{LawOfStarts};
ghost use Rattle.scm_rules.specs.Histories.{state};
ghost use Rattle.scm_rules.specs.Opening.{IsOpening};
ghost use Rattle.scm_rules.specs.Runs.{EachStep, IsLegal};
ghost use Rattle.scm_rules.specs.Valid.{IsValid};

use scm_model::{Flat, Limits, Step};
use scm_text::Items;

/// The law of states: every state that a run ends in is valid, whatever the limits.
pub fn law_of_states(limits: &Limits, steps: &Items<(u64, Step)>, opening: &Flat)
    requires begins { IsOpening limits.now opening.now }
    requires legal { IsLegal limits.now opening.now steps.now }
    ensures { IsValid limits.now (state limits.now opening.now steps.now) }
{}

/// The law of sizes: in every state that a run ends in, the sizes that replies return of
/// configurations and names are those of their texts: no text is so long that a `u32` would not
/// hold its size.
pub fn law_of_sizes(limits: &Limits, steps: &Items<(u64, Step)>, opening: &Flat)
    requires begins { IsOpening limits.now opening.now }
    requires legal { IsLegal limits.now opening.now steps.now }
    ensures { All IsToldWhole (state limits.now opening.now steps.now).services }
{}

/// The law of starts: a service is entered in the step after which it is START_PENDING if it was
/// not before, or had another process, or the step was a report that stopped it. Then all that it
/// needs is up, it is neither marked nor disabled, and the lock is free. The process of every other
/// service is the one that it had before.
pub fn law_of_starts(limits: &Limits, steps: &Items<(u64, Step)>, opening: &Flat)
    requires begins { IsOpening limits.now opening.now }
    requires legal { IsLegal limits.now opening.now steps.now }
    ensures { EachStep (LawOfStarts limits.now) limits.now opening.now steps.now }
{}

/// The law of leaving: in each step those services leave that are marked, STOPPED and named by no
/// handle, and nobody else; none is left then. A creation with code 0 adds the service that was
/// asked for, which was never started, and nothing else adds any.
pub fn law_of_leaving(limits: &Limits, steps: &Items<(u64, Step)>, opening: &Flat)
    requires begins { IsOpening limits.now opening.now }
    requires legal { IsLegal limits.now opening.now steps.now }
    ensures leaving { EachStep (LawOfLeaving limits.now) limits.now opening.now steps.now }
    ensures created { EachStep LawOfCreation limits.now opening.now steps.now }
{}

/// The law of handles: each number of a handle is given once, each mask has only rights of its
/// caller's principal, and a caller that is gone has nothing: where the lock is held then, a handle
/// of another caller holds it.
pub fn law_of_handles(limits: &Limits, steps: &Items<(u64, Step)>, opening: &Flat)
    requires begins { IsOpening limits.now opening.now }
    requires legal { IsLegal limits.now opening.now steps.now }
    ensures { EachStep (LawOfHandles limits.now) limits.now opening.now steps.now }
{}

/// The law of plans: after each step the needs have no cycle, and no plan has tried a service
/// twice; a plan has its caller and its target for good, and what it has tried stays tried. A
/// service is entered only where a plan has tried it that hadn't before, which is undecided or
/// succeeded, so no plan enters a service twice.
pub fn law_of_plans(limits: &Limits, steps: &Items<(u64, Step)>, opening: &Flat)
    requires begins { IsOpening limits.now opening.now }
    requires legal { IsLegal limits.now opening.now steps.now }
    ensures plans { EachStep (LawOfPlans limits.now) limits.now opening.now steps.now }
    ensures entered { EachStep (LawOfEntering limits.now) limits.now opening.now steps.now }
{}

/// The law of histories: the state that a history ends in and the answers to its entries, in terms
/// of the step, from any state: so neither need be opened.
pub fn law_of_histories(limits: &Limits, first: &Flat)
    ensures states { LawOfStates limits.now first.now }
    ensures answers { LawOfAnswers limits.now first.now }
{}
