//! Which events registrations are notified of, and what becomes of them.
#![tactic(auto)]

ghost use Rattle.std.specs.Prelude.{All};
ghost use Rattle.scm_notices.specs.Events.{LawOfEvents};
ghost use Rattle.scm_notices.specs.Notices.{IsInOrder, LawOfNotices};
ghost use Rattle.scm_rules.specs.Histories.{state};
ghost use Rattle.scm_rules.specs.Opening.{IsOpening};
ghost use Rattle.scm_rules.specs.Runs.{EachStep, IsLegal};

use scm_model::{Flat, Limits, Step};
use scm_text::Items;

/// In every state that a run ends in, what a registration was notified of is an event that its mask
/// has: one of the manager if it watches the manager, and else one of a service. Before that and
/// once it was taken it has neither a status nor a name, and once it was taken the registration is
/// notified of nothing.
pub fn registrations_are_in_order(limits: &Limits, steps: &Items<(u64, Step)>, opening: &Flat)
    requires begins { IsOpening limits.now opening.now }
    requires legal { IsLegal limits.now opening.now steps.now }
    ensures { All IsInOrder (state limits.now opening.now steps.now).registrations }
{}

/// The law of notices: a registration that stays is notified of the first event of the step that
/// its mask has, with the status and the name of that event, unless it was notified before; only a
/// GetNotify by its handle takes that result, and then no second one comes. One that is new was
/// asked for by the step, and the state that its service is in counts as the first event. One that
/// leaves was closed by its handle, or its caller is gone; and a call that asks for one and is not
/// refused makes it.
pub fn law_of_notices(limits: &Limits, steps: &Items<(u64, Step)>, opening: &Flat)
    requires begins { IsOpening limits.now opening.now }
    requires legal { IsLegal limits.now opening.now steps.now }
    ensures { EachStep (LawOfNotices limits.now) limits.now opening.now steps.now }
{}

/// The law of events: the events of a step are those of its effect, then those of settling, then
/// those of the purge, and each of the three notifies all registrations that it finds. A service
/// that enters another state or is marked is an event of that service; one that comes or leaves is
/// an event of the manager. So a service that stops and is started again in one step notifies a
/// registration for STOPPED.
pub fn law_of_events(limits: &Limits, steps: &Items<(u64, Step)>, opening: &Flat)
    requires begins { IsOpening limits.now opening.now }
    requires legal { IsLegal limits.now opening.now steps.now }
    ensures { EachStep (LawOfEvents limits.now) limits.now opening.now steps.now }
{}
