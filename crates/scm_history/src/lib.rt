//! Which numbers the entries of a history name and make.
#![tactic(auto)]

ghost use Rattle.scm_history.specs.Anew.{EachMakesAnew};
ghost use Rattle.scm_history.specs.Begun.{LawOfBegun};
ghost use Rattle.scm_history.specs.Callers.{CallersStay, IsGoneForGood};
ghost use Rattle.scm_history.specs.Kept.{LawOfKept};
ghost use Rattle.scm_history.specs.Made.{EachStandsBehind};
ghost use Rattle.scm_history.specs.Names.{NamesWhoIsThere};
ghost use Rattle.scm_history.specs.Numbers.{AreMadeOnce};
ghost use Rattle.scm_history.specs.Once.{AllAreGivenOnce, NoneIsGivenAgain};
ghost use Rattle.scm_history.specs.Outcomes.{LawOfOutcomes};
ghost use Rattle.scm_history.specs.Own.{EachBeginsWithJoined};
ghost use Rattle.scm_history.specs.Owned.{LastsOnce, LawOfOwn};
ghost use Rattle.scm_history.specs.Phases.{LawOfPhases};
ghost use Rattle.scm_history.specs.Places.{PlacesStay};
ghost use Rattle.scm_history.specs.Plans.{EachEndsOnce, PlansAreTheirCallers};
ghost use Rattle.scm_history.specs.Processes.{OthersStay};
ghost use Rattle.scm_history.specs.Shapes.{LawOfShapes};
ghost use Rattle.scm_runs.specs.Histories.{EachEntry};
ghost use Rattle.scm_rules.specs.Histories.{Legal};
ghost use Rattle.scm_rules.specs.Opening.{IsOpening};
ghost use Rattle.scm_rules.specs.Runs.{EachStep, IsLegal};

use scm_model::{Flat, Limits, Step};
use scm_text::Items;

/// An entry names only a caller that is in the state before it, and a process that is listed there:
/// with its launch taken if the entry is the outcome of the launch, launched if it is a report or
/// the process's end.
pub fn names_who_is_there(limits: &Limits, steps: &Items<(u64, Step)>, opening: &Flat)
    requires begins { IsOpening limits.now opening.now }
    requires legal { IsLegal limits.now opening.now steps.now }
    ensures { EachStep NamesWhoIsThere limits.now opening.now steps.now }
{}

/// A process that an entry doesn't name, and whose launch it doesn't take, stays as it is: listed
/// with the same service, phase and system's number, or not listed. Controls for it may be added
/// and taken.
pub fn others_stay(limits: &Limits, steps: &Items<(u64, Step)>, opening: &Flat)
    requires begins { IsOpening limits.now opening.now }
    requires legal { IsLegal limits.now opening.now steps.now }
    ensures { EachStep OthersStay limits.now opening.now steps.now }
{}

/// Processes keep their places in the list: after an entry it has those that were listed, in their
/// order, without one whose launch failed or that ended, and then those that are new. A process
/// that the entry doesn't name, and whose launch it doesn't take, is as it was, apart from its
/// controls.
pub fn places_stay(limits: &Limits, steps: &Items<(u64, Step)>, opening: &Flat)
    requires begins { IsOpening limits.now opening.now }
    requires legal { IsLegal limits.now opening.now steps.now }
    ensures { EachStep PlacesStay limits.now opening.now steps.now }
{}

/// No number of a caller, a process or a plan is given twice: the next ones never fall, and each
/// that is new has one that was not given before.
pub fn numbers_are_made_once(limits: &Limits, steps: &Items<(u64, Step)>, opening: &Flat)
    requires begins { IsOpening limits.now opening.now }
    requires legal { IsLegal limits.now opening.now steps.now }
    ensures { EachStep AreMadeOnce limits.now opening.now steps.now }
{}

/// No number is given again, of whatever kind: one that an entry takes away never comes back.
/// After each step the numbers of services, handles, registrations and rows that become due are
/// below the next ones, which never fall, and each row stood before, or has a number that was not
/// given before.
pub fn numbers_are_never_given_again(limits: &Limits, steps: &Items<(u64, Step)>, opening: &Flat)
    requires begins { IsOpening limits.now opening.now }
    requires legal { IsLegal limits.now opening.now steps.now }
    ensures each_step { EachStep AllAreGivenOnce limits.now opening.now steps.now }
    ensures for_good { NoneIsGivenAgain limits.now opening.now steps.now }
{}

/// Each entry that names a caller comes after the Joined that made it, each that names a process
/// after a LaunchTaken that took its launch, and each EndStart after a Call of the same caller that
/// began its plan.
pub fn who_is_not_made_is_not_named(limits: &Limits, steps: &Items<(u64, Step)>, opening: &Flat)
    requires begins { IsOpening limits.now opening.now }
    requires legal { IsLegal limits.now opening.now steps.now }
    ensures { EachStandsBehind limits.now opening.now steps.now }
{}

/// A Joined makes a caller that none before it made, a LaunchTaken takes the launch of a process
/// that none before it took, and a Call whose start waits begins a plan that none before it began.
pub fn nobody_is_made_twice(limits: &Limits, steps: &Items<(u64, Step)>, opening: &Flat)
    requires begins { IsOpening limits.now opening.now }
    requires legal { IsLegal limits.now opening.now steps.now }
    ensures { EachMakesAnew limits.now opening.now steps.now }
{}

/// The entries of a caller are its Joined and then all that name it, in order; no entry names a
/// caller that didn't join.
pub fn its_joined_comes_first(limits: &Limits, steps: &Items<(u64, Step)>, opening: &Flat)
    requires begins { IsOpening limits.now opening.now }
    requires legal { IsLegal limits.now opening.now steps.now }
    ensures { EachBeginsWithJoined limits.now opening.now steps.now }
{}

/// A caller is in the state from its Joined until its Gone, and then never again.
pub fn callers_stay(limits: &Limits, steps: &Items<(u64, Step)>, opening: &Flat)
    requires begins { IsOpening limits.now opening.now }
    requires legal { IsLegal limits.now opening.now steps.now }
    ensures each_step { EachStep CallersStay limits.now opening.now steps.now }
    ensures for_good { IsGoneForGood limits.now opening.now steps.now }
{}

/// A caller's plan stays, with its caller and its target, until its EndStart, which comes once, or
/// its caller's Gone.
pub fn plans_are_their_callers(limits: &Limits, steps: &Items<(u64, Step)>, opening: &Flat)
    requires begins { IsOpening limits.now opening.now }
    requires legal { IsLegal limits.now opening.now steps.now }
    ensures each_step { EachStep PlansAreTheirCallers limits.now opening.now steps.now }
    ensures once { EachEndsOnce steps.now }
{}

/// After a LaunchTaken the launch of its process is taken, after a Launched the process runs and
/// has that number of the system, after a Report it runs as it did, and after a LaunchFailed or an
/// Ended it isn't listed.
pub fn entries_leave_processes_so(limits: &Limits, steps: &Items<(u64, Step)>, opening: &Flat)
    requires begins { IsOpening limits.now opening.now }
    requires legal { Legal limits.now opening.now steps.now }
    ensures { EachEntry LawOfPhases limits.now opening.now steps.now }
{}

/// After a Start that waits its plan is there, of the caller that asked and aimed at the service of
/// its handle; no other step returns a plan.
pub fn a_plan_is_who_began_its(limits: &Limits, steps: &Items<(u64, Step)>, opening: &Flat)
    requires begins { IsOpening limits.now opening.now }
    requires legal { Legal limits.now opening.now steps.now }
    ensures { EachEntry LawOfBegun limits.now opening.now steps.now }
{}

/// Each answer has the shape of its step: a call returns a reply of its request's form, or, if it
/// is a start, its plan; a report and an end are stale exactly if no service has the process.
pub fn answers_have_shapes(limits: &Limits, steps: &Items<(u64, Step)>, opening: &Flat)
    requires begins { IsOpening limits.now opening.now }
    requires legal { Legal limits.now opening.now steps.now }
    ensures { EachEntry LawOfShapes limits.now opening.now steps.now }
{}

/// The law of own entries: one entry more of a history is one more of a caller's or a process's,
/// with what it was told, where it makes or names it, and else changes nothing. From any state.
pub fn law_of_own_entries(limits: &Limits, first: &Flat)
    ensures { LawOfOwn limits.now first.now }
{}

/// After a caller's Gone no entry is that caller's, and after a process's LaunchFailed or Ended
/// none is that process's.
pub fn own_entries_end(limits: &Limits, steps: &Items<(u64, Step)>, opening: &Flat)
    requires begins { IsOpening limits.now opening.now }
    requires legal { Legal limits.now opening.now steps.now }
    ensures { LastsOnce limits.now opening.now steps.now }
{}

/// The law of kept changes: one entry more of a history adds the change that it would make where it
/// tells that it was kept, and else none. From any state.
pub fn law_of_kept_changes(limits: &Limits, first: &Flat)
    ensures { LawOfKept limits.now first.now }
{}

/// The law of outcomes: there is one outcome for each entry of a history, one entry more adds what
/// it did with the change that it makes, and the changes that were kept are those of which an
/// outcome says so. If no entry tells that an append failed, no outcome does. From any state.
pub fn law_of_outcomes(limits: &Limits, first: &Flat)
    ensures { LawOfOutcomes limits.now first.now }
{}
