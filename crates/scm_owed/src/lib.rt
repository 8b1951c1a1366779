//! The steps that come to be owed: that the history has room for each of them is a matter of
//! counting.
#![tactic(auto)]

ghost use Rattle.std.specs.Prelude.{[]};
ghost use Rattle.scm_rules.specs.Opening.{IsOpening};
ghost use Rattle.scm_rules.specs.Runs.{EachStep, IsLegal};
ghost use Rattle.scm_runs.specs.Histories.{EachEntry};
ghost use Rattle.scm_owed.specs.Legal.{LawOfLegal, StaysLegal};
ghost use Rattle.scm_rules.specs.Histories.{FitsOwed, Legal};
ghost use Rattle.scm_owed.specs.Paying.{EffectsOwe, FoundRoom, LawOfOwed, SettlingOwesNothing};

use scm_model::{Flat, Limits, Step};
use scm_text::Items;

/// The effect of a step that isn't owed makes less owed than the entries that it may add and leave
/// owed, in any state; in a valid state these are no more than it needs room for.
pub fn effects_owe_less_than_their_need()
    ensures { EffectsOwe }
{}

/// Neither settling nor the purge makes anything owed, in any state.
pub fn settling_makes_nothing_owed()
    ensures { SettlingOwesNothing }
{}

/// The law of owed steps: in each step of a run an owed step lowers what is owed by at least 1, and
/// another raises it by less than its need, a tick and a raise by no more than what they begin.
pub fn law_of_owed_steps(limits: &Limits, steps: &Items<(u64, Step)>, opening: &Flat)
    requires begins { IsOpening limits.now opening.now }
    requires legal { IsLegal limits.now opening.now steps.now }
    ensures { EachStep LawOfOwed limits.now opening.now steps.now }
{}

/// The law of room: where each entry that isn't owed found room, the limit has room for all that is
/// owed in the end: so no owed step ever meets it.
pub fn law_of_room(limits: &Limits, steps: &Items<(u64, Step)>, opening: &Flat)
    requires begins { IsOpening limits.now opening.now }
    requires legal { IsLegal limits.now opening.now steps.now }
    requires room { FoundRoom limits.now opening.now 0 0 steps.now }
    ensures { FitsOwed limits.now opening.now steps.now }
{}

/// The law of legal histories: the empty history is legal exactly where the limit has room for what
/// is owed; one with an entry more exactly where the history is, the entry may be made in its state
/// and the limit has room for both. So each front of a legal history is legal.
pub fn law_of_legal_histories(limits: &Limits, first: &Flat)
    ensures { LawOfLegal limits.now first.now }
{}

/// The law of staying legal: an opening is legal, and a legal history stays legal with an entry
/// more that may be made, and is owed or finds room.
pub fn law_of_staying_legal(limits: &Limits, steps: &Items<(u64, Step)>, opening: &Flat)
    requires begins { IsOpening limits.now opening.now }
    requires legal { Legal limits.now opening.now steps.now }
    ensures nothing { Legal limits.now opening.now [] }
    ensures stays { StaysLegal limits.now opening.now steps.now }
{}

/// The law of found room: a history whose entries may be made is legal where each entry that isn't
/// owed found room.
pub fn law_of_found_room(limits: &Limits, steps: &Items<(u64, Step)>, opening: &Flat)
    requires begins { IsOpening limits.now opening.now }
    requires made { IsLegal limits.now opening.now steps.now }
    requires room { FoundRoom limits.now opening.now 0 0 steps.now }
    ensures { Legal limits.now opening.now steps.now }
{}

/// The law of owed entries: each entry of a legal history, with the states before and after it,
/// lowers what is owed by at least 1 if it is owed, and another raises it by less than its need, a
/// tick and a raise by no more than what they begin.
pub fn law_of_owed_entries(limits: &Limits, steps: &Items<(u64, Step)>, opening: &Flat)
    requires begins { IsOpening limits.now opening.now }
    requires legal { Legal limits.now opening.now steps.now }
    ensures { EachEntry LawOfOwed limits.now opening.now steps.now }
{}
