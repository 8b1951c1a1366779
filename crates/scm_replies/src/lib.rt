//! What the service manager's calls return, over every run.
#![tactic(auto)]

ghost use Rattle.std.specs.Prelude.{◌<◌, ◌≤◌, ◌^◌};
ghost use Rattle.scm_replies.specs.Replies.{LawOfReplies};
ghost use Rattle.scm_replies.specs.Sizes.{AreSmall, HaveUuids, LawOfNeededSizes};
ghost use Rattle.scm_runs.specs.Histories.{EachEntry};
ghost use Rattle.scm_rules.specs.Histories.{Legal};
ghost use Rattle.scm_rules.specs.Opening.{IsOpening};
ghost use Rattle.scm_rules.specs.Runs.{EachStep, IsLegal};

use scm_model::{Flat, Limits, Step};
use scm_text::Items;

/// The law of replies: in each step the code of a reply is the call's verdict in the state before,
/// or what the start's plan was decided to be; a start that isn't decided yet returns its plan, and
/// no step but a call, a raise and the end of a start has a reply. A call or a raise that is
/// refused changes nothing but the moment. A start that its own settling decides changes nothing
/// but that and the next numbers of plans and of what becomes due, unless it returns 0: then its
/// service was entered into a process that was launched before, and nothing else changes.
pub fn law_of_replies(limits: &Limits, steps: &Items<(u64, Step)>, opening: &Flat)
    requires begins { IsOpening limits.now opening.now }
    requires legal { IsLegal limits.now opening.now steps.now }
    ensures { EachStep (LawOfReplies limits.now) limits.now opening.now steps.now }
{}

/// The law of needed sizes: under a limit of 1,024 services and in a history of less than 2^31
/// entries, whatever its limit of steps, each size that a reply to a call returns is the size of
/// what the call asks for, in bytes or in units of a name, and the resume index of an enumeration
/// is the number of the last service returned. 32 bits hold them all, so none is cut off; the law
/// also bounds the size of each call. What an enumeration leaves is returned up to 262,144 bytes,
/// the range of `pcbBytesNeeded` (MS-SCMR): 1,024 services may leave 1,089,536, 246 never more.
pub fn law_of_needed_sizes(limits: &Limits, steps: &Items<(u64, Step)>, opening: &Flat)
    requires begins { IsOpening limits.now opening.now }
    requires legal { Legal limits.now opening.now steps.now }
    requires small { AreSmall limits.now steps.now }
    requires uuids { HaveUuids opening.now steps.now }
    ensures { EachEntry LawOfNeededSizes limits.now opening.now steps.now }
{}

/// A legal history whose limit of steps is below 2^31 is so short, under a limit of 1,024 services.
pub fn legal_histories_are_small(limits: &Limits, steps: &Items<(u64, Step)>, opening: &Flat)
    requires few { limits.now.services ≤ 1024 }
    requires low { limits.now.steps < 2 ^ 31 }
    requires legal { Legal limits.now opening.now steps.now }
    ensures { AreSmall limits.now steps.now }
{}
