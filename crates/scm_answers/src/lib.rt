//! The replies to the service manager's calls answer what was asked, in the sense of the bodies.
#![tactic(auto)]

ghost use Rattle.scm_answers.specs.Answering.{LawOfAnswering, RefusalsAnswer};
ghost use Rattle.scm_runs.specs.Histories.{EachEntry};
ghost use Rattle.scm_rules.specs.Histories.{Legal};
ghost use Rattle.scm_rules.specs.Opening.{IsOpening};

use scm_model::{Flat, Limits, Step};
use scm_text::Items;

/// Every reply of a legal history answers its request: the reply to a call answers this call, and
/// the reply at the end of a start answers the call that started it. The reply to a raise is a
/// code, and no other entry has a reply. A refusal that holds no more than its code, as that of a
/// call that found no memory, answers its request too. So the bytes of a reply are at most
/// `reply_bound` of its request.
pub fn replies_answer_their_requests(limits: &Limits, steps: &Items<(u64, Step)>, opening: &Flat)
    requires begins { IsOpening limits.now opening.now }
    requires legal { Legal limits.now opening.now steps.now }
    ensures each_entry { EachEntry LawOfAnswering limits.now opening.now steps.now }
    ensures refused { RefusalsAnswer }
{}
