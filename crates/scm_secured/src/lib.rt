//! What a service's security descriptor leaves of the rights on a handle, over every run of the
//! service manager.
#![tactic(auto)]

ghost use Rattle.scm_rules.specs.Opening.{IsOpening};
ghost use Rattle.scm_rules.specs.Runs.{EachStep, IsLegal};
ghost use Rattle.scm_secured.specs.Opened.{LawOfSecurity};

use scm_model::{Flat, Limits, Step};
use scm_text::Items;

/// The law of security: a service that is opened is the one with the name that was asked for, and
/// each right of the new handle is one that the rules grant the caller and that the service's
/// security descriptor allows it, both in the state before. So a descriptor narrows what the rules
/// grant, and never widens it.
pub fn law_of_security(limits: &Limits, steps: &Items<(u64, Step)>, opening: &Flat)
    requires begins { IsOpening limits.now opening.now }
    requires legal { IsLegal limits.now opening.now steps.now }
    ensures { EachStep LawOfSecurity limits.now opening.now steps.now }
{}
