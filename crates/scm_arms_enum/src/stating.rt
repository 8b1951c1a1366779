ghost use Rattle.std.specs.Prelude.{◌≡◌, ◌++◌, ◌∷◌, map, OnOk, []};
ghost use Rattle.scm_rules.specs.EnumDependents.{are_states, is_in_states};

use scm_model::Service;
use scm_model::codes::{SERVICE_ACTIVE, SERVICE_INACTIVE, SERVICE_STATE_ALL, SERVICE_STOPPED};
use scm_text::OutOfMemory;

/// Whether active services, inactive ones or both are asked for.
pub fn are_states(states: u32) -> bool
    ensures { result ≡ are_states states }
{
    1 <= states && states <= SERVICE_STATE_ALL
}

/// Whether a service is in the states that are asked for.
pub fn is_in_states(states: u32, service: &Service) -> bool
    ensures { result ≡ is_in_states states service.now }
{
    let activity = if service.status.state == SERVICE_STOPPED {
        SERVICE_INACTIVE
    } else {
        SERVICE_ACTIVE
    };
    states & activity != 0
}

/// Appends a service.
pub fn push<'a>(rows: &mut Vec<&'a Service>, row: &'a Service) -> Result<(), OutOfMemory>
    ensures { OnOk result (map (λ s. s.now) rows.new.items ≡ map (λ s. s.now) rows.old.items
        ++ row.now ∷ []) }
{
    match rows.push(row) {
        Ok(()) => Ok(()),
        Err(_) => Err(OutOfMemory),
    }
}
