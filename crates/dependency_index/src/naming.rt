ghost use Rattle.std.specs.Prelude.{ℕ, ◌≡◌, ◌+◌, ◌-◌, ◌^◌, ◌==◌, Bool, true, false, not, filter};
ghost use Rattle.std.specs.Prelude.{length, min, if◌then◌else◌};
ghost use Rattle.dependency_index.specs.Kept.{name_it};
ghost use Rattle.dependency_index.specs.Naming.{is_for};
ghost use Rattle.scm_model.specs.declared.codes.TheConstants.{SERVICE_STOPPED};

use super::steps::Steps;
use scm_model::Need;
use scm_model::codes::SERVICE_STOPPED;
use scm_text::{WText, same};
use std::sync::ledger::Ledger;

/// What tells the states of services, and counts how often it is asked.
pub trait StateLook {
    ghost state_of: { Self → ℕ → ℕ };

    fn state_of<L: Ledger>(&self, service: u64, steps: &mut Steps<L>) -> u32
        ensures state { result ≡ state_of self.now service }
        ensures steps { steps.new ≡ steps.old + 1 };
}

/// Whether a need names the service of this name.
pub fn is_named(name: &WText, need: &Need) -> bool
    ensures { result ≡ is_for name.now need.now }
{
    match need {
        Need::Service(needed) => same(name, needed),
        Need::Group(_) => false,
    }
}

/// Whether one of some needs names the service of this name.
pub fn name_it(name: &WText, needs: &[Need]) -> bool
    ensures { result ≡ name_it name.now needs.now }
{
    for need in needs {
        if is_named(name, need) {
            return true;
        }
    }
    false
}

/// A count with one more or not, in 32 bits.
fn raised(count: u32, more: bool) -> u32
    ensures { result ≡ min (count + (if more then 1 else 0)) (2 ^ 32 - 1) }
{
    if more { count.saturating_add(1) } else { count }
}

/// How many of some services aren't stopped. Each one's state is looked at once.
pub fn active_among<S: StateLook, L: Ledger>(
    services: &[u64],
    states: &S,
    steps: &mut Steps<L>,
) -> u32
    ensures active { result ≡ min (length (filter (λ service. not
        (S.state_of states.now service == SERVICE_STOPPED)) services.now)) (2 ^ 32 - 1) }
    ensures looks { steps.new ≡ steps.old + length services.now }
{
    let mut count = 0;
    for service in services {
        count = raised(count, states.state_of(*service, steps) != SERVICE_STOPPED);
    }
    count
}
