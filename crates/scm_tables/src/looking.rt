ghost use Rattle.std.specs.Prelude.{◌≡◌, ◌==◌, fold, max, option_copied};
ghost use Rattle.std.specs.List.{list_any};
ghost use Rattle.scm_model.specs.Ready.{state_of};
ghost use Rattle.scm_model.specs.Rows.{service_of};
ghost use Rattle.scm_model.specs.declared.codes.TheConstants.{SERVICE_RUNNING};
ghost use Rattle.scm_tables.specs.Tags.{tag_in};

use super::tables::Tables;
use scm_model::Service;
use scm_model::codes::SERVICE_RUNNING;

/// The tag of a service, or 0 where there is none.
fn tag_of(service: Option<&Service>) -> u32
    ensures { result ≡ tag_in (option_copied service.entry) }
{
    match service {
        Some(row) => row.config.tag,
        None => 0,
    }
}

impl Tables {
    /// Whether one of some services is RUNNING.
    pub(crate) fn is_any_running(&self, numbers: &[u64]) -> bool
        ensures { result ≡ list_any (λ number. state_of self.now.flat number == SERVICE_RUNNING)
            numbers.now }
    {
        numbers
            .iter()
            .any(|number| self.state_of(*number) == SERVICE_RUNNING)
    }

    /// The greatest tag of some services, or 0.
    pub(crate) fn greatest_tag(&self, numbers: &[u64]) -> u32
        ensures { result ≡ fold (λ greatest number. max greatest
            (tag_in (service_of self.now.flat number))) 0 numbers.now }
    {
        numbers.iter().fold(0, |greatest, number| {
            greatest.max(tag_of(self.service(*number)))
        })
    }
}
