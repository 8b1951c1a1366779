ghost use Rattle.std.specs.Prelude.{◌≡◌, ◌<◌, ◌≤◌, ◌==◌, ◌&&◌, find, option_copied, All, AllPairs};
ghost use Rattle.std.specs.Prelude.{Some};
ghost use Rattle.scm_model.specs.Processes.{is_by};
ghost use Rattle.start_plan.specs.Hosts.{host, host_at, is_sharing};
ghost use Rattle.scm_tables.specs.Listed.{process_shown, processes_in};
ghost use Rattle.scm_tables.specs.Offering.{earlier, lives_in, offers_among, shares_in};
ghost use Rattle.scm_tables.specs.Offering.{shares_path};

use super::process_rows::ProcessRow;
use super::tables::Tables;
use number_pairs::Pair;
use record_table::RecordTable;
use scm_model::Service;
use scm_model::codes::SERVICE_WIN32_SHARE_PROCESS;
use scm_text::WText;

/// Whether a service shares its process with others of its path.
pub fn is_sharing(row: &Service) -> bool
    ensures { result ≡ is_sharing row.now }
{
    row.config.kind == SERVICE_WIN32_SHARE_PROCESS
}

/// Whether a service shares its process with those of a path.
fn shares_path(row: &Service, path: &WText) -> bool
    ensures { result ≡ shares_path path.now row.now }
{
    is_sharing(row) && row.config.path.units() == path.units()
}

/// Whether the service with a number shares its process with those of a path.
fn shares_at(rows: &RecordTable, number: u64, path: &WText) -> bool
    ensures { result ≡ shares_in path.now (find (λ row. row.number == number) rows.now.services) }
{
    match rows.get(number) {
        Some(row) => shares_path(row, path),
        None => false,
    }
}

/// The first of some pairs whose service shares its process with those of a path.
fn first_sharing_of<'a>(rows: &RecordTable, pairs: &'a [Pair], path: &WText) -> Option<&'a Pair>
    ensures { option_copied result ≡ find (λ pair. shares_in path.now
        (find (λ row. row.number == pair.number) rows.now.services)) pairs.now }
{
    pairs.iter().find(|pair| shares_at(rows, pair.number, path))
}

/// The first service whose current process this is and that shares it with those of a path.
fn first_sharing_in<'a>(rows: &'a RecordTable, process: u64, path: &WText) -> Option<&'a Service>
    requires { AllPairs (λ a b. a.number < b.number) rows.now.services }
    ensures { option_copied result ≡ find (λ row. is_by process row && shares_path path.now row)
        rows.now.services }
{
    let pair = first_sharing_of(rows, rows.of_process(process), path)?;
    rows.get(pair.number)
}

/// The first service that offers a process to others of a path; none where the process isn't
/// shared.
fn first_offered<'a>(
    rows: &'a RecordTable,
    process: &ProcessRow,
    path: &WText,
) -> Option<&'a Service>
    requires { AllPairs (λ a b. a.number < b.number) rows.now.services }
    ensures { option_copied result ≡ find (λ row. lives_in (process_shown process.now) row &&
        shares_path path.now row) rows.now.services }
{
    if process.shared {
        first_sharing_in(rows, process.number, path)
    } else {
        None
    }
}

/// The one of two services that has the lesser number.
fn earlier<'a>(one: Option<&'a Service>, other: Option<&'a Service>) -> Option<&'a Service>
    ensures { option_copied result ≡ earlier (option_copied one.entry) (option_copied other.entry) }
{
    match (one, other) {
        (Some(a), Some(b)) => { if b.number < a.number { other } else { one } }
        (None, _) => other,
        (_, None) => one,
    }
}

/// The first service that offers one of some processes to others of a path.
pub fn first_offering<'a>(
    rows: &'a RecordTable,
    processes: &[ProcessRow],
    path: &WText,
) -> Option<&'a Service>
    requires services { AllPairs (λ a b. a.number < b.number) rows.now.services }
    requires rising { AllPairs (λ a b. a.number < b.number) processes.now }
    requires some { All (λ process. 1 ≤ process.number) processes.now }
    ensures { option_copied result ≡ find (offers_among (processes_in processes.now) path.now)
        rows.now.services }
{
    let mut first = None;
    for process in processes {
        first = earlier(first, first_offered(rows, process, path));
    }
    first
}

impl Tables {
    /// The process that a service enters in place of a new one. A service of another type costs one
    /// comparison; for one of the shared type this looks through the processes, and through the
    /// services of each that is shared.
    pub fn host_of(&self, row: &Service) -> Option<u64>
        ensures { result ≡ host_at self.now.flat (Some row.now) }
    {
        if !is_sharing(row) {
            return None;
        }
        let other = self
            .processes
            .first_offering(&self.services, &row.config.path)?;
        Some(other.process)
    }

    /// The process that the service with a number enters in place of a new one.
    pub fn host(&self, service: u64) -> Option<u64>
        ensures { result ≡ host self.now.flat service }
    {
        self.host_of(self.service(service)?)
    }
}
