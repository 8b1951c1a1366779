ghost use Rattle.std.specs.Prelude.{◌≡◌, ◌≤◌, ◌<◌, ◌+◌, ◌^◌, ◌++◌, ◌∷◌, [], AllPairs, IfOk, OnOk};
ghost use Rattle.std.specs.Prelude.{length};
ghost use Rattle.std.specs.List.{AllByRecursion};
ghost use Rattle.scm_rules.specs.Opening.{services_from, starts_from};
ghost use Rattle.scm_tables.specs.Started.{dues_from, moment_of};
ghost use Rattle.start_triggers.specs.Order.{auto_rows};

use due_list::DueList;
use record_table::RecordTable;
use scm_model::{Config, DueKind, Service};
use scm_text::{Items, OutOfMemory, WText};
use start_triggers::{AutoStart, auto_starts};
use std::alloc::Global;

/// A service for each configuration, in order, with numbers from 1 on.
pub fn services_of(alloc: Global, configs: Items<Config>) -> Result<Vec<Service>, OutOfMemory>
    ensures { IfOk result (λ rows. rows.items ≡ services_from 1 configs) }
{
    let mut rows = Vec::new(alloc);
    for config in configs.into_vec() {
        let number = rows.len() as u64 + 1;
        if rows
            .push(Service::never_run(alloc, number, config))
            .is_err()
        {
            return Err(OutOfMemory);
        }
    }
    Ok(rows)
}

/// Appends a service to a table.
fn put_in(table: &mut RecordTable, service: Service) -> Result<(), OutOfMemory>
    requires { AllByRecursion (λ other. other.number < service.number) table.old.services }
    ensures { OnOk result (table.new.services ≡ table.old.services ++ service ∷ []) }
{
    table.reserve(&service.config)?;
    table.insert(service);
    Ok(())
}

/// The table of some services, in order of number.
pub fn table_of(alloc: Global, services: Vec<Service>) -> Result<RecordTable, OutOfMemory>
    requires { AllPairs (λ a b. a.number < b.number) services.items }
    ensures { IfOk result (λ table. table.services ≡ services.items) }
{
    let mut table = RecordTable::new(alloc)?;
    for service in services {
        put_in(&mut table, service)?;
    }
    Ok(table)
}

/// How many milliseconds a delayed start comes after the others.
const DELAY: u64 = 120_000;

/// When a start becomes due by itself.
fn moment_of(start: &AutoStart, moment: u64) -> u64
    ensures { result ≡ moment_of moment start.now }
{
    if start.delayed {
        moment.saturating_add(DELAY)
    } else {
        moment
    }
}

/// The starts that become due by themselves, in order, with numbers from 1 on, and with room for so
/// many rows more.
fn dues_of(
    alloc: Global,
    starts: &[AutoStart],
    more: usize,
    moment: u64,
) -> Result<DueList, OutOfMemory>
    requires { more < 2 ^ 63 }
    ensures rows { IfOk result (λ dues. dues.rows ≡ dues_from 1 moment starts.now) }
    ensures next { IfOk result (λ dues. dues.next ≡ length dues.rows + 1) }
    ensures room { IfOk result (λ dues. length dues.rows + more ≤ dues.capacity) }
{
    let mut dues = DueList::new(alloc);
    dues.reserve(starts.len() + more)?;
    for start in starts {
        let _number = dues.push(moment_of(start, moment), DueKind::Start(start.number));
    }
    Ok(dues)
}

/// The starts that become due when a manager begins: of the services that start automatically,
/// those of the listed groups first. There is room for a row of each service besides.
pub fn automatic_starts(
    alloc: Global,
    services: &[Service],
    groups: &[WText],
    moment: u64,
) -> Result<DueList, OutOfMemory>
    requires { length services.now < 2 ^ 63 }
    ensures rows { IfOk result (λ dues. dues.rows ≡ starts_from 1 moment
        (auto_rows services.now groups.now)) }
    ensures next { IfOk result (λ dues. dues.next ≡ length dues.rows + 1) }
    ensures room { IfOk result (λ dues. length dues.rows + length services.now ≤ dues.capacity) }
{
    let starts = auto_starts(alloc, services, groups)?;
    dues_of(alloc, starts.as_slice(), services.len(), moment)
}
