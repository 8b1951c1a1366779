ghost use Rattle.std.specs.Prelude.{◌≡◌, ◌+◌, ◌<◌, ◌^◌, AllPairs, IfOk, IsTrue, OnErr, OnOk, Some};
ghost use Rattle.dependency_index.specs.Indexed.{as_spare};
ghost use Rattle.dependency_index.specs.Needs.{new_need_row};
ghost use Rattle.record_table.specs.Recorded.{spare_of as texts_of};
ghost use Rattle.scm_model.specs.Needs.{needs_of, with_row};
ghost use Rattle.scm_model.specs.Walks.{IsAcyclic};
ghost use Rattle.scm_rules.specs.Needs.{need_row_of, need_rows};
ghost use Rattle.scm_tables.specs.Needing.{changed_needs};

use dependency_index::{DependencyIndex, Graph, NewRow, closes_cycle, has_cycle};
use record_table::RecordTable;
use scm_model::{Config, Service};
use scm_text::{Buffer, OutOfMemory};
use std::alloc::Global;

/// The row of a service that has this configuration.
pub fn row_of(number: u64, config: &Config) -> NewRow
    ensures { new_need_row result ≡ need_row_of number config.now }
{
    NewRow {
        number,
        name: &config.name,
        group: &config.group,
        needs: config.needs.as_slice(),
    }
}

/// Makes room to search so many services and two more.
pub fn reserve_search(searched: &mut Buffer<u64>, services: usize) -> Result<(), OutOfMemory>
    requires { services < 2 ^ 63 }
    ensures { OnOk result (services + 1 < searched.new.room) }
{
    searched.clear();
    searched.reserve(services + 2)
}

/// The index of the services' needs.
pub fn index_of(alloc: Global, services: &[Service]) -> Result<DependencyIndex, OutOfMemory>
    requires { AllPairs (λ a b. a.number < b.number) services.now }
    ensures { IfOk result (λ index. index.rows ≡ need_rows services.now) }
{
    let mut index = DependencyIndex::new(alloc)?;
    for row in services {
        let config = &row.config;
        index.prepare(alloc, &config.name, &config.group, &config.needs)?;
        index.commit();
        index.set_needs(row.number, &config.name, &config.group, &config.needs);
    }
    Ok(index)
}

/// Makes room for the texts and needs of a service that gets this configuration, in place of what
/// was made for another: in both lists, or in none.
pub fn reserve_both(
    index: &mut DependencyIndex,
    services: &mut RecordTable,
    alloc: Global,
    config: &Config,
) -> Result<(), OutOfMemory>
    ensures needs { index.new.rows ≡ index.old.rows }
    ensures services { services.new.services ≡ services.old.services }
    ensures index { OnOk result (index.new.spare
        ≡ Some (as_spare config.now.name config.now.group config.now.needs)) }
    ensures texts { OnOk result (services.new.spare ≡ Some (texts_of config.now)) }
    ensures err { OnErr result ((index.new.spare ≡ index.old.spare)
        × (services.new.spare ≡ services.old.spare)) }
{
    index.prepare(alloc, &config.name, &config.group, &config.needs)?;
    if services.reserve(config).is_err() {
        index.discard();
        return Err(OutOfMemory);
    }
    index.commit();
    Ok(())
}

/// A service that is there gets the needs of this configuration.
pub fn change_needs(index: &mut DependencyIndex, number: u64, config: &Config)
    requires { index.old.spare ≡ Some (as_spare config.now.name config.now.group config.now.needs) }
    ensures { index.new.rows ≡ changed_needs index.old.rows number config.now }
{
    if index.is_listed(number) {
        index.set_needs(number, &config.name, &config.group, &config.needs);
    }
}

/// Whether the needs are seen to have no cycle. They aren't looked through where the list has no
/// room.
pub fn is_acyclic(index: &DependencyIndex, searched: &mut Buffer<u64>) -> bool
    ensures { IsTrue result → IsAcyclic (needs_of index.now.rows) }
{
    searched.clear();
    if searched.room() < index.len() {
        return false;
    }
    !has_cycle(&Graph::of(index), searched)
}

/// Whether needs that are known to have no cycle are seen to have none with this configuration.
/// They aren't looked through where the list has no room.
pub fn stays_acyclic(
    index: &DependencyIndex,
    acyclic: bool,
    number: u64,
    config: &Config,
    searched: &mut Buffer<u64>,
) -> bool
    requires { IsTrue acyclic → IsAcyclic (needs_of index.now.rows) }
    ensures before { IsTrue result → IsTrue acyclic }
    ensures after { IsTrue result → IsAcyclic (needs_of
        (with_row index.now.rows (need_row_of number config.now))) }
{
    searched.clear();
    if !acyclic || searched.room() <= index.len() {
        return false;
    }
    !closes_cycle(index, row_of(number, config), searched)
}
