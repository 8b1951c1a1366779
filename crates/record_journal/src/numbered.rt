//! The services of a table as the rows of their needs.
ghost use Rattle.std.specs.Prelude.{◌≡◌, ◌<◌, ◌+◌, ◌^◌, ◌==◌, []};
ghost use Rattle.std.specs.Prelude.{find, option_map, option_and_then, slice_get};
ghost use Rattle.std.specs.Prelude.{IfOk, IfSome, OnOk};
ghost use Rattle.dependency_index.specs.Resolved.{IsListOf};
ghost use Rattle.dependency_index.specs.Needs.{number_if_met, new_need_row};
ghost use Rattle.scm_model.specs.Needs.{needs_of, numbers_of, row_needs, with_row};
ghost use Rattle.scm_model.specs.Order.{is_cyclic};
ghost use Rattle.scm_model.specs.Walks.{IsAcyclic};
ghost use Rattle.scm_rules.specs.Needs.{need_row_of, need_rows};
ghost use Rattle.scm_text.specs.Numbers.{has};

use dependency_index::{NeedRows, NewRow, closes_cycle, meets};
use record_table::RecordTable;
use scm_model::{Config, Need};
use scm_text::{Buffer, OutOfMemory};

/// The services of a table as rows of needs. What a need leads to is found by name and by group.
#[derive(Clone, Copy)]
struct Numbered<'a> {
    table: &'a RecordTable,
}

fn number_at(table: &RecordTable, place: usize) -> Option<u64>
    ensures { result ≡ option_map (λ row. row.number)
        (slice_get (need_rows table.now.services) place) }
{
    let row = table.at(place)?;
    Some(row.number)
}

fn met_at(table: &RecordTable, need: &Need, place: usize) -> Option<u64>
    ensures { result ≡ option_and_then (number_if_met need.now)
        (slice_get (need_rows table.now.services) place) }
{
    let row = table.at(place)?;
    if meets(need, &row.config.name, &row.config.group) {
        return Some(row.number);
    }
    None
}

fn is_listed(table: &RecordTable, number: u64) -> bool
    ensures { result ≡ has (numbers_of (need_rows table.now.services)) number }
{
    table.get(number).is_some()
}

fn needs_at(table: &RecordTable, number: u64) -> &[Need]
    ensures { result.now ≡ row_needs
        (find (λ row. row.number == number) (need_rows table.now.services)) }
{
    match table.get(number) {
        Some(row) => row.config.needs.as_slice(),
        None => &[],
    }
}

/// The numbers of the services that a need leads to, where there are services.
fn met<'a>(table: &'a RecordTable, need: &Need) -> Option<&'a [u64]>
    ensures { IfSome result (λ numbers.
        IsListOf (need_rows table.now.services) need.now numbers.now) }
{
    // A table says with its length that its numbers rise.
    if table.len() == 0 {
        return None;
    }
    match need {
        Need::Service(name) => Some(table.named(name)),
        Need::Group(group) => Some(table.members(group)),
    }
}

impl<'a> NeedRows for Numbered<'a> {
    ghost rows = { λ numbered. need_rows numbered.table.now.services };

    #[tactic(auto, using(crate::proofs::Rows::size_is))]
    fn size(&self) -> usize {
        self.table.len()
    }

    fn number_at(&self, place: usize) -> Option<u64> {
        number_at(self.table, place)
    }

    fn met_at(&self, need: &Need, place: usize) -> Option<u64> {
        met_at(self.table, need, place)
    }

    fn is_listed(&self, number: u64) -> bool {
        is_listed(self.table, number)
    }

    fn needs_at(&self, number: u64) -> &[Need] {
        needs_at(self.table, number)
    }

    fn met(&self, need: &Need) -> Option<&[u64]> {
        met(self.table, need)
    }
}

fn row_of(number: u64, config: &Config) -> NewRow
    ensures { new_need_row result ≡ need_row_of number config.now }
{
    NewRow {
        number,
        name: &config.name,
        group: &config.group,
        needs: config.needs.as_slice(),
    }
}

/// Makes room to search so many services and two more.
fn reserve_search(searched: &mut Buffer<u64>, services: usize) -> Result<(), OutOfMemory>
    requires { services < 2 ^ 63 }
    ensures empty { searched.new.items ≡ [] }
    ensures room { OnOk result (services + 1 < searched.new.room) }
{
    searched.clear();
    searched.reserve(services + 2)
}

#[tactic(auto, using(crate::proofs::Rows::size_is))]
/// Whether needs that have no cycle get one with this configuration, in place of the one of the
/// service with the number or as the last. Only what it needs is searched. The list is used as
/// room.
pub fn closes(
    table: &RecordTable,
    number: u64,
    config: &Config,
    searched: &mut Buffer<u64>,
) -> Result<bool, OutOfMemory>
    requires acyclic { IsAcyclic (needs_of (need_rows table.now.services)) }
    ensures { IfOk result (λ cyclic. cyclic ≡ is_cyclic
        (with_row (need_rows table.now.services) (need_row_of number config.now))) }
{
    reserve_search(searched, table.len())?;
    Ok(closes_cycle(&Numbered { table }, row_of(number, config), searched))
}
