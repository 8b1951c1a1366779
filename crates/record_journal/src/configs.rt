//! The configurations of a journal while its changes are replayed.
ghost use Rattle.std.specs.Prelude.{◌≡◌, ◌<◌, ◌-◌, ◌++◌, ◌∷◌, [], not, filter, find, length, map};
ghost use Rattle.std.specs.Prelude.{is_some, option_copied, option_to_list};
ghost use Rattle.std.specs.Prelude.{IfNone, IfOk, OnErr, OnOk};
ghost use Rattle.std.specs.List.{AllByRecursion, list_any};
ghost use Rattle.scm_text.specs.Fold.{same_text};
ghost use Rattle.scm_model.specs.declared.steps.Change.TheVariants.{Created, Changed};
ghost use Rattle.row_slab.specs.Rowed.{AreRisingBy};
ghost use Rattle.record_table.specs.Recorded.{first_with, is_displayed, is_named, number_of};
ghost use Rattle.record_table.specs.Recorded.{reserved};
ghost use Rattle.record_journal.specs.Entries.{can_replay, has_name, is_fit, shows_as};
ghost use Rattle.record_journal.specs.Opening.{CanBegin};
ghost use Rattle.record_journal.specs.Replay.{after_change, replaced_by};
ghost use Rattle.record_journal.specs.Services.{configs_of};

use crate::numbered::closes;
use record_table::RecordTable;
use scm_model::{Change, Config, Service};
use scm_text::{Buffer, Items, OutOfMemory, WText, same};
use service_record::check_new;
use std::alloc::Global;
use std::marker::Model;

/// How many services there may be.
pub const SERVICES: usize = 1024;

/// Configurations in the order in which they were created, each found by its name and its display
/// name. Contracts see them in order.
#[derive(Drop)]
pub struct Configs {
    table: RecordTable,
    alloc: Global,
}

impl Model for Configs {
    ghost use Rattle.std.specs.Prelude.{List};
    ghost use Rattle.scm_model.specs.declared.flat.Config.{Config};
    ghost use Rattle.record_journal.specs.Services.{configs_of};

    ghost Value = { List Config };

    ghost view = { λ configs. configs_of configs.table.services };
}

/// How many configurations there are.
fn count(table: &RecordTable) -> usize
    ensures { result ≡ length (configs_of table.now.services) }
{
    table.len()
}

/// The number of the service with a name.
fn number_of(table: &RecordTable, name: &WText) -> Option<u64>
    ensures number { result ≡ first_with (is_named name.now) table.now.services }
    ensures some { is_some result ≡ list_any (has_name name.now) (configs_of table.now.services) }
    ensures rising { AreRisingBy number_of table.now.services }
{
    // A table says with its length that its numbers rise.
    if table.len() == 0 {
        return None;
    }
    table.by_name(name)
}

/// A number above that of each service.
fn next_number(table: &RecordTable) -> Result<u64, OutOfMemory>
    ensures above { IfOk result (λ number.
        AllByRecursion (λ row. row.number < number) table.now.services) }
    ensures rising { AreRisingBy number_of table.now.services }
{
    match table.at(table.len().saturating_sub(1)) {
        Some(last) => match last.number.checked_add(1) {
            Some(number) => Ok(number),
            None => Err(OutOfMemory),
        },
        None => Ok(1),
    }
}

/// The service with a display name.
fn displayed<'a>(table: &'a RecordTable, display: &WText) -> Option<&'a Service>
    ensures { option_copied result ≡ find (is_displayed display.now) table.now.services }
{
    table.get(table.by_display(display)?)
}

/// Whether another service has the display name of this one.
fn is_shown(table: &RecordTable, config: &Config) -> bool
    requires { CanBegin (configs_of table.now.services) }
    ensures { result ≡ list_any (shows_as config.now) (configs_of table.now.services) }
{
    match displayed(table, &config.display) {
        Some(row) => !same(&row.config.name, &config.name),
        None => false,
    }
}

/// Whether a configuration is accepted, and no other has its display name.
fn is_fit(table: &RecordTable, config: &Config) -> bool
    requires { CanBegin (configs_of table.now.services) }
    ensures { result ≡ is_fit (configs_of table.now.services) config.now }
{
    check_new(config, None) == 0 && !is_shown(table, config)
}

/// Whether a service can be created so. The list is used as room.
fn can_create(
    table: &RecordTable,
    config: &Config,
    searched: &mut Buffer<u64>,
) -> Result<bool, OutOfMemory>
    requires { CanBegin (configs_of table.now.services) }
    ensures { IfOk result (λ can.
        can ≡ can_replay (configs_of table.now.services) (Created config.now)) }
{
    if number_of(table, &config.name).is_some() {
        return Ok(false);
    }
    if SERVICES <= count(table) {
        return Ok(false);
    }
    if !is_fit(table, config) {
        return Ok(false);
    }
    let number = next_number(table)?;
    let cyclic = closes(table, number, config, searched)?;
    Ok(!cyclic)
}

/// Whether the service of this name can be configured so. The list is used as room.
fn can_configure(
    table: &RecordTable,
    config: &Config,
    searched: &mut Buffer<u64>,
) -> Result<bool, OutOfMemory>
    requires { CanBegin (configs_of table.now.services) }
    ensures { IfOk result (λ can.
        can ≡ can_replay (configs_of table.now.services) (Changed config.now)) }
{
    let Some(number) = number_of(table, &config.name) else {
        return Ok(false);
    };
    if !is_fit(table, config) {
        return Ok(false);
    }
    let cyclic = closes(table, number, config, searched)?;
    Ok(!cyclic)
}

fn can_replay(
    table: &RecordTable,
    change: &Change,
    searched: &mut Buffer<u64>,
) -> Result<bool, OutOfMemory>
    requires { CanBegin (configs_of table.now.services) }
    ensures { IfOk result (λ can. can ≡ can_replay (configs_of table.now.services) change.now) }
{
    match change {
        Change::Created(config) => can_create(table, config, searched),
        Change::Changed(config) => can_configure(table, config, searched),
        Change::Removed(name) => Ok(number_of(table, name).is_some()),
    }
}

/// Makes room for a service with this configuration, and gives it a number.
fn reserve_number(table: &mut RecordTable, config: &Config) -> Result<u64, OutOfMemory>
    ensures ok { OnOk result (table.new ≡ reserved table.old config.now) }
    ensures err { OnErr result (table.new ≡ table.old) }
    ensures above { IfOk result (λ number.
        AllByRecursion (λ row. row.number < number) table.old.services) }
{
    let number = next_number(table)?;
    table.reserve(config)?;
    Ok(number)
}

fn create(table: &mut RecordTable, alloc: Global, config: Config) -> Result<(), OutOfMemory>
    ensures ok { OnOk result (configs_of table.new.services ≡
        configs_of table.old.services ++ config ∷ []) }
    ensures err { OnErr result (table.new ≡ table.old) }
{
    match reserve_number(table, &config) {
        Ok(number) => {
            table.insert(Service::never_run(alloc, number, config));
            Ok(())
        }
        Err(OutOfMemory) => {
            drop(config);
            Err(OutOfMemory)
        }
    }
}

/// Puts a configuration in place of the one with its name.
fn replace(table: &mut RecordTable, config: Config) -> Result<(), OutOfMemory>
    requires { CanBegin (configs_of table.old.services) }
    ensures ok { OnOk result (configs_of table.new.services ≡
        map (replaced_by config) (configs_of table.old.services)) }
    ensures err { OnErr result (table.new ≡ table.old) }
{
    let Some(number) = number_of(table, &config.name) else {
        drop(config);
        return Ok(());
    };
    match table.reserve(&config) {
        Ok(()) => {
            drop(table.replace(number, config));
            Ok(())
        }
        Err(OutOfMemory) => {
            drop(config);
            Err(OutOfMemory)
        }
    }
}

fn remove(table: &mut RecordTable, name: &WText)
    requires { CanBegin (configs_of table.old.services) }
    ensures { configs_of table.new.services ≡
        filter (λ old. not (same_text old.name name.now)) (configs_of table.old.services) }
{
    if let Some(number) = number_of(table, name) {
        drop(table.remove(number));
    }
}

fn apply(table: &mut RecordTable, alloc: Global, change: Change) -> Result<(), OutOfMemory>
    requires { CanBegin (configs_of table.old.services) }
    ensures ok { OnOk result (configs_of table.new.services ≡
        after_change (configs_of table.old.services) change) }
    ensures err { OnErr result (table.new ≡ table.old) }
{
    match change {
        Change::Created(config) => create(table, alloc, config),
        Change::Changed(config) => replace(table, config),
        Change::Removed(name) => {
            remove(table, &name);
            Ok(())
        }
    }
}

fn config_of(row: Service) -> Config
    ensures { result ≡ row.config }
{
    row.config
}

/// Takes the first configuration out, if there is one.
fn take_first(table: &mut RecordTable) -> Option<Config>
    ensures rest { option_to_list result ++ configs_of table.new.services ≡
        configs_of table.old.services }
    ensures none { IfNone result (configs_of table.old.services ≡ []) }
{
    if table.len() == 0 {
        return None;
    }
    let number = table.at(0)?.number;
    let row = table.remove(number)?;
    Some(config_of(row))
}

/// Moves the first configuration to the end of a list.
fn move_first(table: &mut RecordTable, configs: &mut Vec<Config>) -> Result<(), OutOfMemory>
    ensures moved { OnOk result (configs.new.items ++ configs_of table.new.services ≡
        configs.old.items ++ configs_of table.old.services) }
    ensures fewer { OnOk result (length (configs_of table.new.services) ≡
        length (configs_of table.old.services) - 1) }
{
    let Some(config) = take_first(table) else {
        return Ok(());
    };
    match configs.push(config) {
        Ok(()) => Ok(()),
        Err(_) => Err(OutOfMemory),
    }
}

fn take_all(table: &mut RecordTable, alloc: Global) -> Result<Items<Config>, OutOfMemory>
    ensures { IfOk result (λ configs. configs ≡ configs_of table.old.services) }
{
    let mut configs = Vec::new(alloc);
    for _ in 0..count(table) {
        if move_first(table, &mut configs).is_err() {
            drop(configs);
            return Err(OutOfMemory);
        }
    }
    Ok(Items::from_vec(configs))
}

impl Configs {
    /// No configurations, which take no memory.
    pub fn new(alloc: Global) -> Result<Configs, OutOfMemory>
        ensures { IfOk result (λ configs. configs ≡ []) }
    {
        let table = RecordTable::new(alloc)?;
        Ok(Configs { table, alloc })
    }

    /// Whether a change can be replayed. The list is used as room.
    pub fn can_replay(
        &self,
        change: &Change,
        searched: &mut Buffer<u64>,
    ) -> Result<bool, OutOfMemory>
        requires { CanBegin self.now }
        ensures { IfOk result (λ can. can ≡ can_replay self.now change.now) }
    {
        can_replay(&self.table, change, searched)
    }

    /// Does a change.
    pub fn apply(&mut self, change: Change) -> Result<(), OutOfMemory>
        requires { CanBegin self.old }
        ensures ok { OnOk result (self.new ≡ after_change self.old change) }
        ensures err { OnErr result (self.new ≡ self.old) }
    {
        apply(&mut self.table, self.alloc, change)
    }

    /// Takes the configurations out, in order.
    pub fn take_all(&mut self, alloc: Global) -> Result<Items<Config>, OutOfMemory>
        ensures { IfOk result (λ configs. configs ≡ self.old) }
    {
        take_all(&mut self.table, alloc)
    }
}
