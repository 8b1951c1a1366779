ghost use Rattle.std.specs.Prelude.{◌≡◌, ◌≢◌, ◌+◌, ◌≤◌, ◌<◌, ◌^◌, find, length, map, option_copied};
ghost use Rattle.std.specs.Prelude.{slice_get, is_some, true, Ok, OnOk, OnErr, Some};
ghost use Rattle.std.specs.List.{AllByRecursion};
ghost use Rattle.number_lists.specs.Rising.{AreRising, with_number, without_number};
ghost use Rattle.number_pairs.specs.declared.pairs.Pair.{Pair};
ghost use Rattle.number_pairs.specs.Keyed.{has_pair};
ghost use Rattle.row_slab.specs.Rowed.{AreRisingBy, is_above};
ghost use Rattle.scm_model.specs.Processes.{currents_in, is_by};
ghost use Rattle.scm_model.specs.declared.flat.Service.{Service};
ghost use Rattle.record_table.specs.Kept.{ChangesOf, MovesUnder, idle_at};
ghost use Rattle.record_table.specs.Recorded.{altered, change_at, config_of_number, empty};
ghost use Rattle.record_table.specs.Recorded.{first_with, has_number, inserted};
ghost use Rattle.record_table.specs.Recorded.{is_displayed, is_member, is_named, lived, number_of};
ghost use Rattle.record_table.specs.Recorded.{numbers_with, process_in, removed, replaced};
ghost use Rattle.record_table.specs.Recorded.{reserved, security_of_number, service_at};
ghost use Rattle.record_table.specs.Recorded.{spare_of, unreserved, with_config, with_security};

use super::iter::Services;
use super::live::{Changing, Configured, Live, Secured};
use super::texts::{
    KeptTexts, Spare, enter_texts, exchange_room, forget_room, leave_texts, move_texts,
    reserve_texts,
};
use number_pairs::{NumberPairs, Pair};
use row_slab::{Change, Rows};
use scm_model::{Config, Service, Status};
use scm_text::{Items, OutOfMemory, WText};
use std::alloc::Global;
use std::marker::Model;

/// The services. Contracts see them in order of number, and the texts of the one that there is
/// room for.
#[derive(Drop)]
pub struct RecordTable {
    rows: Rows<Service>,
    texts: KeptTexts,
    processes: NumberPairs,
    spare: Option<Spare>,
    alloc: Global,
}

impl Model for RecordTable {
    ghost use Rattle.record_table.specs.Kept.{IsKept, recorded};
    ghost use Rattle.record_table.specs.Recorded.{Recorded};

    ghost Value = { Recorded };

    ghost view = { recorded };

    ghost invariant = { IsKept };
}

#[tactic(auto, using(crate::proofs::Finding::exchanged))]
/// Gives the service with a number another configuration, and answers the one that it had.
fn exchange(rows: &mut Rows<Service>, number: u64, config: Config) -> Option<Config>
    ensures config { result ≡ config_of_number rows.old.items number }
    ensures items { rows.new.items ≡ change_at number (with_config config) rows.old.items }
    ensures room { rows.new.room ≡ rows.old.room }
{
    let mut parts = Configured { config };
    let is_found = rows.exchange(number, &mut parts);
    let Configured { config } = parts;
    if is_found {
        Some(config)
    } else {
        drop(config);
        None
    }
}

#[tactic(auto, using(crate::proofs::Finding::secured_some, crate::proofs::Finding::secured_none))]
/// Gives the service with a number another security descriptor, and answers the one that it had.
fn exchange_security(
    rows: &mut Rows<Service>,
    number: u64,
    security: Items<u8>,
) -> Option<Items<u8>>
    ensures security { result ≡ security_of_number rows.old.items number }
    ensures items { rows.new.items ≡ change_at number (with_security security) rows.old.items }
    ensures room { rows.new.room ≡ rows.old.room }
{
    let mut parts = Secured { security };
    let is_found = rows.exchange(number, &mut parts);
    let Secured { security } = parts;
    if is_found {
        Some(security)
    } else {
        drop(security);
        None
    }
}

/// Whether a service was changed, and its process before and after; 0 is none.
#[derive(Clone, Copy)]
struct Changed {
    is_found: bool,
    before: u64,
    after: u64,
}

/// Changes the service with a number, which is looked for once.
fn change_row<C: Change<Service>>(rows: &mut Rows<Service>, number: u64, change: &C) -> Changed
    ensures found { result.is_found ≡ is_some (find (has_number number) rows.old.items) }
    ensures items { rows.new.items ≡ change_at number (C.changed change.now) rows.old.items }
    ensures room { rows.new.room ≡ rows.old.room }
    ensures before { result.before ≡ process_in (find (has_number number) rows.old.items) }
    ensures after { result.after ≡ process_in (find (has_number number) rows.new.items) }
{
    let mut parts = Changing {
        change,
        before: 0,
        after: 0,
    };
    let is_found = rows.exchange(number, &mut parts);
    let Changing {
        change: _,
        before,
        after,
    } = parts;
    Changed {
        is_found,
        before,
        after,
    }
}

/// Puts a number under a process; 0 is none. It takes no memory.
fn enter_under(processes: &mut NumberPairs, process: u64, number: u64)
    requires { process ≢ 0 → 1 ≤ processes.old.room }
    ensures under { ChangesOf process processes.old.items processes.new.items
        (λ numbers. with_number numbers number) }
    ensures room { processes.old.room + idle_at process ≤ processes.new.room + 1 }
{
    if process != 0 {
        processes.add(Pair {
            key: process,
            number,
        });
    }
}

/// Takes a number from those under a process, where it is; 0 is none.
fn leave_under(processes: &mut NumberPairs, process: u64, number: u64)
    requires { process ≢ 0 → has_pair processes.old.items
        (record { key = process; number = number }) ≡ true }
    ensures under { ChangesOf process processes.old.items processes.new.items
        (λ numbers. without_number numbers number) }
    ensures room { processes.old.room + 1 ≤ processes.new.room + idle_at process }
{
    if process != 0 {
        processes.remove(Pair {
            key: process,
            number,
        });
    }
}

/// Moves a number from those under one process to those under another. It takes no memory.
fn move_under(processes: &mut NumberPairs, before: u64, after: u64, number: u64)
    requires there { before ≢ after → before ≢ 0 → has_pair processes.old.items
        (record { key = before; number = number }) ≡ true }
    requires room { before ≢ after → before ≡ 0 → 1 ≤ processes.old.room }
    ensures under { MovesUnder processes.old.items processes.new.items before after number }
    ensures room { processes.old.room + idle_at after ≤ processes.new.room + idle_at before }
{
    if before != after {
        leave_under(processes, before, number);
        enter_under(processes, after, number);
    }
}

impl RecordTable {
    /// No services, which take no memory.
    pub fn new(alloc: Global) -> Result<RecordTable, OutOfMemory>
        ensures { result ≡ Ok empty }
    {
        Ok(RecordTable {
            rows: Rows::new(alloc),
            texts: KeptTexts::new(alloc),
            processes: NumberPairs::new(alloc),
            spare: None,
            alloc,
        })
    }

    /// Makes room for one insertion or replacement with this configuration's name, display name and
    /// group, in place of what was made for another.
    pub fn reserve(&mut self, config: &Config) -> Result<(), OutOfMemory>
        ensures ok { OnOk result (self.new ≡ reserved self.old config.now) }
        ensures err { OnErr result (self.new ≡ self.old) }
    {
        let alloc = self.alloc;
        self.rows.reserve()?;
        self.processes.reserve(self.rows.len() + 1)?;
        let spare = Spare::of(config, alloc)?;
        if reserve_texts(&mut self.texts, alloc, &spare, &self.spare).is_err() {
            drop(spare);
            return Err(OutOfMemory);
        }
        exchange_room(&mut self.texts, self.spare.take(), &spare);
        self.spare = Some(spare);
        Ok(())
    }

    /// Lets the room for a service go. Texts that no service has are forgotten with it.
    pub fn forget_spare(&mut self)
        ensures { self.new ≡ unreserved self.old }
    {
        forget_room(&mut self.texts, self.spare.take());
    }

    /// Appends a service, for which room was made. It takes no memory.
    pub fn insert(&mut self, service: Service)
        requires spare { self.old.spare ≡ Some (spare_of service.config) }
        requires above { AllByRecursion (λ other. other.number < service.number) self.old.services }
        ensures { self.new ≡ inserted self.old service }
    {
        let Some(spare) = self.spare.take() else {
            return;
        };
        enter_texts(&mut self.texts, &spare, service.number);
        enter_under(&mut self.processes, service.process, service.number);
        self.rows.push(service);
    }

    /// Gives a service another configuration, for which room was made, and answers the one that it
    /// had. Where no service has the number nothing changes. It takes no memory.
    pub fn replace(&mut self, number: u64, config: Config) -> Option<Config>
        requires spare { self.old.spare ≡ Some (spare_of config) }
        ensures config { result ≡ config_of_number self.old.services number }
        ensures table { self.new ≡ replaced self.old number config }
    {
        let before = exchange(&mut self.rows, number, config)?;
        let Some(spare) = self.spare.take() else {
            return Some(before);
        };
        move_texts(&mut self.texts, &before, &spare, number);
        drop(spare);
        Some(before)
    }

    /// Gives a service another security descriptor, and answers the bytes of the one that it had.
    /// Where no service has the number nothing changes. It takes no memory.
    pub fn set_security(&mut self, number: u64, security: Items<u8>) -> Option<Items<u8>>
        ensures security { result ≡ security_of_number self.old.services number }
        ensures table { self.new ≡ altered self.old number (with_security security) }
    {
        exchange_security(&mut self.rows, number, security)
    }

    /// Takes the service with a number out, and lets the room for another go. Where no service has
    /// the number nothing changes.
    pub fn remove(&mut self, number: u64) -> Option<Service>
        ensures service { result ≡ find (has_number number) self.old.services }
        ensures table { self.new ≡ removed self.old number }
    {
        let row = self.rows.remove(number)?;
        forget_room(&mut self.texts, self.spare.take());
        leave_texts(&mut self.texts, &row.config, number);
        leave_under(&mut self.processes, row.process, number);
        Some(row)
    }

    /// Changes the service with a number, but for its configuration. False where no service has it.
    pub fn alter<C: Change<Service>>(&mut self, number: u64, change: &C) -> bool
        requires { (row : Service) → (C.changed change.now row).config ≡ row.config }
        ensures found { result ≡ is_some (find (has_number number) self.old.services) }
        ensures table { self.new ≡ altered self.old number (C.changed change.now) }
    {
        let changed = change_row(&mut self.rows, number, change);
        move_under(&mut self.processes, changed.before, changed.after, number);
        changed.is_found
    }

    /// Sets what changes of a service while it lives. False where no service has the number.
    pub fn set_live(
        &mut self,
        number: u64,
        status: Status,
        marked: bool,
        process: u64,
        failures: u32,
        last_failure: u64,
        asked: bool,
    ) -> bool
        ensures found { result ≡ is_some (find (has_number number) self.old.services) }
        ensures table { self.new ≡ altered self.old number
            (lived status marked process failures last_failure asked) }
    {
        let live = Live {
            status,
            marked,
            process,
            failures,
            last_failure,
            asked,
        };
        self.alter(number, &live)
    }

    /// How many services there are.
    pub fn len(&self) -> usize
        ensures len { result ≡ length self.now.services }
        ensures small { result < 2 ^ 63 }
        ensures rising { AreRisingBy number_of self.now.services }
    {
        self.rows.len()
    }

    /// The services, in order of number.
    pub fn iter(&self) -> Services<'_>
        ensures items { result ≡ self.now.services }
        ensures small { length self.now.services < 2 ^ 63 }
    {
        Services::of(self)
    }

    /// The service with a number.
    pub fn get(&self, number: u64) -> Option<&Service>
        ensures { option_copied result ≡ find (has_number number) self.now.services }
    {
        self.rows.get(number)
    }

    /// The service at a place in the order of numbers.
    pub fn at(&self, place: usize) -> Option<&Service>
        ensures { option_copied result ≡ slice_get self.now.services place }
    {
        self.rows.at(place)
    }

    /// The least number of a service above this one.
    pub fn after(&self, number: u64) -> Option<u64>
        ensures { result ≡ first_with (is_above number_of number) self.now.services }
    {
        self.rows.after(number)
    }

    /// The numbers of the services with the same name, rising.
    pub fn named(&self, name: &WText) -> &[u64]
        ensures numbers { result.now ≡ numbers_with (is_named name.now) self.now.services }
        ensures rising { AreRising result.now }
    {
        self.texts.names.at(name)
    }

    /// The numbers of the services with the same display name, rising.
    pub fn displayed(&self, display: &WText) -> &[u64]
        ensures numbers { result.now ≡ numbers_with (is_displayed display.now) self.now.services }
        ensures rising { AreRising result.now }
    {
        self.texts.displays.at(display)
    }

    /// The numbers of the services of a group, rising.
    pub fn members(&self, group: &WText) -> &[u64]
        ensures numbers { result.now ≡ numbers_with (is_member group.now) self.now.services }
        ensures rising { AreRising result.now }
    {
        self.texts.groups.at(group)
    }

    /// The services whose current process this is, each as a pair of the process and its number.
    pub fn of_process(&self, process: u64) -> &[Pair]
        ensures { map (λ (pair : Pair). pair.number) result.now
            ≡ currents_in process self.now.services }
    {
        self.processes.at(process)
    }

    /// The number of the first service whose current process this is.
    pub fn first_of_process(&self, process: u64) -> Option<u64>
        ensures number { result ≡ first_with (is_by process) self.now.services }
        ensures row { service_at self.now.services result ≡ find
            (is_by process) self.now.services }
    {
        match self.processes.at(process).first() {
            Some(pair) => Some(pair.number),
            None => None,
        }
    }

    /// The number of the first service with the same name.
    pub fn by_name(&self, name: &WText) -> Option<u64>
        ensures number { result ≡ first_with (is_named name.now) self.now.services }
        ensures row { service_at self.now.services result ≡ find
            (is_named name.now) self.now.services }
    {
        self.texts.names.at(name).first().copied()
    }

    /// The number of the first service with the same display name.
    pub fn by_display(&self, display: &WText) -> Option<u64>
        ensures number { result ≡ first_with (is_displayed display.now) self.now.services }
        ensures row { service_at self.now.services result ≡ find
            (is_displayed display.now) self.now.services }
    {
        self.texts.displays.at(display).first().copied()
    }

    /// The number of the service at a place among those of a group.
    pub fn member_at(&self, group: &WText, place: usize) -> Option<u64>
        ensures { result ≡ slice_get (numbers_with (is_member group.now) self.now.services) place }
    {
        self.members(group).get(place).copied()
    }
}
