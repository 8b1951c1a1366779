ghost use Rattle.std.specs.Prelude.{◌≡◌, ◌==◌, ◌≤◌, [], not, filter, length, map, OnErr, OnOk};
ghost use Rattle.scm_model.specs.Notices.{new_registration, noted, notified, put_in, taken_once};
ghost use Rattle.notify_queue.specs.Queued.{notice_of};

use super::row::{MAX_NAME, Notice, NotifyRow};
use super::rows::{count_of, drop_caller, drop_number, note_in, put_in, take_in};
use scm_model::ProcessStatus;
use scm_text::{OutOfMemory, TextRoom, WText};
use std::alloc::Global;
use std::marker::Model;
use std::mem::replace;

/// The registrations, in the order of their services, and those of one service in the order in
/// which they came. Contracts see them, and for how many more there is room.
#[derive(Drop)]
pub struct NotifyQueue {
    rows: Vec<NotifyRow>,
    /// For the name that the next registration will be told.
    made: Option<TextRoom>,
}

impl Model for NotifyQueue {
    ghost use Rattle.notify_queue.specs.Inside.{IsOrdered, queued};
    ghost use Rattle.notify_queue.specs.Queued.{Queued};

    ghost Value = { Queued };

    ghost view = { queued };

    ghost invariant = { IsOrdered };
}

impl NotifyQueue {
    /// No registrations, which take no memory.
    pub fn new(alloc: Global) -> NotifyQueue
        ensures { result.rows ≡ [] }
    {
        NotifyQueue {
            rows: Vec::new(alloc),
            made: None,
        }
    }

    /// Makes room for a registration more, and for the name that it will be told, unless there is
    /// room.
    pub fn reserve(&mut self, alloc: Global) -> Result<(), OutOfMemory>
        ensures rows { self.new.rows ≡ self.old.rows }
        ensures room { OnOk result (1 ≤ self.new.spare) }
        ensures err { OnErr result (self.new ≡ self.old) }
    {
        if self.made.is_some() {
            return Ok(());
        }
        if self.rows.reserve(1).is_err() {
            return Err(OutOfMemory);
        }
        self.made = Some(TextRoom::new(alloc, MAX_NAME)?);
        Ok(())
    }

    /// Adds a registration. It takes no memory.
    pub fn register(&mut self, number: u64, caller: u64, service: u64, mask: u32)
        requires { 1 ≤ self.old.spare }
        ensures { self.new.rows ≡ put_in (new_registration number caller service mask)
            self.old.rows }
    {
        let name = replace(&mut self.made, None).unwrap();
        put_in(
            &mut self.rows,
            NotifyRow::new(number, caller, service, mask, name),
        );
    }

    /// Adds a registration, and notifies it at once of an event of a service if it waits for that.
    /// It takes no memory.
    pub fn register_told(
        &mut self,
        number: u64,
        caller: u64,
        service: u64,
        mask: u32,
        of: u64,
        bit: u32,
        status: ProcessStatus,
        name: &WText,
    )
        requires room { 1 ≤ self.old.spare }
        requires short { length name.now ≤ 256 }
        ensures { self.new.rows ≡ put_in (notified (record {
          service = of;
          bit = bit;
          status = status;
          name = name.now;
        }) (new_registration number caller service mask))
            self.old.rows }
    {
        let made = replace(&mut self.made, None).unwrap();
        let mut row = NotifyRow::new(number, caller, service, mask, made);
        row.note(of, bit, status, name);
        put_in(&mut self.rows, row);
    }

    /// Tells the registrations that wait for an event of it. It looks only at those of the service,
    /// where 0 stands for the manager, and takes no memory.
    pub fn note(&mut self, service: u64, bit: u32, status: ProcessStatus, name: &WText)
        requires { length name.now ≤ 256 }
        ensures rows { self.new.rows ≡ noted (record {
          service = service;
          bit = bit;
          status = status;
          name = name.now;
        }) self.old.rows }
        ensures spare { self.new.spare ≡ self.old.spare }
    {
        note_in(&mut self.rows, service, bit, status, name);
    }

    /// Takes the event that a registration was told of; none where it was told of none, or is
    /// absent. It takes no memory.
    pub fn take_results(&mut self, number: u64) -> Option<Notice>
        ensures notice { result ≡ notice_of number self.old.rows }
        ensures rows { self.new.rows ≡ map (taken_once number) self.old.rows }
        ensures spare { self.new.spare ≡ self.old.spare }
    {
        take_in(&mut self.rows, number)
    }

    /// A registration leaves.
    pub fn close(&mut self, number: u64)
        ensures rows { self.new.rows ≡ filter (λ row. not (row.number == number)) self.old.rows }
        ensures spare { self.new.spare ≡ self.old.spare }
    {
        drop_number(&mut self.rows, number);
    }

    /// The registrations of a caller leave.
    pub fn run_down(&mut self, caller: u64)
        ensures rows { self.new.rows ≡ filter (λ row. not (row.caller == caller)) self.old.rows }
        ensures spare { self.new.spare ≡ self.old.spare }
    {
        drop_caller(&mut self.rows, caller);
    }

    /// How many registrations a caller has.
    pub fn held_by(&self, caller: u64) -> usize
        ensures { result ≡ length (filter (λ row. row.caller == caller) self.now.rows) }
    {
        count_of(self.rows.as_slice(), caller)
    }
}
