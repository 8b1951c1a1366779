ghost use Rattle.std.specs.Prelude.{◌≡◌, ◌≤◌, ◌<◌, ◌-◌, ◌==◌, ◌^◌, [], find, length, min};
ghost use Rattle.std.specs.Prelude.{nat_le, option_copied, option_map, slice_get, All, AllPairs};
ghost use Rattle.std.specs.Prelude.{IfOk, None};
ghost use Rattle.std.specs.List.{list_any};
ghost use Rattle.scm_model.specs.Processes.{is_shared};
ghost use Rattle.scm_model.specs.Notices.{pid_in};
ghost use Rattle.scm_rules.specs.Controls.{controlled_if, controls_in, first_control, dequeued_if};
ghost use Rattle.scm_rules.specs.Launches.{first_wanted, is_launched, is_taken, launched_if};
ghost use Rattle.scm_rules.specs.Launches.{taken_if};
ghost use Rattle.scm_rules.specs.Owed.{owed_by_process};
ghost use Rattle.scm_rules.specs.Reports.{released_if};
ghost use Rattle.scm_rules.specs.Steps.{wants_launch};
ghost use Rattle.start_plan.specs.Owed.{total};
ghost use Rattle.scm_tables.specs.Listed.{process_shown, wanted_of, without_words, next_words};
ghost use Rattle.scm_tables.specs.Offering.{offers_among};
ghost use Rattle.scm_tables.specs.Processed.{with_changed, with_listed, without_launch};
ghost use Rattle.scm_tables.specs.Processed.{without_one};

use super::hosting::first_offering;
use super::lines::Line;
use super::process_rows::{
    ProcessRow, control_in, drop_process, first_wanted, is_any_shared, is_any_wanted, launch_in,
    owed_in_phase, process_with, release_in, relieve_in, take_in, take_words, wanted_first,
};
use control_dispatch::Controls;
use record_table::RecordTable;
use scm_model::{Order, Phase, Service};
use scm_text::{Items, OutOfMemory, WText};
use std::alloc::Global;
use std::marker::Model;

/// The processes, each with what its launch is to have. Contracts see them and the launches that
/// are wanted, the number that is given next, and for how many processes there is room.
#[derive(Drop)]
pub struct Processes {
    rows: Vec<ProcessRow>,
    next: u64,
    /// How many steps they owe.
    owed: u128,
}

impl Model for Processes {
    ghost use Rattle.scm_tables.specs.Processed.{AreCounted, Processed, processed};

    ghost Value = { Processed };

    ghost view = { processed };

    ghost invariant = { AreCounted };
}

impl Processes {
    /// No processes, with room for so many.
    pub fn with_room(alloc: Global, limit: u32) -> Result<Self, OutOfMemory>
        ensures none { IfOk result (λ all. all ≡ record {
          processes = [];
          wanted = [];
          next = 1;
          capacity = all.capacity;
        }) }
        ensures room { IfOk result (λ all. limit ≤ all.capacity) }
    {
        match Vec::with_capacity(alloc, limit as usize) {
            Ok(rows) => Ok(Processes {
                rows,
                next: 1,
                owed: 0,
            }),
            Err(_) => Err(OutOfMemory),
        }
    }

    /// Whether no more processes may be listed.
    pub fn is_full(&self, limit: u32) -> bool
        ensures { result ≡ nat_le limit (length self.now.processes) }
    {
        limit as usize <= self.rows.len()
    }

    /// The number of the next process, which is above those of all that are listed.
    pub fn next(&self) -> u64
        ensures number { result ≡ self.now.next }
        ensures above { All (λ row. row.number < self.now.next) self.now.processes }
    {
        self.next
    }

    /// How many steps the processes owe, up to 2^64 - 1.
    pub fn owed(&self) -> u64
        ensures { result ≡ min (total owed_by_process self.now.processes) (2 ^ 64 - 1) }
    {
        self.owed.min(u64::MAX as u128) as u64
    }

    /// The process with a number.
    fn get(&self, number: u64) -> Option<&ProcessRow>
        ensures { option_map process_shown (option_copied result) ≡ find
            (λ row. row.number == number) self.now.processes }
    {
        process_with(self.rows.as_slice(), number)
    }

    /// The service that a process is of, which is 0 for a command.
    pub fn service_of(&self, number: u64) -> Option<u64>
        ensures { result ≡ option_map (λ row. row.service)
            (find (λ row. row.number == number) self.now.processes) }
    {
        self.get(number).map(|row| row.service)
    }

    /// The system's number of a process, or 0 where it isn't listed.
    pub fn pid_of(&self, number: u64) -> u32
        ensures { result ≡ pid_in (find (λ row. row.number == number) self.now.processes) }
    {
        match self.get(number) {
            Some(row) => row.pid,
            None => 0,
        }
    }

    /// Whether a process is listed and its launch is taken.
    pub fn is_taken(&self, number: u64) -> bool
        ensures { result ≡ is_taken (find (λ row. row.number == number) self.now.processes) }
    {
        match self.get(number) {
            Some(row) => matches!(row.phase, Phase::Taken),
            None => false,
        }
    }

    /// Whether a process is listed and was launched.
    pub fn is_launched(&self, number: u64) -> bool
        ensures { result ≡ is_launched (find (λ row. row.number == number) self.now.processes) }
    {
        match self.get(number) {
            Some(row) => matches!(row.phase, Phase::Launched),
            None => false,
        }
    }

    /// Whether a process is listed and shared.
    pub fn is_shared(&self, number: u64) -> bool
        ensures { result ≡ is_shared (find (λ row. row.number == number) self.now.processes) }
    {
        match self.get(number) {
            Some(row) => row.shared,
            None => false,
        }
    }

    /// Whether one of them is shared.
    pub fn is_any_shared(&self) -> bool
        ensures { result ≡ list_any (λ row. row.shared) self.now.processes }
    {
        is_any_shared(self.rows.as_slice())
    }

    /// The first service that offers one of the processes to others of a path.
    pub fn first_offering<'a>(&self, rows: &'a RecordTable, path: &WText) -> Option<&'a Service>
        requires { AllPairs (λ a b. a.number < b.number) rows.now.services }
        ensures { option_copied result ≡ find (offers_among self.now.processes path.now)
            rows.now.services }
    {
        first_offering(rows, self.rows.as_slice(), path)
    }

    /// How many orders wait for a process; none where it isn't listed.
    pub fn waiting(&self, number: u64) -> Option<u32>
        ensures { result ≡ option_map (λ row. length row.controls)
            (find (λ row. row.number == number) self.now.processes) }
    {
        match self.get(number) {
            Some(row) => Some(row.controls.len()),
            None => None,
        }
    }

    /// The order that waits first for a process.
    pub fn first_control(&self, number: u64) -> Option<Order>
        ensures { result ≡ first_control (controls_in
            (find (λ row. row.number == number) self.now.processes)) }
    {
        match self.get(number) {
            Some(row) => row.controls.first(),
            None => None,
        }
    }

    /// The process that is to be launched first.
    pub fn first_wanted(&self) -> Option<u64>
        ensures { result ≡ first_wanted self.now.wanted }
    {
        first_wanted(self.rows.as_slice())
    }

    /// Whether a launch is wanted.
    pub fn is_any_wanted(&self) -> bool
        ensures { result ≡ wants_launch self.now.wanted }
    {
        is_any_wanted(self.rows.as_slice())
    }

    /// The launch that is wanted first.
    pub fn wanted_first(&self) -> Option<&ProcessRow>
        ensures { option_map wanted_of (option_copied result) ≡ slice_get self.now.wanted 0 }
    {
        wanted_first(self.rows.as_slice())
    }

    /// Lists a process that is to be launched, of a service or of none. It takes no memory.
    pub fn list(&mut self, service: u64, shared: bool, line: Line)
        requires room { length self.old.processes < self.old.capacity }
        requires next { self.old.next < 2 ^ 63 }
        ensures { self.new ≡ with_listed service shared line self.old }
    {
        self.rows.push_reserved(ProcessRow {
            number: self.next,
            service,
            shared,
            phase: Phase::Wanted,
            pid: 0,
            controls: Controls::new(),
            line,
        });
        self.next += 1;
        self.owed += owed_in_phase(Phase::Wanted);
    }

    /// The launch of a process is taken.
    pub fn take(&mut self, number: u64)
        ensures { self.new ≡ without_launch number (taken_if number) self.old }
    {
        self.owed = take_in(&mut self.rows, number, self.owed);
    }

    /// A process is launched.
    pub fn launch(&mut self, number: u64, pid: u32)
        ensures { self.new ≡ without_launch number (launched_if number pid) self.old }
    {
        self.owed = launch_in(&mut self.rows, number, pid, self.owed);
    }

    /// Takes a process away.
    pub fn remove(&mut self, number: u64)
        ensures left { self.new ≡ without_one number self.old }
        ensures absent { find (λ row. row.number == number) self.old.processes ≡ None
            → self.new ≡ self.old }
    {
        self.owed = drop_process(&mut self.rows, number, self.owed);
    }

    /// An order more waits for a process, as long as fewer do than may. It takes no memory.
    pub fn control(&mut self, limit: u32, number: u64, order: Order)
        requires { limit ≤ 16 }
        ensures { self.new ≡ with_changed (controlled_if limit number order) self.old }
    {
        control_in(&mut self.rows, limit, number, order);
    }

    /// The order that waits first for a process waits no longer.
    pub fn dequeue_control(&mut self, number: u64)
        ensures left { self.new ≡ with_changed (dequeued_if number) self.old }
        ensures none { first_control (controls_in
            (find (λ row. row.number == number) self.old.processes)) ≡ None
            → self.new ≡ self.old }
    {
        relieve_in(&mut self.rows, number);
    }

    /// The orders of a service leave a process, if it is shared.
    pub fn release(&mut self, number: u64, service: u64)
        ensures { self.new ≡ with_changed (released_if number service) self.old }
    {
        release_in(&mut self.rows, number, service);
    }

    /// Takes the words of the launch that is wanted first. It takes no memory.
    pub fn take_words(&mut self, alloc: Global) -> Items<WText>
        ensures words { result ≡ next_words self.old.wanted }
        ensures left { self.new ≡ record self.old { wanted = without_words self.old.wanted } }
    {
        take_words(&mut self.rows, alloc)
    }
}
