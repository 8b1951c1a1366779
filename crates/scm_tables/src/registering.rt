ghost use Rattle.std.specs.Prelude.{◌≡◌, ◌≤◌, ◌<◌, ◌^◌, OnOk, option_copied};
ghost use Rattle.notify_queue.specs.Queued.{notice_of};
ghost use Rattle.scm_model.specs.Changes.{without_registrations_of};
ghost use Rattle.scm_model.specs.Notices.{pid_of, registered_by, with_taken_result};
ghost use Rattle.scm_model.specs.Notices.{without_registration};
ghost use Rattle.scm_tables.specs.Noticed.{with_registered};
ghost use Rattle.scm_tables.specs.Promised.{KeepsRooms};

use super::noticing::{pid_with, register_in};
use super::service_rows::row_in;
use super::tables::Tables;
use notify_queue::Notice;
use scm_model::Service;
use scm_text::OutOfMemory;

impl Tables {
    /// The system's number of a service's current process, or 0.
    pub fn pid_of(&self, row: &Service) -> u32
        ensures { result ≡ pid_of self.now.flat.processes row.now }
    {
        pid_with(&self.processes, row.process)
    }

    /// Makes room for one registration more.
    pub fn reserve_registration(&mut self) -> Result<(), OutOfMemory>
        ensures flat { self.new.flat ≡ self.old.flat }
        ensures room { OnOk result (1 ≤ self.new.spare.registrations) }
        ensures others { self.new.spare.handles ≡ self.old.spare.handles }
        ensures limits { self.new.limits ≡ self.old.limits }
        ensures keeps { KeepsRooms self.old self.new }
        ensures needs { self.new.spare.needs ≡ self.old.spare.needs }
    {
        self.registrations.reserve(self.alloc)
    }

    /// Registers a caller for events of a service, or of the manager as 0, and answers the number.
    /// The service that the handle is of may be in one of the states already; then the
    /// registration is notified at once. It takes no memory.
    pub fn add_registration(&mut self, caller: u64, handle: u64, service: u64, mask: u32) -> u64
        requires room { 1 ≤ self.old.spare.registrations }
        requires next { self.old.flat.next.registration < 2 ^ 63 }
        ensures number { result ≡ self.old.flat.next.registration }
        ensures flat { self.new.flat ≡ with_registered self.old.flat caller handle service mask }
        ensures others { self.new.spare.handles ≡ self.old.spare.handles }
        ensures limits { self.new.limits ≡ self.old.limits }
    {
        let number = self.next.registration;
        let opened = self.opened(caller, handle);
        register_in(
            &mut self.registrations,
            row_in(&self.services, opened),
            &self.processes,
            number,
            caller,
            service,
            mask,
        );
        self.next.registration += 1;
        number
    }

    /// How many registrations a caller has.
    pub fn registered_by(&self, caller: u64) -> usize
        ensures { result ≡ registered_by self.now.flat caller }
    {
        self.registrations.held_by(caller)
    }

    /// Takes the event that a registration was told of. It takes no memory.
    pub fn take_notice(&mut self, number: u64) -> Option<Notice>
        ensures notice { result ≡ notice_of number self.old.flat.registrations }
        ensures flat { self.new.flat ≡ with_taken_result self.old.flat number }
        ensures limits { self.new.limits ≡ self.old.limits }
        ensures spare { self.new.spare ≡ self.old.spare }
    {
        self.registrations.take_results(number)
    }

    /// Takes a registration away.
    pub fn remove_registration(&mut self, number: u64)
        ensures flat { self.new.flat ≡ without_registration self.old.flat number }
        ensures limits { self.new.limits ≡ self.old.limits }
    {
        self.registrations.close(number);
    }

    /// Takes all registrations of a caller away.
    pub fn remove_registrations_of(&mut self, caller: u64)
        ensures flat { self.new.flat ≡ without_registrations_of self.old.flat caller }
        ensures limits { self.new.limits ≡ self.old.limits }
    {
        self.registrations.run_down(caller);
    }
}
