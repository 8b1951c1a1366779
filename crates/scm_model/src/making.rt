ghost use Rattle.std.specs.Prelude.{◌≡◌};
ghost use Rattle.scm_model.specs.Changes.{new_service};
ghost use Rattle.scm_model.specs.Statuses.{new_status, status_numbers};

use super::codes::{ERROR_SERVICE_NEVER_STARTED, SERVICE_STOPPED};
use super::{Config, Service, Status};
use scm_text::Items;
use std::alloc::Global;

impl Status {
    /// The status of a service that never ran: STOPPED, with `ERROR_SERVICE_NEVER_STARTED` (1077).
    pub fn never_run(kind: u32) -> Status
        ensures { result ≡ new_status kind }
    {
        Status {
            kind,
            state: SERVICE_STOPPED,
            accepted: 0,
            win32: ERROR_SERVICE_NEVER_STARTED,
            specific: 0,
            checkpoint: 0,
            hint: 0,
        }
    }

    /// Its numbers, in the order of `SERVICE_STATUS`.
    pub fn numbers(&self) -> [u32; 7]
        ensures { result ≡ status_numbers self.now }
    {
        [
            self.kind,
            self.state,
            self.accepted,
            self.win32,
            self.specific,
            self.checkpoint,
            self.hint,
        ]
    }
}

impl Service {
    /// A service that is unmarked, has no process and has never failed.
    pub fn new(alloc: Global, number: u64, config: Config, status: Status) -> Service
        ensures { result ≡ new_service number config status }
    {
        Service {
            number,
            config,
            status,
            marked: false,
            process: 0,
            failures: 0,
            last_failure: 0,
            asked: false,
            security: Items::new(alloc),
        }
    }

    /// A service that never ran.
    pub fn never_run(alloc: Global, number: u64, config: Config) -> Service
        ensures { result ≡ new_service number config (new_status config.kind) }
    {
        let status = Status::never_run(config.kind);
        Service::new(alloc, number, config, status)
    }
}
