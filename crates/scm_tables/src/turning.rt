ghost use Rattle.std.specs.Prelude.{◌≡◌};
ghost use Rattle.std.proofs.Common.{refl};
ghost use Rattle.scm_rules.specs.Launches.{fallen};
ghost use Rattle.scm_rules.specs.Reports.{moved_by};
ghost use Rattle.status_machine.specs.Moves.{take_report};
ghost use Rattle.scm_tables.specs.Turned.{failure_counted, marked, running_as, started, typed};
ghost use Rattle.scm_tables.specs.Turned.{unasked};

use failure_actions::on_failure;
use row_slab::Change;
use scm_model::codes::{SERVICE_START_PENDING, SERVICE_STOPPED, SERVICE_WIN32_SHARE_PROCESS};
use scm_model::{Service, Status};
use status_machine::{take_end, take_report};

/// A status with nothing but a type, a state and an exit code.
pub fn bare_status(kind: u32, state: u32, win32: u32) -> Status
    ensures { result ≡ record {
      kind = kind;
      state = state;
      accepted = 0;
      win32 = win32;
      specific = 0;
      checkpoint = 0;
      hint = 0;
    } }
{
    Status {
        kind,
        state,
        accepted: 0,
        win32,
        specific: 0,
        checkpoint: 0,
        hint: 0,
    }
}

/// A service is marked.
#[derive(Clone, Copy)]
pub struct Mark;

impl Change<Service> for Mark {
    ghost changed = { λ change. marked };

    ghost keeps = { λ change row. refl };

    fn change(&self, row: &mut Service) {
        row.marked = true;
    }
}

/// The status of a service gets another type.
#[derive(Clone, Copy)]
pub struct Typing {
    pub kind: u32,
}

impl Change<Service> for Typing {
    ghost changed = { λ change. typed change.kind };

    ghost keeps = { λ change row. refl };

    fn change(&self, row: &mut Service) {
        row.status.kind = self.kind;
    }
}

/// A service is START_PENDING where it was STOPPED, by this process.
#[derive(Clone, Copy)]
pub struct Start {
    pub process: u64,
}

impl Change<Service> for Start {
    ghost changed = { λ change row. running_as (started change.process row) row };

    ghost keeps = { λ change row. refl };

    fn change(&self, row: &mut Service) {
        if row.status.state == SERVICE_STOPPED {
            row.status = bare_status(row.status.kind, SERVICE_START_PENDING, 0);
            row.process = self.process;
            row.asked = row.config.kind == SERVICE_WIN32_SHARE_PROCESS;
        }
    }
}

/// A service takes a report of its current process, if it is one that it may make.
#[derive(Clone, Copy)]
pub struct Report<'a> {
    pub report: &'a Status,
}

impl<'a> Change<Service> for Report<'a> {
    ghost changed = { λ change row.
        running_as (moved_by row (take_report row.status change.report.now)) row };

    ghost keeps = { λ change row. refl };

    fn change(&self, row: &mut Service) {
        if take_report(&row.status, self.report).is_ok() {
            row.status = *self.report;
            if self.report.state == SERVICE_STOPPED {
                row.process = 0;
                row.asked = false;
            }
        }
    }
}

/// A service falls.
#[derive(Clone, Copy)]
pub struct Fall {
    pub code: u32,
}

impl Change<Service> for Fall {
    ghost changed = { λ change row. running_as (fallen change.code row) row };

    ghost keeps = { λ change row. refl };

    fn change(&self, row: &mut Service) {
        row.status = take_end(&row.status, self.code);
        row.process = 0;
        row.asked = false;
    }
}

/// A service isn't asked to start any more.
#[derive(Clone, Copy)]
pub struct Unask;

impl Change<Service> for Unask {
    ghost changed = { λ change. unasked };

    ghost keeps = { λ change row. refl };

    fn change(&self, row: &mut Service) {
        row.asked = false;
    }
}

/// A failure at a moment is counted with a service.
#[derive(Clone, Copy)]
pub struct Count {
    pub moment: u64,
}

impl Change<Service> for Count {
    ghost changed = { λ change. failure_counted change.moment };

    ghost keeps = { λ change row. refl };

    fn change(&self, row: &mut Service) {
        let failed = on_failure(&row.config, row.failures, row.last_failure, self.moment);
        row.failures = failed.failures;
        row.last_failure = self.moment;
    }
}
