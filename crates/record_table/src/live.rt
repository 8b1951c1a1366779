ghost use Rattle.record_table.specs.Recorded.{lived, with_config, with_security};
ghost use Rattle.std.proofs.Common.{refl};

use row_slab::{Change, Exchange};
use scm_model::{Config, Service, Status};
use scm_text::Items;
use std::mem;

/// What changes of a service while it lives.
#[derive(Clone, Copy)]
pub struct Live {
    pub status: Status,
    pub marked: bool,
    pub process: u64,
    pub failures: u32,
    pub last_failure: u64,
    pub asked: bool,
}

impl Change<Service> for Live {
    ghost changed = { λ live.
        lived live.status live.marked live.process live.failures live.last_failure live.asked };

    ghost keeps = { λ live row. refl };

    fn change(&self, row: &mut Service) {
        row.status = self.status;
        row.marked = self.marked;
        row.process = self.process;
        row.failures = self.failures;
        row.last_failure = self.last_failure;
        row.asked = self.asked;
    }
}

/// A change of a service, and the process of its row before the change and after it.
#[derive(Drop)]
pub struct Changing<'a, C> {
    pub change: &'a C,
    pub before: u64,
    pub after: u64,
}

impl<'a, C: Change<Service>> Exchange<Service> for Changing<'a, C> {
    ghost exchanged = { λ parts. C.changed parts.change.now };

    ghost left = { λ parts row. record parts {
      before = row.process;
      after = (C.changed parts.change.now row).process;
    } };

    ghost keeps = { λ parts row. C.keeps parts.change.now row };

    fn exchange(&mut self, row: &mut Service) {
        self.before = row.process;
        self.change.change(row);
        self.after = row.process;
    }
}

/// A configuration that a service is given, and then the one that it had.
#[derive(Drop)]
pub struct Configured {
    pub config: Config,
}

impl Exchange<Service> for Configured {
    ghost exchanged = { λ parts. with_config parts.config };

    ghost left = { λ parts row. record { config = row.config } };

    ghost keeps = { λ parts row. refl };

    fn exchange(&mut self, row: &mut Service) {
        mem::swap(&mut self.config, &mut row.config);
    }
}

/// A security descriptor that a service is given, and then the one that it had.
#[derive(Drop)]
pub struct Secured {
    pub security: Items<u8>,
}

impl Exchange<Service> for Secured {
    ghost exchanged = { λ parts. with_security parts.security };

    ghost left = { λ parts row. record { security = row.security } };

    ghost keeps = { λ parts row. refl };

    fn exchange(&mut self, row: &mut Service) {
        mem::swap(&mut self.security, &mut row.security);
    }
}
