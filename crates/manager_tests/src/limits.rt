//! The managers that are tested: those of nobody and nothing, with limits of their own.
ghost use Rattle.std.specs.Prelude.{◌≡◌, IfOk};
ghost use Rattle.scm_core.specs.Managed.{AreSmall};

use scm_core::Manager;
use scm_model::Limits;
use scm_text::{Items, OutOfMemory};
use std::alloc::Global;

pub const LIMITS: Limits = Limits {
    services: 1024,
    handles: 1024,
    registrations: 64,
    callers: 2,
    processes: 128,
    controls: 16,
    steps: 16_777_216,
    text: 268_435_456,
};

/// Six steps may be made.
pub const SIX_STEPS: Limits = Limits { steps: 6, ..LIMITS };

/// The greatest numbers of steps and of text that a manager's limits may have.
pub const GREATEST: Limits = Limits {
    steps: 1_125_899_906_842_623,
    text: 4_611_686_018_427_387_904,
    ..LIMITS
};

/// A manager without services and callers, at moment 0.
pub fn new_manager(alloc: Global, limits: Limits) -> Result<Manager, OutOfMemory>
    requires { AreSmall limits }
    ensures { IfOk result (λ manager. (manager.steps ≡ 0) × (manager.text ≡ 0)) }
{
    Manager::new(alloc, limits, Items::new(alloc), Items::new(alloc), 0)
}
