ghost use Rattle.std.specs.Prelude.{◌≡◌, ℕ};

use std::time;

/// What tells moments, in milliseconds. It never fails.
pub trait Clock {
    /// The moments that it tells.
    ghost tells: { Self → ℕ → Type 0 };

    fn now(&self) -> u64
        ensures { tells self.now result };
}

/// A clock in memory that tells one moment.
#[derive(Clone, Copy, Debug, PartialEq, Eq)]
pub struct FixedClock {
    pub moment: u64,
}

impl Clock for FixedClock {
    ghost tells = { λ clock moment. moment ≡ clock.moment };

    fn now(&self) -> u64 {
        self.moment
    }
}

/// The system's clock, in milliseconds since some moment before the start. It tells nothing of its
/// moments.
#[derive(Drop)]
pub struct SystemClock<R: time::Clock> {
    clock: R,
}

impl<R: time::Clock> SystemClock<R> {
    pub fn new(clock: R) -> Self {
        SystemClock { clock }
    }
}

impl<R: time::Clock> Clock for SystemClock<R> {
    ghost use Rattle.std.specs.Prelude.{⊤};

    ghost tells = { λ _ _. ⊤ };

    fn now(&self) -> u64 {
        match self.clock.monotonic() {
            Ok(since) => u64::try_from(since.as_millis()).unwrap_or(u64::MAX),
            Err(_) => 0,
        }
    }
}
