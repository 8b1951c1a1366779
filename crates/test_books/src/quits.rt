//! What asks for the end in tests.
use process_runner::Quit;
use std::sync::atomic::{AtomicU64, Ordering};

/// Asks for the end after so many looks.
#[derive(Drop)]
pub struct AfterLooks {
    looks: AtomicU64,
    most: u64,
}

impl AfterLooks {
    pub fn new(most: u64) -> Self {
        AfterLooks {
            looks: AtomicU64::new(0),
            most,
        }
    }
}

impl Quit for AfterLooks {
    ghost use Rattle.std.specs.Prelude.{⊤};

    ghost may_ask = { λ _. ⊤ };

    fn asked(&self) -> bool {
        self.looks.fetch_add(1, Ordering::SeqCst) >= self.most
    }
}
