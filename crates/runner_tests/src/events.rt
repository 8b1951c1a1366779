// What one thread waits for until another has done it.
use std::sync::atomic::{AtomicBool, Ordering};
use std::thread;

/// How often a wait looks before it gives up.
const TURNS: u64 = 10_000;

/// What took place so far.
#[derive(Drop)]
pub struct Events {
    /// The output of the first child was asked for.
    is_launched: AtomicBool,
    /// The state of its service was told.
    is_told: AtomicBool,
    /// More of its output was asked for.
    is_read: AtomicBool,
    /// The state was told again, or a connection is over.
    is_over: AtomicBool,
    /// A wait gave up.
    gave_up: AtomicBool,
}

/// One of them.
#[derive(Clone, Copy)]
pub enum Event {
    Launched,
    Told,
    Read,
    Over,
}

/// Lets other threads run.
fn turn() {
    for _ in 0..100 {
        thread::yield_now();
    }
}

impl Events {
    pub fn new() -> Self {
        Events {
            is_launched: AtomicBool::new(false),
            is_told: AtomicBool::new(false),
            is_read: AtomicBool::new(false),
            is_over: AtomicBool::new(false),
            gave_up: AtomicBool::new(false),
        }
    }

    fn flag(&self, event: Event) -> &AtomicBool {
        match event {
            Event::Launched => &self.is_launched,
            Event::Told => &self.is_told,
            Event::Read => &self.is_read,
            Event::Over => &self.is_over,
        }
    }

    pub fn set(&self, event: Event) {
        self.flag(event).store(true, Ordering::SeqCst);
    }

    fn is_set(&self, event: Event) -> bool {
        self.flag(event).load(Ordering::SeqCst)
    }

    /// Waits until it took place, or gives up.
    pub fn wait(&self, event: Event) {
        for _ in 0..TURNS {
            if self.is_set(event) {
                return;
            }
            turn();
        }
        self.gave_up.store(true, Ordering::SeqCst);
    }

    /// Whether no wait gave up.
    pub fn are_whole(&self) -> bool {
        !self.gave_up.load(Ordering::SeqCst)
    }
}
