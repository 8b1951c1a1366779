//! Children that obey: each reports that it is RUNNING, and once it got the control to stop that it
//! is STOPPED. One ends at once and reports nothing.
use crate::sc_rows::{CHILDREN, Child, STOP};
use child_link::{Feed, Link};
use outside::{Failed, Sink, SliceSource, Source};
use process_runner::{SpawnFault, SpawnFaults, Spawned, Spawner};
use scm_text::{Items, Text};
use std::sync::atomic::{AtomicBool, Ordering};
use std::time::Duration;
use std::{thread, time};

/// Milliseconds between two looks of a child.
const PAUSE: u64 = 1;

/// Which of the children were told to stop, in the order of their starts, and whether the session
/// is over, at which all of them stop.
#[derive(Drop)]
pub struct Told {
    stops: [AtomicBool; 9],
    is_over: AtomicBool,
}

impl Told {
    pub fn nothing() -> Self {
        Told {
            stops: [
                AtomicBool::new(false),
                AtomicBool::new(false),
                AtomicBool::new(false),
                AtomicBool::new(false),
                AtomicBool::new(false),
                AtomicBool::new(false),
                AtomicBool::new(false),
                AtomicBool::new(false),
                AtomicBool::new(false),
            ],
            is_over: AtomicBool::new(false),
        }
    }

    /// Lets all of them stop.
    pub fn end(&self) {
        self.is_over.store(true, Ordering::SeqCst);
    }

    fn stop(&self, place: usize) {
        if let Some(flag) = self.stops.get(place) {
            flag.store(true, Ordering::SeqCst);
        }
    }

    fn is_stopped(&self, place: usize) -> bool {
        let is_told = match self.stops.get(place) {
            Some(flag) => flag.load(Ordering::SeqCst),
            None => true,
        };
        is_told || self.is_over.load(Ordering::SeqCst)
    }
}

/// Waits until the child of a place is to stop.
fn wait<R: time::Clock>(rt: &R, told: &Told, place: usize) {
    for _ in 0..u64::MAX {
        if told.is_stopped(place) {
            return;
        }
        thread::sleep(rt, Duration::from_millis(PAUSE));
    }
}

/// The output of the child of a place.
#[derive(Drop)]
pub struct ObedientLink<'a, R> {
    rt: R,
    told: &'a Told,
    place: usize,
    pid: u32,
    first: SliceSource<'static>,
    last: SliceSource<'static>,
}

impl<'a, R: time::Clock> Source for ObedientLink<'a, R> {
    ghost use Rattle.std.specs.Prelude.{None};

    ghost left = { λ _. None };

    ghost faults = { λ _. 0 };

    fn read(&mut self, into: &mut [u8]) -> Result<usize, Failed> {
        match self.first.read(into) {
            Ok(0) => {}
            other => return other,
        }
        wait(&self.rt, self.told, self.place);
        self.last.read(into)
    }
}

impl<'a, R: time::Clock> Link for ObedientLink<'a, R> {
    ghost use Rattle.std.specs.Prelude.{None};

    ghost pid = { λ l. l.pid };

    ghost ended = { λ _. None };

    fn id(&self) -> u32 {
        self.pid
    }

    fn wait(&mut self) -> Result<(), Failed> {
        Ok(())
    }
}

/// Its input.
#[derive(Drop)]
pub struct ObedientFeed<'a> {
    told: &'a Told,
    place: usize,
}

impl<'a> Sink for ObedientFeed<'a> {
    ghost use Rattle.std.specs.Prelude.{None};

    ghost held = { λ _. None };

    ghost faults = { λ _. 0 };

    fn write(&mut self, from: &[u8]) -> Result<usize, Failed> {
        if from == STOP {
            self.told.stop(self.place);
        }
        Ok(from.len())
    }

    fn flush(&mut self) -> Result<(), Failed> {
        Ok(())
    }
}

/// It has ended.
#[derive(Clone, Copy)]
pub struct ObedientPast;

impl<'a> Feed for ObedientFeed<'a> {
    ghost use Rattle.std.specs.Prelude.{None};
    ghost use Rattle.child_link.specs.Children.{feed_past};

    type Past = ObedientPast;

    ghost tells = { λ _. feed_past None 0 };

    fn end(self) -> ObedientPast {
        drop(self);
        ObedientPast
    }
}

/// Starts the children in their order, and nothing else.
#[derive(Drop)]
pub struct ObedientSpawner<'a, R> {
    pub rt: R,
    pub told: &'a Told,
    pub next: u32,
    pub faults: SpawnFaults,
}

/// The child that comes at this place, if it is of that program.
fn child_at(words: &Items<Text>, place: usize) -> Option<&'static Child> {
    match (words.as_slice().first(), CHILDREN.get(place)) {
        (Some(word), Some(child)) if word.as_str() == child.program => Some(child),
        _ => None,
    }
}

impl<'a, R: time::Clock + Copy + Drop> Spawner for ObedientSpawner<'a, R> {
    ghost use Rattle.std.specs.Prelude.{⊤, None};

    type Link = ObedientLink<'a, R>;

    type Feed = ObedientFeed<'a>;

    ghost started = { λ _. None };

    ghost faults = { λ s. s.faults };

    ghost gives = { λ s link feed. ⊤ };

    fn start(
        &mut self,
        words: &Items<Text>,
    ) -> Result<Spawned<ObedientLink<'a, R>, ObedientFeed<'a>>, SpawnFault> {
        let place = self.next as usize;
        let Some(child) = child_at(words, place) else {
            return Err(self.faults.count(SpawnFault::NotFound));
        };
        self.next = self.next.wrapping_add(1);
        if child.first.is_empty() {
            self.told.stop(place);
        }
        let link = ObedientLink {
            rt: self.rt,
            told: self.told,
            place,
            pid: self.next,
            first: SliceSource::new(child.first),
            last: SliceSource::new(child.last),
        };
        let feed = ObedientFeed {
            told: self.told,
            place,
        };
        Ok(Spawned { link, feed })
    }
}
