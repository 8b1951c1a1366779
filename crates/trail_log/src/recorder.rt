// What becomes of the entries of a history, once they are made.
ghost use Rattle.std.specs.Prelude.{◌≡◌, ℕ, List, Option};
ghost use Rattle.std.specs.List.{flat_map};
ghost use Rattle.std.specs.Io.KnownBytes.{Keeps, append_known};
ghost use Rattle.outside.specs.Causes.{Rose};
ghost use Rattle.scm_model.specs.Entries.{Entry};
ghost use Rattle.step_code.specs.Codes.{code_of};
ghost use Rattle.trail_log.specs.declared.recorder.Mode.TheVariants.{Kept, Logged};
ghost use Rattle.trail_log.specs.declared.recorder.RecordEnd.TheVariants.{All, Failed as NotWritten};
ghost use Rattle.trail_log.specs.Recording.{IsWithin, LetsFrontGo};
ghost use Rattle.trail_log.specs.Recorders.{IsLogged, WaitsOrStops, is_recording};

use crate::standing::write_segment;
use outside::{Failed, Sink};
use scm_trail::Trail;

/// How many segments may wait for a log that fails: some 64 MiB.
const MOST_WAITING: usize = 1024;

/// What becomes of the entries of a history.
#[derive(Clone, Copy)]
pub enum Mode {
    /// They stay in the trail.
    Kept,
    /// Their codes go to a log, and they are let go.
    Logged,
    /// They are let go. A log that was written before stays as it is.
    Dropped,
}

/// A log, and how far it has come.
#[derive(Drop)]
pub struct Recorder<T: Drop> {
    pub sink: T,
    /// How many bytes of the trail's first segment the log has.
    pub at: usize,
    pub mode: Mode,
}

/// How much is left to be recorded.
#[derive(Clone, Copy, Debug, PartialEq, Eq)]
pub enum RecordEnd {
    /// There is more.
    More,
    /// Nothing is left.
    All,
    /// The log failed. What it lacks waits in the trail, unless too much waits already.
    Failed,
}

impl<T: Sink + Drop> Recorder<T> {
    /// Before the first entry.
    pub fn new(sink: T, mode: Mode) -> Self
        ensures { result ≡ record { sink = sink; at = 0; mode = mode } }
    {
        Recorder { sink, at: 0, mode }
    }

    /// A log that failed gets nothing more if too much waits for it.
    fn give_up(&mut self, trail: &Trail)
        ensures { WaitsOrStops self.old self.new }
    {
        if trail.segments() > MOST_WAITING {
            self.mode = Mode::Dropped;
        }
    }

    /// Writes a segment, and lets it go.
    fn write(&mut self, trail: &mut Trail) -> RecordEnd
        requires mode { self.old.mode ≡ Logged }
        requires within { IsWithin self.old.at trail.old.parts }
        ensures logged { (was : Option (List ℕ)) (log : List Entry)
            → IsLogged T.held was log trail.old self.old
            → IsLogged T.held was log trail.new self.new }
        ensures all { result ≡ All → (was : Option (List ℕ)) (log : List Entry)
            → IsLogged T.held was log trail.old self.old
            → Keeps (append_known was (flat_map code_of log)) (T.held self.new.sink) }
        ensures cause { result ≡ NotWritten → Rose (T.faults self.old.sink)
            (T.faults self.new.sink) }
        ensures goes { LetsFrontGo trail.old trail.new }
        ensures mode { is_recording self.new.mode ≡ is_recording self.old.mode }
    {
        match write_segment(trail, &mut self.at, &mut self.sink) {
            Ok(true) => RecordEnd::More,
            Ok(false) => RecordEnd::All,
            Err(Failed) => {
                self.give_up(trail);
                RecordEnd::Failed
            }
        }
    }

    /// Records a segment, and lets it go, if a later one has the last entry. What is kept in the
    /// trail stays there. A log that fails keeps nothing from going on: what it lacks is tried
    /// again, and once too much waits it gets nothing more, and what it has stays.
    pub fn record(&mut self, trail: &mut Trail) -> RecordEnd
        requires within { self.old.mode ≡ Logged → IsWithin self.old.at trail.old.parts }
        ensures logged { (was : Option (List ℕ)) (log : List Entry)
            → IsLogged T.held was log trail.old self.old
            → IsLogged T.held was log trail.new self.new }
        ensures all { result ≡ All → self.old.mode ≡ Logged
            → (was : Option (List ℕ)) (log : List Entry)
            → IsLogged T.held was log trail.old self.old
            → Keeps (append_known was (flat_map code_of log)) (T.held self.new.sink) }
        ensures cause { result ≡ NotWritten → Rose (T.faults self.old.sink)
            (T.faults self.new.sink) }
        ensures kept { self.old.mode ≡ Kept → trail.new ≡ trail.old }
        ensures goes { LetsFrontGo trail.old trail.new }
        ensures mode { is_recording self.new.mode ≡ is_recording self.old.mode }
    {
        match self.mode {
            Mode::Kept => RecordEnd::All,
            Mode::Logged => self.write(trail),
            Mode::Dropped => {
                if trail.let_go() {
                    RecordEnd::More
                } else {
                    RecordEnd::All
                }
            }
        }
    }
}
