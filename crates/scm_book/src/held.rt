// What the holder of the turn has, and the steps that it makes, each with its note.
ghost use Rattle.std.specs.Prelude.{◌≡◌, IfSome, true, ◌≤◌, ◌<◌, ◌+◌, ◌^◌, IsSome, IsTrue};
ghost use Rattle.std.specs.Prelude.{IfErr, IfOk, OnErr, OnOk};
ghost use Rattle.std.specs.Option.{ForSome};
ghost use Rattle.scm_trail.specs.Notes.{is_brief};
ghost use Rattle.scm_trail.specs.Trailed.{no_entries};
ghost use Rattle.scm_book.specs.Ghosts.{ghosts_of};
ghost use Rattle.scm_book.specs.Steps.{owed_step, Adds, Grows, HasMemory, IsAsItWas, IsPrepared};
ghost use Rattle.scm_book.specs.Steps.{KeepsAs, Makes, TellsRight, Why, has_room_in, may_come_in};
ghost use Rattle.scm_book.specs.Steps.{may_in};
ghost use Rattle.scm_book.specs.Recording.{CanRecord, Records};
ghost use Rattle.scm_model.specs.Entries.{with_kept};
ghost use Rattle.scm_model.specs.Texts.{text_of};
ghost use Rattle.scm_rules.specs.Owed.{owed};
ghost use Rattle.scm_rules.specs.Room.{debt};
ghost use Rattle.scm_core.specs.Managed.{AreSmall, WasMadeFor};

use crate::fault::MakeFault;
use book_rule::Guarded;
use history_log::HistoryLog;
use record_journal::{Journal, KeepFault, Keeper};
use scm_core::Manager;
use scm_model::{Answer, Kept, Step};
use scm_text::OutOfMemory;
use scm_trail::{Note, Trail};
use std::alloc::Global;
use trail_log::{RecordEnd, Recorder};

/// A step, and its note for the trail. The manager uses up the one, and the trail keeps the other.
/// There is no note where there was no memory for it. It is made before the turn is taken, so that
/// no request is copied with the turn held.
pub struct PendingEntry {
    pub step: Step,
    pub note: Option<Note>,
    ghost same: { ForSome note (λ other. other ≡ step) },
}

/// A drop of its own: a function that owns one drops it by a call, which is proved once.
impl Drop for PendingEntry {
    fn drop(self) {
        let PendingEntry { step, note } = self;
        drop(step);
        drop(note);
    }
}

/// The note of a step, if there is memory for it.
#[inline(always)]
fn note_of(alloc: Global, step: &Step) -> Option<Note>
    ensures { IfSome result (λ note. note ≡ step.now) }
{
    match Note::new(alloc, step) {
        Ok(note) => Some(note),
        Err(_) => None,
    }
}

impl PendingEntry {
    #[inline(always)]
    pub fn new(alloc: Global, step: Step) -> PendingEntry
        ensures { result.step ≡ step }
    {
        let note = note_of(alloc, &step);
        PendingEntry { step, note }
    }

    /// Makes the note of a step that has none, where the step lies.
    #[inline(always)]
    pub fn write(&mut self, alloc: Global)
        ensures { self.new.step ≡ self.old.step }
    {
        self.note = note_of(alloc, &self.step);
    }
}

/// A step that is owed: it takes place without being asked for, and its room was made when it
/// became owed. It holds no memory.
#[derive(Clone, Copy)]
pub enum Owed {
    /// A start that waited is answered.
    EndStart { caller: u64, plan: u64 },
    /// The launch that is wanted first is taken.
    LaunchTaken,
    /// A process was launched. The system's number of it is `pid`.
    Launched { process: u64, pid: u32 },
    /// A process could not be launched.
    LaunchFailed { process: u64, code: u32 },
    /// A process has ended.
    Ended { process: u64 },
    /// A connection ends.
    Gone { caller: u64 },
}

impl Owed {
    /// The step.
    pub fn step(self) -> Step
        ensures { result ≡ owed_step self }
    {
        match self {
            Owed::EndStart { caller, plan } => Step::EndStart { caller, plan },
            Owed::LaunchTaken => Step::LaunchTaken,
            Owed::Launched { process, pid } => Step::Launched { process, pid },
            Owed::LaunchFailed { process, code } => Step::LaunchFailed { process, code },
            Owed::Ended { process } => Step::Ended { process },
            Owed::Gone { caller } => Step::Gone { caller },
        }
    }

    /// The note of the step, which takes no memory.
    #[tactic(auto, using(crate::proofs::Room::owed_brief))]
    pub fn note(self) -> Note
        ensures { result ≡ owed_step self }
    {
        let step = self.step();
        let note = brief_note(&step);
        drop(step);
        note
    }
}

/// The note of a step that takes no memory to write.
fn brief_note(step: &Step) -> Note
    requires { is_brief step.now ≡ true }
    ensures { result ≡ step.now }
{
    let Some(note) = Note::brief(step) else {
        unreachable!()
    };
    note
}

/// What the holder of the turn has: the manager, the trail of the last steps that it made, what
/// records them, and the journal of the changes that were kept, with its keeper.
#[derive(Drop)]
pub struct Held<K: Keeper> {
    pub manager: Manager,
    pub trail: Trail,
    pub recorder: Recorder<HistoryLog>,
    pub journal: Journal,
    pub keeper: K,
    pub(crate) alloc: Global,
}

/// Lets a step tell what became of its change.
fn tell(step: &mut Step, now: Kept)
    ensures { step.new ≡ with_kept step.old now }
{
    if let Step::Call { kept, .. } = step {
        *kept = now;
    }
}

impl<K: Keeper> Guarded for Held<K> {
    ghost use Rattle.scm_book.specs.Holds.{way_of};

    ghost way = { way_of (ghosts_of K.held K.faults K.settled K.crashes K.are_crashes K.asked) };
}

impl<K: Keeper> Held<K> {
    /// With no history yet.
    pub fn new(
        alloc: Global,
        manager: Manager,
        recorder: Recorder<HistoryLog>,
        journal: Journal,
        keeper: K,
    ) -> Held<K>
        ensures manager { result.manager ≡ manager }
        ensures trail { result.trail ≡ no_entries }
        ensures recorder { result.recorder ≡ recorder }
        ensures journal { result.journal ≡ journal }
        ensures keeper { result.keeper ≡ keeper }
    {
        Held {
            manager,
            trail: Trail::new(alloc),
            recorder,
            journal,
            keeper,
            alloc,
        }
    }

    pub(crate) fn into_keeper(self) -> K
        ensures { result ≡ self.keeper }
    {
        let Held {
            manager,
            trail: _,
            recorder: _,
            journal: _,
            keeper,
            alloc: _,
        } = self;
        manager.close();
        keeper
    }

    /// How many entries a step may add and leave owed, if they can be counted, and one at least.
    #[inline(always)]
    fn debt(&self, step: &Step) -> Option<u64>
        ensures least { IfSome result (λ entries. debt self.now.manager.flat step.now ≤ entries) }
        ensures one { IfSome result (λ entries. 1 ≤ entries) }
    {
        let debt = self.manager.debt(step);
        if debt == u64::MAX {
            return None;
        }
        Some(debt.max(1))
    }

    /// Makes all memory that a step and the entries which come to be owed can use.
    #[inline(always)]
    fn reserve_for(&mut self, owing: u64, step: &Step) -> Result<(), OutOfMemory>
        requires owing { owing ≡ owed self.old.manager.flat }
        requires room { has_room_in self.old step.now ≡ true }
        requires small { AreSmall self.old.manager.limits }
        ensures same { IsAsItWas self.old self.new }
        ensures made { OnOk result (WasMadeFor self.new.manager.room step.now) }
        ensures room { OnOk result (HasMemory self.old step.now self.new) }
        ensures one { OnOk result (1 ≤ self.new.trail.room) }
        ensures text { OnOk result (text_of step.now ≤ self.new.trail.text_room) }
    {
        let Some(debt) = self.debt(step) else {
            return Err(OutOfMemory);
        };
        let Some(entries) = owing.checked_add(debt) else {
            return Err(OutOfMemory);
        };
        self.trail.reserve(entries, step.text() as u64)?;
        self.manager.reserve_for(step)
    }

    /// Appends the change that a step makes, where it makes one, and says what became of it.
    #[inline(always)]
    fn keep(&mut self, step: &Step) -> Result<Kept, OutOfMemory>
        requires { WasMadeFor self.old.manager.room step.now }
        ensures manager { self.new.manager ≡ self.old.manager }
        ensures trail { self.new.trail ≡ self.old.trail }
        ensures recorder { self.new.recorder ≡ self.old.recorder }
        ensures keeps { IfOk result (KeepsAs
            (ghosts_of K.held K.faults K.settled K.crashes K.are_crashes K.asked)
            self.old self.new step.now) }
        ensures told { IfOk result (TellsRight self.old step.now) }
        ensures journal { OnErr result (self.new.journal ≡ self.old.journal) }
        ensures keeper { OnErr result (self.new.keeper ≡ self.old.keeper) }
    {
        let Some(change) = self.manager.change_made(step) else {
            return Ok(Kept::NotAsked);
        };
        match self.journal.append(self.alloc, &mut self.keeper, change) {
            Ok(()) => Ok(Kept::Kept),
            Err(KeepFault::Failed) => Ok(Kept::Failed),
            Err(KeepFault::OutOfMemory) => Err(OutOfMemory),
        }
    }

    /// Does a step for which there is all memory, and puts its answer into its place. The trail
    /// keeps its note.
    #[inline(always)]
    fn grow(&mut self, moment: u64, step: &mut Step, note: Note, answer: &mut Answer)
        requires note { note ≡ step.old }
        requires may { IsTrue (may_in self.old moment step.old) }
        requires made { WasMadeFor self.old.manager.room step.old }
        requires steps { self.old.manager.steps < 2 ^ 50 }
        requires text { self.old.manager.text + text_of step.old < 2 ^ 63 }
        requires room { 1 ≤ self.old.trail.room }
        requires text_room { text_of step.old ≤ self.old.trail.text_room }
        ensures grows { Grows self.old self.new moment step.old answer.new }
        ensures journal { self.new.journal ≡ self.old.journal }
        ensures keeper { self.new.keeper ≡ self.old.keeper }
        ensures room { self.old.trail.room ≤ self.new.trail.room + 1 }
    {
        self.manager.step_at(moment, step, answer);
        self.trail.push(moment, note);
    }

    /// Makes all that a step can use, appends its change where it makes one, and says what became
    /// of that.
    #[inline(always)]
    pub(crate) fn prepare(&mut self, doubled: &PendingEntry) -> Result<Kept, MakeFault>
        requires small { AreSmall self.old.manager.limits }
        ensures ok { IfOk result (IsPrepared
            (ghosts_of K.held K.faults K.settled K.crashes K.are_crashes K.asked)
            self.old self.new
            doubled.now.step) }
        ensures noted { OnOk result (IsSome doubled.now.note) }
        ensures err { OnErr result (IsAsItWas self.old self.new) }
        ensures why { IfErr result (λ fault. Why self.old doubled.now.step fault) }
    {
        let owing = self.manager.owed();
        if !self.manager.room_beside(owing, &doubled.step) {
            return Err(MakeFault::Full);
        }
        if doubled.note.is_none() {
            return Err(MakeFault::OutOfMemory);
        }
        let Ok(()) = self.reserve_for(owing, &doubled.step) else {
            return Err(MakeFault::OutOfMemory);
        };
        match self.keep(&doubled.step) {
            Ok(kept) => Ok(kept),
            Err(OutOfMemory) => Err(MakeFault::OutOfMemory),
        }
    }

    /// Makes a step that isn't owed, with a note of it that was made before, and uses both up. The
    /// `kept` that the step came with is ignored: the outcome of the append of its change takes its
    /// place. All memory is made first.
    #[inline(always)]
    pub fn make_pending(
        &mut self,
        moment: u64,
        doubled: &mut PendingEntry,
    ) -> Result<Answer, MakeFault>
        requires may { IsTrue (may_come_in self.old moment doubled.old.step) }
        requires small { AreSmall self.old.manager.limits }
        ensures ok { IfOk result (Makes
            (ghosts_of K.held K.faults K.settled K.crashes K.are_crashes K.asked)
            self.old self.new moment
            doubled.old.step) }
        ensures err { OnErr result (IsAsItWas self.old self.new) }
        ensures why { IfErr result (λ fault. Why self.old doubled.old.step fault) }
        ensures same { OnErr result (doubled.new ≡ doubled.old) }
    {
        let mut answer = Answer::Done;
        match self.make_into(moment, doubled, &mut answer) {
            Ok(()) => Ok(answer),
            Err(fault) => {
                drop(answer);
                Err(fault)
            }
        }
    }

    /// Makes a step that isn't owed, as `make_pending` does, and puts its answer into `answer`, so
    /// that the functions above it don't move it.
    #[inline(always)]
    pub fn make_into(
        &mut self,
        moment: u64,
        doubled: &mut PendingEntry,
        answer: &mut Answer,
    ) -> Result<(), MakeFault>
        requires may { IsTrue (may_come_in self.old moment doubled.old.step) }
        requires small { AreSmall self.old.manager.limits }
        ensures ok { OnOk result (Makes
            (ghosts_of K.held K.faults K.settled K.crashes K.are_crashes K.asked)
            self.old self.new moment
            doubled.old.step answer.new) }
        ensures err { OnErr result (IsAsItWas self.old self.new) }
        ensures why { IfErr result (λ fault. Why self.old doubled.old.step fault) }
        ensures same { OnErr result (doubled.new ≡ doubled.old) }
        ensures untold { OnErr result (answer.new ≡ answer.old) }
    {
        let kept = self.prepare(doubled)?;
        self.finish(moment, doubled, kept, answer);
        Ok(())
    }

    /// Does a step that was prepared, and puts its answer into its place.
    #[inline(always)]
    pub(crate) fn finish(
        &mut self,
        moment: u64,
        doubled: &mut PendingEntry,
        kept: Kept,
        answer: &mut Answer,
    )
        requires noted { IsSome doubled.old.note }
        requires may { IsTrue (may_in self.old moment (with_kept doubled.old.step kept)) }
        requires made { WasMadeFor self.old.manager.room doubled.old.step }
        requires steps { self.old.manager.steps < 2 ^ 50 }
        requires text { self.old.manager.text + text_of doubled.old.step < 2 ^ 63 }
        requires room { 1 ≤ self.old.trail.room }
        requires text_room { text_of doubled.old.step ≤ self.old.trail.text_room }
        ensures grows { Grows self.old self.new moment (with_kept doubled.old.step kept)
            answer.new }
        ensures journal { self.new.journal ≡ self.old.journal }
        ensures keeper { self.new.keeper ≡ self.old.keeper }
        ensures room { self.old.trail.room ≤ self.new.trail.room + 1 }
    {
        let Some(mut note) = doubled.note.take() else {
            unreachable!()
        };
        note.tell(kept);
        tell(&mut doubled.step, kept);
        self.grow(moment, &mut doubled.step, note, answer);
    }

    /// Makes a step that isn't owed, as `make_pending` does, and notes it itself.
    pub fn make(&mut self, moment: u64, step: Step) -> Result<Answer, MakeFault>
        requires may { IsTrue (may_come_in self.old moment step) }
        requires small { AreSmall self.old.manager.limits }
        ensures ok { IfOk result (Makes
            (ghosts_of K.held K.faults K.settled K.crashes K.are_crashes K.asked)
            self.old self.new moment step) }
        ensures err { OnErr result (IsAsItWas self.old self.new) }
        ensures why { IfErr result (λ fault. Why self.old step fault) }
    {
        let mut doubled = PendingEntry::new(self.alloc, step);
        let made = self.make_pending(moment, &mut doubled);
        drop(doubled);
        made
    }

    /// Makes a step that is owed. Its room was made when it came to be owed, so it always takes
    /// place.
    pub fn add(&mut self, moment: u64, owed: Owed) -> Answer
        requires may { IsTrue (may_come_in self.old moment (owed_step owed)) }
        requires steps { self.old.manager.steps < 2 ^ 50 }
        requires text { self.old.manager.text < 2 ^ 63 }
        requires room { 1 ≤ self.old.trail.room }
        ensures { Adds self.old self.new moment (owed_step owed) result }
    {
        let mut step = owed.step();
        let mut answer = Answer::Done;
        self.grow(moment, &mut step, owed.note(), &mut answer);
        drop(step);
        answer
    }

    /// Records a segment of the trail, and lets it go, if a later one has the last entry.
    pub(crate) fn record(&mut self) -> RecordEnd
        requires { CanRecord self.old }
        ensures { Records self.old self.new }
    {
        let _entries = self.trail.entries();
        self.recorder.record(&mut self.trail)
    }
}
