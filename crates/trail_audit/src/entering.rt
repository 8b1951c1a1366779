ghost use Rattle.std.specs.Prelude.{◌≡◌, ◌+◌, ◌≤◌, ◌^◌, nat_le, IfOk, IsTrue, None, OnOk, Some};
ghost use Rattle.std.specs.Prelude.{bytes_eq, if◌then◌else◌};
ghost use Rattle.scm_core.specs.Managed.{AreSmall};
ghost use Rattle.scm_lines.specs.Entries.{line_of};
ghost use Rattle.scm_lines.specs.Lines.{LeavesFound};
ghost use Rattle.scm_rules.specs.Opening.{CanOpen, opening};
ghost use Rattle.scm_rules.specs.Owed.{owed};
ghost use Rattle.trail_text.specs.Audits.{BeforeAnswer, step_next};
ghost use Rattle.trail_audit.specs.Entered.{IsReady, admitted, entry_at, made_next};

use scm_core::Manager;
use scm_lines::{Line, put_entry, read_line};
use scm_model::{Config, Limits, Step};
use scm_replay::{keep_as, kept_as};
use scm_shapes::Values;
use scm_text::{Items, OutOfMemory, WText};
use std::alloc::Global;
use std::marker::Model;
use trail_text::answer_entry;

/// A manager that makes the steps of entries whose lines are read. It counts them, and its memory
/// serves line after line. Contracts see the manager.
pub struct Entering {
    manager: Manager,
    entries: u64,
    /// The manager's limit of steps.
    most: u64,
    /// The values of the body that was read last.
    values: Values,
    /// The line of the entry that was read last, as it is written.
    written: Vec<u8>,
}

/// A drop of its own: what owns one drops it by a call, which is proved once.
impl Drop for Entering {
    fn drop(self) {
        let Entering {
            manager,
            entries: _entries,
            most: _most,
            values,
            written,
        } = self;
        drop(manager);
        drop(values);
        drop(written);
    }
}

impl Model for Entering {
    ghost use Rattle.scm_core.specs.Managed.{Managed};

    ghost Value = { Managed };

    ghost view = { λ e. e.manager };

    ghost use Rattle.trail_audit.specs.Entered.{IsCounted};

    ghost invariant = { IsCounted };
}

/// Makes room for the step of a line, and lets it tell what becomes of its change, if it may come
/// and doesn't say that an append of no change failed.
fn admit(manager: &mut Manager, line: &mut Line) -> Result<bool, OutOfMemory>
    ensures fit { IfOk result (λ fit. LeavesFound fit (line.new.moment, line.new.step)
        (admitted manager.old.limits manager.old.flat line.old)) }
    ensures ready { IfOk result (λ fit. IsTrue fit
        → IsReady manager.new line.new.moment line.new.step) }
    ensures flat { manager.new.flat ≡ manager.old.flat }
    ensures limits { manager.new.limits ≡ manager.old.limits }
    ensures steps { manager.new.steps ≡ manager.old.steps }
{
    if !manager.may(line.moment, &line.step) {
        return Ok(false);
    }
    manager.reserve_for(&line.step)?;
    if !manager.fits(&line.step) {
        return Err(OutOfMemory);
    }
    let changes = manager.makes_change(&line.step);
    if line.fails && !changes {
        return Ok(false);
    }
    keep_as(&mut line.step, kept_as(changes, line.fails));
    Ok(true)
}

/// Whether a text is the line of an entry, as it is written. That line is left in `written`.
fn is_written(
    alloc: Global,
    written: &mut Vec<u8>,
    entry: &Line,
    text: &[u8],
) -> Result<bool, OutOfMemory>
    ensures { IfOk result (λ is. is
        ≡ bytes_eq (line_of (entry.now.moment, entry.now.step)) text.now) }
{
    put_entry(alloc, written, entry.moment, &entry.step)?;
    Ok(written.as_slice() == text)
}

/// Reads the entry whose line a text is into a line, if it may come. Room is then made for its
/// step.
fn read_entry(
    alloc: Global,
    manager: &mut Manager,
    text: &[u8],
    values: &mut Values,
    written: &mut Vec<u8>,
    line: &mut Line,
) -> Result<bool, OutOfMemory>
    ensures found { IfOk result (λ found. LeavesFound found (line.new.moment, line.new.step)
        (entry_at manager.old.limits manager.old.flat text.now)) }
    ensures ready { IfOk result (λ found. IsTrue found
        → IsReady manager.new line.new.moment line.new.step) }
    ensures flat { manager.new.flat ≡ manager.old.flat }
    ensures limits { manager.new.limits ≡ manager.old.limits }
    ensures steps { manager.new.steps ≡ manager.old.steps }
{
    if !read_line(alloc, text, values, line)? {
        return Ok(false);
    }
    if !admit(manager, line)? {
        return Ok(false);
    }
    is_written(alloc, written, line, text)
}

/// Whether so many entries and all that is owed are no more than so many steps.
fn has_room(manager: &Manager, entries: u64, most: u64) -> bool
    requires { most ≤ 2 ^ 50 }
    ensures { result ≡ nat_le (entries + owed manager.now.flat) most }
{
    entries.saturating_add(manager.owed()) <= most
}

impl Entering {
    /// A manager that made no step yet.
    pub fn new(
        alloc: Global,
        limits: Limits,
        groups: Items<WText>,
        configs: Items<Config>,
        moment: u64,
    ) -> Result<Entering, OutOfMemory>
        requires configs { CanOpen limits configs }
        requires limits { AreSmall limits }
        ensures flat { IfOk result (λ entering. entering.flat
            ≡ opening limits groups configs moment) }
        ensures limits { IfOk result (λ entering. entering.limits ≡ limits) }
        ensures steps { IfOk result (λ entering. entering.steps ≡ 0) }
    {
        let manager = Manager::new(alloc, limits, groups, configs, moment)?;
        Ok(Entering {
            manager,
            entries: 0,
            most: limits.steps,
            values: Values::new(alloc),
            written: Vec::new(alloc),
        })
    }

    /// How many steps were made.
    pub fn entries(&self) -> u64
        ensures { result ≡ self.now.steps }
    {
        self.entries
    }

    /// Makes the step of an entry that was read, and puts the line that is due after it into
    /// `due`. It tells whether the limits have room for what is owed then.
    fn make(
        &mut self,
        alloc: Global,
        entry: &mut Line,
        due: &mut Vec<u8>,
    ) -> Result<bool, OutOfMemory>
        requires { IsReady self.old entry.old.moment entry.old.step }
        ensures leads { IfOk result (λ fits. made_next self.old.limits self.old.steps self.old.flat
            (entry.old.moment, entry.old.step)
            ≡ (if fits then Some (BeforeAnswer due.new.items
            self.new.limits self.new.steps self.new.flat) else None)) }
        ensures limits { self.new.limits ≡ self.old.limits }
    {
        self.entries += 1;
        answer_entry(alloc, &mut self.manager, entry.moment, &mut entry.step, due)?;
        Ok(has_room(&self.manager, self.entries, self.most))
    }

    /// The same as `enter`, with a line for what the text says.
    fn enter_by(
        &mut self,
        alloc: Global,
        text: &[u8],
        line: &mut Line,
        due: &mut Vec<u8>,
    ) -> Result<bool, OutOfMemory>
        ensures leads { IfOk result (λ right. step_next self.old.limits self.old.steps self.old.flat
            text.now
            ≡ (if right then Some (BeforeAnswer due.new.items
            self.new.limits self.new.steps self.new.flat) else None)) }
        ensures limits { self.new.limits ≡ self.old.limits }
    {
        let found = read_entry(
            alloc,
            &mut self.manager,
            text,
            &mut self.values,
            &mut self.written,
            line,
        )?;
        if found {
            self.make(alloc, line, due)
        } else {
            Ok(false)
        }
    }

    /// Takes the line of the next entry, without its line feed, and tells whether it is right: it
    /// is an entry's line as it is written, the entry may come, and after its step the limits have
    /// room for what is owed. The step is then made, and the line that is due after it stands in
    /// `due`. Where a line isn't right, or there is no memory, nothing is said of what comes after.
    pub fn enter(
        &mut self,
        alloc: Global,
        text: &[u8],
        due: &mut Vec<u8>,
    ) -> Result<bool, OutOfMemory>
        ensures leads { IfOk result (λ right. step_next self.old.limits self.old.steps self.old.flat
            text.now
            ≡ (if right then Some (BeforeAnswer due.new.items
            self.new.limits self.new.steps self.new.flat) else None)) }
        ensures limits { self.new.limits ≡ self.old.limits }
    {
        let mut line = Line {
            moment: 0,
            step: Step::Tick,
            fails: false,
        };
        let right = self.enter_by(alloc, text, &mut line, due);
        drop(line);
        right
    }
}
