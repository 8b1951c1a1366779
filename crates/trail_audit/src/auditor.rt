ghost use Rattle.std.specs.Prelude.{◌≡◌, ◌==◌, [], IfOk, None, Some, if◌then◌else◌, length};
ghost use Rattle.trail_text.specs.Audits.{BeforeLimits, entries_at, next};
ghost use Rattle.trail_audit.specs.Along.{CanGoOn, at_of, later_at};
ghost use Rattle.trail_audit.specs.Heads.{CanStart, IsSound, first_next, opening_of, start_of};

use super::entering::Entering;
use super::head::{Head, Start, begin, take_head};
use scm_text::{Buffer, OutOfMemory};
use std::alloc::Global;
use std::mem::replace;

/// Takes the lines of a text, one after another, and tells which of them may come.
#[derive(Drop)]
pub struct Auditor {
    alloc: Global,
    head: Head,
    /// Room in which cycles of needs are searched for.
    searched: Buffer<u64>,
    /// What makes the entries, from the first of them on.
    entering: Option<Entering>,
    /// Whether the answer to the last entry comes next.
    is_due: bool,
    /// Its line.
    due: Vec<u8>,
}

/// Takes the line of an entry, or of the answer that is due.
fn take_later(
    alloc: Global,
    entering: &mut Entering,
    is_due: &mut bool,
    due: &mut Vec<u8>,
    line: &[u8],
) -> Result<bool, OutOfMemory>
    ensures { IfOk result (λ right. next (later_at is_due.old due.old.items entering.old) line.now
        ≡ (if right then Some (later_at is_due.new due.new.items entering.new) else None)) }
{
    if *is_due {
        let right = due.as_slice() == line;
        *is_due = !right;
        return Ok(right);
    }
    let right = entering.enter(alloc, line, due)?;
    *is_due = right;
    Ok(right)
}

impl Auditor {
    /// No line was read.
    pub fn new(alloc: Global) -> Result<Auditor, OutOfMemory>
        ensures at { IfOk result (λ auditor. at_of auditor ≡ BeforeLimits) }
        ensures on { IfOk result CanGoOn }
    {
        let searched = Buffer::with_room(alloc, 0)?;
        match Head::new(alloc) {
            Ok(head) => Ok(Auditor {
                alloc,
                head,
                searched,
                entering: None,
                is_due: false,
                due: Vec::new(alloc),
            }),
            Err(OutOfMemory) => {
                drop(searched);
                Err(OutOfMemory)
            }
        }
    }

    /// How many entries a text has that ends after the lines so far, if one may.
    pub fn entries(&self) -> Option<u64>
        ensures { result ≡ entries_at (at_of self.now) }
    {
        match &self.entering {
            Some(_) if self.is_due => None,
            Some(entering) => Some(entering.entries()),
            None => match self.head.stage.start() {
                Some(_) => Some(0),
                None => None,
            },
        }
    }

    /// Takes the line of the first entry.
    fn take_first(&mut self, start: Start, line: &[u8]) -> Result<bool, OutOfMemory>
        requires none { self.old.entering ≡ None }
        requires listing { start_of self.old.head.stage ≡ Some start }
        requires sound { IsSound self.old.head }
        ensures leads { IfOk result (λ right.
            first_next (opening_of start self.old.head.lists) line.now
            ≡ (if right then Some (at_of self.new) else None)) }
        ensures on { CanGoOn self.new }
    {
        let mut entering = begin(self.alloc, &mut self.head.lists, start)?;
        let entered = entering.enter(self.alloc, line, &mut self.due);
        drop(replace(&mut self.entering, Some(entering)));
        let right = entered?;
        self.is_due = right;
        Ok(right)
    }

    /// Takes a line while no entry was read.
    fn take_early(&mut self, line: &[u8]) -> Result<bool, OutOfMemory>
        requires none { self.old.entering ≡ None }
        requires sound { IsSound self.old.head }
        ensures leads { IfOk result (λ right. next (at_of self.old) line.now
            ≡ (if right then Some (at_of self.new) else None)) }
        ensures on { CanGoOn self.new }
    {
        if take_head(self.alloc, &mut self.head, &mut self.searched, line)? {
            return Ok(true);
        }
        match self.head.stage.start() {
            Some(start) => self.take_first(start, line),
            None => Ok(false),
        }
    }

    /// Takes the next line, without the line feed that ends it, and tells whether it may come.
    pub fn take_line(&mut self, line: &[u8]) -> Result<bool, OutOfMemory>
        requires { CanGoOn self.old }
        ensures leads { IfOk result (λ right. next (at_of self.old) line.now
            ≡ (if right then Some (at_of self.new) else None)) }
        ensures on { CanGoOn self.new }
    {
        match &mut self.entering {
            Some(entering) => {
                take_later(self.alloc, entering, &mut self.is_due, &mut self.due, line)
            }
            None => self.take_early(line),
        }
    }
}
