// A closed history, made again by a manager alone, tells each caller what it was told.
ghost use Rattle.std.specs.Prelude.{◌<◌};
ghost use Rattle.scm_book.specs.Passes.{IsOf};

use crate::crowds::{Crowd, Visit, gather};
use book_calls::{Asked, Told, close, limits, make, new_book, new_manager, told_by};
use record_journal::MemoryKeeper;
use scm_book::{Book, Opened};
use scm_core::Manager;
use scm_model::{Answer, Request, Step};
use scm_text::WText;
use scm_trail::Trail;
use std::alloc::Global;
use std::sync::Wait;
use std::test::Fail;
use std::thread::Threads;

/// A history that was closed, and the visits that are in it.
struct Whole {
    trail: Trail,
    visits: Vec<Visit>,
}

/// Closes a book that a crowd came to.
fn close_whole<R: Wait>(rt: &R, book: Book<MemoryKeeper>, crowd: Crowd) -> Whole
    requires { IsOf book crowd.pass }
{
    let Crowd { pass, visits } = crowd;
    let spent = book.gone(rt, pass, 0);
    let trail = close(rt, book, spent);
    Whole { trail, visits }
}

/// As many threads as there are to be, each with a visit.
fn many<R: Threads + Wait + Sync>(rt: &R, alloc: Global, threads: u64, calls: u64) -> Option<Whole>
    requires { 0 < threads }
{
    let Opened { book, pass } = new_book(alloc, limits(16_777_216), Vec::new(alloc))?;
    match gather(rt, alloc, &book, pass, 0, threads, calls) {
        Some(crowd) => Some(close_whole(rt, book, crowd)),
        None => {
            drop(book);
            None
        }
    }
}

fn name_of(text: &WText) -> Option<u16> {
    match text.units() {
        [unit] => Some(*unit),
        _ => None,
    }
}

/// The call of a request, if it is one.
fn asked_by(request: &Request) -> Option<Asked> {
    Some(match request {
        Request::OpenManager { .. } => Asked::OpensManager,
        Request::Create(new) => Asked::Creates {
            manager: new.handle,
            name: name_of(&new.name)?,
        },
        Request::OpenService { handle, name, .. } => Asked::Opens {
            manager: *handle,
            name: name_of(name)?,
        },
        Request::QueryStatus { handle } => Asked::Queries { handle: *handle },
        Request::Lock { handle } => Asked::Locks { manager: *handle },
        Request::Unlock { handle } => Asked::Unlocks { lock: *handle },
        Request::Delete { handle } => Asked::Deletes { handle: *handle },
        Request::Close { handle } => Asked::Closes { handle: *handle },
        _ => return None,
    })
}

/// What an answer says in short.
fn heard(answer: &Answer) -> Told {
    match answer {
        Answer::Caller(number) => Told {
            code: 0,
            number: *number,
        },
        Answer::Reply(reply) => told_by(reply),
        _ => Told { code: 0, number: 0 },
    }
}

impl Visit {
    /// Whether this is what the caller asked next, and was told.
    fn reads(&mut self, asked: Option<Asked>, told: Told) -> bool {
        let read = self.read;
        self.read = read.saturating_add(1);
        match self.lines.get(read) {
            Some(line) => asked == Some(line.asked) && told == line.told,
            None => false,
        }
    }

    /// Whether the step is the next of the caller, and answered as the caller was.
    fn goes_on(&mut self, step: &Step, told: Told) -> bool {
        match step {
            Step::Joined { .. } => {
                let is_first = self.caller == 0;
                self.caller = told.number;
                is_first
            }
            Step::Call {
                caller,
                request,
                ..
            } => *caller == self.caller && self.reads(asked_by(request), told),
            Step::Gone { caller } => *caller == self.caller && self.read == self.lines.len(),
            _ => false,
        }
    }
}

/// The answer of a manager that nothing else uses to a step, if that may be made. The step is used
/// up.
fn told_next(manager: &mut Manager, moment: u64, step: &mut Step) -> Option<Told> {
    match make(manager, moment, step) {
        Some(answer) => {
            let told = heard(&answer);
            drop(answer);
            Some(told)
        }
        None => None,
    }
}

/// The same of a copy of a step.
fn again(alloc: Global, manager: &mut Manager, moment: u64, step: &Step) -> Option<Told> {
    match step.copy(alloc) {
        Ok(mut copy) => {
            let told = told_next(manager, moment, &mut copy);
            drop(copy);
            told
        }
        Err(_) => None,
    }
}

/// Whether an entry is the next of the visit of its mark, and its answer is the same again.
fn is_told(
    alloc: Global,
    manager: &mut Manager,
    visits: &mut [Visit],
    moment: u64,
    step: &Step,
) -> bool {
    let Some(told) = again(alloc, manager, moment, step) else {
        return false;
    };
    match visits.get_mut(moment as usize) {
        Some(visit) => visit.goes_on(step, told),
        None => false,
    }
}

/// The same of an entry.
fn is_told_again(
    alloc: Global,
    manager: &mut Manager,
    visits: &mut [Visit],
    entry: (u64, Step),
) -> bool {
    let (moment, step) = entry;
    let is_told = is_told(alloc, manager, visits, moment, &step);
    drop(step);
    is_told
}

/// Whether each entry is.
fn are_told(alloc: Global, manager: &mut Manager, trail: &Trail, visits: &mut [Visit]) -> bool {
    for place in trail.past()..trail.len() {
        let Ok(entry) = trail.entry(place) else {
            return false;
        };
        if !is_told_again(alloc, manager, visits, entry) {
            return false;
        }
    }
    true
}

/// Whether a manager that begins as the book's did tells all callers the same again.
fn is_one_history(alloc: Global, trail: &Trail, visits: &mut [Visit]) -> bool {
    match new_manager(alloc, limits(16_777_216)) {
        Ok(mut manager) => {
            let told = are_told(alloc, &mut manager, trail, visits);
            manager.close();
            told
        }
        Err(_) => false,
    }
}

/// Whether eight threads get the answers that their history gives, 1,000 calls each, with a step
/// before and one after them.
fn are_eight_told<R: Threads + Wait + Sync>(rt: &R, alloc: Global) -> bool {
    match many(rt, alloc, 8, 1000) {
        Some(Whole { trail, mut visits }) => {
            let is_whole = trail.len() == 8 * 1002;
            let is_one = is_one_history(alloc, &trail, &mut visits);
            drop(visits);
            drop(trail);
            is_whole && is_one
        }
        None => false,
    }
}

#[test]
fn each_of_eight_threads_is_told_what_the_history_tells(rt: HostRuntime) -> Result<(), Fail> {
    assert!(rt; are_eight_told(&rt, rt.alloc()));
    Ok(())
}
