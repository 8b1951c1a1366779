// A child from its first byte to its end: its output, the lines in it, and their reports.
ghost use Rattle.std.specs.Prelude.{◌≡◌, ◌≤◌, ◌∷◌, [], length, ◌^◌};
ghost use Rattle.scm_model.specs.declared.flat.Phase.TheVariants as phases;
ghost use Rattle.scm_book.specs.Passes.{HoldsProcess, IsOf};
ghost use Rattle.child_runner.specs.Reports.{Fed, Reports, child_parts};
ghost use Rattle.std.specs.Io.KnownBytes.{Keeps};
ghost use Rattle.child_runner.specs.Serving.{IsWhole, IsReadFor, IsEndedFor, MakesReports};
ghost use Rattle.child_runner.specs.Serving.{ReadsAll, ReadsOn, ServesChild, Awaits};
ghost use Rattle.child_runner.specs.Serving.{child_served_as, waited_in_vain};

use crate::served::{ChildEnded, ChildServed};
use child_link::{LineCutter, Link, Reported, read_report};
use feed_loop::{ByteConsumer, ReadEnd, feed_all};
use outside::{Clock, Failed};
use record_journal::Keeper;
use scm_book::{Book, MakeFault, Pass, ReportEnd};
use std::alloc::Global;
use std::convert::Infallible;
use std::sync::Wait;

/// Takes the pieces of a process's output, and makes the reports that its lines are by a pass.
pub struct Reporter<'a, R: Wait, K: Keeper, C: Clock> {
    pub rt: &'a R,
    pub book: &'a Book<K>,
    pub process: u64,
    pub clock: &'a C,
    pub line: LineCutter,
}

/// A drop of its own: a function that owns one drops it by a call, which is proved once.
impl<'a, R: Wait, K: Keeper, C: Clock> Drop for Reporter<'a, R, K, C> {
    fn drop(self) {
        let Reporter {
            rt: _rt,
            book: _book,
            process: _process,
            clock: _clock,
            line,
        } = self;
        drop(line);
    }
}

impl<'a, R: Wait, K: Keeper, C: Clock> Reporter<'a, R, K, C> {
    /// Makes a report of the process.
    fn report(&self, pass: &mut Pass, found: &Reported) -> Result<(), MakeFault>
        requires book { IsOf self.now.book.now pass.old }
        requires process { HoldsProcess self.now.book.now.opening pass.old self.now.process
            phases.Launched }
        ensures book { IsOf self.now.book.now pass.new }
        ensures process { HoldsProcess self.now.book.now.opening pass.new self.now.process
            phases.Launched }
        ensures reports { Reports (C.tells self.now.clock.now) self.now.book.now.opening
            self.now.process pass.old found.now pass.new result }
    {
        let Reported { service, status } = *found;
        let moment = self.clock.now();
        match self
            .book
            .report(self.rt, pass, moment, self.process, service, &status)
        {
            ReportEnd::Taken | ReportEnd::Refused(_) | ReportEnd::Stale => Ok(()),
            ReportEnd::Unmade(fault) => Err(fault),
        }
    }

    /// Takes a byte, and makes the report that the line is which it ends.
    fn take(&mut self, pass: &mut Pass, byte: u8) -> Result<(), MakeFault>
        requires book { IsOf self.old.book.now pass.old }
        requires process { HoldsProcess self.old.book.now.opening pass.old self.old.process
            phases.Launched }
        requires line { length self.old.line ≤ 4096 }
        ensures kept { child_parts self.new.book.now self.new.clock.now self.new.process
            ≡ child_parts self.old.book.now self.old.clock.now self.old.process }
        ensures book { IsOf self.new.book.now pass.new }
        ensures process { HoldsProcess self.new.book.now.opening pass.new self.new.process
            phases.Launched }
        ensures line { length self.new.line ≤ 4096 }
        ensures fed { Fed (C.tells self.old.clock.now) self.old.book.now.opening self.old.process
            (byte ∷ []) self.old.line self.new.line pass.old pass.new result }
    {
        if !self.line.take(byte) {
            return Ok(());
        }
        let found = read_report(self.line.line());
        self.line.clear();
        match found {
            Some(found) => self.report(pass, &found),
            None => Ok(()),
        }
    }

    /// Takes a piece of a child's output, and makes the reports that the lines are which end in it.
    fn feed(&mut self, pass: &mut Pass, piece: &[u8]) -> Result<(), MakeFault>
        requires book { IsOf self.old.book.now pass.old }
        requires process { HoldsProcess self.old.book.now.opening pass.old self.old.process
            phases.Launched }
        requires line { length self.old.line ≤ 4096 }
        ensures kept { child_parts self.new.book.now self.new.clock.now self.new.process
            ≡ child_parts self.old.book.now self.old.clock.now self.old.process }
        ensures book { IsOf self.new.book.now pass.new }
        ensures process { HoldsProcess self.new.book.now.opening pass.new self.new.process
            phases.Launched }
        ensures line { length self.new.line ≤ 4096 }
        ensures fed { Fed (C.tells self.old.clock.now) self.old.book.now.opening self.old.process
            piece.now self.old.line self.new.line pass.old pass.new result }
    {
        for byte in piece {
            match self.take(pass, *byte) {
                Ok(()) => {}
                Err(fault) => return Err(fault),
            }
        }
        Ok(())
    }
}

impl<'a, R: Wait, K: Keeper, C: Clock> ByteConsumer<Pass, ()> for Reporter<'a, R, K, C> {
    ghost use Rattle.std.specs.Prelude.{◌≡◌, ◌≤◌, length};
    ghost use Rattle.scm_model.specs.declared.flat.Phase.TheVariants as phases;
    ghost use Rattle.scm_book.specs.Passes.{HoldsProcess, IsOf};
    ghost use Rattle.child_runner.specs.Reports.{GoesOn, Stops, child_parts};

    type Stop = MakeFault;

    ghost ready = { λ a most. IsOf a.eater.book.now a.place
        × HoldsProcess a.eater.book.now.opening a.place a.eater.process phases.Launched
        × (length a.eater.line ≤ 4096) };

    ghost eats = { λ a b piece. (child_parts b.eater.book.now b.eater.clock.now b.eater.process
        ≡ child_parts a.eater.book.now a.eater.clock.now a.eater.process)
        × GoesOn (C.tells a.eater.clock.now) a.eater.book.now.opening a.eater.process piece
        a.eater.line b.eater.line a.place b.place };

    ghost stops = { λ a b piece why. (child_parts b.eater.book.now b.eater.clock.now b.eater.process
        ≡ child_parts a.eater.book.now a.eater.clock.now a.eater.process)
        × Stops (C.tells a.eater.clock.now) a.eater.book.now.opening a.eater.process piece
        a.eater.line b.eater.line a.place b.place why };

    fn consume(
        &mut self,
        pass: &mut Pass,
        _output: &mut (),
        piece: &[u8],
    ) -> Result<(), MakeFault> {
        self.feed(pass, piece)
    }
}

/// Takes pieces, and makes nothing of them.
#[derive(Drop)]
pub struct Unread;

impl ByteConsumer<(), ()> for Unread {
    type Stop = Infallible;

    ghost ready = { λ a most. Unit {0} };

    ghost eats = { λ a b piece. Unit {0} };

    ghost stops = { λ a b piece why. ⊥ };

    fn consume(
        &mut self,
        _place: &mut (),
        _output: &mut (),
        _piece: &[u8],
    ) -> Result<(), Infallible> {
        Ok(())
    }
}

/// How it ends that a child's output was fed so.
fn served_as(fed: ReadEnd<MakeFault>) -> ChildServed
    ensures { result ≡ child_served_as fed }
{
    match fed {
        ReadEnd::Ended => ChildServed::Ended,
        ReadEnd::ReadFault => ChildServed::ReadFault,
        ReadEnd::Worn => ChildServed::Worn,
        ReadEnd::Stopped(MakeFault::Full) => ChildServed::Full,
        ReadEnd::Stopped(MakeFault::OutOfMemory) => ChildServed::OutOfMemory,
    }
}

/// Makes the reports of a child's output, until it ends or one can't be made.
fn make_reports<R: Wait, K: Keeper, L: Link, C: Clock>(
    rt: &R,
    book: &Book<K>,
    pass: &mut Pass,
    process: u64,
    link: &mut L,
    clock: &C,
    line: LineCutter,
    count: &mut u64,
) -> ChildServed
    requires book { IsOf book.now pass.old }
    requires process { HoldsProcess book.now.opening pass.old process phases.Launched }
    requires line { line ≡ [] }
    requires count { count.old ≡ 0 }
    ensures book { IsOf book.now pass.new }
    ensures process { HoldsProcess book.now.opening pass.new process phases.Launched }
    ensures most { count.new ≤ 2 ^ 40 }
    ensures makes { MakesReports (C.tells clock.now) book.now.opening process pass.old pass.new
        (L.left link.old) (L.left link.new) count.new result }
    ensures cause { IsReadFor result (L.faults link.old) (L.faults link.new) }
{
    let mut reporter = Reporter {
        rt,
        book,
        process,
        clock,
        line,
    };
    served_as(feed_all(&mut reporter, pass, &mut (), link, count))
}

/// Reads what is left, and makes nothing of it.
fn pass_over<L: Link>(link: &mut L, count: &mut u64)
    requires { count.old ≤ 2 ^ 40 }
    ensures { ReadsOn (L.left link.old) (L.left link.new) count.old
        (L.faults link.old) (L.faults link.new) }
{
    feed_all(&mut Unread, &mut (), &mut (), link, count);
}

/// Makes the reports of a child's output, and reads it to its end.
fn read_all<R: Wait, K: Keeper, L: Link, C: Clock>(
    rt: &R,
    alloc: Global,
    book: &Book<K>,
    pass: &mut Pass,
    process: u64,
    link: &mut L,
    clock: &C,
) -> ChildServed
    requires book { IsOf book.now pass.old }
    requires process { HoldsProcess book.now.opening pass.old process phases.Launched }
    ensures book { IsOf book.now pass.new }
    ensures process { HoldsProcess book.now.opening pass.new process phases.Launched }
    ensures reads { ReadsAll (C.tells clock.now) book.now.opening process pass.old pass.new
        (L.left link.old) (L.left link.new) (L.faults link.old) (L.faults link.new) result }
    ensures cause { IsReadFor result (L.faults link.old) (L.faults link.new) }
{
    let mut count = 0u64;
    let Ok(line) = LineCutter::new(alloc) else {
        pass_over(link, &mut count);
        return ChildServed::OutOfMemory;
    };
    match make_reports(rt, book, pass, process, link, clock, line, &mut count) {
        ChildServed::Full => {
            pass_over(link, &mut count);
            ChildServed::Full
        }
        ChildServed::OutOfMemory => {
            pass_over(link, &mut count);
            ChildServed::OutOfMemory
        }
        how => how,
    }
}

/// How it ends that the wait for a child's end failed.
fn waited_in_vain(how: ChildServed) -> ChildServed
    ensures { result ≡ waited_in_vain how }
{
    match how {
        ChildServed::Ended => ChildServed::ReadFault,
        other => other,
    }
}

/// Waits for a child's end.
fn wait<L: Link>(link: &mut L, how: ChildServed) -> ChildServed
    ensures bytes { Keeps (L.left link.old) (L.left link.new) }
    ensures waits { Awaits how (L.ended link.new) (L.faults link.old) (L.faults link.new) result }
{
    match link.wait() {
        Ok(()) => how,
        Err(Failed) => waited_in_vain(how),
    }
}

/// Serves a launched process until it ends: each line of its output that is a report is a step of
/// the pass, and last comes its end, whatever happened before. Where a report finds no room or no
/// memory, the rest of the output is read without steps. At most 2^40 bytes are read.
pub fn serve_child<R: Wait, K: Keeper, L: Link, C: Clock>(
    rt: &R,
    alloc: Global,
    book: &Book<K>,
    mut pass: Pass,
    process: u64,
    link: &mut L,
    clock: &C,
) -> ChildEnded
    requires book { IsOf book.now pass }
    requires nobody { pass.caller ≡ 0 }
    requires process { HoldsProcess book.now.opening pass process phases.Launched }
    ensures book { IsOf book.now result.spent }
    ensures serves { ServesChild (C.tells clock.now) book.now.opening process pass
        result.spent (L.left link.old) (L.left link.new)
        (L.faults link.old) (L.faults link.new) result.how }
    ensures cause { IsEndedFor result.how (L.ended link.new)
        (L.faults link.old) (L.faults link.new) }
    ensures complete { IsWhole (C.tells clock.now) book.now.opening process pass
        result.spent (L.left link.old) (L.faults link.old) (L.faults link.new) result.how }
{
    let how = read_all(rt, alloc, book, &mut pass, process, link, clock);
    let how = wait(link, how);
    book.ended(rt, &mut pass, clock.now(), process);
    let spent = book.gone(rt, pass, clock.now());
    ChildEnded { how, spent }
}
