ghost use Rattle.std.specs.Prelude.{◌≡◌, ◌≤◌};
ghost use Rattle.scm_book.specs.Passes.{IsOf, KeepsAll};
ghost use Rattle.child_runner.specs.Sending.{MayEnd, Sends, WritesLine, handed_of, unsent};

use child_link::{Feed, control_line};
use outside::{Clock, write_all};
use process_runner::Quit;
use record_journal::Keeper;
use scm_book::{Book, ControlLook, ControlRoom, MakeFault, Pass, Spent};
use scm_model::Order;
use std::alloc::Global;
use std::sync::Wait;

/// What ended the sending of a process's controls.
#[derive(Clone, Copy, Drop, PartialEq, Eq)]
pub enum ControlsSent {
    /// The process isn't listed: it ended, and gets no control more.
    Over,
    /// The end was asked for.
    Shut,
    /// The limits have no room for the taking of a control. It waits still.
    Full,
    /// The feed failed. The control that was taken last isn't written, or in part.
    WriteFault,
    /// There was no memory for a name, for the taking of a control, or for the line of the one that
    /// was taken last.
    OutOfMemory,
}

/// How the sending of a process's controls ended, the spent pass, and what its feed left.
#[derive(Drop)]
pub struct ControlsEnded<P> {
    pub how: ControlsSent,
    pub spent: Spent,
    pub past: P,
}

/// What ends the sending if the step that takes an order isn't made.
fn unsent(fault: MakeFault) -> ControlsSent
    ensures { result ≡ unsent fault }
{
    match fault {
        MakeFault::Full => ControlsSent::Full,
        MakeFault::OutOfMemory => ControlsSent::OutOfMemory,
    }
}

/// Writes the line of an order to a process that is shared or not, and tells what ended the sending
/// there, if something did. The name is that of a service that is to start.
fn send_line<F: Feed>(
    alloc: Global,
    feed: &mut F,
    order: &Order,
    shared: bool,
    name: &[u16],
) -> Option<ControlsSent>
    ensures { WritesLine (handed_of order.now shared name.now) (F.held feed.old) (F.held feed.new)
        (F.faults feed.old) (F.faults feed.new) result }
{
    let Ok(line) = control_line(alloc, order, shared, name) else {
        return Some(ControlsSent::OutOfMemory);
    };
    let written = write_all(feed, line.as_slice());
    drop(line);
    match written {
        Ok(()) => None,
        Err(_) => Some(ControlsSent::WriteFault),
    }
}

/// A process whose controls are sent, and what they are sent with.
#[derive(Drop)]
pub struct Sender<'a, R: Wait, K: Keeper, C: Clock, Q: Quit> {
    pub rt: &'a R,
    pub alloc: Global,
    pub book: &'a Book<K>,
    pub process: u64,
    pub clock: &'a C,
    /// It is asked before each look whether the sending is to end.
    pub quit: &'a Q,
}

impl<'a, R: Wait, K: Keeper, C: Clock, Q: Quit> Sender<'a, R, K, C, Q> {
    /// Takes what is sent to the process next and writes its line; if nothing is, it sleeps until
    /// the process's bell rings. It returns what ended the sending there, if something did.
    fn send_next<F: Feed>(
        &self,
        pass: &mut Pass,
        feed: &mut F,
        room: &mut ControlRoom,
    ) -> Option<ControlsSent>
        requires book { IsOf self.now.book.now pass.old }
        requires room { 256 ≤ room.old.name.room }
        ensures book { IsOf self.now.book.now pass.new }
        ensures room { 256 ≤ room.new.name.room }
        ensures sends { MayEnd (C.tells self.now.clock.now) self.now.book.now.opening
            self.now.process (Q.may_ask self.now.quit.now) pass.old
            (F.held feed.old) (F.held feed.new) (F.faults feed.old) (F.faults feed.new)
            result pass.new }
        ensures keeps { KeepsAll self.now.book.now.opening pass.old pass.new }
    {
        if self.quit.asked() {
            return Some(ControlsSent::Shut);
        }
        let bell = self.book.child_bell(self.process);
        let seen = bell.count();
        let moment = self.clock.now();
        match self
            .book
            .take_control(self.rt, pass, moment, self.process, room)
        {
            ControlLook::Control { order, shared } => {
                send_line(self.alloc, feed, &order, shared, room.name.units())
            }
            ControlLook::Empty => {
                bell.wait(self.rt, seen);
                None
            }
            ControlLook::Over => Some(ControlsSent::Over),
            ControlLook::Unmade(fault) => Some(unsent(fault)),
        }
    }

    /// Takes what is sent to the process, as it comes, and writes the line of each to its feed,
    /// until something ends it.
    fn write_each<F: Feed>(
        &self,
        pass: &mut Pass,
        feed: &mut F,
        room: &mut ControlRoom,
    ) -> ControlsSent
        requires book { IsOf self.now.book.now pass.old }
        requires room { 256 ≤ room.old.name.room }
        ensures book { IsOf self.now.book.now pass.new }
        ensures sends { Sends (C.tells self.now.clock.now) self.now.book.now.opening
            self.now.process (Q.may_ask self.now.quit.now) pass.old
            (F.held feed.old) (F.held feed.new) (F.faults feed.old) (F.faults feed.new)
            result pass.new }
        ensures keeps { KeepsAll self.now.book.now.opening pass.old pass.new }
    {
        for _ in self.rt.forever() {
            match self.send_next(pass, feed, room) {
                Some(how) => return how,
                None => {}
            }
        }
        unreachable!()
    }

    /// Takes the controls of the process one after another, as they come, and writes the line of
    /// each to its feed, until the process isn't listed, `quit` asks for the end or a fault comes.
    /// A shared process is also told which services are to start. Between two looks that find
    /// nothing it waits on the process's bell.
    pub fn write_controls<F: Feed>(&self, pass: &mut Pass, feed: &mut F) -> ControlsSent
        requires book { IsOf self.now.book.now pass.old }
        ensures book { IsOf self.now.book.now pass.new }
        ensures sends { Sends (C.tells self.now.clock.now) self.now.book.now.opening
            self.now.process (Q.may_ask self.now.quit.now) pass.old
            (F.held feed.old) (F.held feed.new) (F.faults feed.old) (F.faults feed.new)
            result pass.new }
        ensures keeps { KeepsAll self.now.book.now.opening pass.old pass.new }
    {
        let Ok(mut room) = ControlRoom::new(self.alloc) else {
            return ControlsSent::OutOfMemory;
        };
        let how = self.write_each(pass, feed, &mut room);
        drop(room);
        how
    }
}

/// Sends a process its controls by a pass that is nobody's, as `Sender::write_controls` does, and
/// ends the feed, and so the child's input.
pub fn send_controls<R: Wait, K: Keeper, F: Feed, C: Clock, Q: Quit>(
    rt: &R,
    alloc: Global,
    book: &Book<K>,
    pass: Pass,
    process: u64,
    feed: F,
    clock: &C,
    quit: &Q,
) -> ControlsEnded<F::Past>
    requires book { IsOf book.now pass }
    requires runner { pass.caller ≡ 0 }
    ensures book { IsOf book.now result.spent }
    ensures sends { Sends (C.tells clock.now) book.now.opening process (Q.may_ask quit.now) pass
        (F.held feed) (F.tells result.past).held (F.faults feed) (F.tells result.past).faults
        result.how result.spent }
    ensures keeps { KeepsAll book.now.opening pass result.spent }
{
    let mut pass = pass;
    let mut feed = feed;
    let sender = Sender {
        rt,
        alloc,
        book,
        process,
        clock,
        quit,
    };
    let how = sender.write_controls(&mut pass, &mut feed);
    drop(sender);
    let past = feed.end();
    let spent = book.gone(rt, pass, clock.now());
    ControlsEnded { how, spent, past }
}
