// What is sent to a process next is taken, and handed out.
ghost use Rattle.std.specs.Prelude.{◌≡◌, ◌≤◌, [], IfErr, IfOk, IsTrue, OnErr};
ghost use Rattle.scm_model.specs.declared.steps.Step.TheVariants.{ControlTaken};
ghost use Rattle.scm_model.specs.Rows.{service_of};
ghost use Rattle.scm_core.specs.Managed.{AreSmall};
ghost use Rattle.book_rule.specs.Seats.{Waits};
ghost use Rattle.scm_book.specs.Ghosts.{ghosts_of};
ghost use Rattle.scm_book.specs.Passes.{IsOf, KeepsAll};
ghost use Rattle.scm_book.specs.Reporting.{ControlEnds, DidControl, DidHand, HoldsControl};
ghost use Rattle.scm_book.specs.Reporting.{LooksForBy, look_of, name_in, with_name_for};
ghost use Rattle.scm_book.specs.Steps.{IsAsItWas, Why, may_come_in};
ghost use Rattle.scm_book.specs.Turns.{HasTurn, IsSeated, LeftIt, MakeCause, MayMakeBy};

use crate::bells::ring_of;
use crate::book::Book;
use crate::fault::{MakeFault, StepFault};
use crate::held::{Held, PendingEntry};
use crate::pass::Pass;
use crate::turning::Shared;
use atomic_table::Badge;
use book_rule::{TurnSeat, View};
use record_journal::Keeper;
use scm_core::Manager;
use scm_model::{Answer, Order, Step};
use scm_text::{OutOfMemory, TextRoom, WText};
use std::alloc::Global;
use std::sync::Wait;

/// How many units the name of a service may have.
const NAME_UNITS: u32 = 256;

/// Where a look for a control leaves the name of a service that is to start. The memory for it is
/// made before the turn is taken.
#[derive(Drop)]
pub struct ControlRoom {
    /// The name, in UTF-16 units. It has room for 256.
    pub name: TextRoom,
}

impl ControlRoom {
    /// An empty name, with room for any.
    pub fn new(alloc: Global) -> Result<ControlRoom, OutOfMemory>
        ensures { IfOk result (λ room. room.name ≡ record { units = []; room = 256 }) }
    {
        Ok(ControlRoom {
            name: TextRoom::new(alloc, NAME_UNITS)?,
        })
    }
}

/// The outcome of a look for a control.
#[derive(Clone, Copy, Drop, PartialEq, Eq)]
pub enum ControlLook {
    /// The order that was sent next, which waits no longer, and whether the process is shared. With
    /// code 0 a service is to start, and its name lies in the room that was passed in.
    Control { order: Order, shared: bool },
    /// Nothing is sent. No step was made.
    Empty,
    /// The process isn't listed: it ended, and gets no further control. No step was made.
    Over,
    /// The limits have no room for it, or the history has no memory for an entry.
    Unmade(MakeFault),
}

/// An order that was taken, and whether its process is shared.
#[derive(Clone, Copy, Drop)]
pub struct HandedOrder {
    pub order: Order,
    pub shared: bool,
}

/// The outcome of the step that takes an order, and how many services and orders the process was
/// still to be told of when it looked.
#[derive(Drop)]
pub struct Looked {
    pub ended: Result<HandedOrder, StepFault>,
    pub waiting: Option<usize>,
}

/// Leaves the name of the service that an order asks to start in the room for it.
fn write_name(manager: &Manager, alloc: Global, order: Order, name: &mut TextRoom)
    requires { 256 ≤ name.old.room }
    ensures { name.new ≡ with_name_for order
        (name_in (service_of manager.now.flat order.service)) name.old }
{
    if order.code != 0 {
        return;
    }
    match manager.name_of(order.service) {
        Some(text) => name.set(text),
        None => name.set(&WText::new(alloc)),
    }
}

impl<K: Keeper> Held<K> {
    /// Takes what is sent to a process next. The name of a service that is to start is left in
    /// `name` once all memory for the step is made.
    fn take_control(
        &mut self,
        moment: u64,
        process: u64,
        control: &mut PendingEntry,
        name: &mut TextRoom,
    ) -> Result<HandedOrder, MakeFault>
        requires step { control.old.step ≡ ControlTaken process }
        requires may { IsTrue (may_come_in self.old moment (ControlTaken process)) }
        requires small { AreSmall self.old.manager.limits }
        requires name { 256 ≤ name.old.room }
        ensures ok { IfOk result (HoldsControl
            (ghosts_of K.held K.faults K.settled K.crashes K.are_crashes K.asked)
            self.old self.new moment
            process name.old name.new) }
        ensures err { OnErr result (IsAsItWas self.old self.new) }
        ensures why { IfErr result (Why self.old (ControlTaken process)) }
        ensures name { OnErr result (name.new ≡ name.old) }
    {
        let kept = self.prepare(control)?;
        let Some(order) = self.manager.next_order(process) else {
            unreachable!()
        };
        let shared = self.manager.shares(process);
        write_name(&self.manager, self.alloc, order, name);
        let mut told = Answer::Done;
        self.finish(moment, control, kept, &mut told);
        drop(told);
        Ok(HandedOrder { order, shared })
    }
}

impl<K: Keeper> Shared<K> {
    /// Takes what is sent to a process next, which may come, with the turn held.
    fn add_order<R: Wait>(
        &self,
        rt: &R,
        moment: u64,
        process: u64,
        control: &mut PendingEntry,
        name: &mut TextRoom,
        mut held: Box<Held<K>>,
        seat: &mut TurnSeat<Held<K>>,
    ) -> Result<HandedOrder, MakeFault>
        requires turn { HasTurn
            (ghosts_of K.held K.faults K.settled K.crashes K.are_crashes K.asked)
            self.now.turn seat.old held.value }
        requires may { MayMakeBy self.now.turn.opening seat.old.me.0 moment (ControlTaken process) }
        requires step { control.old.step ≡ ControlTaken process }
        requires name { 256 ≤ name.old.room }
        ensures ok { IfOk result (DidHand
            (ghosts_of K.held K.faults K.settled K.crashes K.are_crashes K.asked)
            self.now.turn seat.old seat.new
            moment process name.old name.new) }
        ensures err { OnErr result (LeftIt seat.old seat.new) }
        ensures why { IfErr result (MakeCause self.now.turn.opening seat.old.me.0.seen
            (ControlTaken process)) }
        ensures name { OnErr result (name.new ≡ name.old) }
        ensures waits { Waits self.now.turn seat.new }
    {
        let ring = ring_of(&held.manager, &control.step);
        match held.take_control(moment, process, control, name) {
            Ok(handed) => {
                self.turn.commit(rt, seat, held);
                self.bells.ring(rt, ring);
                Ok(handed)
            }
            Err(fault) => {
                self.turn.unlock(rt, seat, held);
                Err(fault)
            }
        }
    }

    /// Takes what is sent to a process next, if something is, with the turn held.
    fn add_control<R: Wait>(
        &self,
        rt: &R,
        moment: u64,
        process: u64,
        control: &mut PendingEntry,
        name: &mut TextRoom,
        held: Box<Held<K>>,
        seat: &mut TurnSeat<Held<K>>,
    ) -> Result<HandedOrder, StepFault>
        requires turn { HasTurn
            (ghosts_of K.held K.faults K.settled K.crashes K.are_crashes K.asked)
            self.now.turn seat.old held.value }
        requires step { control.old.step ≡ ControlTaken process }
        requires name { 256 ≤ name.old.room }
        ensures did { DidControl
            (ghosts_of K.held K.faults K.settled K.crashes K.are_crashes K.asked)
            self.now.turn seat.old seat.new moment
            process name.old name.new result }
        ensures waits { Waits self.now.turn seat.new }
    {
        if !held.manager.may(moment, &control.step) {
            self.turn.unlock(rt, seat, held);
            return Err(StepFault::NotNow);
        }
        match self.add_order(rt, moment, process, control, name, held, seat) {
            Ok(handed) => Ok(handed),
            Err(fault) => Err(StepFault::Unmade(fault)),
        }
    }

    /// Takes what is sent to a process next, if something is, at the end of the history, and tells
    /// how many services and orders the process was still to be told of there.
    fn control_by<R: Wait>(
        &self,
        rt: &R,
        moment: u64,
        process: u64,
        name: &mut TextRoom,
        badge: &mut Badge<View>,
    ) -> Looked
        requires badge { IsSeated self.now.turn badge.old }
        requires name { 256 ≤ name.old.room }
        ensures badge { IsSeated self.now.turn badge.new }
        ensures looks { LooksForBy self.now.turn.opening badge.old moment process
            name.old name.new badge.new result }
    {
        let mut control = PendingEntry::new(self.alloc, Step::ControlTaken { process });
        let mut seat = self.sit(badge);
        let held = self.turn.enter(rt, &mut seat);
        let waiting = held.manager.waiting(process);
        let ended = self.add_control(rt, moment, process, &mut control, name, held, &mut seat);
        *badge = self.stand(seat);
        Looked { ended, waiting }
    }
}

/// What a look for a control finds.
fn look_of(looked: Looked) -> ControlLook
    ensures { result ≡ look_of looked.ended looked.waiting }
{
    let Looked { ended, waiting } = looked;
    match ended {
        Ok(HandedOrder { order, shared }) => ControlLook::Control { order, shared },
        Err(StepFault::NotNow) => match waiting {
            Some(_) => ControlLook::Empty,
            None => ControlLook::Over,
        },
        Err(StepFault::Unmade(fault)) => ControlLook::Unmade(fault),
    }
}

impl<K: Keeper> Book<K> {
    /// Takes what is sent to a process next: that a service is to start, with code 0, whose name is
    /// then left in `room`, and else the control that waits first. It takes memory for the entry of
    /// the history alone.
    pub fn take_control<R: Wait>(
        &self,
        rt: &R,
        pass: &mut Pass,
        moment: u64,
        process: u64,
        room: &mut ControlRoom,
    ) -> ControlLook
        requires book { IsOf self.now pass.old }
        requires name { 256 ≤ room.old.name.room }
        ensures book { IsOf self.now pass.new }
        ensures ends { ControlEnds self.now.opening pass.old moment process room.old room.new result
            pass.new }
        ensures name { room.new.name.room ≡ room.old.name.room }
        ensures keeps { KeepsAll self.now.opening pass.old pass.new }
    {
        let looked = self
            .shared
            .control_by(rt, moment, process, &mut room.name, &mut pass.badge);
        look_of(looked)
    }
}
