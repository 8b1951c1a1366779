ghost use Rattle.std.specs.Prelude.{ℕ, List, ◌≡◌, ◌+◌, ◌≤◌, ◌<◌, ◌==◌, true, false, not, [], eqb};
ghost use Rattle.std.specs.Prelude.{filter, length, IfSome, IfOk};
ghost use Rattle.std.specs.Prelude.{OnOk, OnErr, IsTrue, IsFalse, None, Some, Ok};
ghost use Rattle.std.specs.List.{AllByRecursion, IsDistinct};
ghost use Rattle.dependency_index.specs.Dependents.{dependents_in};
ghost use Rattle.dependency_index.specs.Indexed.{Indexed, committed, discarded, empty_index};
ghost use Rattle.dependency_index.specs.Indexed.{prepared};
ghost use Rattle.dependency_index.specs.Indexed.{row_with, as_spare, with_needs, without_service};
ghost use Rattle.dependency_index.specs.Kept.{key_of, HasTexts, IsNext, SameNumbers};
ghost use Rattle.dependency_index.specs.Kept.{called_of, members_of, naming_of, row_from};
ghost use Rattle.dependency_index.specs.Naming.{active_in, naming_in, row_of};
ghost use Rattle.scm_model.specs.Needs.{needs_of, numbers_of, with_row};
ghost use Rattle.scm_model.specs.Order.{is_cyclic, order_in};
ghost use Rattle.scm_model.specs.Walks.{IsAcyclic};
ghost use Rattle.number_lists.specs.Rising.{AreRising};
ghost use Rattle.row_slab.specs.Rowed.{AreRisingBy};
ghost use Rattle.scm_text.specs.Numbers.{has};

use super::graph::{NeedRows, NewRow};
use super::keeping::{
    KeptLists, Spare, enter_lists, forget_room, forget_texts, leave_lists, reserve_texts,
};
use super::naming::{StateLook, active_among};
use super::rows::{is_listed, met_at, needs_in, number_at, row_of};
use super::steps::Steps;
use super::visit::StateOf;
use super::{dependents, order};
use row_slab::Rows;
use scm_model::{Need, NeedRow};
use scm_text::{Buffer, Items, OutOfMemory, WText};
use std::alloc::Global;
use std::marker::Model;
use std::sync::ledger::Ledger;

/// Which service needs which. Contracts see the rows, a service each, the row that there is room
/// for, and the row whose room is prepared to take its place.
#[derive(Drop)]
pub struct DependencyIndex {
    rows: Rows<NeedRow>,
    lists: KeptLists,
    spare: Option<Spare>,
    next: Option<Spare>,
}

impl Model for DependencyIndex {
    ghost use Rattle.dependency_index.specs.Indexed.{Indexed};
    ghost use Rattle.dependency_index.specs.Kept.{IsKept};

    ghost Value = { Indexed };

    ghost view = { λ i. record { rows = i.rows.items; spare = i.spare; next = i.next } };

    ghost invariant = { IsKept };
}

/// Puts a row in place of the same service's, or at the end.
fn put(rows: &mut Rows<NeedRow>, mut spare: Spare, service: u64)
    requires once { IsDistinct eqb (numbers_of rows.old.items) }
    requires next { IsNext rows.old.items service }
    requires room { 1 ≤ rows.old.room }
    ensures rows { rows.new.items ≡ with_row rows.old.items (row_from spare service) }
    ensures once { IsDistinct eqb (numbers_of rows.new.items) }
{
    if rows.exchange(service, &mut spare) {
        drop(spare);
        return;
    }
    rows.push(NeedRow {
        number: service,
        name: spare.name,
        group: spare.group,
        needs: spare.needs,
    });
}

/// Takes a service's row out.
fn take_out(rows: &mut Rows<NeedRow>, number: u64)
    requires once { IsDistinct eqb (numbers_of rows.old.items) }
    ensures rows { rows.new.items ≡ filter (λ row. not (row.number == number)) rows.old.items }
    ensures once { IsDistinct eqb (numbers_of rows.new.items) }
{
    drop(rows.remove(number));
}

/// Makes room for a row. The room for one that may be kept stays.
fn make_room(
    rows: &mut Rows<NeedRow>,
    lists: &mut KeptLists,
    alloc: Global,
    row: &Spare,
    kept: &Option<Spare>,
) -> Result<(), OutOfMemory>
    ensures rows { rows.new.items ≡ rows.old.items }
    ensures more_rows { 1 ≤ rows.old.room → 1 ≤ rows.new.room }
    ensures numbers { SameNumbers lists.old lists.new }
    ensures kept { IfSome kept.now (HasTexts lists.old) → IfSome kept.now (HasTexts lists.new) }
    ensures ok { OnOk result ((1 ≤ rows.new.room) × HasTexts lists.new row.now) }
{
    if rows.reserve().is_err() {
        return Err(OutOfMemory);
    }
    reserve_texts(lists, alloc, row, kept)
}

/// Whether the numbers of all rows are below this one.
fn are_below(rows: &Rows<NeedRow>, number: u64) -> bool
    ensures yes { IsTrue result → AllByRecursion (λ row. row.number < number) rows.now.items }
    ensures no { IsFalse result → AllByRecursion (λ row. row.number < number) rows.now.items → ⊥ }
{
    !is_listed(rows, number) && rows.after(number).is_none()
}

impl DependencyIndex {
    /// An index with no rows, which takes no memory.
    pub fn new(alloc: Global) -> Result<DependencyIndex, OutOfMemory>
        ensures { result ≡ Ok empty_index }
    {
        Ok(DependencyIndex {
            rows: Rows::new(alloc),
            lists: KeptLists::new(alloc),
            spare: None,
            next: None,
        })
    }

    /// The rows, in order of number.
    pub(crate) fn rows(&self) -> &Rows<NeedRow>
        ensures rows { result.now.items ≡ self.now.rows }
        ensures rising { AreRisingBy key_of self.now.rows }
    {
        &self.rows
    }

    /// How many services have a row.
    pub fn len(&self) -> usize
        ensures { result ≡ length self.now.rows }
    {
        self.rows.len()
    }

    /// Whether a service has a row.
    pub fn is_listed(&self, service: u64) -> bool
        ensures { result ≡ has (numbers_of self.now.rows) service }
    {
        is_listed(&self.rows, service)
    }

    /// Whether a service has a row, or comes after all that have one.
    pub fn is_next(&self, service: u64) -> bool
        ensures yes { IsTrue result → IsNext self.now.rows service }
        ensures no { IsFalse result → IsNext self.now.rows service → ⊥ }
    {
        self.is_listed(service) || are_below(&self.rows, service)
    }

    /// Prepares room for a row with this name, group and needs, beside the room that there is. What
    /// was prepared before goes first.
    pub fn prepare(
        &mut self,
        alloc: Global,
        name: &WText,
        group: &WText,
        needs: &Items<Need>,
    ) -> Result<(), OutOfMemory>
        ensures ok { OnOk result (self.new ≡ prepared self.old name.now group.now needs.now) }
        ensures err { OnErr result (self.new ≡ discarded self.old) }
    {
        self.discard();
        let row = Spare::of(alloc, name, group, needs)?;
        if make_room(&mut self.rows, &mut self.lists, alloc, &row, &self.spare).is_err() {
            drop(row);
            return Err(OutOfMemory);
        }
        self.next = Some(row);
        Ok(())
    }

    /// What was prepared takes the place of the room that there is. It takes no memory.
    pub fn commit(&mut self)
        ensures { self.new ≡ committed self.old }
    {
        if self.next.is_some() {
            forget_room(&mut self.lists, self.spare.take(), &self.next);
            self.spare = self.next.take();
        }
    }

    /// Lets what was prepared go. Texts under which no number is are forgotten with it.
    pub fn discard(&mut self)
        ensures { self.new ≡ discarded self.old }
    {
        forget_room(&mut self.lists, self.next.take(), &self.spare);
    }

    /// Puts a service's row in, for which room was made, in place of the one that it had or at the
    /// end. It takes no memory.
    pub fn set_needs(&mut self, service: u64, name: &WText, group: &WText, needs: &Items<Need>)
        requires spare { self.old.spare ≡ Some (as_spare name.now group.now needs.now) }
        requires next { IsNext self.old.rows service }
        ensures { self.new ≡ with_needs self.old (row_with service name.now group.now needs.now) }
    {
        let Some(spare) = self.spare.take() else {
            return;
        };
        let row = leave_lists(&mut self.lists, &self.rows, service);
        enter_lists(&mut self.lists, &spare, service);
        forget_texts(&mut self.lists, row);
        forget_room(&mut self.lists, self.next.take(), &None);
        put(&mut self.rows, spare, service);
    }

    /// Takes a service's row out, and takes no memory.
    pub fn drop_service(&mut self, service: u64)
        ensures { self.new ≡ without_service self.old service }
    {
        forget_room(&mut self.lists, self.spare.take(), &None);
        forget_room(&mut self.lists, self.next.take(), &None);
        let row = leave_lists(&mut self.lists, &self.rows, service);
        forget_texts(&mut self.lists, row);
        take_out(&mut self.rows, service);
    }

    #[tactic(auto, using(crate::proofs::Cycles::free, crate::proofs::Cycles::looped))]
    /// Whether the need graph with this row put in has a cycle: a service that needs its own group
    /// is one. The list is used as room. It takes no memory.
    pub fn would_cycle(
        &self,
        service: u64,
        name: &WText,
        group: &WText,
        needs: &Items<Need>,
        room: &mut Buffer<u64>,
    ) -> bool
        requires empty { room.old.items ≡ [] }
        requires room { length self.now.rows < room.old.room }
        ensures no { IsFalse result → IsAcyclic (needs_of
            (with_row self.now.rows (row_with service name.now group.now needs.now))) }
        ensures yes { IsTrue result → IsAcyclic (needs_of
            (with_row self.now.rows (row_with service name.now group.now needs.now))) → ⊥ }
        ensures value { result ≡ is_cyclic (with_row self.now.rows
            (row_with service name.now group.now needs.now)) }
    {
        let new = NewRow {
            number: service,
            name,
            group,
            needs: needs.as_slice(),
        };
        order::makes_cycle(self, new, room)
    }

    /// Writes the order in which a service and what it needs are started. It takes no memory.
    pub fn order_of<S: StateOf>(&self, target: u64, states: &S, room: &mut Buffer<u64>)
        requires listed { has (numbers_of self.now.rows) target ≡ true }
        requires empty { room.old.items ≡ [] }
        requires room { length self.now.rows ≤ room.old.room }
        ensures order { room.new.items ≡ order_in self.now.rows (S.state_of states.now) target }
        ensures few { length room.new.items ≤ length self.now.rows }
    {
        order::order_of(self, target, states, room);
    }

    /// Writes the order in which the services are stopped that need a service by name, directly or
    /// through named needs: each before what it names. It takes no memory.
    pub fn dependents(&self, service: u64, room: &mut Buffer<u64>)
        requires acyclic { IsAcyclic (needs_of self.now.rows) }
        requires empty { room.old.items ≡ [] }
        requires room { length self.now.rows ≤ room.old.room }
        ensures order { room.new.items ≡ dependents_in self.now.rows service }
        ensures few { length room.new.items ≤ length self.now.rows }
    {
        dependents::order_of_dependents(self, service, room);
    }

    /// The numbers of the services of this name, rising. It takes no memory.
    pub fn called(&self, name: &WText) -> &[u64]
        ensures numbers { result.now ≡ called_of self.now.rows name.now }
        ensures rising { AreRising result.now }
    {
        self.lists.called.at(name)
    }

    /// The numbers of the services that name the one of this name, rising. It takes no memory.
    pub fn named_by(&self, name: &WText) -> &[u64]
        ensures numbers { result.now ≡ naming_of self.now.rows name.now }
        ensures rising { AreRising result.now }
    {
        self.lists.named.at(name)
    }

    /// The numbers of the services of a group, rising. It takes no memory.
    pub fn members(&self, group: &WText) -> &[u64]
        ensures numbers { result.now ≡ members_of self.now.rows group.now }
        ensures rising { AreRising result.now }
    {
        self.lists.grouped.at(group)
    }

    /// How many services name this one and aren't stopped. A state is looked at by `state_of`
    /// alone, and of those services alone. It takes no memory.
    pub fn active_dependents<S: StateLook, L: Ledger>(
        &self,
        service: u64,
        states: &S,
        steps: &mut Steps<L>,
    ) -> u32
        ensures active { result ≡ active_in self.now.rows (S.state_of states.now)
            (row_of self.now.rows service) }
        ensures looks { steps.new ≡ steps.old + naming_in self.now.rows
            (row_of self.now.rows service) }
    {
        match row_of(&self.rows, service) {
            Some(row) => active_among(self.lists.named.at(&row.name), states, steps),
            None => 0,
        }
    }
}

impl NeedRows for DependencyIndex {
    ghost rows = { λ index. index.rows };

    fn size(&self) -> usize {
        self.rows.len()
    }

    fn number_at(&self, place: usize) -> Option<u64> {
        number_at(&self.rows, place)
    }

    fn met_at(&self, need: &Need, place: usize) -> Option<u64> {
        met_at(&self.rows, need, place)
    }

    fn is_listed(&self, number: u64) -> bool {
        is_listed(&self.rows, number)
    }

    fn needs_at(&self, number: u64) -> &[Need] {
        needs_in(&self.rows, number)
    }

    fn met(&self, need: &Need) -> Option<&[u64]> {
        match need {
            Need::Service(name) => Some(self.lists.called.at(name)),
            Need::Group(group) => Some(self.lists.grouped.at(group)),
        }
    }
}
