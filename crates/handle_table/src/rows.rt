ghost use Rattle.std.specs.Prelude.{ℕ, ◌≡◌, ◌+◌, ◌<◌, ◌≤◌, ◌^◌, ◌==◌, ◌&&◌, ◌++◌, ◌∷◌, [], not};
ghost use Rattle.std.specs.Prelude.{true, false, filter, find, length, nat_eq, if◌then◌else◌};
ghost use Rattle.std.specs.Prelude.{option_copied, option_map, OnOk, OnErr, IfSome, IfNone, IsSome};
ghost use Rattle.std.specs.List.{AllByRecursion, list_any};
ghost use Rattle.indexmap.specs.IndexMap.{get, keys, spare};
ghost use Rattle.row_slab.specs.Rowed.{AreRisingBy};
ghost use Rattle.handle_table.specs.Handled.{matches, is_handle};
ghost use Rattle.handle_table.specs.Chained.{is_newest, is_number, node_at, with_newer, with_older};

use indexmap::IndexMap;
use scm_model::HandleRow;
use scm_text::OutOfMemory;
use std::alloc::Global;
use std::marker::Model;

/// A handle, and which of its caller's handles came just before it and just after it.
#[derive(Clone, Copy)]
struct Node {
    row: HandleRow,
    older: Option<u64>,
    newer: Option<u64>,
}

/// Handles under their numbers, in a chain for each caller, of which the newest is known. Contracts
/// see them in order of number, in which they aren't kept, and for how many more there is room.
/// None moves when another leaves, but for the last.
#[derive(Drop)]
pub struct HandleRows {
    nodes: IndexMap<u64, Node>,
    newest: IndexMap<u64, u64>,
}

impl Model for HandleRows {
    ghost use Rattle.std.specs.Prelude.{min};
    ghost use Rattle.indexmap.specs.IndexMap.{spare};
    ghost use Rattle.scm_model.specs.declared.flat.HandleRow.{HandleRow};
    ghost use Rattle.scm_text.specs.Roomed.{Roomed};
    ghost use Rattle.handle_table.specs.Chained.{rows_of, AreChained};
    ghost use Rattle.handle_table.specs.Numbered.{ordered};

    ghost Value = { Roomed HandleRow };

    ghost view = { λ h. record {
      items = ordered (rows_of h.nodes.entries);
      room = min (spare h.nodes) (spare h.newest);
    } };

    ghost invariant = { λ h. AreChained h.nodes.entries h.newest.entries };
}

/// Sets which number came before another.
fn set_older(nodes: &mut IndexMap<u64, Node>, of: Option<u64>, older: Option<u64>)
    ensures nodes { (n : ℕ) → node_at nodes.new.entries n ≡ (if is_number n of
        then option_map (with_older older) (node_at nodes.old.entries n)
        else node_at nodes.old.entries n) }
    ensures keys { keys nodes.new ≡ keys nodes.old }
    ensures room { spare nodes.new ≡ spare nodes.old }
{
    let Some(number) = of else {
        return;
    };
    if let Some(node) = nodes.get_mut(&number) {
        node.older = older;
    }
}

/// Sets which number came after another.
fn set_newer(nodes: &mut IndexMap<u64, Node>, of: Option<u64>, newer: Option<u64>)
    ensures nodes { (n : ℕ) → node_at nodes.new.entries n ≡ (if is_number n of
        then option_map (with_newer newer) (node_at nodes.old.entries n)
        else node_at nodes.old.entries n) }
    ensures keys { keys nodes.new ≡ keys nodes.old }
    ensures room { spare nodes.new ≡ spare nodes.old }
{
    let Some(number) = of else {
        return;
    };
    if let Some(node) = nodes.get_mut(&number) {
        node.newer = newer;
    }
}

/// Sets the newest number of a caller that has one.
fn set_newest(newest: &mut IndexMap<u64, u64>, caller: u64, number: Option<u64>)
    requires { IsSome (get nat_eq newest.old caller) }
    ensures newest { (c : ℕ) → get nat_eq newest.new c ≡ (if caller == c then number
        else get nat_eq newest.old c) }
    ensures room { spare newest.old ≤ spare newest.new }
{
    match number {
        Some(number) => {
            if let Some(before) = newest.get_mut(&caller) {
                *before = number;
            }
        }
        None => {
            let _last = newest.swap_remove(&caller);
        }
    }
}

/// A handle leaves: where it was its caller's newest, the one before it is that now.
fn leave_newest(newest: &mut IndexMap<u64, u64>, node: Node)
    requires { is_newest node ≡ true → IsSome (get nat_eq newest.old node.row.caller) }
    ensures newest { (c : ℕ) → get nat_eq newest.new c ≡ (if is_newest node && node.row.caller == c
        then node.older else get nat_eq newest.old c) }
    ensures room { spare newest.old ≤ spare newest.new }
{
    if node.newer.is_none() {
        set_newest(newest, node.row.caller, node.older);
    }
}

impl HandleRows {
    /// No handles, which take no memory.
    pub fn new(alloc: Global) -> Self
        ensures { result.items ≡ [] }
    {
        HandleRows {
            nodes: IndexMap::new(alloc),
            newest: IndexMap::new(alloc),
        }
    }

    /// How many handles there are.
    pub fn len(&self) -> usize
        ensures len { result ≡ length self.now.items }
        ensures small { result < 2 ^ 63 }
        ensures rising { AreRisingBy (λ row. row.number) self.now.items }
    {
        self.nodes.len()
    }

    /// Makes room for one handle more.
    pub fn reserve(&mut self) -> Result<(), OutOfMemory>
        ensures items { self.new.items ≡ self.old.items }
        ensures ok { OnOk result (1 ≤ self.new.room) }
        ensures err { OnErr result (self.old.room ≡ 0) }
        ensures room { self.old.room ≤ self.new.room }
    {
        if self.nodes.reserve(1).is_err() {
            return Err(OutOfMemory);
        }
        if self.newest.reserve(1).is_err() {
            return Err(OutOfMemory);
        }
        Ok(())
    }

    /// The handle with a number.
    pub fn get(&self, number: u64) -> Option<&HandleRow>
        ensures { option_copied result ≡ find (matches number) self.now.items }
    {
        match self.nodes.get(&number) {
            Some(node) => Some(&node.row),
            None => None,
        }
    }

    /// The newest of a caller's handles.
    pub fn newest_of(&self, caller: u64) -> Option<u64>
        ensures some { IfSome result (λ number. list_any
            (is_handle caller number) self.now.items ≡ true) }
        ensures none { IfNone result ((number : ℕ) →
            list_any (is_handle caller number) self.now.items ≡ false) }
    {
        self.newest.get(&caller).copied()
    }

    /// Adds a handle, whose number is above all others. It takes no memory.
    pub fn push(&mut self, row: HandleRow)
        requires room { 1 ≤ self.old.room }
        requires above { AllByRecursion (λ other. other.number < row.number) self.old.items }
        ensures { self.new.items ≡ self.old.items ++ row ∷ [] }
    {
        let older = self.newest.get(&row.caller).copied();
        set_newer(&mut self.nodes, older, Some(row.number));
        let _node = self.nodes.insert(
            row.number,
            Node {
                row,
                older,
                newer: None,
            },
        );
        let _before = self.newest.insert(row.caller, row.number);
    }

    /// Takes the handle with a number out.
    pub fn remove(&mut self, number: u64) -> Option<HandleRow>
        ensures row { result ≡ find (matches number) self.old.items }
        ensures items { self.new.items ≡ filter (λ row. not (matches number row))
            self.old.items }
        ensures room { self.old.room ≤ self.new.room }
    {
        let node = self.nodes.swap_remove(&number)?;
        set_newer(&mut self.nodes, node.older, node.newer);
        set_older(&mut self.nodes, node.newer, node.older);
        leave_newest(&mut self.newest, node);
        Some(node.row)
    }
}
