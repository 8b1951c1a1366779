ghost use Rattle.std.specs.Prelude.{ℕ, ◌≡◌, ◌+◌, ◌<◌, ◌≤◌, ◌^◌, ◌++◌, ◌∷◌, [], not, filter, find};
ghost use Rattle.std.specs.Prelude.{length, option_copied, option_map, OnOk, OnErr, IfSome, IfNone};
ghost use Rattle.std.specs.Prelude.{true, false, ◌-◌, if◌then◌else◌};
ghost use Rattle.std.specs.List.{list_any};
ghost use Rattle.handle_table.specs.Counted.{count};
ghost use Rattle.scm_model.specs.Rows.{is_of_service};
ghost use Rattle.row_slab.specs.Rowed.{AreRisingBy};
ghost use Rattle.handle_table.specs.Handled.{matches, is_owned_by, is_handle, is_row_of};

use super::counts::Counts;
use super::rows::HandleRows;
use scm_model::{HandleKind, HandleRow};
use scm_text::OutOfMemory;
use std::alloc::Global;
use std::marker::Model;

/// The handles. Contracts see their rows in order of number, the next number, and for how many rows
/// more there is room. A caller's rows are found without a look at those of others.
#[derive(Drop)]
pub struct HandleTable {
    rows: HandleRows,
    services: Counts,
    callers: Counts,
    next: u64,
}

impl Model for HandleTable {
    ghost use Rattle.handle_table.specs.Handled.{Handled};
    ghost use Rattle.handle_table.specs.Kept.{IsKept, handled};

    ghost Value = { Handled };

    ghost view = { handled };

    ghost invariant = { IsKept };
}

/// One handle more of a service, if it is of one.
fn raise_kind(services: &mut Counts, kind: HandleKind)
    requires room { 1 ≤ services.old.room }
    requires fits { (service : ℕ) → count services.old service + 1 < 2 ^ 64 }
    ensures { (service : ℕ) → count services.new service ≡ (if is_of_service service kind
        then count services.old service + 1 else count services.old service) }
{
    if let HandleKind::Service(service) = kind {
        services.raise(service);
    }
}

/// One handle less of a service, if it is of one.
fn lower_kind(services: &mut Counts, kind: HandleKind)
    requires { (service : ℕ) → is_of_service service kind ≡ true → 1 ≤ count services.old service }
    ensures counts { (service : ℕ) → count services.new service ≡ (if is_of_service service kind
        then count services.old service - 1 else count services.old service) }
    ensures room { services.old.room ≤ services.new.room }
{
    if let HandleKind::Service(service) = kind {
        services.lower(service);
    }
}

impl HandleTable {
    /// No handles, which take no memory. The first number is 1.
    pub fn new(alloc: Global) -> HandleTable
        ensures rows { result.rows ≡ [] }
        ensures next { result.next ≡ 1 }
    {
        HandleTable {
            rows: HandleRows::new(alloc),
            services: Counts::new(alloc),
            callers: Counts::new(alloc),
            next: 1,
        }
    }

    /// The number of the next handle.
    pub fn next(&self) -> u64
        ensures { result ≡ self.now.next }
    {
        self.next
    }

    /// Makes room for one handle more. Where there is room it isn't refused, and what is refused
    /// takes no room away.
    pub fn reserve(&mut self) -> Result<(), OutOfMemory>
        ensures rows { self.new.rows ≡ self.old.rows }
        ensures next { self.new.next ≡ self.old.next }
        ensures ok { OnOk result (1 ≤ self.new.spare) }
        ensures err { OnErr result (self.old.spare ≡ 0) }
        ensures spare { self.old.spare ≤ self.new.spare }
    {
        self.rows.reserve()?;
        self.services.reserve()?;
        self.callers.reserve()
    }

    /// Gives a caller a handle, and answers its number. It takes no memory.
    pub fn add(&mut self, caller: u64, kind: HandleKind, granted: u32) -> u64
        requires room { 1 ≤ self.old.spare }
        requires next { self.old.next < 2 ^ 63 }
        ensures number { result ≡ self.old.next }
        ensures rows { self.new.rows ≡ self.old.rows
            ++ record { number = self.old.next; caller = caller; kind = kind; granted = granted } ∷
            [] }
        ensures next { self.new.next ≡ self.old.next + 1 }
    {
        let _len = self.rows.len();
        let number = self.next;
        raise_kind(&mut self.services, kind);
        self.callers.raise(caller);
        self.rows.push(HandleRow {
            number,
            caller,
            kind,
            granted,
        });
        self.next += 1;
        number
    }

    /// A caller's handle with a number.
    #[inline(always)]
    pub fn find(&self, caller: u64, number: u64) -> Option<&HandleRow>
        ensures row { option_copied result ≡ find (is_handle caller number) self.now.rows }
        ensures rising { AreRisingBy (λ row. row.number) self.now.rows }
    {
        let _len = self.rows.len();
        let row = self.rows.get(number)?;
        if row.caller == caller {
            Some(row)
        } else {
            None
        }
    }

    /// The caller of the handle with a number.
    pub fn owner(&self, number: u64) -> Option<u64>
        ensures { result ≡ option_map (λ row. row.caller) (find (matches number) self.now.rows) }
    {
        match self.rows.get(number) {
            Some(row) => Some(row.caller),
            None => None,
        }
    }

    /// How many handles are of a service.
    pub fn count_of(&self, service: u64) -> usize
        ensures { result ≡ length (filter (is_row_of service) self.now.rows) }
    {
        self.services.get(service)
    }

    /// Whether a handle is of a service.
    pub fn is_open(&self, service: u64) -> bool
        ensures { result ≡ list_any (λ row. is_of_service service row.kind) self.now.rows }
    {
        self.count_of(service) != 0
    }

    /// How many handles a caller has.
    pub fn held_by(&self, caller: u64) -> usize
        ensures { result ≡ length (filter (is_owned_by caller) self.now.rows) }
    {
        self.callers.get(caller)
    }

    /// Takes out the handle with a number, whichever caller has it.
    pub fn remove(&mut self, number: u64) -> Option<HandleRow>
        ensures row { result ≡ find (matches number) self.old.rows }
        ensures rows { self.new.rows ≡ filter (λ row. not (matches number row)) self.old.rows }
        ensures next { self.new.next ≡ self.old.next }
        ensures spare { self.old.spare ≤ self.new.spare }
    {
        let _len = self.rows.len();
        let row = self.rows.remove(number)?;
        lower_kind(&mut self.services, row.kind);
        self.callers.lower(row.caller);
        Some(row)
    }

    /// Takes a caller's handle out.
    pub fn close(&mut self, caller: u64, number: u64) -> Option<HandleRow>
        ensures row { result ≡ find (is_handle caller number) self.old.rows }
        ensures rows { self.new.rows ≡ filter (λ row. not (is_handle caller number row))
            self.old.rows }
        ensures next { self.new.next ≡ self.old.next }
        ensures none { IfNone result (self.new ≡ self.old) }
        ensures spare { self.old.spare ≤ self.new.spare }
    {
        if self.find(caller, number).is_some() {
            self.remove(number)
        } else {
            None
        }
    }

    /// Takes all handles of a caller out.
    pub fn run_down(&mut self, caller: u64)
        ensures rows { self.new.rows ≡ filter (λ row. not (is_owned_by caller row)) self.old.rows }
        ensures next { self.new.next ≡ self.old.next }
        ensures spare { self.old.spare ≤ self.new.spare }
    {
        while let Some(number) = self.newest_of(caller) {
            let _row = self.remove(number);
        }
    }

    /// The newest of a caller's handles.
    fn newest_of(&self, caller: u64) -> Option<u64>
        ensures some { IfSome result (λ number. list_any
            (is_handle caller number) self.now.rows ≡ true) }
        ensures none { IfNone result ((number : ℕ) →
            list_any (is_handle caller number) self.now.rows ≡ false) }
        ensures rising { AreRisingBy (λ row. row.number) self.now.rows }
    {
        let _len = self.rows.len();
        self.rows.newest_of(caller)
    }
}
