ghost use Rattle.std.specs.Prelude.{◌≡◌, ◌+◌, ◌^◌, ◌<◌, ◌≤◌, ◌==◌, filter, IfOk, OnOk, length};
ghost use Rattle.std.specs.Prelude.{
  option_copied,
  option_map,
  slice_get,
  All,
  IfSome,
  IsFalse,
  IsTrue,
};
ghost use Rattle.std.specs.Prelude.{OnErr, []};
ghost use Rattle.scm_model.specs.Changes.{with_handle, without_handle, without_handles_of};
ghost use Rattle.scm_model.specs.Changes.{with_caller, without_caller, reconfigured, with_moment};
ghost use Rattle.scm_model.specs.Changes.{without_lock_of};
ghost use Rattle.scm_model.specs.Purge.{purged};
ghost use Rattle.scm_model.specs.Rows.{caller_of, displayed, handle_of, held_by, held_service};
ghost use Rattle.scm_model.specs.Rows.{holds_lock, is_caller, is_shown, is_shown_by_another};
ghost use Rattle.scm_model.specs.Rows.{manager_mask, named, opened, owner_at, principal_of};
ghost use Rattle.scm_model.specs.Rows.{service_of};
ghost use Rattle.scm_rules.specs.Create.{next_tag, with_creation};
ghost use Rattle.scm_model.specs.Changes.{with_service};
ghost use Rattle.scm_rules.specs.Locks.{with_lock, without_lock};
ghost use Rattle.scm_rules.specs.Opening.{empty_at, opening};
ghost use Rattle.scm_rules.specs.Security.{IsSecured, with_security};
ghost use Rattle.sec_desc.specs.Writing.{IsWritten};
ghost use Rattle.scm_model.specs.declared.codes.TheConstants.{SERVICE_RUNNING};
ghost use Rattle.scm_tables.specs.Inside.{all_numbers};
ghost use Rattle.scm_tables.specs.Noticed.{with_marked};
ghost use Rattle.scm_tables.specs.Promised.{KeepsRooms};
ghost use Rattle.scm_tables.specs.Tabled.{HasNeedRoom, HasShortTexts};

use super::caller_rows::{caller_in, drop_caller_row};
use super::needing::{
    change_needs, index_of, is_acyclic, reserve_both, reserve_search, stays_acyclic,
};
use super::noticing::{note_leaving, note_mark, with_pid};
use super::opening::{automatic_starts, services_of, table_of};
use super::processes::Processes;
use super::rooms::{CommandRoom, StartRoom};
use super::service_rows::{
    Marked, configure_in, displayed_in, is_shown_by_another_in, is_shown_in, mark_in, named_in,
    row_in, running_in, secure_in,
};
use database_lock::DatabaseLock;
use dependency_index::DependencyIndex;
use due_list::DueList;
use handle_table::HandleTable;
use marked_delete::Leaving;
use notify_queue::NotifyQueue;
use record_table::{RecordTable, Services};
use scm_model::codes::SERVICE_NOTIFY_CREATED;
use scm_model::{
    Caller, Config, HandleKind, HandleRow, Limits, LockRow, Opened, Principal, Service, Status,
};
use scm_text::{Buffer, Items, OutOfMemory, WText};
use start_plan::Plans;
use std::alloc::Global;
use std::marker::Model;

/// The numbers that are given next. Those of handles, of processes and of what becomes due their
/// tables keep.
#[derive(Clone, Copy)]
pub struct Numbers {
    pub service: u64,
    pub plan: u64,
    pub registration: u64,
    pub caller: u64,
}

/// The manager's lists. Contracts see the flat state, the limits, and for how many rows more there
/// is room.
pub struct Tables {
    pub(crate) services: RecordTable,
    /// Which service needs which.
    pub(crate) index: DependencyIndex,
    /// Whether the services' needs are known to have no cycle.
    pub(crate) acyclic: bool,
    /// The services that are marked, with room for each.
    leaving: Leaving,
    /// For the services that a search through the needs comes by.
    searched: Buffer<u64>,
    handles: HandleTable,
    pub(crate) processes: Processes,
    pub(crate) plans: Plans,
    /// For what the next plan will have tried.
    pub(crate) tried: Vec<u64>,
    pub(crate) registrations: NotifyQueue,
    pub(crate) dues: DueList,
    /// For how many services each room of a plan without a caller is large enough.
    pub(crate) start_room: usize,
    pub(crate) starts: Vec<StartRoom>,
    pub(crate) commands: Vec<CommandRoom>,
    callers: Vec<Caller>,
    pub(crate) lock: DatabaseLock,
    pub(crate) moment: u64,
    pub(crate) next: Numbers,
    pub(crate) reboots: u64,
    pub(crate) limits: Limits,
    pub(crate) alloc: Global,
}

/// A drop of its own: a function that owns one drops it by a call, which is proved once.
impl Drop for Tables {
    fn drop(self) {
        let Tables {
            services,
            index,
            acyclic: _acyclic,
            leaving,
            searched,
            handles,
            processes,
            plans,
            tried,
            registrations,
            dues,
            start_room: _start_room,
            starts,
            commands,
            callers,
            lock,
            moment: _moment,
            next: _next,
            reboots: _reboots,
            limits: _limits,
            alloc: _alloc,
        } = self;
        drop(services);
        drop(index);
        drop(leaving);
        drop(searched);
        drop(handles);
        drop(processes);
        drop(plans);
        drop(tried);
        drop(registrations);
        drop(dues);
        drop(starts);
        drop(commands);
        drop(callers);
        drop(lock);
    }
}

impl Model for Tables {
    ghost use Rattle.scm_tables.specs.Inside.{IsKept, tabled};
    ghost use Rattle.scm_tables.specs.Tabled.{Tabled};

    ghost Value = { Tabled };

    ghost view = { tabled };

    ghost invariant = { IsKept };
}

/// The numbers that are given first, after those of so many services.
fn first_numbers(services: u64) -> Numbers
    requires { services < 2 ^ 63 }
    ensures { all_numbers result 1 1 1 ≡ record (empty_at 0).next { service = services + 1 } }
{
    Numbers {
        service: services + 1,
        plan: 1,
        registration: 1,
        caller: 1,
    }
}

/// Whether a handle of the caller holds the lock.
fn is_held_by(handles: &HandleTable, caller: u64, lock: Option<LockRow>) -> bool
    ensures { result ≡ holds_lock handles.now.rows caller lock }
{
    match lock {
        Some(held) => handles.find(caller, held.handle).is_some(),
        None => false,
    }
}

impl Tables {
    /// A service that never ran for each configuration, with room for as many processes as may be
    /// listed. Those start by themselves that are automatic, those of the listed groups first.
    pub fn new(
        alloc: Global,
        limits: Limits,
        groups: &[WText],
        configs: Items<Config>,
        moment: u64,
    ) -> Result<Self, OutOfMemory>
        requires { All HasShortTexts configs }
        ensures flat { IfOk result (λ tables. tables.flat ≡ opening limits groups.now configs
            moment) }
        ensures limits { IfOk result (λ tables. tables.limits ≡ limits) }
    {
        let processes = Processes::with_room(alloc, limits.processes)?;
        let services = services_of(alloc, configs)?;
        let mut leaving = Leaving::new(alloc);
        leaving.reserve(services.len())?;
        let dues = automatic_starts(alloc, services.as_slice(), groups, moment)?;
        let mut searched = Buffer::with_room(alloc, services.len() + 1)?;
        let index = index_of(alloc, services.as_slice())?;
        let acyclic = is_acyclic(&index, &mut searched);
        let next = first_numbers(services.len() as u64);
        let services = table_of(alloc, services)?;
        Ok(Tables {
            services,
            index,
            acyclic,
            leaving,
            searched,
            handles: HandleTable::new(alloc),
            processes,
            plans: Plans::none(alloc),
            tried: Vec::new(alloc),
            registrations: NotifyQueue::new(alloc),
            dues,
            start_room: 0,
            starts: Vec::new(alloc),
            commands: Vec::new(alloc),
            callers: Vec::new(alloc),
            lock: DatabaseLock::new(),
            moment,
            next,
            reboots: 0,
            limits,
            alloc,
        })
    }

    /// How much may stand at once.
    pub fn limits(&self) -> Limits
        ensures { result ≡ self.now.limits }
    {
        self.limits
    }

    /// The handle of a caller.
    pub fn handle(&self, caller: u64, number: u64) -> Option<HandleRow>
        ensures { result ≡ handle_of self.now.flat caller number }
    {
        self.handles.find(caller, number).copied()
    }

    /// The rights of a caller's manager handle.
    pub fn manager_mask(&self, caller: u64, number: u64) -> Option<u32>
        ensures { result ≡ manager_mask self.now.flat caller number }
    {
        match self.handle(caller, number) {
            Some(row) => match row.kind {
                HandleKind::Manager => Some(row.granted),
                HandleKind::Service(_) | HandleKind::Lock | HandleKind::Notify(_) => None,
            },
            None => None,
        }
    }

    /// The service that a caller's handle is of, with the rights on it.
    pub fn opened(&self, caller: u64, number: u64) -> Option<Opened>
        ensures { result ≡ opened self.now.flat caller number }
    {
        match self.handle(caller, number) {
            Some(row) => match row.kind {
                HandleKind::Service(service) => Some(Opened {
                    service,
                    granted: row.granted,
                }),
                HandleKind::Manager | HandleKind::Lock | HandleKind::Notify(_) => None,
            },
            None => None,
        }
    }

    /// The service that a caller's handle is of.
    pub fn held_service(&self, caller: u64, number: u64) -> Option<&Service>
        ensures { option_copied result ≡ held_service self.now.flat caller number }
    {
        match self.opened(caller, number) {
            Some(opened) => self.service(opened.service),
            None => None,
        }
    }

    /// How many handles a caller has.
    pub fn handles_of(&self, caller: u64) -> usize
        ensures { result ≡ held_by self.now.flat caller }
    {
        self.handles.held_by(caller)
    }

    /// Makes room for one handle more.
    pub fn reserve_handle(&mut self) -> Result<(), OutOfMemory>
        ensures flat { self.new.flat ≡ self.old.flat }
        ensures room { OnOk result (1 ≤ self.new.spare.handles) }
        ensures others { (self.new.spare.services ≡ self.old.spare.services)
            × (self.new.spare.needs ≡ self.old.spare.needs) }
        ensures limits { self.new.limits ≡ self.old.limits }
        ensures keeps { KeepsRooms self.old self.new }
    {
        self.handles.reserve()
    }

    /// Gives a caller a handle, and answers its number. It takes no memory.
    pub fn add_handle(&mut self, caller: u64, kind: HandleKind, granted: u32) -> u64
        requires room { 1 ≤ self.old.spare.handles }
        requires next { self.old.flat.next.handle < 2 ^ 63 }
        ensures number { result ≡ self.old.flat.next.handle }
        ensures flat { self.new.flat ≡ with_handle self.old.flat caller kind granted }
        ensures limits { self.new.limits ≡ self.old.limits }
    {
        self.handles.add(caller, kind, granted)
    }

    /// The number of the next handle.
    pub fn next_handle(&self) -> u64
        ensures { result ≡ self.now.flat.next.handle }
    {
        self.handles.next()
    }

    /// Takes a handle away.
    pub fn remove_handle(&mut self, number: u64)
        ensures flat { self.new.flat ≡ without_handle self.old.flat number }
        ensures limits { self.new.limits ≡ self.old.limits }
    {
        let _row = self.handles.remove(number);
    }

    /// Takes all handles of a caller away.
    pub fn remove_handles_of(&mut self, caller: u64)
        ensures flat { self.new.flat ≡ without_handles_of self.old.flat caller }
        ensures limits { self.new.limits ≡ self.old.limits }
    {
        self.handles.run_down(caller);
    }

    /// Who holds the lock of the database, and since when.
    pub fn lock(&self) -> Option<LockRow>
        ensures { result ≡ self.now.flat.lock }
    {
        self.lock.holder()
    }

    /// The caller of the handle that holds the lock.
    pub fn owner_at(&self, held: LockRow) -> Option<u64>
        ensures { result ≡ owner_at self.now.flat.handles held }
    {
        self.handles.owner(held.handle)
    }

    /// A handle takes the lock at the present moment, if it is free.
    pub fn take_lock(&mut self, handle: u64)
        ensures flat { self.new.flat ≡ with_lock self.old.flat handle }
        ensures spare { self.new.spare ≡ self.old.spare }
        ensures limits { self.new.limits ≡ self.old.limits }
    {
        let _taken = self.lock.lock(handle, self.moment);
    }

    /// A handle gives the lock back, if it holds it.
    pub fn free_lock(&mut self, handle: u64)
        ensures flat { self.new.flat ≡ without_lock self.old.flat handle }
        ensures limits { self.new.limits ≡ self.old.limits }
    {
        let _freed = self.lock.unlock(handle);
    }

    /// Frees the lock, if a handle of the caller holds it.
    pub fn free_lock_of(&mut self, caller: u64)
        ensures flat { self.new.flat ≡ without_lock_of self.old.flat caller }
        ensures limits { self.new.limits ≡ self.old.limits }
    {
        if is_held_by(&self.handles, caller, self.lock.holder()) {
            self.lock = DatabaseLock::new();
        }
    }

    /// The moment up to which the manager has come, in milliseconds.
    pub fn moment(&self) -> u64
        ensures { result ≡ self.now.flat.moment }
    {
        self.moment
    }

    /// The caller with a number.
    pub fn caller(&self, number: u64) -> Option<Caller>
        ensures { result ≡ caller_of self.now.flat number }
    {
        caller_in(self.callers.as_slice(), number)
    }

    /// Whether a caller is there.
    pub fn is_caller(&self, number: u64) -> bool
        ensures { result ≡ is_caller self.now.flat number }
    {
        self.caller(number).is_some()
    }

    /// Who a caller is. Nobody has a user's rights.
    pub fn principal_of(&self, number: u64) -> Principal
        ensures { result ≡ principal_of self.now.flat number }
    {
        match self.caller(number) {
            Some(row) => row.principal,
            None => Principal::User,
        }
    }

    /// How many callers there are.
    pub fn callers(&self) -> usize
        ensures { result ≡ length self.now.flat.callers }
    {
        self.callers.len()
    }

    /// Makes room for one caller more.
    pub fn reserve_caller(&mut self) -> Result<(), OutOfMemory>
        ensures flat { self.new.flat ≡ self.old.flat }
        ensures room { OnOk result (1 ≤ self.new.spare.callers) }
        ensures limits { self.new.limits ≡ self.old.limits }
        ensures keeps { KeepsRooms self.old self.new }
        ensures needs { self.new.spare.needs ≡ self.old.spare.needs }
    {
        match self.callers.reserve(1) {
            Ok(()) => Ok(()),
            Err(_) => Err(OutOfMemory),
        }
    }

    /// Adds a caller, and answers its number. It takes no memory.
    pub fn add_caller(&mut self, principal: Principal) -> u64
        requires room { 1 ≤ self.old.spare.callers }
        requires next { self.old.flat.next.caller < 2 ^ 63 }
        ensures number { result ≡ self.old.flat.next.caller }
        ensures flat { self.new.flat ≡ with_caller self.old.flat principal }
        ensures limits { self.new.limits ≡ self.old.limits }
    {
        let number = self.next.caller;
        self.callers.push_reserved(Caller { number, principal });
        self.next.caller += 1;
        number
    }

    /// Takes a caller away.
    pub fn remove_caller(&mut self, number: u64)
        ensures flat { self.new.flat ≡ without_caller self.old.flat number }
        ensures limits { self.new.limits ≡ self.old.limits }
    {
        drop_caller_row(&mut self.callers, number);
    }

    /// Moves on to a moment. One in the past changes nothing.
    pub fn move_to(&mut self, moment: u64)
        ensures flat { self.new.flat ≡ with_moment self.old.flat moment }
        ensures spare { self.new.spare ≡ self.old.spare }
        ensures limits { self.new.limits ≡ self.old.limits }
    {
        if self.moment < moment {
            self.moment = moment;
        }
    }

    /// How many services there are.
    pub fn services(&self) -> usize
        ensures { result ≡ length self.now.flat.services }
    {
        self.services.len()
    }

    /// The services, in order of number.
    pub fn rows(&self) -> Services<'_>
        ensures items { result ≡ self.now.flat.services }
        ensures small { length self.now.flat.services < 2 ^ 63 }
    {
        self.services.iter()
    }

    /// How many services are RUNNING.
    pub fn running(&self) -> usize
        ensures { result ≡ length (filter (λ row. row.status.state == SERVICE_RUNNING)
            self.now.flat.services) }
    {
        running_in(&self.services)
    }

    /// The service with a number.
    pub fn service(&self, number: u64) -> Option<&Service>
        ensures { option_copied result ≡ service_of self.now.flat number }
    {
        self.services.get(number)
    }

    /// The name of the service with a number. It has at most 256 units.
    pub fn name_of(&self, service: u64) -> Option<&WText>
        ensures name { option_map (λ name. name.now) result
            ≡ option_map (λ row. row.config.name) (service_of self.now.flat service) }
        ensures short { IfSome result (λ name. length name.now ≤ 256) }
    {
        match self.services.get(service) {
            Some(row) => Some(&row.config.name),
            None => None,
        }
    }

    /// The service at a place.
    pub fn row_at(&self, place: usize) -> Option<&Service>
        ensures row { option_copied result ≡ slice_get self.now.flat.services place }
        ensures found { IfSome (option_copied result) (λ row. service_of self.now.flat row.number
            ≡ Some row) }
    {
        self.services.at(place)
    }

    /// The service with the same name.
    pub fn named(&self, name: &WText) -> Option<&Service>
        ensures { option_copied result ≡ named self.now.flat name.now }
    {
        named_in(&self.services, name)
    }

    /// The service with the same name, and that its security descriptor is a written one, or none.
    pub fn named_secured(&self, name: &WText) -> Option<&Service>
        ensures row { option_copied result ≡ named self.now.flat name.now }
        ensures secured { IfSome (option_copied result) IsSecured }
    {
        named_in(&self.services, name)
    }

    /// The service that a caller's handle is of, and that its security descriptor is a written one,
    /// or none.
    pub fn held_secured(&self, caller: u64, number: u64) -> Option<&Service>
        ensures row { option_copied result ≡ held_service self.now.flat caller number }
        ensures secured { IfSome (option_copied result) IsSecured }
    {
        let opened = self.opened(caller, number);
        row_in(&self.services, opened)
    }

    /// The service with the same display name.
    pub fn displayed(&self, display: &WText) -> Option<&Service>
        ensures { option_copied result ≡ displayed self.now.flat display.now }
    {
        displayed_in(&self.services, display)
    }

    /// Whether a text is the same as the name or the display name of another service.
    pub fn is_shown_by_another(&self, number: u64, text: &WText) -> bool
        ensures { result ≡ is_shown_by_another self.now.flat number text.now }
    {
        is_shown_by_another_in(&self.services, number, text)
    }

    /// Whether a text is the same as the name or the display name of a service.
    pub fn is_shown(&self, text: &WText) -> bool
        ensures { result ≡ is_shown self.now.flat text.now }
    {
        is_shown_in(&self.services, text)
    }

    /// The tag of a service more in a group.
    pub fn next_tag(&self, group: &WText) -> u32
        ensures { result ≡ next_tag self.now.flat group.now }
    {
        let greatest = self.greatest_tag(self.services.members(group));
        greatest.saturating_add(1)
    }

    #[tactic(auto, using(crate::proofs::Placed::both_free))]
    /// Makes room for one service more, and for what becomes due of it.
    pub fn reserve_service(&mut self) -> Result<(), OutOfMemory>
        ensures flat { self.new.flat ≡ self.old.flat }
        ensures room { OnOk result (1 ≤ self.new.spare.services) }
        ensures others { self.new.spare.handles ≡ self.old.spare.handles }
        ensures limits { self.new.limits ≡ self.old.limits }
        ensures keeps { KeepsRooms self.old self.new }
        ensures needs { self.new.spare.needs ≡ self.old.spare.needs }
    {
        self.reserve_dues(1)?;
        self.leaving.reserve(self.services.len() + 1)?;
        reserve_search(&mut self.searched, self.services.len())
    }

    /// Makes room for the texts and the needs of a service that gets this configuration, in place
    /// of what was made for another. Where there is no memory, that stays.
    pub fn reserve_needs(&mut self, config: &Config) -> Result<(), OutOfMemory>
        ensures flat { self.new.flat ≡ self.old.flat }
        ensures room { OnOk result (HasNeedRoom self.new.spare config.now) }
        ensures others { (self.new.spare.services ≡ self.old.spare.services)
            × (self.new.spare.handles ≡ self.old.spare.handles) }
        ensures limits { self.new.limits ≡ self.old.limits }
        ensures err { OnErr result (self.new.spare.needs ≡ self.old.spare.needs) }
        ensures keeps { KeepsRooms self.old self.new }
    {
        reserve_both(&mut self.index, &mut self.services, self.alloc, config)
    }

    /// Adds a service, and answers its number; the manager's registrations are notified. It takes
    /// no memory.
    pub fn add_service(&mut self, config: Config, status: Status) -> u64
        requires room { 1 ≤ self.old.spare.services }
        requires next { self.old.flat.next.service < 2 ^ 63 }
        requires texts { HasShortTexts config }
        requires needs { HasNeedRoom self.old.spare config }
        ensures number { result ≡ self.old.flat.next.service }
        ensures flat { self.new.flat ≡ with_creation self.old.flat config status }
        ensures others { self.new.spare.handles ≡ self.old.spare.handles }
        ensures limits { self.new.limits ≡ self.old.limits }
    {
        self.registrations.note(0, SERVICE_NOTIFY_CREATED, with_pid(status, 0), &config.name);
        self.put_service(config, status)
    }

    /// Adds a service without notifying any registration, and answers its number.
    fn put_service(&mut self, config: Config, status: Status) -> u64
        requires room { 1 ≤ self.old.spare.services }
        requires next { self.old.flat.next.service < 2 ^ 63 }
        requires texts { HasShortTexts config }
        requires needs { HasNeedRoom self.old.spare config }
        ensures number { result ≡ self.old.flat.next.service }
        ensures flat { self.new.flat ≡ with_service self.old.flat config status }
        ensures others { self.new.spare.handles ≡ self.old.spare.handles }
        ensures limits { self.new.limits ≡ self.old.limits }
    {
        let number = self.next.service;
        self.acyclic = stays_acyclic(
            &self.index,
            self.acyclic,
            number,
            &config,
            &mut self.searched,
        );
        self.index
            .set_needs(number, &config.name, &config.group, &config.needs);
        let security = Items::new(self.alloc);
        self.services.insert(Service {
            number,
            config,
            status,
            marked: false,
            process: 0,
            failures: 0,
            last_failure: 0,
            asked: false,
            security,
        });
        self.next.service += 1;
        number
    }

    /// Gives a service another configuration. It takes no memory.
    pub fn configure(&mut self, number: u64, config: Config)
        requires texts { HasShortTexts config }
        requires needs { HasNeedRoom self.old.spare config }
        ensures flat { self.new.flat ≡ reconfigured self.old.flat number config }
        ensures limits { self.new.limits ≡ self.old.limits }
    {
        self.acyclic = stays_acyclic(
            &self.index,
            self.acyclic,
            number,
            &config,
            &mut self.searched,
        );
        change_needs(&mut self.index, number, &config);
        configure_in(&mut self.services, number, config);
    }

    /// Gives the service with a number another security descriptor. Where no service has the number
    /// nothing changes. It takes no memory.
    pub fn set_security(&mut self, number: u64, security: Items<u8>)
        requires { IsWritten security }
        ensures flat { self.new.flat ≡ with_security self.old.flat number security }
        ensures limits { self.new.limits ≡ self.old.limits }
    {
        secure_in(&mut self.services, number, security);
    }

    /// Marks a service, if it is there; its registrations are notified.
    pub fn mark(&mut self, service: u64)
        ensures flat { self.new.flat ≡ with_marked self.old.flat service }
        ensures limits { self.new.limits ≡ self.old.limits }
    {
        let Some(row) = self.services.get(service) else {
            return;
        };
        let number = row.number;
        note_mark(&mut self.registrations, Some(row), &self.processes);
        let _told = self.leaving.mark(number);
        mark_in(&mut self.services, number);
    }

    /// Lets the first service go that is marked, STOPPED and named by no handle; the manager's
    /// registrations are notified. False if there is none.
    fn let_one_go(&mut self) -> bool
        ensures rest { purged self.new.flat ≡ purged self.old.flat }
        ensures none { IsFalse result → self.new.flat ≡ purged self.old.flat }
        ensures fewer { IsTrue result → length self.new.flat.services < length
            self.old.flat.services }
        ensures limits { self.new.limits ≡ self.old.limits }
    {
        let marked = Marked {
            services: &self.services,
            handles: &self.handles,
        };
        let Some(number) = self.leaving.purge(&marked) else {
            return false;
        };
        note_leaving(&mut self.registrations, self.services.get(number));
        let _gone = self.services.remove(number);
        self.index.drop_service(number);
        true
    }

    /// Lets each service go that is marked, STOPPED and named by no handle; the manager's
    /// registrations are notified. It looks at marked services alone.
    pub fn purge(&mut self)
        ensures flat { self.new.flat ≡ purged self.old.flat }
        ensures limits { self.new.limits ≡ self.old.limits }
    {
        while self.let_one_go() {}
    }
}
