ghost use Rattle.std.specs.Prelude.{◌≡◌, ◌≤◌, [], length, IfOk, IsSome};
ghost use Rattle.scm_model.specs.Rows.{service_of};
ghost use Rattle.scm_rules.specs.Needs.{makes_cycle, need_rows, start_order};

use super::needing::row_of;
use super::tables::Tables;
use dependency_index::{DependencyIndex, NeedRows, closes_cycle, makes_cycle, order_of};
use scm_model::Config;
use scm_text::{Buffer, Items, OutOfMemory};
use std::alloc::Global;

impl Tables {
    /// The number of the next service.
    pub fn next_service(&self) -> u64
        ensures { result ≡ self.now.flat.next.service }
    {
        self.next.service
    }

    /// Which service needs which.
    pub fn index(&self) -> &DependencyIndex
        ensures { result.now.rows ≡ need_rows self.now.flat.services }
    {
        &self.index
    }

    /// Whether the needs would have a cycle if the service with a number had this configuration.
    pub fn makes_cycle(
        &self,
        number: u64,
        config: &Config,
        alloc: Global,
    ) -> Result<bool, OutOfMemory>
        ensures { IfOk result (λ cyclic. cyclic ≡ makes_cycle self.now.flat number config.now) }
    {
        let mut room = Buffer::with_room(alloc, self.index.size() + 1)?;
        let new = row_of(number, config);
        if self.acyclic {
            Ok(closes_cycle(&self.index, new, &mut room))
        } else {
            Ok(makes_cycle(&self.index, new, &mut room))
        }
    }

    /// Writes the services to start for a service, by number: each after what it needs, and none
    /// that is RUNNING. It takes no memory.
    pub(crate) fn write_start_order(&self, target: u64, room: &mut Buffer<u64>)
        requires listed { IsSome (service_of self.now.flat target) }
        requires empty { room.old.items ≡ [] }
        requires room { length self.now.flat.services ≤ room.old.room }
        ensures order { room.new.items ≡ start_order self.now.flat target }
        ensures few { length room.new.items ≤ length self.now.flat.services }
    {
        order_of(&self.index, target, self, room);
    }

    /// The services to start for a service, by number: each after what it needs, and none that is
    /// RUNNING.
    pub fn start_order(&self, target: u64, alloc: Global) -> Result<Items<u64>, OutOfMemory>
        requires { IsSome (service_of self.now.flat target) }
        ensures order { IfOk result (λ order. order ≡ start_order self.now.flat target) }
        ensures few { IfOk result (λ order. length order ≤ length self.now.flat.services) }
    {
        let mut room = Buffer::with_room(alloc, self.services.len())?;
        self.write_start_order(target, &mut room);
        Ok(Items::from_vec(room.into_vec()))
    }
}
