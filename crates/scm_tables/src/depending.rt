ghost use Rattle.std.specs.Prelude.{◌≡◌, ◌≤◌, [], length, not, IfOk, IsTrue};
ghost use Rattle.scm_model.specs.Needs.{needs_of};
ghost use Rattle.scm_model.specs.Order.{is_cyclic};
ghost use Rattle.scm_model.specs.Walks.{IsAcyclic};
ghost use Rattle.scm_rules.specs.EnumDependents.{stop_order};

use super::tables::Tables;
use dependency_index::{DependencyIndex, Graph, has_cycle};
use scm_text::{Buffer, Items, OutOfMemory};
use std::alloc::Global;

/// Whether needs have a cycle.
fn is_cyclic(index: &DependencyIndex, room: &mut Buffer<u64>) -> bool
    requires empty { room.old.items ≡ [] }
    requires room { length index.now.rows ≤ room.old.room }
    ensures { result ≡ is_cyclic index.now.rows }
{
    has_cycle(&Graph::of(index), room)
}

/// Whether needs have no cycle. They are looked through where that isn't known.
#[tactic(auto, using(crate::proofs::NeedRows::cyclic_not))]
fn has_no_cycle(index: &DependencyIndex, acyclic: bool, alloc: Global) -> Result<bool, OutOfMemory>
    requires { IsTrue acyclic → IsAcyclic (needs_of index.now.rows) }
    ensures told { IfOk result (λ free. free ≡ not (is_cyclic index.now.rows)) }
    ensures free { IfOk result (λ free. IsTrue free → IsAcyclic (needs_of index.now.rows)) }
{
    if acyclic {
        return Ok(true);
    }
    let mut room = Buffer::with_room(alloc, index.len())?;
    Ok(!is_cyclic(index, &mut room))
}

impl Tables {
    /// The dependents of a service, by number, in the order in which they are stopped.
    pub fn stop_order(&self, target: u64, alloc: Global) -> Result<Items<u64>, OutOfMemory>
        ensures { IfOk result (λ order. order ≡ stop_order self.now.flat target) }
    {
        if !has_no_cycle(&self.index, self.acyclic, alloc)? {
            return Ok(Items::new(alloc));
        }
        let mut room = Buffer::with_room(alloc, self.index.len())?;
        self.index.dependents(target, &mut room);
        Ok(Items::from_vec(room.into_vec()))
    }
}
