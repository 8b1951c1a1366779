ghost use Rattle.std.specs.Prelude.{◌≡◌, ◌-◌, IsFalse, map, vec_capacity, vec_len};
ghost use Rattle.start_plan.specs.Asleep.{decided_slot, woken};
ghost use Rattle.start_plan.specs.Decided.{aims_at};

use super::row::PlanRow;

/// A plan's row. A plan that sleeps is left alone: the state of its front entry is about to change.
#[derive(Drop)]
pub struct PlanSlot {
    pub row: PlanRow,
    pub is_blocked: bool,
}

impl PlanSlot {
    /// Wakes the plan, where it sleeps for this service.
    pub fn wake(&mut self, service: u64)
        ensures { self.new ≡ woken service self.old }
    {
        if self.is_blocked && self.row.front() == Some(service) {
            self.is_blocked = false;
        }
    }
}

/// Decides the undecided plans with a target.
pub fn decide_in(slots: &mut Vec<PlanSlot>, target: u64, code: u32)
    ensures slots { slots.new.items ≡ map (decided_slot (aims_at target) code) slots.old.items }
    ensures room { vec_capacity slots.new - vec_len slots.new ≡ vec_capacity slots.old - vec_len
        slots.old }
{
    for slot in slots.iter_mut() {
        slot.row.decide_for(target, code);
    }
}
