ghost use Rattle.std.specs.Prelude.{◌≡◌, ◌<◌, ◌==◌, ◌++◌, ◌∷◌, [], length, drop, take};
ghost use Rattle.std.specs.Prelude.{filter, not, option_to_list};

use arrayvec::ArrayVec;
use scm_model::Order;
use std::marker::Model;

/// The orders that wait for a process, the oldest first: at most 16, in memory of their own.
#[derive(Drop)]
pub struct Controls {
    orders: ArrayVec<Order, 16>,
}

impl Model for Controls {
    ghost use Rattle.std.specs.Prelude.{List};
    ghost use Rattle.scm_model.specs.declared.flat.Order.{Order};

    ghost Value = { List Order };

    ghost view = { λ c. c.orders.items };
}

impl Controls {
    /// None waits.
    pub fn new() -> Self
        ensures { result ≡ [] }
    {
        Controls {
            orders: ArrayVec::new(),
        }
    }

    /// How many wait.
    pub fn len(&self) -> u32
        ensures { result ≡ length self.now }
    {
        self.orders.len() as u32
    }

    /// Whether none waits.
    pub fn is_empty(&self) -> bool
        ensures { result ≡ (length self.now == 0) }
    {
        self.orders.is_empty()
    }

    /// The order that waits first.
    pub fn first(&self) -> Option<Order>
        ensures { option_to_list result ≡ take 1 self.now }
    {
        self.orders.first().copied()
    }

    /// One order more waits. It takes no memory.
    pub fn enqueue(&mut self, order: Order)
        requires { length self.old < 16 }
        ensures { self.new ≡ self.old ++ order ∷ [] }
    {
        self.orders.push(order);
    }

    /// The order that waits first no longer waits; none where none did. It takes no memory.
    pub fn take_next(&mut self) -> Option<Order>
        ensures order { option_to_list result ≡ take 1 self.old }
        ensures others { self.new ≡ drop 1 self.old }
    {
        if self.orders.is_empty() {
            return None;
        }
        Some(self.orders.remove(0))
    }

    /// The orders of a service no longer wait.
    pub fn release(&mut self, service: u64)
        ensures { self.new ≡ filter (λ order. not (order.service == service)) self.old }
    {
        self.orders.retain(|order| order.service != service);
    }
}
