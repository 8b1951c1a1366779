ghost use Rattle.std.specs.Prelude.{ℕ, Bool, ◌≡◌, ◌+◌, ◌≤◌, [], true, false, find, length, OnOk};
ghost use Rattle.std.specs.Prelude.{Ok};
ghost use Rattle.std.specs.Prelude.{Err, if◌then◌else◌};
ghost use Rattle.number_lists.specs.Rising.{AreRising, with_number};
ghost use Rattle.marked_delete.specs.Left.{left};
ghost use Rattle.scm_model.specs.declared.codes.TheConstants.{ERROR_SERVICE_MARKED_FOR_DELETE};
ghost use Rattle.scm_text.specs.Numbers.{has};

use number_lists::Numbers;
use scm_model::codes::ERROR_SERVICE_MARKED_FOR_DELETE;
use scm_text::OutOfMemory;
use std::alloc::Global;
use std::marker::Model;

/// Tells of a marked service whether it may leave.
pub trait Free {
    ghost ready: { Self → Type 0 };

    ghost free: { Self → ℕ → Bool };

    fn is_free(&self, service: u64) -> bool
        requires { ready self.now }
        ensures { result ≡ free self.now service };
}

/// The numbers of marked services. Contracts see them in rising order, each once, and for how many
/// more there is room.
#[derive(Drop)]
pub struct Leaving {
    marked: Numbers,
}

impl Model for Leaving {
    ghost use Rattle.std.specs.Prelude.{ℕ};
    ghost use Rattle.scm_text.specs.Roomed.{Roomed};

    ghost Value = { Roomed ℕ };

    ghost view = { λ l. l.marked };
}

/// The first of some services that may leave.
fn first_free<F: Free>(services: &[u64], who: &F) -> Option<u64>
    requires { F.ready who.now }
    ensures { result ≡ find (F.free who.now) services.now }
{
    for service in services {
        if who.is_free(*service) {
            return Some(*service);
        }
    }
    None
}

impl Leaving {
    /// No service is marked, which takes no memory.
    pub fn new(alloc: Global) -> Self
        ensures { result ≡ record { items = []; room = 0 } }
    {
        Leaving {
            marked: Numbers::new(alloc),
        }
    }

    /// The numbers of the marked services, rising.
    pub fn as_slice(&self) -> &[u64]
        ensures items { result.now ≡ self.now.items }
        ensures rising { AreRising self.now.items }
    {
        self.marked.as_slice()
    }

    /// Makes room for so many services more.
    pub fn reserve(&mut self, more: usize) -> Result<(), OutOfMemory>
        ensures items { self.new.items ≡ self.old.items }
        ensures ok { OnOk result (more ≤ self.new.room) }
        ensures room { self.old.room ≤ self.new.room }
    {
        self.marked.reserve_for(more)
    }

    /// Marks a service, or answers that it is marked. It takes no memory.
    pub fn mark(&mut self, service: u64) -> Result<(), u32>
        requires { has self.old.items service ≡ false → 1 ≤ self.old.room }
        ensures told { result ≡ (if has self.old.items service
            then Err ERROR_SERVICE_MARKED_FOR_DELETE else Ok tt) }
        ensures items { self.new.items ≡ with_number self.old.items service }
        ensures held { length self.old.items + self.old.room ≤ length self.new.items
            + self.new.room }
    {
        let told = if self.marked.contains(service) {
            Err(ERROR_SERVICE_MARKED_FOR_DELETE)
        } else {
            Ok(())
        };
        self.marked.add(service);
        told
    }

    /// Takes the least service out that may leave, if there is one. It takes no memory.
    pub fn purge<F: Free>(&mut self, who: &F) -> Option<u64>
        requires { F.ready who.now }
        ensures first { result ≡ find (F.free who.now) self.old.items }
        ensures items { self.new.items ≡ left result self.old.items }
        ensures held { length self.old.items + self.old.room ≤ length self.new.items
            + self.new.room }
    {
        let service = first_free(self.marked.as_slice(), who)?;
        self.marked.remove(service);
        Some(service)
    }
}
