ghost use Rattle.std.specs.Prelude.{◌≡◌, ◌≤◌, ◌<◌, ◌+◌, ℕ, List, Option, Some, IfOk, IfSome};
ghost use Rattle.std.specs.Prelude.{IsSome};
ghost use Rattle.outside.specs.Causes.{HasCause, Rose};
ghost use Rattle.outside.specs.Written.{IsFresh};
ghost use Rattle.sc_dial.specs.Connections.{PastConnection, with_past};

use outside::{Failed, Sink, Source};

/// The two ends of a connection.
#[derive(Drop)]
pub struct Connection<I: Source, O: Sink> {
    pub input: I,
    pub output: O,
}

/// What makes connections, and takes them back.
pub trait Dialer {
    type In: Source;

    type Out: Sink;

    /// What the peer of the next connection sends, where the dialer tells.
    ghost next: { Self → Option (List ℕ) };

    /// Where the connection was dialled to that isn't given back, where the dialer tells.
    ghost dialled: { Self → Option (List ℕ) };

    /// The connections that were given back, where the dialer tells.
    ghost past: { Self → Option (List PastConnection) };

    /// How often it failed, the ends of its connections included.
    ghost faults: { Self → ℕ };

    /// Makes a connection to an address, as `127.0.0.1:4000`, of which nothing is read or written
    /// yet.
    fn dial(&mut self, address: &str) -> Result<Connection<Self::In, Self::Out>, Failed>
        ensures left { IfOk result (λ c. Self.In.left c.input ≡ next self.old) }
        ensures unwritten { IfOk result (λ c. IsFresh (next self.old) (Self.Out.held c.output)) }
        ensures input { IfOk result (λ c. Self.In.faults c.input ≡ 0) }
        ensures output { IfOk result (λ c. Self.Out.faults c.output ≡ 0) }
        ensures dialled { IfOk result (λ _. IfSome (past self.old)
            (λ _. dialled self.new ≡ Some address.now)) }
        ensures past { past self.new ≡ past self.old }
        ensures cause { HasCause (faults self.old) (faults self.new) result };

    /// Takes a connection back and ends it.
    fn close(&mut self, input: Self::In, output: Self::Out)
        requires dialled { IfSome (past self.old) (λ _. IsSome (dialled self.old)) }
        ensures past { past self.new ≡ with_past (past self.old)
            (dialled self.old) (Self.In.left input) (Self.Out.held output) }
        ensures well { Self.In.faults input ≡ 0 → Self.Out.faults output ≡ 0
            → faults self.new ≡ faults self.old }
        ensures failed { 0 < Self.In.faults input + Self.Out.faults output
            → Rose (faults self.old) (faults self.new) }
        ensures grows { faults self.old ≤ faults self.new };
}
