ghost use Rattle.std.specs.Prelude.{◌≡◌, ◌+◌, ℕ, List, Option};
ghost use Rattle.outside.specs.Causes.{HasCause};
ghost use Rattle.scm_listener.specs.Accepting.{HasAcceptCause, IfConn, IsNew, Takes, came};
ghost use Rattle.scm_listener.specs.Connections.{PastConnection, and_last, listened_after, past_of};
ghost use Rattle.scm_listener.specs.declared.listener.Listening.{Listening};

use crate::accepted::{Accepted, Numbered};
use outside::{Failed, Sink, Source};

/// Where a listener listens, and how many connections it takes at most.
#[derive(Clone, Copy, Debug, PartialEq, Eq)]
pub struct Listening {
    pub port: u16,
    pub take: Option<u64>,
}

/// What hands out connections, and takes them back once they are past.
pub trait Listener {
    type In: Source + Drop;

    type Out: Sink + Drop;

    type Past: Drop;

    /// What the peers of the connections to come send, the next one first, where the listener
    /// tells.
    ghost left: { Self → Option (List (List ℕ)) };

    /// How many connections it handed out.
    ghost accepted: { Self → ℕ };

    /// The connections that were noted, in order, where the listener tells.
    ghost noted: { Self → Option (List PastConnection) };

    /// Where it listened, in order, where the listener tells.
    ghost listened: { Self → Option (List Listening) };

    /// How often it failed.
    ghost faults: { Self → ℕ };

    /// What a connection that is past tells.
    ghost tells: { Self.Past → PastConnection };

    /// Listens on a port of the loopback, for so many connections, or for as many as come.
    fn listen(&mut self, port: u16, take: Option<u64>) -> Result<(), Failed>
        ensures listened { listened self.new ≡
            listened_after result (listened self.old) (record { port = port; take = take }) }
        ensures left { left self.new ≡ left self.old }
        ensures accepted { accepted self.new ≡ accepted self.old }
        ensures noted { noted self.new ≡ noted self.old }
        ensures cause { HasCause (faults self.old) (faults self.new) result };

    /// Waits until the next connection comes, but not for long. Returns whether an `accept` is to
    /// follow: then one came, or none comes any more. An `accept` may follow in any case, and waits
    /// as long as it has to.
    fn wait_briefly(&mut self) -> bool
        ensures left { left self.new ≡ left self.old }
        ensures accepted { accepted self.new ≡ accepted self.old }
        ensures noted { noted self.new ≡ noted self.old }
        ensures listened { listened self.new ≡ listened self.old }
        ensures faults { faults self.new ≡ faults self.old };

    /// Hands out the next connection, once it comes, with the room for noting it.
    fn accept(&mut self) -> Accepted<Self::In, Self::Out>
        ensures new { IfConn result (λ input output. IsNew (accepted self.old)
            input.number output.number (Self.In.left input.end) (Self.Out.held output.end)
            (Self.In.faults input.end) (Self.Out.faults output.end)) }
        ensures takes { Takes Self.In.left result (left self.old) (left self.new) }
        ensures accepted { accepted self.new ≡ accepted self.old + came result }
        ensures noted { noted self.new ≡ noted self.old }
        ensures listened { listened self.new ≡ listened self.old }
        ensures cause { HasAcceptCause (faults self.old) (faults self.new) result };

    /// Ends a connection. It takes no memory.
    fn end(input: Numbered<Self::In>, output: Numbered<Self::Out>) -> Self::Past
        requires { input.number ≡ output.number }
        ensures { tells result ≡ past_of input.number
            (Self.In.left input.end) (Self.Out.held output.end)
            (Self.In.faults input.end) (Self.Out.faults output.end) };

    /// Takes a connection back that is past. It takes no memory.
    fn note(&mut self, past: Self::Past)
        ensures noted { noted self.new ≡ and_last (noted self.old) (tells past) }
        ensures left { left self.new ≡ left self.old }
        ensures accepted { accepted self.new ≡ accepted self.old }
        ensures listened { listened self.new ≡ listened self.old }
        ensures faults { faults self.new ≡ faults self.old };
}
