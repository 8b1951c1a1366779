ghost use Rattle.std.specs.Prelude.{◌≡◌};
ghost use Rattle.sc_client.specs.declared.fault.ClientFault.TheVariants as faults;

use scm_text::OutOfMemory;
use thiserror::Error;

/// Why a command didn't get all its answers.
#[derive(Clone, Copy, Debug, PartialEq, Eq, Error)]
pub enum ClientFault {
    #[error("the peer can't be read")]
    ReadFault,
    #[error("the peer can't be written to")]
    WriteFault,
    /// The PDU that begins at this place of the peer's bytes isn't in the formats, or no answer to
    /// what was asked.
    #[error("bad reply at {0}")]
    BadReply(u64),
    /// The peer's bytes end before the last answer.
    #[error("the peer's bytes end early")]
    Truncated,
    #[error("out of memory")]
    OutOfMemory,
}

impl From<OutOfMemory> for ClientFault {
    ghost from_gives = { λ _ e. e ≡ faults.OutOfMemory };

    fn from(_fault: OutOfMemory) -> ClientFault {
        ClientFault::OutOfMemory
    }
}
