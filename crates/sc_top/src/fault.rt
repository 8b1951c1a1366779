ghost use Rattle.std.specs.Prelude.{◌≡◌};
ghost use Rattle.sc_top.specs.Runs.{command_status, fault_status};

use sc_client::ClientFault;
use sc_words::Failure;
use thiserror::Error;

/// Why a run of the client didn't print its text.
#[derive(Clone, Copy, Debug, PartialEq, Eq, Error)]
pub enum ScFault {
    /// The first argument that doesn't fit, counted from 0, or the count of them if one is missing.
    #[error("argument {0} doesn't fit")]
    Words(usize),
    #[error("an argument isn't UTF-8")]
    Encoding,
    #[error("the manager can't be reached")]
    Dial,
    #[error("{0}")]
    Client(ClientFault),
    #[error("the output can't be written to")]
    Output,
    #[error("out of memory")]
    OutOfMemory,
}

/// The status of a run that didn't print its text.
fn status_of_fault(fault: ScFault) -> u8
    ensures { result ≡ fault_status fault }
{
    match fault {
        ScFault::Words(_) | ScFault::Encoding => 2,
        ScFault::Dial | ScFault::Output => 3,
        ScFault::Client(ClientFault::ReadFault | ClientFault::WriteFault) => 3,
        ScFault::Client(ClientFault::BadReply(_) | ClientFault::Truncated) => 4,
        ScFault::Client(ClientFault::OutOfMemory) | ScFault::OutOfMemory => 8,
    }
}

/// The status of a run, by why a call didn't succeed or why its text wasn't printed.
pub fn status_of(how: Result<Option<Failure>, ScFault>) -> u8
    ensures { result ≡ command_status how }
{
    match how {
        Ok(None) => 0,
        Ok(Some(_)) => 1,
        Err(fault) => status_of_fault(fault),
    }
}
