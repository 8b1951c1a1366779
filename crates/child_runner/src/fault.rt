ghost use Rattle.std.specs.Prelude.{◌≡◌, ◌≢◌};
ghost use Rattle.child_runner.specs.Launches.{fault_code};

use process_runner::SpawnFault;
use scm_model::codes::{
    ERROR_ACCESS_DENIED, ERROR_FILE_NOT_FOUND, ERROR_GEN_FAILURE, ERROR_NOT_ENOUGH_MEMORY,
    ERROR_PATH_NOT_FOUND,
};

/// Why a process whose launch was taken wasn't launched.
#[derive(Clone, Copy)]
pub enum LaunchFault {
    /// The spawner failed so.
    Spawn(SpawnFault),
    /// There was no memory for the words, and the spawner wasn't asked.
    OutOfMemory,
}

impl LaunchFault {
    /// The error that is reported to the manager.
    pub fn code(self) -> u32
        ensures code { result ≡ fault_code self }
        ensures error { result ≢ 0 }
    {
        match self {
            LaunchFault::Spawn(SpawnFault::NotFound) => ERROR_FILE_NOT_FOUND,
            LaunchFault::Spawn(SpawnFault::NoPath) => ERROR_PATH_NOT_FOUND,
            LaunchFault::Spawn(SpawnFault::Denied) => ERROR_ACCESS_DENIED,
            LaunchFault::Spawn(SpawnFault::Other) => ERROR_GEN_FAILURE,
            LaunchFault::OutOfMemory => ERROR_NOT_ENOUGH_MEMORY,
        }
    }
}
