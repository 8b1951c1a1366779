//! How the processes of services are started: the words of their command lines, and what starts a
//! program.
#![tactic(auto)]

mod commands;
mod memory;
mod quitting;
mod spawning;
mod system;

pub use commands::{paths_name_programs, split_command};
pub use memory::MemorySpawner;
pub use quitting::{NoQuit, Quit};
pub use spawning::{SpawnFault, SpawnFaults, Spawned, Spawner};
pub use system::ProcessSpawner;
