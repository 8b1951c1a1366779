//! The lists of the service manager: the one set of reads and writes through which its calls reach
//! them.
#![tactic(auto)]

mod caller_rows;
mod depending;
mod due_rows;
mod failing;
mod firing;
mod hosting;
mod indexing;
mod lines;
mod looking;
mod needing;
mod noticing;
mod opening;
mod planning;
mod process_rows;
mod processes;
mod registering;
mod rooms;
mod running;
mod service_rows;
mod settling;
mod tables;
mod turning;

ghost use Rattle.std.specs.Prelude.{◌≡◌, option_copied};
ghost use Rattle.scm_rules.specs.Delete.{is_marked};
ghost use Rattle.scm_rules.specs.Rights.{mask_lacks};

pub use noticing::with_pid;
pub use running::status_in;
use scm_model::Service;
pub use tables::Tables;

/// Whether a service that is there is marked.
pub fn is_marked(service: Option<&Service>) -> bool
    ensures { result ≡ is_marked (option_copied service.entry) }
{
    match service {
        Some(row) => row.marked,
        None => false,
    }
}

/// Whether a mask lacks one of the rights.
pub fn mask_lacks(mask: u32, rights: u32) -> bool
    ensures { result ≡ mask_lacks mask rights }
{
    mask & rights != rights
}
