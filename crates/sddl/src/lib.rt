//! Security descriptors as text, both ways, in the language of MS-DTYP, 2.5.1 (SDDL): owner, group
//! and access list.
#![tactic(auto)]

mod fault;
mod laws;
mod numbers;
mod places;
mod reading;
mod sids;
mod tables;
mod writing;

pub use fault::SddlFault;
pub use laws::written_is_read;
pub use reading::read_sddl;
pub use writing::write_sddl;
