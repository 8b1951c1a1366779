//! What is granted of the rights that a caller asks for when it opens a handle, by the rules of
//! this service manager.
#![tactic(auto)]

mod granting;
mod mask;

pub use granting::{granted, map_generic};
pub use mask::AccessMask;
