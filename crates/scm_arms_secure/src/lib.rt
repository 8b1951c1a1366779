//! The service manager's calls on security descriptors. What a call needs is read and made before
//! its step: the step itself reads no descriptor and takes no memory.
#![tactic(auto)]

mod descriptors;
mod querying;
mod setting;

pub use descriptors::descriptor_in;
pub use querying::query_security;
pub use setting::{asked_security, set_security, set_security_verdict};
