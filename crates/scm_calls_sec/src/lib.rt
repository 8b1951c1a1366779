//! Lines of calls that read and set a service's security descriptor, as in `scm_calls`:
//! `RQueryServiceObjectSecurity` and `RSetServiceObjectSecurity` of MS-SCMR.
#![tactic(auto)]

mod calls;
mod requests;

pub use calls::{Call, call_at, call_of, reply_kind};
pub use requests::{put_request, request_of, request_of_handle_body, request_shape};
