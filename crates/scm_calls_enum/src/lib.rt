//! Lines of calls that list services and tell of what happens to them, as in `scm_calls`:
//! `REnumDependentServicesW`, `REnumServicesStatusW` and `RQueryServiceStatusEx` of MS-SCMR, and
//! `RNotifyServiceStatusChange`, `RGetNotifyResults` and `RCloseNotifyHandle`, whose bodies are
//! this project's own.
#![tactic(auto)]

mod calls;
mod requests;

pub use calls::{Call, call_at, call_of, reply_kind};
pub use requests::{put_request, request_of, request_of_handle_body, request_shape};
