//! Lines of calls on configurations, as in `scm_calls`: `RChangeServiceConfigW`, `RCreateServiceW`,
//! `RQueryServiceConfigW`, `RChangeServiceConfig2W` and `RQueryServiceConfig2W` of MS-SCMR.
#![tactic(auto)]

mod calls;
mod requests;

pub use calls::{Call, call_at, call_of, reply_kind};
pub use requests::{put_request, request_of, request_of_handle_body, request_shape};
