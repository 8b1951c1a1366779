//! Lines of calls, each of which says what stands in the bodies of a call: `RCloseServiceHandle`,
//! `RControlService`, `RDeleteService`, `RLockServiceDatabase`, `RQueryServiceStatus`,
//! `RSetServiceStatus`, `RUnlockServiceDatabase`, `ROpenSCManagerW`, `ROpenServiceW`,
//! `RQueryServiceLockStatusW`, `RStartServiceW`, `RGetServiceDisplayNameW` and
//! `RGetServiceKeyNameW` of MS-SCMR. Those of replies of every kind are here too, with how long
//! each can be. Bodies are read and written by them in `scm_bodies`. The bodies of the trigger
//! interface's one method are read and written here.
#![tactic(auto)]

mod calls;
mod kinds;
mod raises;
mod replies;

pub use calls::{
    Call, call_at, call_of, put_request, reply_kind, request_of, request_of_handle_body,
    request_shape,
};
pub use kinds::ReplyKind;
pub use raises::{
    RAISE, RAISE_REPLY_BYTES, SUBTYPE_BYTES, read_raise, read_raise_reply, write_raise,
    write_raise_reply,
};
pub use replies::{asked_size, longest, put_reply, reply_of, reply_shape};
