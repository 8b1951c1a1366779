//! Reads and writes the bodies of every call of svcctl that is served. Only this crate knows which
//! crate has the bodies of a call.
#![tactic(auto)]

mod bodies;

pub use bodies::{
    Call, call_at, call_of, read_reply, read_request, read_request_by, reply_bound, write_reply,
    write_request,
};
