//! Enumerations of the service manager's services, and of one the status with its process and the
//! levels of its configuration. They only read, and each makes its whole reply.
#![tactic(auto)]

mod byte_replies;
mod dependents;
mod levels;
mod replying;
mod services;
mod stating;
mod status;

pub use byte_replies::{bytes_reply, no_bytes};
pub use dependents::enum_dependents;
pub use levels::query_config2;
pub use services::enum_services;
pub use status::query_status_ex;
