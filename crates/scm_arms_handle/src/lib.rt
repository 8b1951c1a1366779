//! The service manager's calls on handles, and the coming and going of callers.
#![tactic(auto)]

mod callers;
mod closing;
mod databases;
mod lock_states;
mod locking;
mod manager_handles;
mod service_handles;

pub use callers::{join, leave};
pub use closing::{close, close_verdict};
pub use lock_states::{lock_owner, query_lock};
pub use locking::{lock, lock_verdict, unlock, unlock_verdict};
pub use manager_handles::{open_manager, open_manager_verdict};
pub use service_handles::{open_service, open_service_verdict};
