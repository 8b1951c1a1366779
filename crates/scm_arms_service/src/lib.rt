//! The service manager's calls on services.
#![tactic(auto)]

mod changing;
mod changing2;
mod creating;
mod deleting;
mod levels;
mod making;
mod naming;
mod needing;
mod querying;
mod replacing;
mod showing;

pub use changing::{asked_config, change, change_verdict, changed, judged};
pub use changing2::{asked_level, change2, change2_verdict, changed2, judged2};
pub use creating::{create, create_verdict, created};
pub use deleting::{delete, delete_verdict, removed};
pub use making::config_of;
pub use naming::{display_name, key_name};
pub use needing::{are_unreadable, needs_in};
pub use querying::query;
pub use showing::query_config;
