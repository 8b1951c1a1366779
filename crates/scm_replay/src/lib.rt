//! Steps that are read from lines, made by a manager and answered in lines.
#![tactic(auto)]

mod answers;
mod feeding;
mod looking;
mod making;
mod missed;
mod outcome;
mod replayed;
mod replayer;
mod replaying;
mod stop;

pub use making::{is_shared_by, keep_as, kept_as, makes_room};
pub use replayed::Replayed;
pub use replaying::replay;
