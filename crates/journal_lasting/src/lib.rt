//! What a crash may leave of a journal, at each moment of a run over it.
#![tactic(auto)]

mod law;

pub use law::{a_run_lasts, what_never_failed_is_left_alone, what_was_kept_stands};
