//! The stated list of steps for some services, made by a manager, and the summary of a list of
//! steps.
#![tactic(auto)]

mod creating;
mod generated;
mod generating;
mod laws;
mod naming;
mod run;
mod starting;
mod summary;

pub use generated::Generated;
pub use generating::generate;
pub use laws::{law_of_counts, the_list_is_legal};
pub use summary::summary_lines;
