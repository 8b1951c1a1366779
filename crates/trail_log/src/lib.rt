//! A trail's codes go to a log, segment after segment, and what went there is let go. What the log
//! holds and then what it lacks are the same bytes at each moment, whatever the log takes or
//! refuses.
#![tactic(auto)]

mod laws;
mod recorder;
mod recording;
mod standing;

pub use laws::a_log_is_a_front;
pub use recorder::{Mode, RecordEnd, Recorder};
pub use recording::record;
pub use standing::{write_log, write_segment};
