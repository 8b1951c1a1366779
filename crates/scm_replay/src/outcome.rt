ghost use Rattle.std.specs.Prelude.{◌≡◌};
ghost use Rattle.scm_replay.specs.Outcomes.{goes_on};

use super::missed::Missed;
use scm_model::{Answer, Order};

/// What a line results in.
pub enum Outcome {
    /// Its step was made, and took no order.
    Answered(Answer),
    /// Its step took an order of a process that was shared or not.
    Handed { order: Order, shared: bool },
    /// Its step only looks, and didn't find this. No step was made.
    InVain(Missed),
    /// As many callers are there as may be. No step was made.
    TooMany,
    /// The limits have no room for its step and what it may make owed. No step was made.
    Full,
    /// It is no line, or its step may not come. No step was made.
    Bad,
}

/// A drop of its own: what owns one, or puts another in its place, drops it by a call, which is
/// proved once.
impl Drop for Outcome {
    fn drop(self) {
        match self {
            Outcome::Answered(answer) => drop(answer),
            Outcome::Handed {
                order: _,
                shared: _,
            } => {}
            Outcome::InVain(_) | Outcome::TooMany | Outcome::Full | Outcome::Bad => {}
        }
    }
}

impl Outcome {
    /// Whether lines after it are read.
    pub fn goes_on(&self) -> bool
        ensures { result ≡ goes_on self.now }
    {
        match self {
            Outcome::Answered(_)
            | Outcome::Handed { .. }
            | Outcome::InVain(_)
            | Outcome::TooMany
            | Outcome::Full => true,
            Outcome::Bad => false,
        }
    }
}
