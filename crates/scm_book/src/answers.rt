// What the calls of the book answer.
use crate::fault::MakeFault;
use crate::pass::Pass;
use scm_model::Reply;

/// Why a caller doesn't join.
#[derive(Clone, Copy, Drop, PartialEq, Eq)]
pub enum JoinFault {
    /// There are as many callers as there may be.
    TooMany,
    /// There is no room or no memory for the step.
    Unmade(MakeFault),
}

/// A pass that didn't become a caller's, and why.
#[derive(Drop)]
pub struct NotJoined {
    pub fault: JoinFault,
    pub root: Pass,
}

/// The outcome of a call.
#[derive(Drop)]
pub enum CallEnd {
    /// It was made. Where there was no memory for its effect, this is its refusal with 8.
    Answered(Reply),
    /// The limits have no room for it, or the history has no memory for an entry.
    Unmade(MakeFault),
}

/// The outcome of the begin of a start.
#[derive(Drop)]
pub enum StartEnd {
    /// It was decided at once. Where there was no memory for its effect, this is its refusal with
    /// 8.
    Answered(Reply),
    /// It waits, under the number of its plan.
    Waiting(u64),
    /// The limits have no room for it, or the history has no memory for an entry.
    Unmade(MakeFault),
}

/// The outcome of a look at a start that waits.
#[derive(Drop)]
pub enum EndLook {
    /// It was decided, and this is its answer.
    Done(Reply),
    /// It is undecided. No step was made.
    Again,
}
