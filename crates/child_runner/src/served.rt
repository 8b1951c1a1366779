use scm_book::Spent;

/// How the serving of a child ended.
#[derive(Clone, Copy)]
pub enum ChildServed {
    /// Its output ended, and all reports of it were made.
    Ended,
    /// A read failed, or the wait for its end.
    ReadFault,
    /// There was no room for the next report.
    Full,
    /// As many bytes were read as a child may have.
    Worn,
    /// There was no memory for the next report, or for a line.
    OutOfMemory,
}

/// How the serving of a child ended, and its spent pass.
#[derive(Drop)]
pub struct ChildEnded {
    pub how: ChildServed,
    pub spent: Spent,
}
