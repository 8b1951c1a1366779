/// What an audit says of a text.
#[derive(Clone, Copy, PartialEq, Eq)]
pub enum Audited {
    /// It is a legal history of so many entries.
    Legal { entries: u64 },
    /// The line of this number is the first wrong one, counted from 1.
    NotLegal { line: u64 },
    /// No line is wrong, and the text ends within one, before a moment or before an answer.
    Truncated,
    /// The source failed. No line before was wrong.
    ReadFault,
    /// As many bytes were read as an input may have. No line of them was wrong.
    Worn,
    /// There is no memory for what comes next.
    OutOfMemory,
}
