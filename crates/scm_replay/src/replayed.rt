/// How a run over lines ended.
#[derive(Clone, Copy, PartialEq, Eq)]
pub enum Replayed {
    /// The source ended after a line feed, or at once.
    Ended,
    /// The source failed.
    ReadFault,
    /// The sink failed.
    WriteFault,
    /// The source ended within a line.
    Truncated,
    /// A line is bad, and was answered so.
    BadLine,
    /// As many bytes were read as an input may have.
    Worn,
    /// There is no memory for what comes next.
    OutOfMemory,
}
