/// Why bytes that are there aren't answered on.
#[derive(Clone, Copy, PartialEq, Eq)]
pub enum Stop {
    /// A line is bad, and was answered so.
    BadLine,
    /// The sink failed.
    WriteFault,
    /// There is no memory for what comes next.
    OutOfMemory,
}
