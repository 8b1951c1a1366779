/// Why no line is read any more.
#[derive(Clone, Copy, PartialEq, Eq)]
pub enum Stop {
    /// The line of this number is the first wrong one.
    Wrong(u64),
    /// There is no memory for what comes next.
    OutOfMemory,
}
