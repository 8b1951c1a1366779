/// How the making of the list and the printing of its summary ended.
#[derive(Clone, Copy, PartialEq, Eq)]
pub enum Generated {
    /// All steps were made, and the summary is written.
    Ended,
    /// The sink failed.
    WriteFault,
    /// There is no memory for a step or for the summary.
    OutOfMemory,
}
