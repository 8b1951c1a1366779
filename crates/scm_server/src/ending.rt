/// How serving ended.
#[derive(Clone, Copy, PartialEq, Eq)]
pub enum ServeEnd {
    /// The listener closed.
    Ended,
    /// The listener failed.
    ListenFault,
    /// There was no memory for a connection.
    OutOfMemory,
}
