/// How a feeding ended.
#[derive(Drop)]
pub enum ReadEnd<S> {
    /// The source ended.
    Ended,
    /// The source failed.
    ReadFault,
    /// As many bytes were read as may be.
    Worn,
    /// The last piece stopped it.
    Stopped(S),
}
