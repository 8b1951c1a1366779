/// One end of a connection, with the connection's number.
#[derive(Drop)]
pub struct Numbered<E> {
    /// How many connections the listener had handed out before this one.
    pub number: u64,
    pub end: E,
}

/// The outcome of an accept.
#[derive(Drop)]
pub enum Accepted<I, O> {
    /// A connection came. These are its ends.
    Conn(Numbered<I>, Numbered<O>),
    /// None comes any more.
    Closed,
    /// The listener failed.
    Failed,
}
