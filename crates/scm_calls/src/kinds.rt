/// A kind of replies, as `Reply` has them.
#[derive(Clone, Copy, Debug, PartialEq, Eq)]
pub enum ReplyKind {
    Code,
    Handle,
    State,
    Made,
    Tag,
    Shown,
    LockState,
    Name,
    Listing,
    Page,
    Bytes,
    Notice,
}
