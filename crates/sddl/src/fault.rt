use thiserror::Error;

/// Why a text isn't read as a descriptor.
#[derive(Clone, Copy, Debug, PartialEq, Eq, Error)]
pub enum SddlFault {
    /// The first item that is wrong begins at this byte. The items are single characters, pairs of
    /// letters, numbers, and identities; and an entry, if with it the list would have 65,536 bytes.
    #[error("no security descriptor: the item at byte {0} is wrong")]
    Bad(usize),
    #[error("out of memory")]
    OutOfMemory,
}
