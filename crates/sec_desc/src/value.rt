use scm_text::Items;
use thiserror::Error;

/// The identity of a user or a group (MS-DTYP, 2.4.2): S-1-5-32-544 has the authority 5, in six
/// bytes with the lowest last, and the parts 32 and 544.
#[derive(Drop)]
pub struct Sid {
    pub authority: [u8; 6],
    /// Sub-authorities, at most 15.
    pub parts: Items<u32>,
}

/// An entry of a list: it allows or denies an identity the rights of its mask.
#[derive(Drop)]
pub struct Ace {
    pub deny: bool,
    /// Bits of `AceFlags`, of which the rules of access look at `INHERIT_ONLY_ACE` alone.
    pub flags: u8,
    pub mask: u32,
    pub sid: Sid,
}

/// A security descriptor without an auditing list.
#[derive(Drop)]
pub struct Descriptor {
    pub owner: Option<Sid>,
    pub group: Option<Sid>,
    /// The access list's entries in order. Without a list everything is allowed, by an empty one
    /// nothing.
    pub list: Option<Items<Ace>>,
}

/// Why bytes aren't read as a descriptor.
#[derive(Clone, Copy, Debug, PartialEq, Eq, Error)]
pub enum DescFault {
    /// The first item that is wrong begins at this byte. The items are the header, the owner, the
    /// group, the first eight bytes of the list, and its entries.
    #[error("no security descriptor: the item at byte {0} is wrong")]
    Bad(usize),
    #[error("out of memory")]
    OutOfMemory,
}
