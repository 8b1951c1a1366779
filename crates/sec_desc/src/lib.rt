//! Security descriptors (MS-DTYP, 2.4.6, in self-relative form) as bytes, both ways: owner, group
//! and access list. Auditing lists are unread and never written.
#![tactic(auto)]

pub mod codes;
mod laws;
mod layout;
mod numbers;
mod reading;
mod value;
mod writing;

pub use laws::{reading_is_exact, written_is_read};
pub use layout::{
    AceHeader, AclHeader, Header, from_place, read_ace_header, read_acl_header, read_header,
};
pub use numbers::has_bits;
pub use reading::read_descriptor;
pub use value::{Ace, DescFault, Descriptor, Sid};
pub use writing::write_descriptor;
